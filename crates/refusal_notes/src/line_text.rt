//! The text of a note, which is a failing condition. The line of a note begins with a head, which
//! names the section of the note.

ghost use Rattle.std.specs.Prelude.{◌≡◌, ◌++◌, ◌∷◌, [], IfOk, string_bytes, codes, decimal};
ghost use Rattle.support.specs.Pushed.{Pushes};
ghost use Rattle.job_bodies.specs.Plan.{pool_at};
ghost use Rattle.refusal_notes.specs.Line as spec;

use crate::{Note, Section};
use job_bodies::Plan;
use std::alloc::{AllocError, Global};
use support::push_number;
use weights::{Place, Rule};

fn rule_name(rule: Rule) -> &'static str
    ensures { result.now ≡ spec.rule_text rule }
{
    match rule {
        Rule::K1 => "K1",
        Rule::K2 => "K2",
        Rule::K3 => "K3",
        Rule::V2 => "V2",
        Rule::V3 => "V3",
        Rule::V4 => "V4",
        Rule::V5 => "V5",
        Rule::V6 => "V6",
        Rule::V7 => "V7",
        Rule::S1 => "S1",
        Rule::S2 => "S2",
        Rule::L1 => "L1",
        Rule::L2 => "L2",
        Rule::L3 => "L3",
        Rule::L5 => "L5",
        Rule::B1 => "B1",
        Rule::B2 => "B2",
    }
}

fn push_named(text: &mut String, word: &str, name: &str) -> Result<(), AllocError>
    ensures { Pushes result text.old text.new (word.now ++ name.now) }
{
    text.push_str(word)?;
    text.push_str(name)
}

fn push_section(text: &mut String, plan: &Plan, section: Section) -> Result<(), AllocError>
    ensures { Pushes result text.old text.new (spec.section_text plan.now section) }
{
    match section {
        Section::Ranks => text.push_str("ranks"),
        Section::Standing(pool) => push_vector(text, plan, pool, " standing"),
        Section::Lifetime(pool) => push_vector(text, plan, pool, " lifetime"),
        Section::Blocked(pool) => push_vector(text, plan, pool, " blocked"),
    }
}

/// Appends the text for the section of a pool's vector, such as `pool p standing`. `vector` is the
/// end of this text, such as ` standing`.
fn push_vector(text: &mut String, plan: &Plan, pool: usize, vector: &str) -> Result<(), AllocError>
    ensures { Pushes result text.old text.new
        (codes "pool " ++ (pool_at plan.now pool).name ++ vector.now) }
{
    push_named(text, "pool ", plan.pool_name(pool))?;
    text.push_str(vector)
}

fn push_action(text: &mut String, position: usize) -> Result<(), AllocError>
    ensures { Pushes result text.old text.new (codes " action " ++ decimal position) }
{
    text.push_str(" action ")?;
    push_number(text, position as u64)
}

fn push_place(text: &mut String, plan: &Plan, place: Place) -> Result<(), AllocError>
    ensures { Pushes result text.old text.new (spec.place_text plan.now place) }
{
    match place {
        Place::Class(class) => push_named(text, "class ", plan.class_name(class)),
        Place::ClassAction(class, position) => {
            push_named(text, "class ", plan.class_name(class))?;
            push_action(text, position)
        }
        Place::Client(client) => push_named(text, "client ", plan.client_name(client)),
        Place::ClientAction(client, position) => {
            push_named(text, "client ", plan.client_name(client))?;
            push_action(text, position)
        }
        Place::Worker(pool) => push_named(text, "workers ", plan.pool_name(pool)),
        Place::Total => text.push_str("total"),
    }
}

/// Appends the rule of the note and its two sides, such as `B2 1 above 0`.
fn push_sides(text: &mut String, note: &Note) -> Result<(), AllocError>
    ensures { Pushes result text.old text.new
        (spec.rule_text note.now.rule
        ++ codes " "
        ++ decimal note.now.left
        ++ codes " above "
        ++ decimal note.now.right) }
{
    text.push_str(rule_name(note.rule))?;
    text.push_str(" ")?;
    push_number(text, note.left)?;
    text.push_str(" above ")?;
    push_number(text, note.right)
}

fn push_head(text: &mut String, plan: &Plan, section: Section) -> Result<(), AllocError>
    ensures { Pushes result text.old text.new (spec.head plan.now section) }
{
    push_section(text, plan, section)?;
    text.push_str(", ")
}

/// Returns the head of the lines of a section, such as `pool p blocked, `.
pub(crate) fn head_of(alloc: Global, plan: &Plan, section: Section) -> Result<String, AllocError>
    ensures { IfOk result (λ head. string_bytes head ≡ spec.head plan.now section) }
{
    let mut head = String::new(alloc);
    push_head(&mut head, plan, section)?;
    Ok(head)
}

/// Appends the part of the note's line that follows the head, such as `total: B2 1 above 0`.
pub(crate) fn push_condition(text: &mut String, plan: &Plan, note: &Note) -> Result<(), AllocError>
    ensures { Pushes result text.old text.new (spec.condition plan.now note.now) }
{
    push_place(text, plan, note.place)?;
    text.push_str(": ")?;
    push_sides(text, note)
}

/// Appends the line of the note, without its newline.
fn push_note(text: &mut String, plan: &Plan, note: &Note) -> Result<(), AllocError>
    ensures { Pushes result text.old text.new (spec.line plan.now note.now) }
{
    push_head(text, plan, note.section)?;
    push_condition(text, plan, note)
}

/// Appends the line of the note, such as `pool p blocked, total: B2 1 above 0`, and a newline. If
/// the plan does not have the pool, class or client kind of the note, the line has an empty name in
/// its place.
///
/// # Errors
///
/// Returns [`AllocError`] if memory runs out.
pub fn push_line(text: &mut String, plan: &Plan, note: &Note) -> Result<(), AllocError>
    ensures { Pushes result text.old text.new (spec.line plan.now note.now ++ 10 ∷ []) }
{
    push_note(text, plan, note)?;
    text.push('\n')
}

/// Returns the line of the note, without its newline.
///
/// # Errors
///
/// Returns [`AllocError`] if memory runs out.
pub fn line(alloc: Global, note: &Note, plan: &Plan) -> Result<String, AllocError>
    ensures { IfOk result (λ text. string_bytes text ≡ spec.line plan.now note.now) }
{
    let mut text = String::new(alloc);
    push_note(&mut text, plan, note)?;
    Ok(text)
}
