//! The texts of the actions of a body. A class is written as its name. The slot of a submit is
//! named after the position of the submit in the body.

ghost use Rattle.std.specs.Prelude.{◌≡◌, map, IfOk, Some, string_bytes};
ghost use Rattle.toml.specs.View.{view};
ghost use Rattle.plan_text.specs.PlanDocument.{texts_data};
ghost use Rattle.plan_text.specs.Spelling as spec;

use job_bodies::{Action, Class, has_get_of};
use std::alloc::{AllocError, Global};
use std::fmt;
use toml::Value;

/// Returns the name of the class at index `place`, or an empty name if there is no such class.
fn class_name(classes: &[Class], place: usize) -> &str
    ensures { result.now ≡ spec.name_at (map (λ class. class.name) classes.now) place }
{
    match classes.get(place) {
        Some(class) => class.name.as_str(),
        None => "",
    }
}

/// The part of a submit's text that names the slot, such as ` as s2` for the submit at position 2
/// of a body. It is empty if the body has no get of the submit.
#[derive(Clone, Copy)]
struct SlotPart<'a> {
    body: &'a [Action],
    position: usize,
}

impl<'a> fmt::Display for SlotPart<'a> {
    ghost output = { λ slot. Some (spec.slot_part slot.body.now slot.position) };

    fn fmt<W: fmt::Write>(&self, f: &mut fmt::Formatter<W>) -> fmt::Result {
        if has_get_of(self.body, self.position) {
            write!(f, " as s{}", self.position)
        } else {
            Ok(())
        }
    }
}

/// Returns the text of `action`, which is at index `position` in the body.
#[tactic(auto, unfolding(crate::specs::Spelling::action_text))]
fn action_text(
    alloc: Global,
    classes: &[Class],
    body: &[Action],
    position: usize,
    action: Action,
) -> Result<String, AllocError>
    ensures { IfOk result (λ text.
        string_bytes text
        ≡ spec.action_text (map (λ class. class.name) classes.now) body.now position action) }
{
    match action {
        Action::Work(units) => format!(in alloc; "work {units}"),
        Action::Submit(class) => {
            let name = class_name(classes, class);
            let slot = SlotPart { body, position };
            format!(in alloc; "submit {name}{slot}")
        }
        Action::Get(submit) => format!(in alloc; "get s{submit}"),
    }
}

/// Returns the TOML value of a body: an array of the texts of its actions.
pub fn body_value(alloc: Global, classes: &[Class], body: &[Action]) -> Result<Value, AllocError>
    ensures { IfOk result (λ value.
        view value
        ≡ texts_data (spec.body_texts (map (λ class. class.name) classes.now) body.now)) }
{
    let mut texts = Vec::new(alloc);
    for (position, action) in body.iter().enumerate() {
        let text = action_text(alloc, classes, body, position, *action)?;
        texts.push(Value::String(text))?;
    }
    Ok(Value::Array(texts))
}
