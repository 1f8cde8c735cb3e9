//! The text that explains why a certificate does not accept a plan.

ghost use Rattle.std.specs.Prelude.{◌≡◌, ◌+◌, ◌++◌, ◌∷◌, [], IsTrue, IfOk, length};
ghost use Rattle.support.specs.Pushed.{Pushes};
ghost use Rattle.cert_text.specs.Cert.{cert_fits};
ghost use Rattle.soundness.specs.Conditions.{failing};
ghost use Rattle.refusal_notes.specs.Explanation as spec;
ghost use Rattle.refusal_notes.specs.Line as line;

use crate::collect::{push_pool_notes, push_rank_notes};
use crate::line_text::{head_of, push_condition};
use crate::{Note, Section};
use cert_text::Cert;
use job_bodies::Plan;
use std::alloc::{AllocError, Global};

/// Appends a line for each failing condition of the certificate. Then appends a line with the
/// number of these conditions, such as `failing 1`, and returns this number. The certificate must
/// fit the plan.
///
/// To save memory, stores the failing conditions of only one pool at a time.
///
/// # Errors
///
/// Returns [`AllocError`] if memory runs out.
pub fn push_explanation(
    alloc: Global,
    text: &mut String,
    plan: &Plan,
    cert: &Cert,
) -> Result<usize, AllocError>
    requires { IsTrue (cert_fits plan.now cert.now) }
    ensures text { Pushes result text.old text.new
        (spec.explanation plan.now (failing plan.now cert.now)) }
    ensures count { IfOk result (λ count. count ≡ length (failing plan.now cert.now)) }
{
    let count = push_all_lines(alloc, text, plan, cert)?;
    writeln!(text, "failing {count}")?;
    Ok(count)
}

/// Appends a line for each failing condition: first those of the ranks, and then those of each
/// pool. Returns the number of lines.
fn push_all_lines(
    alloc: Global,
    text: &mut String,
    plan: &Plan,
    cert: &Cert,
) -> Result<usize, AllocError>
    requires { IsTrue (cert_fits plan.now cert.now) }
    ensures text { Pushes result text.old text.new
        (spec.lines plan.now (failing plan.now cert.now)) }
    ensures count { IfOk result (λ count. count ≡ length (failing plan.now cert.now)) }
{
    let mut notes = Vec::new(alloc);
    push_rank_notes(alloc, &mut notes, plan, &cert.ranks)?;
    push_lines(alloc, text, plan, notes.as_slice())?;
    let mut count = notes.as_slice().len();
    for (number, pool) in cert.pools.iter().enumerate() {
        notes.clear();
        push_pool_notes(alloc, &mut notes, plan, &cert.ranks, number, pool)?;
        push_lines(alloc, text, plan, notes.as_slice())?;
        count = sum(count, notes.as_slice().len())?;
    }
    Ok(count)
}

/// Returns the sum of both numbers, or `AllocError` if the sum overflows.
fn sum(count: usize, more: usize) -> Result<usize, AllocError>
    ensures { IfOk result (λ sum. sum ≡ count + more) }
{
    count.checked_add(more).ok_or(AllocError)
}

/// Appends a line for each note. A line begins with a *head*, which names the section of its note,
/// such as `pool p blocked, `. The head is formatted only once for consecutive notes of the same
/// section.
fn push_lines(
    alloc: Global,
    text: &mut String,
    plan: &Plan,
    notes: &[Note],
) -> Result<(), AllocError>
    ensures { Pushes result text.old text.new (spec.lines plan.now notes.now) }
{
    let mut section = Section::Ranks;
    let mut head = head_of(alloc, plan, section)?;
    for note in notes {
        if note.section != section {
            section = note.section;
            head = head_of(alloc, plan, section)?;
        }
        push_line_with_head(text, &head, plan, note)?;
    }
    Ok(())
}

/// Appends the line of the note: the head, the condition and a newline. `head` must be the head of
/// the note's section.
fn push_line_with_head(
    text: &mut String,
    head: &str,
    plan: &Plan,
    note: &Note,
) -> Result<(), AllocError>
    requires { head.now ≡ line.head plan.now note.now.section }
    ensures { Pushes result text.old text.new (line.line plan.now note.now ++ 10 ∷ []) }
{
    text.push_str(head)?;
    push_condition(text, plan, note)?;
    text.push('\n')
}
