//! The lines that print warnings.

ghost use Rattle.std.specs.Prelude.{◌≡◌};
ghost use Rattle.diagnostics.specs.Diagnostic as spec;
ghost use Rattle.support.specs.Pushed.{Pushes};

use crate::diagnostic::push_place;
use crate::lint::is_note;
use crate::warnings::Warning;
use plan_text::TextPlace;
use std::alloc::AllocError;

/// Appends a line for each warning, such as `shop.toml:3:1: warning: pool web: may_reject has no
/// effect: its queue is unbounded`. `file` is the name of the plan's file. The line of a note has
/// `note` in place of `warning`.
///
/// # Errors
///
/// Returns [`AllocError`] if memory runs out.
pub fn push_warnings(
    text: &mut String,
    file: &str,
    mut warnings: &[Warning],
) -> Result<(), AllocError>
    ensures { Pushes result text.old text.new (spec.warnings_text file.now warnings.now) }
{
    while let Some((warning, rest)) = warnings.split_first() {
        push_warning(text, file, warning)?;
        warnings = rest;
    }
    Ok(())
}

fn push_warning(text: &mut String, file: &str, warning: &Warning) -> Result<(), AllocError>
    ensures { Pushes result text.old text.new (spec.warning_line file.now warning.now) }
{
    let note = is_note(warning.lint);
    push_line(text, file, warning.place, note, &warning.what)
}

fn push_line(
    text: &mut String,
    file: &str,
    place: TextPlace,
    note: bool,
    what: &str,
) -> Result<(), AllocError>
    ensures { Pushes result text.old text.new (spec.warning_at file.now place note what.now) }
{
    push_place(text, file, place)?;
    text.push_str(level_of(note))?;
    writeln!(text, "{what}")
}

fn level_of(note: bool) -> &'static str
    ensures { result.now ≡ spec.level_text note }
{
    if note { "note: " } else { "warning: " }
}
