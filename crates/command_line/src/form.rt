//! The output format of `ask`.
ghost use Rattle.std.specs.Prelude.{◌≡◌, option_map};
ghost use Rattle.clap.specs.Words.{found_of, rows_of};
ghost use Rattle.command_line.specs.Command as spec;

use crate::command::Form;
use crate::flag::is_set;
use crate::text::text_of;
use clap::ArgMatches;

/// Returns the output format that the options request, or [`Form::Words`] if no option requests a
/// format. Returns `None` if two options request a format, or if the requested name is not the name
/// of a format.
pub(crate) fn form_in(options: &ArgMatches<'_>) -> Option<Form>
    ensures { result ≡ spec.form_in (rows_of (found_of options.now)) }
{
    form_of(
        text_of(options, "format"),
        is_set(options, "json"),
        is_set(options, "dot"),
    )
}

// Returns the output format that `--format`, `--json` and `--dot` request. At most one of them may
// be given.
fn form_of(name: Option<&str>, json: bool, dot: bool) -> Option<Form>
    ensures { result ≡ spec.form_of (option_map (λ text. text.now) name.entry) json dot }
{
    match (name, json, dot) {
        (None, false, false) => Some(Form::Words),
        (None, true, false) => Some(Form::Json),
        (None, false, true) => Some(Form::Dot),
        (Some(name), false, false) => form_named(name),
        _ => None,
    }
}

/// Returns the output format with this name, or `None` if there is no such format.
pub(crate) fn form_named(name: &str) -> Option<Form>
    ensures { result ≡ spec.form_named name.now }
{
    match name {
        "text" => Some(Form::Words),
        "json" => Some(Form::Json),
        "dot" => Some(Form::Dot),
        "html" => Some(Form::Html),
        "github" => Some(Form::Github),
        "sarif" => Some(Form::Sarif),
        _ => None,
    }
}
