//! The error for options of `ask` that `clap` accepts and the program rejects.
ghost use Rattle.std.specs.Prelude.{◌≡◌, IfOk};
ghost use Rattle.clap.specs.Words.{kind_of};
ghost use Rattle.clap.specs.declared.error.kind.ErrorKind.TheVariants.{ValueValidation};

use crate::flag::is_set;
use crate::form::form_named;
use crate::text::text_of;
use clap::error::ErrorKind;
use clap::{ArgMatches, Command, Error};
use std::alloc::{AllocError, Global};

/// Creates the error for arguments that `ask` rejects. The message of the error says what is wrong
/// with them. `sizing` is the application, and `matches` has the arguments.
pub(crate) fn refusal(
    alloc: Global,
    sizing: &mut Command<'_>,
    matches: &ArgMatches<'_>,
) -> Result<Error, AllocError>
    ensures { IfOk result (λ error. kind_of error ≡ ValueValidation) }
{
    let reason = reason(alloc, matches)?;
    sizing.error(ErrorKind::ValueValidation, reason.as_str())
}

// Returns the text of the error.
fn reason(alloc: Global, matches: &ArgMatches<'_>) -> Result<String, AllocError> {
    let Some((_, options)) = matches.subcommand() else {
        return String::from_str(alloc, "a subcommand is required");
    };
    let format = text_of(options, "format");
    let json = is_set(options, "json");
    let dot = is_set(options, "dot");
    if (json && dot) || (format.is_some() && (json || dot)) {
        return String::from_str(
            alloc,
            "the arguments '--format <FORMAT>', '--json' and '--dot' exclude each other",
        );
    }
    match format {
        Some(name) if form_named(name).is_none() => format!(in alloc;
            "invalid value '{name}' for '--format <FORMAT>'\n  [possible values: text, json, dot, html, github, sarif]"
        ),
        _ => String::from_str(alloc, "'--certificate <FILE>' needs the name of a file"),
    }
}
