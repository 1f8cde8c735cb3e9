//! Options without a value.
ghost use Rattle.std.specs.Prelude.{◌≡◌};
ghost use Rattle.clap.specs.Words.{found_of, rows_of};
ghost use Rattle.command_line.specs.Command as spec;

use clap::ArgMatches;

/// Returns true if the option with this id was given.
pub(crate) fn is_set(options: &ArgMatches<'_>, id: &str) -> bool
    ensures { result ≡ spec.is_set id.now (rows_of (found_of options.now)) }
{
    match options.get_str(id) {
        Some(text) => text == "true",
        None => false,
    }
}
