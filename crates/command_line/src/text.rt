//! Arguments whose value is a text.
ghost use Rattle.std.specs.Prelude.{◌≡◌, option_map};
ghost use Rattle.clap.specs.Words.{first_of, found_of, rows_of};
ghost use Rattle.command_line.specs.Command as spec;

use clap::ArgMatches;

/// Returns the value of the argument with this id, or `None` if the argument was not given.
pub(crate) fn text_of<'a>(options: &ArgMatches<'a>, id: &str) -> Option<&'a str>
    ensures { option_map (λ text. text.now) result
        ≡ first_of id.now (rows_of (found_of options.now)) }
{
    options.get_str(id)
}

/// Returns `true` if the value can be the name of a file to write, or if there is no value. The
/// empty text and `-` cannot be such a name.
pub(crate) fn names_file(value: Option<&str>) -> bool
    ensures { result ≡ spec.names_file (option_map (λ text. text.now) value.entry) }
{
    match value {
        Some("" | "-") => false,
        _ => true,
    }
}
