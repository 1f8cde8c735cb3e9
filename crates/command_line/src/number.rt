//! Options whose value is a whole number.
ghost use Rattle.std.specs.Prelude.{◌≡◌, ◌≤◌, IfSome};
ghost use Rattle.clap.specs.Words.{found_of, rows_of};
ghost use Rattle.command_line.specs.Command as spec;

use clap::ArgMatches;

/// Returns the value of the option with this id if it is a whole number from `low` to `high`.
/// Returns `None` if the option was not given, or if it has any other value.
pub(crate) fn number_of(options: &ArgMatches<'_>, id: &str, low: u64, high: u64) -> Option<u64>
    ensures number { result ≡ spec.number_of id.now low high (rows_of (found_of options.now)) }
    ensures in_range { IfSome result (λ number. (low ≤ number) × (number ≤ high)) }
{
    number_in(options.get_str(id)?, low, high)
}

// Parses a whole number, and returns `None` if it is not from `low` to `high`.
fn number_in(text: &str, low: u64, high: u64) -> Option<u64>
    ensures number { result ≡ spec.number_in low high text.now }
    ensures in_range { IfSome result (λ number. (low ≤ number) × (number ≤ high)) }
{
    match text.parse::<u64>() {
        Ok(number) if low <= number && number <= high => Some(number),
        _ => None,
    }
}
