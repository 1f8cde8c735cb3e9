//! A law of event lines. The law is the contract of a function with an empty body.

ghost use Rattle.interleaving.specs.LineLaws.{EventLinesAreCanonical};

/// States that each event line has exactly one spelling. Consider a well-formed plan, a text and a
/// list of lines. The text parses as this list if and only if both of these conditions hold:
///
/// - Each line of the list is valid.
/// - The text has the spelling of each line, in order, and a newline after each line. The newline
///   after the last line may be missing.
pub fn event_lines_are_canonical()
    ensures { EventLinesAreCanonical }
{}
