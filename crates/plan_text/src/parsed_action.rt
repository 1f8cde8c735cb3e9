//! The grammar of an action: `work N`, `submit CLASS`, `submit CLASS as SLOT` and `get SLOT`.

ghost use Rattle.std.specs.Prelude.{◌≡◌, Some, option_map};
ghost use Rattle.plan_text.specs.ParsedActions as spec;

use job_bodies::{MAX_WORK, is_valid_name, is_within};

/// A parsed action, in which classes and slots are names.
#[derive(Clone, Copy)]
pub enum ParsedAction<'a> {
    Work(u32),
    Submit(&'a str),
    SubmitAs(&'a str, &'a str),
    Get(&'a str),
}

/// Parses an action. Returns `None` if the text has none of the four forms of an action, or if a
/// name or a number in the text is not valid.
#[tactic(auto, unfolding(crate::specs::ParsedActions::parse_action))]
pub fn parse_action(text: &str) -> Option<ParsedAction<'_>>
    ensures { option_map spec.parsed_action_view result ≡ spec.parse_action text.now }
{
    let (verb, rest) = split_space(text)?;
    parse_action_of_verb(verb, rest)
}

#[tactic(auto, unfolding(crate::specs::ParsedActions::parse_action_of_verb))]
fn parse_action_of_verb<'a>(verb: &str, text: &'a str) -> Option<ParsedAction<'a>>
    ensures { option_map spec.parsed_action_view result ≡ spec.parse_action_of_verb verb.now text.now }
{
    match verb {
        "work" => Some(ParsedAction::Work(parse_units(text)?)),
        "submit" => parse_submit(text),
        "get" => Some(ParsedAction::Get(name_of(text)?)),
        _ => None,
    }
}

#[tactic(auto, unfolding(crate::specs::ParsedActions::parse_submit))]
fn parse_submit(text: &str) -> Option<ParsedAction<'_>>
    ensures { option_map spec.parsed_action_view result ≡ spec.parse_submit text.now }
{
    match split_space(text) {
        None => Some(ParsedAction::Submit(name_of(text)?)),
        Some((class, rest)) => parse_submit_as(class, rest),
    }
}

#[tactic(auto, unfolding(crate::specs::ParsedActions::parse_submit_as))]
fn parse_submit_as<'a>(class: &'a str, text: &'a str) -> Option<ParsedAction<'a>>
    ensures { option_map spec.parsed_action_view result ≡ spec.parse_submit_as class.now text.now }
{
    let (word, slot) = split_space(text)?;
    if word != "as" {
        return None;
    }
    Some(ParsedAction::SubmitAs(name_of(class)?, name_of(slot)?))
}

/// Returns the parts of the text before and after its first space, or `None` if the text has no
/// space.
fn split_space(text: &str) -> Option<(&str, &str)>
    ensures { option_map (λ words. (words.0.now, words.1.now)) result ≡ spec.split_space text.now }
{
    text.split_once(' ')
}

fn name_of(text: &str) -> Option<&str>
    ensures { option_map (λ name. name.now) result ≡ spec.name_of text.now }
{
    if is_valid_name(text) {
        Some(text)
    } else {
        None
    }
}

/// Parses the units of a `work` action: a number from 1 to [`MAX_WORK`], in digits without a
/// leading zero. Returns `None` for any other text.
#[tactic(auto, unfolding(crate::specs::ParsedActions::parse_units))]
fn parse_units(text: &str) -> Option<u32>
    ensures { result ≡ spec.parse_units text.now }
{
    if !is_positive_decimal(text.as_bytes()) {
        return None;
    }
    match text.parse::<u32>() {
        Ok(units) => {
            if is_within(1, MAX_WORK, u64::from(units)) {
                Some(units)
            } else {
                None
            }
        }
        Err(_) => None,
    }
}

fn is_digit(byte: u8) -> bool
    ensures { result ≡ spec.is_digit byte }
{
    is_within(48, 57, u64::from(byte))
}

fn are_digits(bytes: &[u8]) -> bool
    ensures { result ≡ spec.are_digits bytes.now }
{
    bytes.iter().all(|byte| is_digit(*byte))
}

fn is_positive_decimal(digits: &[u8]) -> bool
    ensures { result ≡ spec.is_positive_decimal digits.now }
{
    if digits.is_empty() || digits[0] == b'0' {
        return false;
    }
    are_digits(digits)
}
