//! The parsing of actions, and the messages for texts that are not actions.

use crate::diagnostic::NumberRange;
use crate::hints::has_separator;
use crate::names::name_rule;
use crate::suggestions::suggestion;
use job_bodies::{MAX_WORK, is_valid_name};
use std::alloc::{AllocError, Global};

/// A parsed action of a body, such as `submit query as q`. The fields are the class and the name of
/// the job, here `query` and `q`. A submit without `as` has no name, and a get has no class.
#[derive(Clone, Copy)]
pub(crate) enum ParsedAction<'a> {
    Work,
    Submit(&'a str),
    SubmitAs(&'a str, &'a str),
    Get(&'a str),
}

/// The first four words of a text, and the number of all words of the text. If the text has fewer
/// than four words, the missing words are empty.
#[derive(Clone, Copy)]
struct Words<'a> {
    verb: &'a str,
    first: &'a str,
    mark: &'a str,
    slot: &'a str,
    count: usize,
}

fn words_of(text: &str) -> Words<'_> {
    let mut found = Words {
        verb: "",
        first: "",
        mark: "",
        slot: "",
        count: 0,
    };
    for word in text.split(' ') {
        match found.count {
            0 => found.verb = word,
            1 => found.first = word,
            2 => found.mark = word,
            3 => found.slot = word,
            _ => {}
        }
        found.count = found.count.saturating_add(1);
    }
    found
}

/// Parses the text of an action. Returns `None` if the text is not an action.
pub(crate) fn parse_action(text: &str) -> Option<ParsedAction<'_>> {
    let words = words_of(text);
    match words.verb {
        "work" => parse_work(words),
        "submit" => parse_submit(words),
        "get" => parse_get(words),
        _ => None,
    }
}

fn parse_work(words: Words<'_>) -> Option<ParsedAction<'_>> {
    if words.count == 2 && is_length(words.first) {
        Some(ParsedAction::Work)
    } else {
        None
    }
}

fn parse_submit(words: Words<'_>) -> Option<ParsedAction<'_>> {
    if !is_valid_name(words.first) {
        return None;
    }
    if words.count == 2 {
        return Some(ParsedAction::Submit(words.first));
    }
    if words.count == 4 && words.mark == "as" && is_valid_name(words.slot) {
        return Some(ParsedAction::SubmitAs(words.first, words.slot));
    }
    None
}

fn parse_get(words: Words<'_>) -> Option<ParsedAction<'_>> {
    if words.count == 2 && is_valid_name(words.first) {
        Some(ParsedAction::Get(words.first))
    } else {
        None
    }
}

/// Returns whether the text is a valid length of a `work` action: a number from 1 to 1,000,000
/// without a leading zero.
fn is_length(text: &str) -> bool {
    if !matches!(text.as_bytes().first(), Some(b'1'..=b'9')) {
        return false;
    }
    match text.parse::<u32>() {
        Ok(units) => u64::from(units) <= MAX_WORK,
        Err(_) => false,
    }
}

/// Returns the valid range of lengths if the text looks like a `work` action with an invalid
/// length, such as `work 0`. The text must not be a valid action. Returns `None` if
///
/// - the first word of the text is not `work`, or there is no second word,
/// - the text has a tab, two spaces in sequence, or a space at its start or end, or
/// - the text looks like several actions, such as `work 1, work 2`.
pub(crate) fn range_of_work(text: &str) -> Option<NumberRange> {
    let words = words_of(text);
    if words.verb == "work"
        && words.count > 1
        && !is_spaced(text)
        && !has_several_actions(words, text)
    {
        Some(NumberRange {
            low: 1,
            high: MAX_WORK,
        })
    } else {
        None
    }
}

/// Returns the message for a text that is not an action.
pub(crate) fn action_error(alloc: Global, text: &str) -> Result<String, AllocError> {
    if is_spaced(text) {
        let words = "write one space between words, and none before the first or after the last";
        return String::from_str(alloc, words);
    }
    let words = words_of(text);
    if has_several_actions(words, text) {
        let words = "write one action in each string, and a comma between the strings";
        return String::from_str(alloc, words);
    }
    match words.verb {
        "work" => work_error(alloc, text),
        "get" => get_error(alloc, words.first, words.count),
        "submit" => submit_error(alloc, words),
        _ => verb_error(alloc, words.verb, words.first),
    }
}

/// Returns whether the text has wrong spaces: a tab, two spaces in sequence, or a space at its
/// start or end.
fn is_spaced(text: &str) -> bool {
    text.contains('\t') || text.contains("  ") || text.starts_with(' ') || text.ends_with(' ')
}

/// Returns whether the text looks like several actions, such as `work 1, work 2`. Such a text has
/// more than two words, and meets one of these conditions:
///
/// - It has a comma or a semicolon.
/// - The first word is `work`, `submit` or `get`, and so is a word between the first and the last.
fn has_several_actions(words: Words<'_>, text: &str) -> bool {
    words.count > 2 && (has_separator(text) || has_two_verbs(words, text))
}

fn has_two_verbs(words: Words<'_>, text: &str) -> bool {
    matches!(words.verb, "work" | "submit" | "get")
        && (text.contains(" work ") || text.contains(" submit ") || text.contains(" get "))
}

fn work_error(alloc: Global, text: &str) -> Result<String, AllocError> {
    match text.split_once(' ') {
        None => String::from_str(
            alloc,
            "work needs a number: write work 5; the number has no effect on the answer",
        ),
        Some((_, units)) => format!(in alloc;
            "work takes a whole number from 1 to {MAX_WORK}, not {units}"
        ),
    }
}

fn get_error(alloc: Global, slot: &str, count: usize) -> Result<String, AllocError> {
    if count > 2 {
        return no_timeout(alloc, slot);
    }
    if count < 2 {
        let error = "get needs a name: write get NAME after a submit CLASS as NAME";
        return String::from_str(alloc, error);
    }
    name_rule(alloc, slot)
}

fn no_timeout(alloc: Global, slot: &str) -> Result<String, AllocError> {
    format!(in alloc;
        "a get has no timeout: write get {slot} if the service needs the result, or see docs/PERMITS.md for a get that can give up"
    )
}

fn submit_error(alloc: Global, words: Words<'_>) -> Result<String, AllocError> {
    if words.count < 2 {
        let error = "submit needs a class: write submit CLASS, or submit CLASS as NAME";
        return String::from_str(alloc, error);
    }
    if words.first == "as" && words.count == 3 {
        return class_missing(alloc, words.mark);
    }
    if !is_valid_name(words.first) {
        return name_rule(alloc, words.first);
    }
    if words.count == 4 && words.mark == "as" {
        return name_rule(alloc, words.slot);
    }
    submit_form(alloc, words.first)
}

fn class_missing(alloc: Global, slot: &str) -> Result<String, AllocError> {
    format!(in alloc; "the class is missing before as: write submit CLASS as {slot}")
}

fn submit_form(alloc: Global, class: &str) -> Result<String, AllocError> {
    format!(in alloc; "write submit {class}, or submit {class} as NAME if its result is needed")
}

/// Returns the message for a text whose first word, `verb`, is not `work`, `submit` or `get`.
/// `first` is the word after `verb`.
fn verb_error(alloc: Global, verb: &str, first: &str) -> Result<String, AllocError> {
    match verb {
        "execute" | "invoke" | "start" | "schedule" => submit_form(alloc, first),
        "wait" | "join" | "await" => wait_form(alloc, first),
        "sleep" | "run" | "compute" => String::from_str(
            alloc,
            "leave it out, or write work 1: how long a job runs does not change the answer",
        ),
        _ => unknown_verb(alloc, verb),
    }
}

fn wait_form(alloc: Global, slot: &str) -> Result<String, AllocError> {
    format!(in alloc;
        "write get {slot} if {slot} was submitted before, or work 1 if it waits for something outside the plan"
    )
}

fn unknown_verb(alloc: Global, verb: &str) -> Result<String, AllocError> {
    let forms = ": an action is work N, submit CLASS, submit CLASS as NAME, or get NAME";
    let forms = String::from_str(alloc, forms);
    let right = suggestion(alloc, verb, &["work", "submit", "get"], forms)?;
    format!(in alloc; "unknown action {verb}{right}")
}
