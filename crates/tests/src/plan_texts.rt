//! The answers of the parser and of the writer for texts of plans.

mod answers;
mod lists;

use crate::files::Suite;
use crate::plan_texts::answers::answered;
use crate::plan_texts::lists::{built, written};
use std::alloc::{AllocError, Global};

/// The suite for texts of plans. The kinds of input are these. The answer is the plan or the fault
/// of the input, in one line, unless the list says otherwise.
///
/// - `plan`: the text of a plan.
/// - `spelling`: the text of a plan. The test also reads this text with a carriage return before
///   each newline, and then with a byte order mark in addition. If the three results differ, the
///   answer has all of them.
/// - `lists`: the lists of a plan, with a line for each entry.
/// - `written`: the lists of a plan. The answer is the text that is written for this plan, or the
///   fault of the lists.
/// - `change`: the text of a plan, a line `%%`, and a line `OLD -> NEW`. The test reads the text
///   with NEW in place of OLD.
pub struct PlanTexts;

impl Suite for PlanTexts {
    fn answer(&self, alloc: Global, kind: &str, input: &[u8]) -> Result<String, AllocError> {
        match kind {
            "plan" => answered(alloc, input),
            "spelling" => answered_in_each_spelling(alloc, input),
            "lists" => built(alloc, input),
            "written" => written(alloc, input),
            "change" => answered(alloc, changed(alloc, input)?.as_bytes()),
            _ => String::from_str(alloc, "no such kind of input"),
        }
    }
}

fn answered_in_each_spelling(alloc: Global, text: &[u8]) -> Result<String, AllocError> {
    let mut returns = Vec::new(alloc);
    for byte in text {
        if *byte == b'\n' {
            returns.push(b'\r')?;
        }
        returns.push(*byte)?;
    }
    let mut marked = Vec::new(alloc);
    marked.extend_from_slice(b"\xef\xbb\xbf")?;
    marked.extend_from_slice(&returns)?;
    let answer = answered(alloc, text)?;
    let with_returns = answered(alloc, &returns)?;
    let with_a_mark = answered(alloc, &marked)?;
    if with_returns == answer && with_a_mark == answer {
        return Ok(answer);
    }
    format!(in alloc; "{answer} or {with_returns} or {with_a_mark}")
}

fn changed(alloc: Global, input: &[u8]) -> Result<String, AllocError> {
    let input = String::from_utf8_lossy(alloc, input)?;
    let (text, change) = input.split_once("\n%%\n").unwrap_or((&input, ""));
    let (old, new) = change.split_once(" -> ").unwrap_or((change, ""));
    let (before, behind) = text.split_once(old).unwrap_or(("", "no such place"));
    format!(in alloc; "{before}{new}{behind}")
}
