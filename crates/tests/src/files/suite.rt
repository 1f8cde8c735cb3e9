//! A runner for the rows of a suite's files.

use crate::files::fill::{with_columns, with_names};
use crate::files::repeat::repeated;
use crate::files::rows::{Part, Row, read_rows};
use crate::files::spelling::spelled;
use std::alloc::{AllocError, Global};
use std::rt::Files;
use std::{fs, io};

/// A suite, which runs the code under test and returns answers to inputs.
pub trait Suite {
    /// Returns the answer to the input of this kind.
    fn answer(&self, alloc: Global, kind: &str, input: &[u8]) -> Result<String, AllocError>;
}

/// Runs the inputs in all files. For each unexpected answer, prints the name of the row, the place
/// of the input, the answer and the expected answer. At the end, prints the number of inputs and
/// the number of unexpected answers.
pub fn run_files<S: Suite, R: Files + Print + AllocGlobal>(
    rt: &R,
    suite: &S,
    files: &[&str],
) -> io::Result<()> {
    let mut count = Count {
        rows: 0,
        differing: 0,
    };
    for file in files {
        let text = fs::read_to_string(rt, *file)?;
        for row in read_rows(rt.alloc(), &text)? {
            run_row(rt, suite, &row, &mut count)?;
        }
    }
    let Count { rows, differing } = count;
    println!(rt; "{rows} rows, {differing} differ")
}

// The number of inputs that were run, and the number of unexpected answers.
#[derive(Drop)]
struct Count {
    rows: u64,
    differing: u64,
}

fn run_row<S: Suite>(
    rt: &(impl Print + AllocGlobal),
    suite: &S,
    row: &Row,
    count: &mut Count,
) -> io::Result<()> {
    for part in &row.parts {
        if !is_input(part) {
            continue;
        }
        if let Some(wanted) = row.part("answer") {
            run_input(rt, suite, row, part, &[], part.text, wanted, count)?;
        }
        if let Some(lines) = row.part("lines") {
            let (text, wanted) = in_columns(rt.alloc(), part.text, lines)?;
            run_input(rt, suite, row, part, &[], &text, &wanted, count)?;
        }
        for line in row.part("answers").unwrap_or("").lines() {
            let (piece, wanted) = sides(line);
            let columns = piece.split(" | ").collect::<Vec<&str>>(rt.alloc())?;
            run_input(rt, suite, row, part, &columns, part.text, wanted, count)?;
        }
    }
    Ok(())
}

fn is_input(part: &Part) -> bool {
    let (word, _behind) = part.head.split_once(' ').unwrap_or((part.head, ""));
    !matches!(word, "answer" | "answers" | "lines" | "let")
}

// Splits a line at its last `=> `. Without an arrow, the right side is empty.
fn sides(line: &str) -> (&str, &str) {
    let (left, right) = line.rsplit_once("=> ").unwrap_or((line, ""));
    (left.strip_suffix(' ').unwrap_or(left), right)
}

// Returns the text followed by the left sides of the lines, and the right sides of the lines.
fn in_columns(alloc: Global, text: &str, lines: &str) -> Result<(String, String), AllocError> {
    let mut left = String::from_str(alloc, text)?;
    let mut right = String::new(alloc);
    for (number, line) in lines.lines().enumerate() {
        let (asked, wanted) = sides(line);
        let end = if number == 0 { "" } else { "\n" };
        write!(left, "\n{asked}")?;
        write!(right, "{end}{wanted}")?;
    }
    Ok((left, right))
}

// Runs an input of the row, and prints it if the answer is unexpected.
fn run_input<S: Suite>(
    rt: &(impl Print + AllocGlobal),
    suite: &S,
    row: &Row,
    part: &Part,
    columns: &[&str],
    text: &str,
    wanted: &str,
    count: &mut Count,
) -> io::Result<()> {
    let (kind, place) = part.head.split_once(" at ").unwrap_or((part.head, ""));
    let input = written(rt.alloc(), row, text, columns)?;
    let answered = suite.answer(rt.alloc(), kind, &input)?;
    let wanted = wanted_at(rt.alloc(), row, place, wanted)?;
    count.rows = count.rows.saturating_add(1);
    if answered != wanted {
        count.differing = count.differing.saturating_add(1);
        let name = row.name;
        println!(rt; "{name} {columns:?} {place}: is {answered:?}, not {wanted:?}")?;
    }
    Ok(())
}

// Returns the bytes of an input from its text in the row.
fn written(alloc: Global, row: &Row, text: &str, columns: &[&str]) -> Result<Vec<u8>, AllocError> {
    let text = with_columns(alloc, text, columns)?;
    let text = with_names(alloc, &text, row)?;
    let text = repeated(alloc, &text)?;
    spelled(alloc, &text)
}

// Returns the expected answer to an input at this place from its text in the row.
fn wanted_at(alloc: Global, row: &Row, place: &str, text: &str) -> Result<String, AllocError> {
    let text = with_names(alloc, text, row)?;
    let text = repeated(alloc, &text)?;
    let mut placed = String::new(alloc);
    match text.split_once('*') {
        Some((before, behind)) => write!(placed, "{before}{place}{behind}")?,
        None => placed.push_str(&text)?,
    }
    let bytes = spelled(alloc, &placed)?;
    String::from_utf8_lossy(alloc, &bytes)
}
