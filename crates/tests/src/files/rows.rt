//! The parser for files of rows.

use std::alloc::{AllocError, Global};

/// A row of a file of test inputs: the name of the row, and its parts in order.
#[derive(Drop)]
pub struct Row<'a> {
    pub name: &'a str,
    pub parts: Vec<Part<'a>>,
}

/// A part of a row. Its head is the text after `-- ` in its first line, and its text is the lines
/// after this line.
#[derive(Clone, Copy)]
pub struct Part<'a> {
    pub head: &'a str,
    pub text: &'a str,
}

impl<'a> Row<'a> {
    /// Returns the text of the first part with this head, or `None` if the row has no such part.
    pub fn part(&self, head: &str) -> Option<&'a str> {
        for part in &self.parts {
            if part.head == head {
                return Some(part.text);
            }
        }
        None
    }
}

/// Parses the rows of the file. Ignores the text before the first row.
pub fn read_rows(alloc: Global, file: &str) -> Result<Vec<Row<'_>>, AllocError> {
    let mut rows = Vec::new(alloc);
    for text in file.split("\n== ").skip(1) {
        let (name, _note) = text.split_once('\n').unwrap_or((text, ""));
        let parts = read_parts(alloc, text)?;
        rows.push(Row { name, parts })?;
    }
    Ok(rows)
}

fn read_parts(alloc: Global, row: &str) -> Result<Vec<Part<'_>>, AllocError> {
    let mut parts = Vec::new(alloc);
    for part in row.split("\n-- ").skip(1) {
        let (head, text) = part.split_once('\n').unwrap_or((part, ""));
        parts.push(Part {
            head,
            text: text.trim_end_matches('\n'),
        })?;
    }
    Ok(parts)
}
