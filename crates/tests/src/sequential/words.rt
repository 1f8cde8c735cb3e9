//! Inputs of the kind `words`: the arguments of a command line.

use command_line::{Cli, Command, read_words};
use std::alloc::{AllocError, Global};

/// Returns a text about the arguments in `lines`, which has one argument in each line:
///
/// - the command and the files that the arguments name;
/// - the text `None` if the arguments name no command;
/// - the kind of the error if the arguments have an error.
pub fn asked(alloc: Global, lines: &[u8]) -> Result<String, AllocError> {
    let lines = String::from_utf8_lossy(alloc, lines)?;
    let words = lines.lines().collect::<Vec<&str>>(alloc)?;
    match read_words(alloc, &words) {
        Ok(Some(asked)) => args_text(alloc, &asked),
        Ok(None) => String::from_str(alloc, "None"),
        Err(error) => format!(in alloc; "{:?}", error.kind()),
    }
}

fn args_text(alloc: Global, asked: &Cli<'_>) -> Result<String, AllocError> {
    let mut text = String::new(alloc);
    push_asked(&mut text, asked)?;
    Ok(text)
}

fn push_asked(text: &mut String, asked: &Cli<'_>) -> Result<(), AllocError> {
    match asked.command {
        Command::Sequential(review) => write!(text, "Some({review:?})")?,
        Command::OnRecording(reading) => write!(text, "Some({reading:?})")?,
        Command::OnThreads(task) => write!(text, "Some({task:?})")?,
    }
    push_file(text, "first", asked.first)?;
    push_file(text, "second", asked.second)?;
    push_file(text, "certificate", asked.certificate)
}

// Appends the role and the name of the file, if there is one.
fn push_file(text: &mut String, name: &str, file: Option<&str>) -> Result<(), AllocError> {
    match file {
        Some(file) => write!(text, ", {name} {file}"),
        None => Ok(()),
    }
}
