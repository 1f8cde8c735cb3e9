//! Hints about likely mistakes in files. The program prints the hints to standard error. A hint
//! reports one of these mistakes:
//!
//! - A file lacks the text that must follow the plan.
//! - A file has a text of another kind than the command expects in this file.
//! - A line of a file ends with a carriage return.
//! - The text of a file has a fault. The hint then says what to do.
//!
//! This module also has functions that return the reason why a file could not be read or written.

use plan_text::read_plan;
use sizing_cli::{
    Command, RecordingCommand, ReviewCommand, StdFiles, Task, TextFiles, bundle_of, most_bytes,
    read_words,
};
use std::alloc::Global;
use std::fs::{self, File, Files};
use std::io::ErrorKind;
use support::number::MEMORY;

const PLAN: &str = "a plan";

const CERTIFICATE: &str = "a certificate";

/// A likely mistake in a file. The arguments of the command line name this file. The mistake
/// explains why the command found a fault in a text.
#[derive(Clone, Copy)]
pub(crate) enum Hint {
    /// The file has only one text, but the command also needs a text that follows the plan. The
    /// field says which text, for example `the certificate`.
    MissingText(&'static str),
    /// The separator `%%` in the file is followed by a carriage return, so it does not separate two
    /// texts.
    ReturnAfterSeparator,
    /// The file looks like a text of the kind `found`, but the command reads it as a text of the
    /// kind `wanted`.
    Misplaced {
        found: &'static str,
        wanted: &'static str,
    },
    /// The command reads the file as a recording, but the file does not begin like a recording.
    NotRecording,
    /// The command reads the file as events, but the first line of the file ends with a carriage
    /// return.
    ReturnsInEvents,
    /// The plan in the file has a fault.
    FaultyPlan,
    /// The file has no certificate for the plan, and the plan has no fault.
    NoCertificate,
    /// The file has a line that is not an event, and the plan has no fault.
    MalformedEvents,
}

/// Returns the reason why the file could not be read, or an empty text if the reason is not known.
/// Opens the file again to find the reason.
pub(crate) fn reason_of(rt: &impl Files, name: &str) -> &'static str {
    match File::open(rt, name) {
        Ok(_) if is_directory(rt, name) => ": it is a directory",
        Ok(_) => "",
        Err(error) => match error.kind() {
            ErrorKind::NotFound => ": there is no such file",
            ErrorKind::PermissionDenied => ": permission denied",
            _ => "",
        },
    }
}

/// Returns the reason why the file could not be written, or an empty text if the reason is not
/// known. To find the reason, opens the file again, but neither creates nor changes this file. Does
/// not open a pipe or another special file, because this could block.
pub(crate) fn reason_unwritten(rt: &impl Files, name: &str) -> &'static str {
    if is_special(rt, name) {
        return "";
    }
    match File::options().append(true).open(rt, name) {
        Ok(_) => "",
        Err(error) => match error.kind() {
            ErrorKind::NotFound if has_directory(rt, name) => "",
            ErrorKind::NotFound | ErrorKind::NotADirectory => ": there is no such directory",
            ErrorKind::PermissionDenied => ": permission denied",
            ErrorKind::ReadOnlyFilesystem => ": the file system is read-only",
            _ => "",
        },
    }
}

/// Returns `true` if the directory in this file name exists, or if the name has no directory.
fn has_directory(rt: &impl Files, name: &str) -> bool {
    match name.rsplit_once('/') {
        Some((directory, _)) if !directory.is_empty() => fs::metadata(rt, directory).is_ok(),
        _ => true,
    }
}

/// Returns `true` if there is a file of this name and it is not a regular file, for example a pipe.
fn is_special(rt: &impl Files, name: &str) -> bool {
    match fs::metadata(rt, name) {
        Ok(found) => !found.is_file(),
        Err(_) => false,
    }
}

fn is_directory(rt: &impl Files, name: &str) -> bool {
    match fs::metadata(rt, name) {
        Ok(found) => found.is_dir(),
        Err(_) => false,
    }
}

/// Returns a hint about a likely mistake in a file, and the name of this file. `words` are the
/// arguments of the command line, which name the files. Returns `None` if no file shows a known
/// mistake. The caller must have run the command before, and the command must have found a fault in
/// a text.
pub(crate) fn hint_of<'a>(
    rt: &impl Files,
    alloc: Global,
    words: &'a [&'a str],
) -> Option<(&'a str, Hint)> {
    let cli = read_words(alloc, words).ok()??;
    if let Some(name) = cli.first
        && let Some(text) = text_of(rt, alloc, cli.command, name)
        && let Some(hint) = hint_of_first(alloc, cli.command, &text, cli.second.is_none())
    {
        return Some((name, hint));
    }
    let has_plan = is_readable(rt, alloc, cli.command, cli.first);
    let name = cli.second?;
    let text = text_of(rt, alloc, cli.command, name)?;
    Some((name, hint_of_second(cli.command, &text, has_plan)?))
}

/// Returns `true` if there is a `name` and the file with this name can be read.
fn is_readable(rt: &impl Files, alloc: Global, command: Command, name: Option<&str>) -> bool {
    let Some(name) = name else {
        return false;
    };
    let text = text_of(rt, alloc, command, name);
    text.is_some()
}

/// Returns the content of the file. Reads at most one byte more than the maximum length of the
/// command's input. Returns `None` if the file cannot be read.
fn text_of(rt: &impl Files, alloc: Global, command: Command, name: &str) -> Option<Vec<u8>> {
    StdFiles::new(rt)
        .read(alloc, name, most_bytes(command) + 1)
        .ok()
}

/// Returns a hint about the first file, which has the content `text`. Returns `None` if the file
/// shows no known mistake. Also returns `None` for `ask`, because its answer already explains the
/// mistake. `is_alone` says whether the arguments name no other file.
fn hint_of_first(alloc: Global, command: Command, text: &[u8], is_alone: bool) -> Option<Hint> {
    if let Command::OnRecording(RecordingCommand::Learn { .. }) = command {
        return hint_of_recording(text);
    }
    if is_alone
        && let Some(second) = second_text(command)
        && bundle_of(text).is_none()
    {
        return Some(missing_text(text, second));
    }
    // The answer of `ask` explains the mistake itself.
    if let Command::OnThreads(Task::Ask { .. }) = command {
        return None;
    }
    if let Some(hint) = hint_of_misplaced(text, PLAN) {
        return Some(hint);
    }
    if has_faulty_plan(alloc, text) {
        Some(Hint::FaultyPlan)
    } else {
        None
    }
}

/// Returns `true` if the text has no line `%%` and is not a valid plan. Returns `false` if memory
/// runs out.
fn has_faulty_plan(alloc: Global, text: &[u8]) -> bool {
    if bundle_of(text).is_some() {
        return false;
    }
    match read_plan(alloc, text) {
        Ok(_) => false,
        Err(fault) => fault.number != MEMORY,
    }
}

/// Returns the hint about a file that has only one text. The hint says that a carriage return
/// follows the separator `%%`, or that the text `second` is missing.
fn missing_text(text: &[u8], second: &'static str) -> Hint {
    if has_line(text, b"%%\r") {
        Hint::ReturnAfterSeparator
    } else {
        Hint::MissingText(second)
    }
}

fn has_line(text: &[u8], wanted: &[u8]) -> bool {
    text.split(|byte| *byte == b'\n').any(|line| line == wanted)
}

fn hint_of_recording(text: &[u8]) -> Option<Hint> {
    if text.starts_with(b"recording 1") {
        None
    } else {
        Some(Hint::NotRecording)
    }
}

/// Returns a hint about the second file, which has the content `text`. `has_plan` says whether the
/// arguments name a first file that could be read. The caller must have found no mistake in the
/// first file. Returns `None` in these cases:
///
/// - The second file shows no known mistake.
/// - The command is `ask`. Its answer already explains the mistake.
/// - The command reads only one text.
fn hint_of_second(command: Command, text: &[u8], has_plan: bool) -> Option<Hint> {
    match command {
        Command::OnRecording(RecordingCommand::Conform) => hint_of_recording(text),
        Command::Sequential(ReviewCommand::Replay) => hint_of_events(text, has_plan),
        Command::Sequential(ReviewCommand::Check | ReviewCommand::Explain) => {
            hint_of_certificate(text, has_plan)
        }
        Command::OnThreads(Task::Run { .. }) => hint_of_misplaced(text, CERTIFICATE),
        // The answer of `ask` explains the mistake itself, and the other commands read one text.
        _ => None,
    }
}

/// Returns a hint about a file that the command reads as a certificate. `has_plan` says whether the
/// plan is known to have no fault. If so, the fault is in the certificate. If not, returns `None`
/// unless the file looks like a text of another kind.
fn hint_of_certificate(text: &[u8], has_plan: bool) -> Option<Hint> {
    if let Some(hint) = hint_of_misplaced(text, CERTIFICATE) {
        return Some(hint);
    }
    if has_plan {
        Some(Hint::NoCertificate)
    } else {
        None
    }
}

/// Returns a hint about a file of events. `has_plan` says whether the plan is known to have no
/// fault. If so, the fault is in the events. If not, returns `None` unless the file looks like a
/// text of another kind or its first line ends with a carriage return.
fn hint_of_events(text: &[u8], has_plan: bool) -> Option<Hint> {
    if let Some(hint) = hint_of_misplaced(text, "events") {
        return Some(hint);
    }
    if ends_with_return(text) {
        Some(Hint::ReturnsInEvents)
    } else if has_plan {
        Some(Hint::MalformedEvents)
    } else {
        None
    }
}

/// Returns a hint if the text looks like a text of a known kind other than `wanted`. Returns `None`
/// otherwise.
fn hint_of_misplaced(text: &[u8], wanted: &'static str) -> Option<Hint> {
    let found = kind_of(text)?;
    if found == wanted {
        None
    } else {
        Some(Hint::Misplaced { found, wanted })
    }
}

/// Returns the kind of text that this text looks like: a recording, a certificate or a plan.
/// Returns `None` if it looks like none of these.
fn kind_of(text: &[u8]) -> Option<&'static str> {
    if text.starts_with(b"recording 1") {
        Some("a recording")
    } else if text.starts_with(b"{") {
        Some(CERTIFICATE)
    } else if has_header(text) {
        Some(PLAN)
    } else {
        None
    }
}

/// Returns `true` if a line of the text begins with `[[pool]]`, `[[class]]` or `[[client]]`.
fn has_header(text: &[u8]) -> bool {
    text.split(|byte| *byte == b'\n')
        .any(|line| is_header(line))
}

fn is_header(line: &[u8]) -> bool {
    line.starts_with(b"[[pool]]")
        || line.starts_with(b"[[class]]")
        || line.starts_with(b"[[client]]")
}

/// Returns `true` if the first line of the text ends with a carriage return.
fn ends_with_return(text: &[u8]) -> bool {
    match text.split(|byte| *byte == b'\n').next() {
        Some(line) => line.ends_with(b"\r"),
        None => false,
    }
}

/// Returns the name of the text that must follow the plan, for example `the certificate`. Returns
/// `None` if the command needs no such text. Also returns `None` for `ask`, whose certificate is
/// optional.
fn second_text(command: Command) -> Option<&'static str> {
    match command {
        Command::Sequential(ReviewCommand::Replay) => Some("the events"),
        Command::Sequential(ReviewCommand::Check | ReviewCommand::Explain) => {
            Some("the certificate")
        }
        Command::OnRecording(RecordingCommand::Conform) => Some("the recording"),
        Command::OnThreads(Task::Run { .. }) => Some("the certificate"),
        Command::OnRecording(RecordingCommand::Learn { .. }) | Command::OnThreads(_) => None,
    }
}
