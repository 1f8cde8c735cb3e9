//! `sizing`: finds out whether the thread pools of a plan can refuse a task, and whether its jobs
//! can deadlock.
#![tactic(auto)]

mod hints;
mod version;

use crate::hints::{Hint, hint_of, reason_of, reason_unwritten};
use crate::version::VERSION;
use clap::error::ErrorKind;
use sizing_cli::{CliError, ServeFault, Status, StdFiles, StdSink, StdSource, serve_words};
use std::alloc::AllocError;
use std::fs::Files;
use std::process::ExitCode;
use std::{env, io};
use support::FaultHead;
use support::number::{READ_FAILED, WRITE_FAILED};

/// The exit status for arguments that are not UTF-8.
const USAGE: u8 = 2;

fn main(rt: HostRuntime) -> ExitCode {
    let words = match words_of(&rt) {
        Ok(words) => words,
        Err(error) => return unread_words(&rt, error.kind()),
    };
    let mut parts: Vec<&str> = Vec::new(rt.alloc());
    for word in &words {
        if parts.push(word.as_str()).is_err() {
            return report_error(&rt, &CliError::from(AllocError));
        }
    }
    let mut source = StdSource::new(rt.stdin());
    let mut sink = StdSink::new(rt.stdout());
    let mut files = StdFiles::new(&rt);
    match serve_words(&rt, rt.alloc(), &parts, &mut files, &mut source, &mut sink) {
        Ok(status) => {
            if status == Status::BadText {
                advise(&rt, &parts);
            }
            ExitCode::from(status.code())
        }
        Err(fault) if asks_for_version(&fault) => print_version(&rt),
        Err(fault) => report_error(&rt, &fault),
    }
}

/// Prints a hint to standard error if one of the files shows a likely mistake. `words` are the
/// arguments of the command line, which name the files.
fn advise(rt: &HostRuntime, words: &[&str]) {
    if let Some((name, hint)) = hint_of(rt, rt.alloc(), words) {
        let _ = print_hint(rt, name, hint);
    }
}

fn print_hint(rt: &impl Eprint, name: &str, hint: Hint) -> io::Result<()> {
    match hint {
        Hint::MissingText(second) => {
            eprintln!(rt; "{name} has no line `%%`: name a second file with {second}")
        }
        Hint::ReturnAfterSeparator => {
            eprintln!(rt;
                "the line `%%` of {name} ends with a carriage return: convert the file from CRLF to newlines alone"
            )
        }
        Hint::Misplaced { found, wanted } => {
            eprintln!(rt; "{name} looks like {found}: name {wanted} in its place")
        }
        Hint::NotRecording => {
            eprintln!(rt;
                "{name} is not a recording: the first line of a recording is `recording 1`"
            )
        }
        Hint::ReturnsInEvents => {
            eprintln!(rt;
                "the lines of {name} end with a carriage return: convert the file from CRLF to newlines alone"
            )
        }
        Hint::FaultyPlan => {
            eprintln!(rt;
                "`sizing ask {name}` prints each fault of this plan with its line, and what would be right"
            )
        }
        Hint::NoCertificate => {
            eprintln!(rt;
                "{name} is not a certificate for this plan: `sizing ask --certificate {name} PLAN` writes one if the plan is safe"
            )
        }
        Hint::MalformedEvents => {
            eprintln!(rt;
                "each line of {name} must be `client N`, `job N`, `take POOL`, `retire POOL` or `stuck N N ..`, with single spaces"
            )
        }
    }
}

/// Returns `true` if the error is a request for the version.
fn asks_for_version(fault: &CliError<'_>) -> bool {
    match fault {
        CliError::Words(error) => error.kind() == ErrorKind::DisplayVersion,
        _ => false,
    }
}

/// Prints the version, and returns the exit status.
fn print_version(rt: &(impl Print + Eprint + Files)) -> ExitCode {
    match println!(rt; "sizing {VERSION}") {
        Ok(()) => ExitCode::SUCCESS,
        Err(_) => report_error(
            rt,
            &CliError::Serve(ServeFault {
                number: WRITE_FAILED,
            }),
        ),
    }
}

/// Returns the arguments of the command line. Returns an error if an argument is not UTF-8, or if
/// memory runs out.
fn words_of(rt: &HostRuntime) -> io::Result<Vec<String>> {
    let mut words: Vec<String> = Vec::new(rt.alloc());
    for word in env::args(rt)? {
        words.push(word)?;
    }
    Ok(words)
}

/// Reports that the arguments could not be read or that memory ran out, and returns the exit
/// status.
fn unread_words(rt: &(impl Eprint + Files), kind: io::ErrorKind) -> ExitCode {
    if kind == io::ErrorKind::OutOfMemory {
        return report_error(rt, &CliError::from(AllocError));
    }
    let _ = eprintln!(rt; "the arguments must be UTF-8");
    ExitCode::from(USAGE)
}

/// Prints the error to standard error, and returns the exit status of the error. Ignores a failure
/// to print.
fn report_error(rt: &(impl Eprint + Files), fault: &CliError<'_>) -> ExitCode {
    let _ = print_error(rt, fault);
    ExitCode::from(fault.code())
}

fn print_error(rt: &(impl Eprint + Files), fault: &CliError<'_>) -> io::Result<()> {
    match fault {
        CliError::Words(error) if error.kind() == ErrorKind::OutOfMemory => {
            eprintln!(rt; "{}", ServeFault::from(AllocError))
        }
        CliError::Words(error) => eprint!(rt; "{error}"),
        CliError::NoCommand => {
            eprintln!(rt;
                "no command\n\nUsage: sizing <COMMAND>\n\nAsk about a plan with `sizing ask PLAN`. `sizing --help` lists the commands"
            )
        }
        CliError::InputTwice => {
            eprintln!(rt; "`-` names standard input for both texts: name a file for one of them")
        }
        CliError::Bundle(name) => {
            eprintln!(rt;
                "{name} is a bundle: a line `%%` separates its two texts; pass each text as a file of its own"
            )
        }
        CliError::CertificateNeedsFile => {
            eprintln!(rt; "--certificate needs the name of a file, not -")
        }
        CliError::Directory(name) => {
            eprintln!(rt; "{name} is a directory: --certificate needs the name of a file")
        }
        CliError::Occupied(name) => {
            eprintln!(rt;
                "{name} exists and is not a certificate, so it was not changed: name another file for --certificate"
            )
        }
        CliError::Unwritten(name) => {
            let reason = reason_unwritten(rt, name);
            eprintln!(rt; "{} at {name}{reason}", FaultHead(WRITE_FAILED))
        }
        CliError::Unread(name) => {
            let reason = reason_of(rt, name);
            eprintln!(rt; "{} at {name}{reason}", FaultHead(READ_FAILED))
        }
        CliError::Serve(fault) => eprintln!(rt; "{fault}"),
    }
}
