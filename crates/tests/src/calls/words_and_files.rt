//! Tests of whole command lines: the arguments, the files that they name, and the output.

ghost use Rattle.std.specs.Prelude.{None};

use byte_streams::{InputError, IoFault};
use sizing_cli::{CliError, MemorySink, MemorySource, ServeFault, Status, TextFiles, serve_words};
use std::alloc::Global;
use std::test::*;

const PLAN: &str = "pool = [{ name = 'p', core = 1, max = 1, queue = 2 }]
class = [{ name = 'a', pool = 'p', body = ['work 1'] }]
client = [{ name = 'c', count = 2, repeat = true, body = ['submit a as x', 'get x'] }]";

// A plan like `PLAN` whose queue is smaller by one than its clients need.
const SMALL_QUEUE: &str = "pool = [{ name = 'p', core = 1, max = 1, queue = 1 }]
class = [{ name = 'a', pool = 'p', body = ['work 1'] }]
client = [{ name = 'c', count = 2, repeat = true, body = ['submit a as x', 'get x'] }]";

const CERT: &str = r#"{"version": 1, "pools": [
    {"standing": {"workers": [0], "classes": [[1, 1, 1, 1]], "clients": [[1, 0, 1]]},
     "blocked": {"workers": [0], "classes": [[0, 0, 0, 0]], "clients": [[0, 0, 0]]}}],
    "ranks": {"pools": [0], "reach": [0], "levels": [0]}}"#;

// A JSON object that is no certificate.
const PACKAGE: &str = r#"{"name": "p", "version": 1, "pools": []}"#;

// A certificate of another plan, without pools.
const OLDER_CERT: &str =
    r#"{"version": 1, "pools": [], "ranks": {"pools": [], "reach": [], "levels": []}}"#;

const EVENTS: &str = "client 0\nclient 0\n";

// The bundle of the plan and the events. The plan has no newline at its end, so a newline is
// inserted before the line `%%`.
const PLAN_AND_EVENTS: &str = "pool = [{ name = 'p', core = 1, max = 1, queue = 2 }]
class = [{ name = 'a', pool = 'p', body = ['work 1'] }]
client = [{ name = 'c', count = 2, repeat = true, body = ['submit a as x', 'get x'] }]
%%
client 0
client 0
";

/// A file system in memory, which finds files by their names.
#[derive(Clone, Copy)]
struct FakeFiles;

impl TextFiles for FakeFiles {
    ghost content = { λ _ _. None };

    ghost directory = { λ _ _. None };

    ghost writes = { λ _. None };

    fn read(&self, alloc: Global, name: &str, limit: usize) -> Result<Vec<u8>, InputError> {
        let text = match name {
            "plan.toml" => PLAN,
            "cert.json" => CERT,
            "events" => EVENTS,
            "package.json" => PACKAGE,
            "older.json" => OLDER_CERT,
            "both" => PLAN_AND_EVENTS,
            _ => return Err(InputError::Fault),
        };
        let bytes = text.as_bytes();
        Ok(Vec::from_slice(alloc, &bytes[..bytes.len().min(limit)])?)
    }

    fn read_stored(
        &self,
        alloc: Global,
        name: &str,
        limit: usize,
    ) -> Result<Option<Vec<u8>>, InputError> {
        match self.read(alloc, name, limit) {
            Ok(text) => Ok(Some(text)),
            Err(InputError::Fault) if name == "locked.json" => Err(InputError::Fault),
            Err(InputError::Fault) => Ok(None),
            Err(error) => Err(error),
        }
    }

    fn is_directory(&self, name: &str) -> bool {
        name == "."
    }

    fn write(&mut self, name: &str, bytes: &[u8]) -> Result<(), IoFault> {
        if name == "kept.json" && bytes == CERT_FOUND.as_bytes() {
            Ok(())
        } else {
            Err(IoFault)
        }
    }
}

/// The text of the certificate `CERT`, as the program writes it.
const CERT_FOUND: &str =
    "{\"pools\":[{\"blocked\":{\"classes\":[[0,0,0,0]],\"clients\":[[0,0,0]],\"workers\":[0]},\"standing\":{\"classes\":[[1,1,1,1]],\"clients\":[[1,0,1]],\"workers\":[0]}}],\"ranks\":{\"levels\":[0],\"pools\":[0],\"reach\":[0]},\"version\":1}\n";

const ASKED: &str =
    "SAFE\np: 1 thread, queue 2: up to 2 jobs wait at once (2 c)\n  p waits for no pool\nno submit is ever refused, and no jobs wait for each other forever\n";

const YES: &str = "yes\npool p: standing 2 of 2, blocked 0 of 0\n";

const NO_STEP: &str = "1: started job 0\n2: not possible\nrefusals 0, unfinished 1\n";

const SAFE: &str = "safe: a certificate was found\n";

const NO_CHANGE: &str = "pool p: core 1, max 1, queue 2\nchanges 0\n";

const RUN: &str = "jobs 4, units 4, refused 0\n";

/// A case: the arguments with the program's name, the standard input, and the expected exit status
/// and output.
type Case = (&'static [&'static str], &'static str, Status, &'static str);

const ANSWERS: &[Case] = &[
    (
        &["sizing", "check", "plan.toml", "cert.json"],
        "",
        Status::Done,
        YES,
    ),
    (
        &["sizing", "check", "-", "cert.json"],
        PLAN,
        Status::Done,
        YES,
    ),
    (
        &["sizing", "check", "plan.toml", "-"],
        CERT,
        Status::Done,
        YES,
    ),
    (
        &["sizing", "explain", "plan.toml", "cert.json"],
        "",
        Status::Done,
        "failing 0\n",
    ),
    (
        &["sizing", "explain", "-", "cert.json"],
        SMALL_QUEUE,
        Status::Refused,
        "pool p standing, total: S2 2 above 1\nfailing 1\n",
    ),
    (
        &["sizing", "replay", "plan.toml", "events"],
        "",
        Status::Refused,
        NO_STEP,
    ),
    (&["sizing", "replay", "both"], "", Status::Refused, NO_STEP),
    // A line `%%` of a recording is a bad line with a number.
    (
        &["sizing", "conform", "plan.toml", "-"],
        "recording 1\n%%\n",
        Status::BadText,
        "fault 53 BadRecording at line 2: it is not a valid line\n",
    ),
    (
        &["sizing", "conform", "plan.toml", "both"],
        "",
        Status::BadText,
        "fault 53 BadRecording at line 1: it is not a valid line\n",
    ),
    (
        &["sizing", "replay"],
        PLAN_AND_EVENTS,
        Status::Refused,
        NO_STEP,
    ),
    (
        &["sizing", "replay", "-"],
        PLAN_AND_EVENTS,
        Status::Refused,
        NO_STEP,
    ),
    (
        &["sizing", "replay", "plan.toml"],
        "",
        Status::BadText,
        "fault 50 NoSeparator\n",
    ),
    (
        &["sizing", "run", "--rounds", "2", "plan.toml", "cert.json"],
        "",
        Status::Done,
        RUN,
    ),
    (&["sizing", "fit", "plan.toml"], "", Status::Done, NO_CHANGE),
    (&["sizing", "refute", "plan.toml"], "", Status::Done, SAFE),
    (
        &["sizing", "ask", "--strict", "plan.toml"],
        "",
        Status::Done,
        ASKED,
    ),
    (
        &[
            "sizing",
            "ask",
            "--certificate",
            "kept.json",
            "plan.toml",
            "cert.json",
        ],
        "",
        Status::Done,
        ASKED,
    ),
];

/// Tests that texts are read from the named files. A text is read from standard input if its file
/// is `-` or if no file is named.
#[test]
fn texts_come_from_files(rt: HostRuntime) -> Result<(), Fail> {
    for (words, given, status, written) in ANSWERS.iter().copied() {
        let mut source = MemorySource::new(given.as_bytes());
        let mut sink = MemorySink::new(rt.alloc());
        let ended = serve_words(
            &rt,
            rt.alloc(),
            words,
            &mut FakeFiles,
            &mut source,
            &mut sink,
        );
        let text = String::from_utf8_lossy(rt.alloc(), sink.written())?;
        assert_eq!(rt; text.as_str(), written, "{words:?}");
        assert!(rt; matches!(ended, Ok(found) if found == status), "{words:?}");
    }
    Ok(())
}

/// Cases in which the command gives no answer: the arguments, the message and the exit status.
const NO_ANSWERS: &[(&[&str], &str, u8)] = &[
    (
        &["sizing", "check", "none.toml", "cert.json"],
        "unread none.toml",
        3,
    ),
    (
        &["sizing", "check", "plan.toml", "none.json"],
        "unread none.json",
        3,
    ),
    (&["sizing", "certify", "none.toml"], "unread none.toml", 3),
    (&["sizing", "check", "-", "-"], "input twice", 2),
    // If two texts are given, neither may be a bundle. The exception is a recording.
    (&["sizing", "ask", "plan.toml", "both"], "bundle both", 2),
    (&["sizing", "check", "both", "cert.json"], "bundle both", 2),
    (&["sizing", "conform", "both", "-"], "bundle both", 2),
    (&["sizing", "fit", "--bundle", "--", "-x"], "unread -x", 3),
    (&["sizing"], "no command", 2),
    // If an argument is missing or misplaced, no existing file is overwritten with a certificate.
    (
        &["sizing", "ask", "--certificate", "plan.toml", "plan.toml"],
        "occupied plan.toml",
        2,
    ),
    (
        &["sizing", "ask", "--certificate", "plan.toml"],
        "occupied plan.toml",
        2,
    ),
    (
        &["sizing", "ask", "--certificate", "events", "plan.toml"],
        "occupied events",
        2,
    ),
    (
        &[
            "sizing",
            "ask",
            "--certificate",
            "package.json",
            "plan.toml",
        ],
        "occupied package.json",
        2,
    ),
    // A name that no file can have is an error before the plan is read.
    (
        &["sizing", "ask", "--certificate", "-", "none.toml"],
        "words ValueValidation",
        2,
    ),
    (
        &["sizing", "ask", "--certificate", ".", "none.toml"],
        "directory .",
        2,
    ),
    (
        &["sizing", "ask", "--certificate", "locked.json", "plan.toml"],
        "unread locked.json",
        3,
    ),
    (
        &["sizing", "chek", "plan.toml"],
        "words InvalidSubcommand",
        2,
    ),
    (
        &["sizing", "run", "plan.toml", "cert.json"],
        "words MissingRequiredArgument",
        2,
    ),
    (&["sizing", "--help"], "words DisplayHelp", 2),
];

/// Tests that each command line in [`NO_ANSWERS`] fails with the expected message and exit status.
#[test]
fn words_without_an_answer(rt: HostRuntime) -> Result<(), Fail> {
    for (words, wanted, code) in NO_ANSWERS.iter().copied() {
        let mut source = MemorySource::new(b"");
        let mut sink = MemorySink::new(rt.alloc());
        let ended = serve_words(
            &rt,
            rt.alloc(),
            words,
            &mut FakeFiles,
            &mut source,
            &mut sink,
        );
        let Err(fault) = ended else {
            return Err(Fail::from("an answer"));
        };
        let text = match &fault {
            CliError::Words(error) => format!(in rt.alloc(); "words {:?}", error.kind())?,
            CliError::NoCommand => String::from_str(rt.alloc(), "no command")?,
            CliError::InputTwice => String::from_str(rt.alloc(), "input twice")?,
            CliError::Unread(name) => format!(in rt.alloc(); "unread {name}")?,
            CliError::Bundle(name) => format!(in rt.alloc(); "bundle {name}")?,
            CliError::CertificateNeedsFile => String::from_str(
                rt.alloc(),
                "certificate needs file",
            )?,
            CliError::Directory(name) => format!(in rt.alloc(); "directory {name}")?,
            CliError::Occupied(name) => format!(in rt.alloc(); "occupied {name}")?,
            CliError::Unwritten(name) => format!(in rt.alloc(); "unwritten {name}")?,
            CliError::Serve(ServeFault { number }) => format!(in rt.alloc(); "fault {number}")?,
        };
        assert_eq!(rt; text.as_str(), wanted, "{words:?}");
        assert_eq!(rt; fault.code(), code, "{words:?}");
        assert!(rt; sink.written().is_empty(), "{words:?}");
    }
    Ok(())
}

/// Tests a certificate that cannot be written, because its folder is missing or its file cannot be
/// replaced. The call then still writes the whole answer, and returns the error. The call may
/// overwrite a file that has a certificate, even if the certificate belongs to another plan.
#[test]
fn an_unwritten_certificate(rt: HostRuntime) -> Result<(), Fail> {
    for name in ["none/kept.json", "cert.json", "older.json"] {
        let words = ["sizing", "ask", "--certificate", name, "plan.toml"];
        let mut source = MemorySource::new(b"");
        let mut sink = MemorySink::new(rt.alloc());
        let ended = serve_words(
            &rt,
            rt.alloc(),
            &words,
            &mut FakeFiles,
            &mut source,
            &mut sink,
        );
        let text = String::from_utf8_lossy(rt.alloc(), sink.written())?;
        assert_eq!(rt; text.as_str(), ASKED);
        assert!(rt; matches!(ended, Err(CliError::Unwritten(file)) if file == name));
    }
    Ok(())
}
