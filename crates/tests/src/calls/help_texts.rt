//! Tests of the help texts.

use command_line::read_words;
use std::alloc::Global;
use std::test::*;

/// Cases: arguments that ask for help, and texts that the help contains.
const TABLE: &[(&[&str], &[&str])] = &[
    (
        &["sizing", "--help"],
        &[
            "\nUsage: sizing <COMMAND>\n",
            "\n  ask      Decide whether a plan is safe",
            "\n  check    Check whether a certificate proves",
            "\n  explain  List the conditions of a certificate that fail",
            "  -V, --version  Print version\n",
            "separated by a line that is exactly `%%`",
            "Begin with `sizing ask PLAN`;",
            "\nExit status:\n  0  yes, or done\n  1  ",
            "\n  4  not decided (`ask`, `conform` and `refute`)",
        ],
    ),
    (
        &["sizing", "replay", "--help"],
        &[
            "\nUsage: sizing replay PLAN EVENTS\n       sizing replay < INPUT\n",
            "\n  take POOL    an idle worker",
            "\nExit status:\n  0  ",
        ],
    ),
    (
        &["sizing", "check", "--help"],
        &[
            "\nUsage: sizing check PLAN CERTIFICATE\n       sizing check < INPUT\n",
            "\n  pool NAME: standing T of Q, blocked T of B\n",
            "\nExample: sizing certify shop.toml | sizing check",
        ],
    ),
    (
        &["sizing", "explain", "--help"],
        &["\nUsage: sizing explain PLAN CERTIFICATE\n       sizing explain < INPUT\n"],
    ),
    (
        &["sizing", "certify", "--help"],
        &[
            "\nUsage: sizing certify [--workers N] PLAN\n       sizing certify [--workers N] < PLAN\n",
            "--workers <N>",
            "1 to 64 [default: 4]",
        ],
    ),
    (
        &["sizing", "fit", "--help"],
        &[
            "\nUsage: sizing fit [--bundle] PLAN\n       sizing fit [--bundle] < PLAN\n",
            "--bundle",
            "\n  class NAME submits itself\n",
        ],
    ),
    (
        &["sizing", "run", "--help"],
        &[
            "\nUsage: sizing run --rounds N PLAN CERTIFICATE\n       sizing run --rounds N < INPUT\n",
            "--rounds <N>",
            "\n  fault 40 RunTooLarge ",
        ],
    ),
    (
        &["sizing", "refute", "--help"],
        &[
            "\nUsage: sizing refute [--states N] [--bundle] PLAN\n       sizing refute [--states N] [--bundle] < PLAN\n",
            "--states <N>",
            "[default: 100000]",
            "\n  not decided: S states were searched\n",
        ],
    ),
    (
        &["sizing", "conform", "--help"],
        &[
            "\nUsage: sizing conform PLAN RECORDING\n       sizing conform < INPUT\n",
            "\n  line 903: kind tomcat: 31 at once, count is 30\n",
        ],
    ),
    (
        &["sizing", "learn", "--help"],
        &[
            "\nUsage: sizing learn [--strict] RECORDING\n       sizing learn [--strict] < RECORDING\n",
            "[RECORDING]",
            "\nExample: sizing learn shop.recording | sizing ask",
        ],
    ),
    (
        &["sizing", "ask", "--help"],
        &[
            "\nUsage: sizing ask [--strict] [--format FORMAT] [--certificate FILE] PLAN [CERTIFICATE]\n",
            "--format <FORMAT> ",
            "[possible values: text, json, dot, html, github, sarif]\n",
            "--json ",
            "--dot ",
            "\n  text    ",
            "\n  json    ",
            "\n  dot     ",
            "\n  html    ",
            "\n  github  ",
            "\n  sarif   ",
            "\nIf the plan is invalid, the answer lists its faults, at most 100:\n",
            "\n  NOT SAFE     steps that end in",
            "\nIn a build: sizing ask --strict shop.toml ",
            "\nsizing ask <<'END'\n[[pool]]\n",
            "\nEND\n\nIt answers, with status 0:\n\nSAFE\npages: 1 thread, queue 2: up to 2 jobs wait at once (2 browser)\n",
        ],
    ),
];

/// Cases: arguments that `clap` accepts but `ask` refuses, and texts that the error contains.
const REFUSED: &[(&[&str], &[&str])] = &[
    (
        &["sizing", "ask", "--format", "xml", "shop.toml"],
        &[
            "error: invalid value 'xml' for '--format <FORMAT>'\n",
            "\n  [possible values: text, json, dot, html, github, sarif]\n",
        ],
    ),
    (
        &["sizing", "ask", "--json", "--dot"],
        &["error: the arguments '--format <FORMAT>', '--json' and '--dot' exclude each other\n"],
    ),
    (
        &["sizing", "ask", "--format", "json", "--json"],
        &["error: the arguments '--format <FORMAT>', '--json' and '--dot' exclude each other\n"],
    ),
    (
        &["sizing", "ask", "--dot", "--format", "xml"],
        &["error: the arguments '--format <FORMAT>', '--json' and '--dot' exclude each other\n"],
    ),
    (
        &["sizing", "ask", "--certificate", "-", "shop.toml"],
        &["error: '--certificate <FILE>' needs the name of a file\n"],
    ),
    (
        &["sizing", "ask", "--certificate=", "shop.toml"],
        &["error: '--certificate <FILE>' needs the name of a file\n"],
    ),
];

/// Tests that the help of the program names the first steps. Also tests that the help of a command
/// has its usage, its answers and its options.
#[test]
fn arguments_that_ask_for_help(rt: HostRuntime) -> Result<(), Fail> {
    assert_eq!(rt; incomplete_error(rt.alloc(), TABLE)?, None);
    Ok(())
}

/// Tests the errors for arguments that `clap` accepts but `ask` refuses. Each error must say what
/// is wrong.
#[test]
fn arguments_that_ask_refuses(rt: HostRuntime) -> Result<(), Fail> {
    assert_eq!(rt; incomplete_error(rt.alloc(), REFUSED)?, None);
    Ok(())
}

// Returns the first error that lacks one of its texts.
fn incomplete_error(alloc: Global, table: &[(&[&str], &[&str])]) -> Result<Option<String>, Fail> {
    for (arguments, parts) in table.iter().copied() {
        let Err(error) = read_words(alloc, arguments) else {
            return Err(Fail::from("the arguments are valid"));
        };
        let text = format!(in alloc; "{error}")?;
        if !parts.iter().all(|part| text.as_str().contains(*part)) {
            return Ok(Some(text));
        }
    }
    Ok(None)
}
