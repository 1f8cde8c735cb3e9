//! The commands of the program, and the parsing of the arguments that select one of them.
ghost use Rattle.std.specs.Prelude.{◌≡◌, IfOk, IfSome, codes, map, option_map};
ghost use Rattle.clap.specs.Words.{FailsBy, first_of, found_of, rows_of, subcommand_rows_of};
ghost use Rattle.command_line.specs.Command as spec;

use crate::application::application;
use crate::flag::is_set;
use crate::form::form_in;
use crate::number::number_of;
use crate::refusal::refusal;
use crate::text::{names_file, text_of};
use clap::{ArgMatches, Command as Application, Error};
use job_bodies::{MAX_ROUNDS, MAX_STATES, MAX_WORKERS};
use std::alloc::Global;

/// A command of the program.
#[derive(Clone, Copy)]
pub enum Command {
    /// A command on a plan and a second text: events or a certificate. It neither starts a thread
    /// nor waits for one.
    Sequential(ReviewCommand),
    /// A command on a recording. It neither starts a thread nor waits for one.
    OnRecording(RecordingCommand),
    /// A command that starts threads and joins them.
    OnThreads(Task),
}

/// A command on a plan and a second text: events or a certificate.
#[derive(Clone, Copy, Debug)]
pub enum ReviewCommand {
    /// Replays events on a plan, and reports the outcome of each event.
    Replay,
    /// Decides whether a certificate accepts a plan. In an accepted plan, no submit is refused, and
    /// no jobs wait for each other forever.
    Check,
    /// Lists the failing conditions of a certificate.
    Explain,
}

/// A command on a recording of what a service did.
#[derive(Clone, Copy, Debug)]
pub enum RecordingCommand {
    /// Compares a recording with the plan that precedes it in the input.
    Conform,
    /// Derives a plan from a recording.
    Learn {
        /// Whether the command writes the derived plan only if the recording conforms to it. If the
        /// recording does not conform, the command writes the differences instead.
        strict: bool,
    },
}

/// A command that uses threads: it searches, or it runs a plan.
#[derive(Clone, Copy, Debug)]
pub enum Task {
    /// Searches for a certificate.
    Certify {
        /// The maximum number of threads of the search and of the check, from 1 to 64. The default
        /// is 4.
        workers: usize,
    },
    /// Searches for pool sizes that a certificate accepts. The sizes of a pool are its core size,
    /// maximum and queue capacity.
    Fit {
        /// The output format for the pool sizes.
        sizes_form: SizesForm,
    },
    /// Runs a plan on threads, and counts the jobs and the units of work. A certificate must accept
    /// the plan.
    Run {
        /// The number of times that each repeating client performs its body, from 1 to 1,000,000.
        rounds: u64,
    },
    /// Searches for events that show that a plan is unsafe.
    Refute {
        /// The maximum number of states to search, from 1 to 10,000,000. The default is 100,000.
        states: usize,
        /// The output format for the events that were found.
        refute_format: RefuteFormat,
    },
    /// Decides whether a plan is safe with the sizes that it declares.
    Ask {
        /// The texts to read: a plan alone, or a plan and a certificate.
        given: AskInput,
        /// The output format, and whether a warning changes the exit status.
        options: AskOptions,
    },
}

/// The parsed arguments of a command line.
#[derive(Clone, Copy)]
pub struct Cli<'a> {
    pub command: Command,
    /// The first file. If it is the only file, it holds the whole input. Otherwise it holds the
    /// plan. `None` and `-` mean standard input.
    pub first: Option<&'a str>,
    /// The second file, which holds the text that follows the plan. `None` means that no second
    /// file is named, and `-` means standard input.
    pub second: Option<&'a str>,
    /// The file to which a certificate is written, if one is found. `None` means that no
    /// certificate is to be written.
    pub certificate: Option<&'a str>,
}

/// An output format of `fit`.
#[derive(Clone, Copy, Debug)]
pub enum SizesForm {
    /// A line for each pool, with its sizes. If a size differs from the plan, the size in the plan
    /// follows it, as in `core 2 (now 1)`. The last line has the number of these differences.
    Sizes,
    /// The plan with the new sizes, and its certificate.
    Bundle,
}

/// An output format of `refute`.
#[derive(Clone, Copy, Debug)]
pub enum RefuteFormat {
    /// Lines for a person: the violation, and the events that lead to it. The violation is a
    /// refused submit, or jobs that wait only for each other.
    Story,
    /// The plan and then the events, in the form that `replay` reads.
    Bundle,
}

/// The texts that `ask` reads.
#[derive(Clone, Copy, Debug)]
pub enum AskInput {
    /// A plan alone, because no second file is named.
    PlanAlone,
    /// A plan, and a certificate for it in the second file.
    WithCertificate,
}

/// The options of `ask`.
#[derive(Clone, Copy, Debug)]
pub struct AskOptions {
    /// Whether a warning about a safe plan changes the exit status from 0 to 1. A note does not
    /// change it. `ask` prints a note in place of a warning if the plan does not show whether there
    /// is a problem.
    pub strict: bool,
    pub form: Form,
}

/// An output format of `ask`.
#[derive(Clone, Copy, Debug)]
pub enum Form {
    /// Plain text for a person.
    Words,
    /// A JSON object, for a program.
    Json,
    /// A picture of the plan, for Graphviz.
    Dot,
    /// A page for a browser.
    Html,
    /// Annotations of a workflow, for GitHub Actions.
    Github,
    /// A SARIF log, for tools that show the results of analyses.
    Sarif,
}

/// Parses the arguments of a command line. The first argument is the program's name. Returns `None`
/// if the arguments name no command. The numbers in a returned command are in their ranges.
///
/// # Errors
///
/// Returns an error in these cases:
///
/// - `clap` rejects the arguments.
/// - A number is out of its range.
/// - `--format` names no format, or two of `--format`, `--json` and `--dot` are given.
/// - The value of `--certificate` is empty or `-`.
/// - The arguments ask for help or for the version.
/// - Memory runs out. The `kind` of the error is then `ErrorKind::OutOfMemory`.
///
/// The `Display` of the error is a text for the user.
pub fn read_words<'a>(alloc: Global, words: &'a [&'a str]) -> Result<Option<Cli<'a>>, Error>
    ensures command { IfOk result (λ found.
        option_map (λ cli. cli.command) found
        ≡ spec.command_of (map (λ word. word.now) words.now)) }
    ensures files { IfOk result (λ found.
        IfSome found
        (λ cli. spec.files_of_cli cli ≡ spec.files_of (map (λ word. word.now) words.now))) }
    ensures certificate { IfOk result (λ found.
        IfSome found (λ cli.
        spec.certificate_of_cli cli ≡ spec.certificate_of (map (λ word. word.now) words.now))) }
    ensures in_range { IfOk result (λ found. IfSome found (λ cli. spec.IsInRange cli.command)) }
    ensures fails { FailsBy (spec.faults_of (map (λ word. word.now) words.now)) result }
{
    let mut sizing = application(alloc)?;
    let matches = sizing.try_get_matches_from_mut(words)?;
    accepted_args(alloc, &mut sizing, &matches)
}

// Returns the parsed arguments, or an error if the options are invalid although `clap` accepts
// them.
fn accepted_args<'a>(
    alloc: Global,
    sizing: &mut Application<'_>,
    matches: &ArgMatches<'a>,
) -> Result<Option<Cli<'a>>, Error>
    ensures command { IfOk result (λ found.
        option_map (λ cli. cli.command) found ≡ spec.command_among (subcommand_rows_of matches.now)) }
    ensures files { IfOk result (λ found.
        IfSome found
        (λ cli. spec.files_of_cli cli ≡ spec.files_among (subcommand_rows_of matches.now))) }
    ensures certificate { IfOk result (λ found.
        IfSome found (λ cli.
        spec.certificate_of_cli cli ≡ spec.certificate_among (subcommand_rows_of matches.now))) }
    ensures in_range { IfOk result (λ found. IfSome found (λ cli. spec.IsInRange cli.command)) }
    ensures fails { FailsBy (spec.kinds_of_refusal (subcommand_rows_of matches.now)) result }
{
    if is_refused(matches) {
        return Err(refusal(alloc, sizing, matches)?);
    }
    Ok(parsed_args(matches))
}

// Returns the parsed arguments, or `None` if no subcommand was entered or its options are invalid.
fn parsed_args<'a>(matches: &ArgMatches<'a>) -> Option<Cli<'a>>
    ensures command { option_map (λ cli. cli.command) result
        ≡ spec.command_among (subcommand_rows_of matches.now) }
    ensures files { IfSome result
        (λ cli. spec.files_of_cli cli ≡ spec.files_among (subcommand_rows_of matches.now)) }
    ensures certificate { IfSome result (λ cli.
        spec.certificate_of_cli cli ≡ spec.certificate_among (subcommand_rows_of matches.now)) }
    ensures in_range { IfSome result (λ cli. spec.IsInRange cli.command) }
{
    let command = command_among(matches)?;
    let (_, options) = matches.subcommand()?;
    Some(Cli {
        command,
        first: text_of(options, "PLAN"),
        second: text_of(options, "SECOND"),
        certificate: text_of(options, "certificate"),
    })
}

// Returns whether a subcommand was entered with options that are invalid although `clap` accepts
// them.
fn is_refused(matches: &ArgMatches<'_>) -> bool
    ensures { result ≡ spec.is_refused (subcommand_rows_of matches.now) }
{
    matches.subcommand().is_some() && command_among(matches).is_none()
}

// Returns the command of the subcommand that was entered, or `None` if no subcommand was entered or
// its options are invalid.
fn command_among(matches: &ArgMatches<'_>) -> Option<Command>
    ensures command { result ≡ spec.command_among (subcommand_rows_of matches.now) }
    ensures in_range { IfSome result spec.IsInRange }
{
    match matches.subcommand()? {
        ("replay", _) => Some(Command::Sequential(ReviewCommand::Replay)),
        ("check", _) => Some(Command::Sequential(ReviewCommand::Check)),
        ("explain", _) => Some(Command::Sequential(ReviewCommand::Explain)),
        ("conform", _) => Some(Command::OnRecording(RecordingCommand::Conform)),
        ("learn", options) => Some(Command::OnRecording(learn(options))),
        (name, options) => Some(Command::OnThreads(task_of(name, options)?)),
    }
}

// Returns the task of the subcommand with this name and these options, or `None` if no task has
// this name or the options are invalid.
fn task_of(name: &str, options: &ArgMatches<'_>) -> Option<Task>
    ensures task { result ≡ spec.task_of name.now (rows_of (found_of options.now)) }
    ensures in_range { IfSome result spec.IsTaskInRange }
{
    match name {
        "certify" => certify(options),
        "fit" => Some(fit(options)),
        "run" => run(options),
        "refute" => refute(options),
        "ask" => ask(options),
        _ => None,
    }
}

fn learn(options: &ArgMatches<'_>) -> RecordingCommand
    ensures { result
        ≡ spec.learn_with (spec.is_set (codes "strict") (rows_of (found_of options.now))) }
{
    RecordingCommand::Learn {
        strict: is_set(options, "strict"),
    }
}

fn certify(options: &ArgMatches<'_>) -> Option<Task>
    ensures task { result
        ≡ spec.certify_with
        (spec.number_of (codes "workers") 1 MAX_WORKERS (rows_of (found_of options.now))) }
    ensures in_range { IfSome result spec.IsTaskInRange }
{
    let workers = number_of(options, "workers", 1, MAX_WORKERS)?;
    Some(Task::Certify {
        workers: workers as usize,
    })
}

fn fit(options: &ArgMatches<'_>) -> Task
    ensures { result
        ≡ spec.fit_with (spec.is_set (codes "bundle") (rows_of (found_of options.now))) }
{
    let sizes_form = if is_set(options, "bundle") {
        SizesForm::Bundle
    } else {
        SizesForm::Sizes
    };
    Task::Fit { sizes_form }
}

fn run(options: &ArgMatches<'_>) -> Option<Task>
    ensures task { result
        ≡ spec.run_with
        (spec.number_of (codes "rounds") 1 MAX_ROUNDS (rows_of (found_of options.now))) }
    ensures in_range { IfSome result spec.IsTaskInRange }
{
    let rounds = number_of(options, "rounds", 1, MAX_ROUNDS)?;
    Some(Task::Run { rounds })
}

fn refute(options: &ArgMatches<'_>) -> Option<Task>
    ensures task { result
        ≡ spec.refute_with (spec.is_set (codes "bundle") (rows_of (found_of options.now)))
        (spec.number_of (codes "states") 1 MAX_STATES (rows_of (found_of options.now))) }
    ensures in_range { IfSome result spec.IsTaskInRange }
{
    let states = number_of(options, "states", 1, MAX_STATES)?;
    let refute_format = if is_set(options, "bundle") {
        RefuteFormat::Bundle
    } else {
        RefuteFormat::Story
    };
    Some(Task::Refute {
        states: states as usize,
        refute_format,
    })
}

fn ask(options: &ArgMatches<'_>) -> Option<Task>
    ensures task { result ≡ spec.ask_named (rows_of (found_of options.now)) }
    ensures in_range { IfSome result spec.IsTaskInRange }
{
    if !names_file(text_of(options, "certificate")) {
        return None;
    }
    let form = form_in(options)?;
    let strict = is_set(options, "strict");
    Some(Task::Ask {
        given: ask_input(options),
        options: AskOptions { strict, form },
    })
}

fn ask_input(options: &ArgMatches<'_>) -> AskInput
    ensures { result
        ≡ spec.ask_input_of (first_of (codes "SECOND") (rows_of (found_of options.now))) }
{
    match text_of(options, "SECOND") {
        Some(_) => AskInput::WithCertificate,
        None => AskInput::PlanAlone,
    }
}
