//! The `clap` application of the program, with a subcommand for each command.
ghost use Rattle.std.specs.Prelude.{◌≡◌, IfOk, IsOkAnd, false, codes};
ghost use Rattle.clap.specs.Words.{app_of, new_app, rule_of, shape_of, with_subcommand};
ghost use Rattle.clap.specs.declared.builder.command.Command.TheViews.{out-Command as fields_of};
ghost use Rattle.command_line.specs.Application.{ask_shape, bundle_option, certificate_option, certify_shape, check_shape, conform_shape, dot_option, explain_shape, file_argument, fit_shape, format_option, json_option, learn_shape, number_option, of_both, of_plan, program, refute_shape, replay_shape, rounds_option, run_shape, sizing, states_option, strict_option, with_recording_commands, with_review_commands, with_tasks, workers_option};

use crate::help;
use crate::help::Help;
use clap::builder::ValueParser;
use clap::{Arg, ArgAction, Command};
use job_bodies::{MAX_ROUNDS, MAX_STATES, MAX_WORKERS};
use std::alloc::{AllocError, Global};

/// Creates the application `sizing` with its subcommands.
pub(crate) fn application<'a>(alloc: Global) -> Result<Command<'a>, AllocError>
    ensures { IfOk result (λ made. app_of made ≡ sizing) }
{
    let reviewed = with_review_commands(alloc, program(alloc))?;
    let tasked = with_tasks(alloc, reviewed)?;
    with_recording_commands(alloc, tasked)
}

// Adds the subcommands `replay`, `check` and `explain`.
fn with_review_commands<'a>(alloc: Global, program: Command<'a>) -> Result<Command<'a>, AllocError>
    ensures { IfOk result (λ made. app_of made ≡ with_review_commands (app_of program.entry)) }
{
    let replayed = with_subcommand(program, replay(alloc))?;
    let checked = with_subcommand(replayed, check(alloc))?;
    with_subcommand(checked, explain(alloc))
}

// Adds the subcommands `certify`, `fit`, `run`, `refute` and `ask`.
fn with_tasks<'a>(alloc: Global, program: Command<'a>) -> Result<Command<'a>, AllocError>
    ensures { IfOk result (λ made. app_of made ≡ with_tasks (app_of program.entry)) }
{
    let certified = with_subcommand(program, certify(alloc))?;
    let fitted = with_subcommand(certified, fit(alloc))?;
    let ran = with_subcommand(fitted, run(alloc))?;
    let refuted = with_subcommand(ran, refute(alloc))?;
    with_subcommand(refuted, ask(alloc))
}

// Adds the subcommands `conform` and `learn`.
fn with_recording_commands<'a>(
    alloc: Global,
    program: Command<'a>,
) -> Result<Command<'a>, AllocError>
    ensures { IfOk result (λ made. app_of made ≡ with_recording_commands (app_of program.entry)) }
{
    let conformed = with_subcommand(program, conform(alloc))?;
    with_subcommand(conformed, learn(alloc))
}

// Adds a subcommand to the program, or returns the error of the subcommand's creation. The `?` is
// in this function so that no caller returns early while it owns a program.
fn with_subcommand<'a>(
    program: Command<'a>,
    made: Result<Command<'a>, AllocError>,
) -> Result<Command<'a>, AllocError>
    requires local { IfOk made (λ it. (fields_of it).has_globals ≡ false) }
    ensures { IfOk result (λ both.
        IsOkAnd made.entry (λ it. app_of both ≡ with_subcommand (app_of program.entry) (shape_of it))) }
{
    program.subcommand(made?)
}

// Creates the application without subcommands. Its version is empty, because `main` prints the
// version.
fn program<'a>(alloc: Global) -> Command<'a>
    ensures { app_of result ≡ program }
{
    with_help(Command::new(alloc, "sizing").version(""), help::SIZING)
}

fn replay<'a>(alloc: Global) -> Result<Command<'a>, AllocError>
    ensures shape { IfOk result (λ made. shape_of made ≡ replay_shape) }
    ensures local { IfOk result (λ made. (fields_of made).has_globals ≡ false) }
{
    of_both(alloc, "replay", help::REPLAY)
}

fn check<'a>(alloc: Global) -> Result<Command<'a>, AllocError>
    ensures shape { IfOk result (λ made. shape_of made ≡ check_shape) }
    ensures local { IfOk result (λ made. (fields_of made).has_globals ≡ false) }
{
    of_both(alloc, "check", help::CHECK)
}

fn explain<'a>(alloc: Global) -> Result<Command<'a>, AllocError>
    ensures shape { IfOk result (λ made. shape_of made ≡ explain_shape) }
    ensures local { IfOk result (λ made. (fields_of made).has_globals ≡ false) }
{
    of_both(alloc, "explain", help::EXPLAIN)
}

// Creates the argument that names the file of the plan. If it is the only file, it has the whole
// input.
fn plan<'a>(alloc: Global) -> Arg<'a>
    ensures rule { rule_of result ≡ file_argument (codes "PLAN") }
    ensures local { result.global ≡ false }
{
    file(alloc, "PLAN").help("The file of the plan, or of both texts; `-` is standard input")
}

// Creates the argument that names the file of the second text.
fn second<'a>(alloc: Global) -> Arg<'a>
    ensures rule { rule_of result ≡ file_argument (codes "SECOND") }
    ensures local { result.global ≡ false }
{
    file(alloc, "SECOND").help("The file of the second text")
}

// Creates an argument with this id, whose value names a file.
fn file<'a>(alloc: Global, id: &'a str) -> Arg<'a>
    ensures rule { rule_of result ≡ file_argument id.entry.now }
    ensures local { result.global ≡ false }
{
    Arg::new(alloc, id).value_name(id).action(ArgAction::Set)
}

fn certify<'a>(alloc: Global) -> Result<Command<'a>, AllocError>
    ensures shape { IfOk result (λ made. shape_of made ≡ certify_shape) }
    ensures local { IfOk result (λ made. (fields_of made).has_globals ≡ false) }
{
    of_plan(alloc, "certify", help::CERTIFY)?.arg(workers(alloc))
}

fn workers<'a>(alloc: Global) -> Arg<'a>
    ensures rule { rule_of result ≡ workers_option }
    ensures local { result.global ≡ false }
{
    number(alloc, "workers", 1, MAX_WORKERS)
        .default_value("4")
        .help("The number of threads that search, 1 to 64")
}

fn fit<'a>(alloc: Global) -> Result<Command<'a>, AllocError>
    ensures shape { IfOk result (λ made. shape_of made ≡ fit_shape) }
    ensures local { IfOk result (λ made. (fields_of made).has_globals ≡ false) }
{
    of_plan(alloc, "fit", help::FIT)?.arg(bundle(
        alloc,
        "Write the plan with the new sizes, and its certificate",
    ))
}

// Creates the option `--bundle` with this help text.
fn bundle<'a>(alloc: Global, help: &'a str) -> Arg<'a>
    ensures rule { rule_of result ≡ bundle_option }
    ensures local { result.global ≡ false }
{
    Arg::new(alloc, "bundle")
        .long("bundle")
        .action(ArgAction::SetTrue)
        .help(help)
}

fn run<'a>(alloc: Global) -> Result<Command<'a>, AllocError>
    ensures shape { IfOk result (λ made. shape_of made ≡ run_shape) }
    ensures local { IfOk result (λ made. (fields_of made).has_globals ≡ false) }
{
    of_both(alloc, "run", help::RUN)?.arg(rounds(alloc))
}

fn rounds<'a>(alloc: Global) -> Arg<'a>
    ensures rule { rule_of result ≡ rounds_option }
    ensures local { result.global ≡ false }
{
    number(alloc, "rounds", 1, MAX_ROUNDS)
        .help("The number of times that each repeating client goes through its body, 1 to 1000000")
        .required(true)
}

fn refute<'a>(alloc: Global) -> Result<Command<'a>, AllocError>
    ensures shape { IfOk result (λ made. shape_of made ≡ refute_shape) }
    ensures local { IfOk result (λ made. (fields_of made).has_globals ≡ false) }
{
    of_plan(alloc, "refute", help::REFUTE)?
        .arg(states(alloc))?
        .arg(bundle(
            alloc,
            "Write the plan and the events of the witness, for `sizing replay`",
        ))
}

fn states<'a>(alloc: Global) -> Arg<'a>
    ensures rule { rule_of result ≡ states_option }
    ensures local { result.global ≡ false }
{
    number(alloc, "states", 1, MAX_STATES)
        .default_value("100000")
        .help("The maximum number of states to search, 1 to 10000000")
}

fn ask<'a>(alloc: Global) -> Result<Command<'a>, AllocError>
    ensures shape { IfOk result (λ made. shape_of made ≡ ask_shape) }
    ensures local { IfOk result (λ made. (fields_of made).has_globals ≡ false) }
{
    of_both(alloc, "ask", help::ASK)?
        .arg(strict(alloc, "Exit with status 1 if there is a warning"))?
        .arg(format(alloc))?
        .arg(json(alloc))?
        .arg(dot(alloc))?
        .arg(certificate(alloc))
}

fn conform<'a>(alloc: Global) -> Result<Command<'a>, AllocError>
    ensures shape { IfOk result (λ made. shape_of made ≡ conform_shape) }
    ensures local { IfOk result (λ made. (fields_of made).has_globals ≡ false) }
{
    of_both(alloc, "conform", help::CONFORM)
}

fn learn<'a>(alloc: Global) -> Result<Command<'a>, AllocError>
    ensures shape { IfOk result (λ made. shape_of made ≡ learn_shape) }
    ensures local { IfOk result (λ made. (fields_of made).has_globals ≡ false) }
{
    subcommand(alloc, "learn", help::LEARN)
        .arg(recording(alloc))?
        .arg(strict(
            alloc,
            "Write no plan if the recording does not conform to it",
        ))
}

// Creates the argument that names the file of a recording. It has the same id as the argument for a
// plan, so the first file of each subcommand is found under one id.
fn recording<'a>(alloc: Global) -> Arg<'a>
    ensures rule { rule_of result ≡ file_argument (codes "PLAN") }
    ensures local { result.global ≡ false }
{
    Arg::new(alloc, "PLAN")
        .value_name("RECORDING")
        .action(ArgAction::Set)
        .help("The file of the recording; `-` is standard input")
}

// Creates the option `--strict` of `ask` or `learn` with this help text.
fn strict<'a>(alloc: Global, help: &'a str) -> Arg<'a>
    ensures rule { rule_of result ≡ strict_option }
    ensures local { result.global ≡ false }
{
    Arg::new(alloc, "strict")
        .long("strict")
        .action(ArgAction::SetTrue)
        .help(help)
}

// Creates the option `--format FORMAT`, which names the format of the answer. The help lists the
// formats, and `form_named` checks the value.
fn format<'a>(alloc: Global) -> Arg<'a>
    ensures rule { rule_of result ≡ format_option }
    ensures local { result.global ≡ false }
{
    Arg::new(alloc, "format")
        .long("format")
        .value_name("FORMAT")
        .action(ArgAction::Set)
        .help("The format of the answer{n}[possible values: text, json, dot, html, github, sarif]")
}

// Creates the option `--json`, which means `--format json`.
fn json<'a>(alloc: Global) -> Arg<'a>
    ensures rule { rule_of result ≡ json_option }
    ensures local { result.global ≡ false }
{
    Arg::new(alloc, "json")
        .long("json")
        .action(ArgAction::SetTrue)
        .help("The same as --format json")
}

// Creates the option `--dot`, which means `--format dot`.
fn dot<'a>(alloc: Global) -> Arg<'a>
    ensures rule { rule_of result ≡ dot_option }
    ensures local { result.global ≡ false }
{
    Arg::new(alloc, "dot")
        .long("dot")
        .action(ArgAction::SetTrue)
        .help("The same as --format dot")
}

// Creates the option `--certificate FILE`, which names the file to which a certificate is written.
fn certificate<'a>(alloc: Global) -> Arg<'a>
    ensures rule { rule_of result ≡ certificate_option }
    ensures local { result.global ≡ false }
{
    Arg::new(alloc, "certificate")
        .long("certificate")
        .value_name("FILE")
        .action(ArgAction::Set)
        .help("Write the certificate that was found to this file, for the next run")
}

// Creates the option `--ID N`, where N is a whole number from `low` to `high`.
fn number<'a>(alloc: Global, id: &'a str, low: u64, high: u64) -> Arg<'a>
    ensures rule { rule_of result ≡ number_option id.entry.now low high }
    ensures local { result.global ≡ false }
{
    Arg::new(alloc, id)
        .long(id)
        .value_name("N")
        .action(ArgAction::Set)
        .value_parser(ValueParser::unsigned(low, high))
}

// Creates a subcommand that reads a plan and a second text, and has no options.
fn of_both<'a>(alloc: Global, name: &'a str, help: Help) -> Result<Command<'a>, AllocError>
    ensures shape { IfOk result (λ made. shape_of made ≡ (of_both name.entry.now).top) }
    ensures local { IfOk result (λ made. (fields_of made).has_globals ≡ false) }
{
    of_plan(alloc, name, help)?.arg(second(alloc))
}

// Creates a subcommand that reads a plan, and has no options.
fn of_plan<'a>(alloc: Global, name: &'a str, help: Help) -> Result<Command<'a>, AllocError>
    ensures shape { IfOk result (λ made. shape_of made ≡ (of_plan name.entry.now).top) }
    ensures local { IfOk result (λ made. (fields_of made).has_globals ≡ false) }
{
    subcommand(alloc, name, help).arg(plan(alloc))
}

// Creates a subcommand without arguments.
fn subcommand<'a>(alloc: Global, name: &'a str, help: Help) -> Command<'a>
    ensures shape { shape_of result ≡ (new_app name.entry.now).top }
    ensures local { (fields_of result).has_globals ≡ false }
{
    with_help(Command::new(alloc, name).display_order(help.position), help)
}

// Sets the texts of the help.
fn with_help<'a>(command: Command<'a>, help: Help) -> Command<'a>
    ensures app { app_of result ≡ app_of command.entry }
    ensures shape { shape_of result ≡ shape_of command.entry }
    ensures local { (fields_of result).has_globals ≡ (fields_of command.entry).has_globals }
{
    command
        .about(help.about)
        .override_usage(help.usage)
        .after_help(help.notes)
}
