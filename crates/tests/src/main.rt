//! Tests of the whole program. `main` runs each suite on its files in `data/`, which have inputs
//! and expected answers that are written by hand. The modules `calls` and `threads` have the other
//! tests.
#![tactic(auto)]

#[cfg(test)]
mod calls;
mod files;
mod found;
mod on_threads;
mod plan_texts;
mod sequential;
#[cfg(test)]
mod threads;
mod worlds;

use files::run_files;
use on_threads::{OnThreads, answered};
use plan_texts::PlanTexts;
use sequential::SequentialCommands;
use std::alloc::Global;
use std::io;
use worlds::Worlds;

const PLAN_TEXTS: [&str; 9] = [
    "plan_slots",
    "plan_numbers",
    "plan_names",
    "plan_shapes",
    "plan_orders",
    "plan_spellings",
    "plan_documents",
    "plan_lists",
    "plan_written",
];

const WORLDS: [&str; 6] = [
    "world_lookups",
    "world_absent",
    "world_children",
    "world_refused",
    "world_rounds",
    "world_stuck",
];

const SEQUENTIAL: [&str; 13] = [
    "sequential_replays",
    "sequential_examples",
    "sequential_faults",
    "sequential_lines",
    "sequential_numbers",
    "sequential_parts",
    "sequential_checks",
    "sequential_explanations",
    "sequential_certificates",
    "sequential_words",
    "recorded_conforms",
    "recorded_learns",
    "recorded_learns_orders",
];

const ON_THREADS: [&str; 8] = [
    "threads_certify",
    "threads_checks",
    "threads_fits",
    "threads_runs",
    "threads_refutes",
    "threads_asks",
    "threads_formats",
    "found_sizes",
];

fn main(rt: HostRuntime) -> io::Result<()> {
    run_files(&rt, &PlanTexts, &PLAN_TEXTS)?;
    run_files(&rt, &Worlds, &WORLDS)?;
    run_files(&rt, &SequentialCommands, &SEQUENTIAL)?;
    let answer = move |alloc: Global, kind: &str, input: &[u8]| answered(&rt, alloc, kind, input);
    let suite = OnThreads::new(Box::new(rt.alloc(), answer)?);
    run_files(&rt, &suite, &ON_THREADS)?;
    run_files(&rt, &PlanTexts, &["long_plans"])?;
    run_files(&rt, &SequentialCommands, &["long_sequential"])?;
    run_files(&rt, &suite, &["long_threads"])
}
