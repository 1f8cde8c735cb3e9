//! The answers of the commands that use threads, and of the search for sizes.

mod ask;
mod certify;
mod check;
mod ended;
mod failing;
mod fit;
mod refute;
mod run;
mod suite;

use crate::found::sizes_for;
use crate::on_threads::ask::asked;
use crate::on_threads::certify::{certified, certified_and_checked};
use crate::on_threads::check::checked;
use crate::on_threads::fit::{fitted, fitted_and_checked, fitted_bundle};
use crate::on_threads::refute::{
    refuted, refuted_and_replayed, refuted_briefly, refuted_bundle, refuted_head,
};
use crate::on_threads::run::ran_for;
pub use crate::on_threads::suite::OnThreads;
use std::alloc::{AllocError, Global};
use std::sync::Wait;
use std::thread::Threads;

/// Returns the answer to an input of this kind. If the answer has the output of a command, its last
/// line is the exit status or the fault. An input is the text of a plan, unless a kind below says
/// otherwise.
///
/// Some tests repeat the command "with single bytes": the source and the sink then transfer one
/// byte in each call.
///
/// - `certify`: the output of `certify` with one worker. The test repeats the command with 64
///   workers. If the text is short, the test also repeats the command with two workers, with single
///   bytes, and with a source and a sink that fail.
/// - `certify and check`: if `certify` writes a bundle, the first line of the output of `check` for
///   this bundle. Otherwise the answer is the same as for `certify`.
/// - `check`: the verdict or the fault of the check. The input is a bundle. The test repeats the
///   check on threads, with several numbers of workers.
/// - `fit` and `fit bundle`: the output of `fit` as sizes and as a bundle. If the text is short,
///   the test repeats the command with single bytes, and with a source and a sink that fail. The
///   same applies to `refute`, `refute bundle`, and each kind of `ask` except `ask head` and
///   `ask html`.
/// - `fit and check`: if `fit` writes a bundle, the first line of the output of `check` for this
///   bundle, and then the output of `fit` for the plan in the bundle. Otherwise the answer is the
///   output of `fit`.
/// - `run`: the output of `run`. The input is a line with the number of rounds, and then a bundle.
///   If there are few rounds, the test repeats the command with single bytes, and with a source and
///   a sink that fail.
/// - `refute`: the output of `refute` as a description.
/// - `refute head`: the first line of the output of `refute`.
/// - `refute briefly`: the first line of the output of `refute` with a limit of one state.
/// - `refute bundle`: the output of `refute` as a bundle.
/// - `refute and replay`: the output of `replay` for the bundle that `refute` writes. If `refute`
///   writes no bundle, the answer is the output of `refute`.
/// - `ask` and `ask strict`: the output of `ask`.
/// - `ask head`: the first line of the output of `ask`.
/// - `ask with` and `ask with strict`: the output of `ask` for an input that is a bundle of a plan
///   and a certificate.
/// - `ask json`, `ask json strict`, `ask json with`, `ask dot`, `ask github`, `ask github with`,
///   `ask sarif` and `ask sarif with`: the output of `ask` in the format that the second word
///   names.
/// - `ask html`: the JSON object in the HTML page that `ask` writes.
/// - `sizes`: the sizes that the search for sizes finds, as lines. The test does not search for a
///   certificate first. The answer has no exit status.
pub fn answered<R: Threads + Wait + Sync>(
    rt: &R,
    alloc: Global,
    kind: &str,
    input: &[u8],
) -> Result<String, AllocError> {
    match kind {
        "certify" => certified(rt, alloc, input),
        "certify and check" => certified_and_checked(rt, alloc, input),
        "check" => checked(rt, alloc, input),
        "fit" => fitted(rt, alloc, input),
        "fit bundle" => fitted_bundle(rt, alloc, input),
        "fit and check" => fitted_and_checked(rt, alloc, input),
        "run" => ran_for(rt, alloc, input),
        "refute" => refuted(rt, alloc, input),
        "refute head" => refuted_head(rt, alloc, input),
        "refute briefly" => refuted_briefly(rt, alloc, input),
        "refute bundle" => refuted_bundle(rt, alloc, input),
        "refute and replay" => refuted_and_replayed(rt, alloc, input),
        "sizes" => sizes_for(alloc, input),
        _ => asked(rt, alloc, kind, input),
    }
}
