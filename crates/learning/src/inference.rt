//! Derivation of a plan from a recording.

ghost use Rattle.std.specs.Prelude.{◌≡◌, ◌<◌, ◌++◌, ◌∷◌, [], ℕ, List, Ok, length, slice_get, string_bytes, OnOk, IfOk, IfErr};
ghost use Rattle.std.specs.List.{All};
ghost use Rattle.recordings.specs.RecordingLine.{RecordedLine, lines_read};
ghost use Rattle.recordings.specs.Faults.{IsFirstFault};
ghost use Rattle.recordings.specs.Before.{begins, submits};
ghost use Rattle.learning.specs.Counts.{AreCounted, AreOfKinds, Kinds, IsCounted, client_names};
ghost use Rattle.learning.specs.LearningState.{AreCountsOf, IsDraftOf, IsCountOf, IsLearnError, names_of};
ghost use Rattle.learning.specs.LabelRounds.{AreLabelRoundsOf};
ghost use Rattle.learning.specs.InferenceResult.{lines_of, fault_of, IfInferred, IfLimit};
ghost use Rattle.learning.specs.FirstPass.{AreNamesOfAll, IsLearnErrorAt, IsCorrectResult, IsInferredFrom};
ghost use Rattle.learning.specs.Names.{IsNamedClass, IsNamedClient};
ghost use Rattle.learning.specs.Pools.{recorded_pools};
ghost use Rattle.learning.specs.InferenceLimit.{HasActors, IsReason};
ghost use Rattle.learning.specs.Unfinished.{unfinished_rounds, unfinished_jobs, failed_gets};

use crate::counts::{KindCount, kind_counts};
use crate::covering::cover_all;
use crate::draft::client_of;
use crate::entries::Entry;
use crate::extent::{Extent, RecordingPart};
use crate::inference_limit::InferenceLimit;
use crate::inference_result::{InferenceResult, InferredPlan};
use crate::learn_error::LearnError;
use crate::recorded_names::{RecordedNames, recorded_names};
use job_bodies::{Client, MAX_SIZE, Plan};
use std::alloc::{AllocError, Global};

/// Returns a plan that is learned from a recording. `extent` selects the part of the recording from
/// which bodies are learned.
///
/// The whole recording is read once, for its names, its counts and its first invalid line. If the
/// names exceed a limit of plans, it is read again for its first invalid line. The selected part is
/// read a few more times, usually twice, while the bodies change. If a label has several client
/// kinds, the rounds of each kind must also be counted. One more pass does this if the selected
/// part is the whole recording. Otherwise, the result is an [`InferenceLimit`].
///
/// The memory grows with these numbers:
///
/// - the number of open actors;
/// - the size of the plan;
/// - the number and the length of the paths for which a body was changed, at most 256 for each
///   body;
/// - the number of rounds in the selected part.
///
/// The contract promises that the bodies form a plan. It does not promise that the recording
/// matches the bodies, so the caller must compare the recording with the plan. It also does not
/// promise to find a plan whenever one exists.
///
/// # Errors
///
/// Returns `AllocError` if memory runs out.
pub fn learn(alloc: Global, recording: &[u8], extent: Extent) -> Result<InferenceResult, AllocError>
    ensures bad { IfOk result (λ reported. IsFirstFault (lines_read recording.now) (fault_of reported)) }
    ensures pools { IfOk result
        (IfInferred (λ inferred. inferred.plan.pools ≡ recorded_pools (lines_of recording.now))) }
    ensures counts { IfOk result
        (IfInferred (λ inferred. AreCounted (lines_of recording.now) inferred.plan.clients)) }
    ensures classes { IfOk result
        (IfInferred (λ inferred. All (IsNamedClass (lines_of recording.now)) inferred.plan.classes)) }
    ensures clients { IfOk result
        (IfInferred (λ inferred. All (IsNamedClient (lines_of recording.now)) inferred.plan.clients)) }
    ensures rounds { IfOk result (IfInferred (λ inferred. inferred.rounds ≡ begins (lines_of recording.now))) }
    ensures jobs { IfOk result (IfInferred (λ inferred. inferred.jobs ≡ submits (lines_of recording.now))) }
    ensures unfinished_rounds { IfOk result
        (IfInferred (λ inferred. inferred.unfinished_rounds ≡ unfinished_rounds (lines_of recording.now))) }
    ensures unfinished_jobs { IfOk result
        (IfInferred (λ inferred. inferred.unfinished_jobs ≡ unfinished_jobs (lines_of recording.now))) }
    ensures failed_gets { IfOk result (IfInferred (λ inferred. inferred.failed_gets ≡ failed_gets (lines_of recording.now))) }
    ensures inference_limit { IfOk result (IfLimit (IsReason (lines_of recording.now))) }
{
    match inference_result(alloc, recording, extent) {
        Ok(reported) => Ok(reported),
        Err(LearnError::InferenceLimit(reason)) => Ok(InferenceResult::InferenceLimit(reason)),
        Err(LearnError::Memory(error)) => Err(error),
    }
}

fn inference_result(
    alloc: Global,
    recording: &[u8],
    extent: Extent,
) -> Result<InferenceResult, LearnError>
    ensures ok { IfOk result (IsCorrectResult recording.now) }
    ensures err { IfErr result (IsLearnErrorAt (lines_read recording.now)) }
{
    match recorded_names(alloc, recording)? {
        Err(fault) => Ok(InferenceResult::Invalid(fault)),
        Ok(names) => Ok(InferenceResult::Inferred(infer_plan(alloc, recording, extent, names)?)),
    }
}

fn infer_plan(
    alloc: Global,
    recording: &[u8],
    extent: Extent,
    mut names: RecordedNames,
) -> Result<InferredPlan, LearnError>
    ensures ok { AreNamesOfAll (lines_read recording.now) names
        → IfOk result (IsInferredFrom (lines_of recording.now)) }
    ensures err { AreNamesOfAll (lines_read recording.now) names
        → IfErr result (IsLearnError (lines_of recording.now)) }
{
    let kinds = learn_round_kinds(alloc, extent.of(recording), &mut names)?;
    let classes = names.draft.copied_classes()?;
    let clients = infer_clients(alloc, recording, &kinds, &names)?;
    match Plan::build(alloc, names.pools, classes, clients) {
        Ok(plan) => Ok(InferredPlan {
            plan,
            rounds: names.rounds,
            jobs: names.jobs,
            unfinished_rounds: names.rounds.saturating_sub(names.ended_rounds),
            unfinished_jobs: names.started_jobs.saturating_sub(names.ended_jobs),
            failed_gets: names.failed_gets,
        }),
        Err(_) => Err(LearnError::InferenceLimit(InferenceLimit::Paths)),
    }
}

// Changes the bodies so that the paths of the part match them. Returns the client kind of each
// round of the part, by round number. Fails if the recording continues after the part and a label
// has several kinds, because the kinds of the rounds after the part are then unknown.
fn learn_round_kinds(
    alloc: Global,
    part: RecordingPart<'_>,
    names: &mut RecordedNames,
) -> Result<Vec<Option<usize>>, LearnError>
    ensures ok { (lines : List RecordedLine)
        → IsDraftOf lines names.old.draft
        → OnOk result (IsDraftOf lines names.new.draft) }
    ensures err { (lines : List RecordedLine)
        → IsDraftOf lines names.old.draft
        → IfErr result (IsLearnError lines) }
    ensures same { names.new ≡ record names.old { draft = names.new.draft } }
{
    if names.draft.is_empty() {
        return Ok(Vec::new(alloc));
    }
    let kinds = cover_all(alloc, part, &names.pools, &mut names.draft)?;
    if part.is_cut && !names.label_rounds.are_of(&names.draft.kinds.entries) {
        return Err(LearnError::InferenceLimit(InferenceLimit::Paths));
    }
    Ok(kinds)
}

fn infer_clients(
    alloc: Global,
    recording: &[u8],
    kinds: &[Option<usize>],
    names: &RecordedNames,
) -> Result<Vec<Client>, LearnError>
    ensures counts { AreLabelRoundsOf names.now.label_rounds (lines_of recording.now)
        → IfOk result (λ clients. AreCounted (lines_of recording.now) clients.items) }
    ensures names { IfOk result
        (λ clients. client_names clients.items ≡ names_of names.now.draft.kinds.entries.items) }
    ensures err { AreLabelRoundsOf names.now.label_rounds (lines_of recording.now)
        → IsDraftOf (lines_of recording.now) names.now.draft
        → IfErr result (IsLearnError (lines_of recording.now)) }
{
    let entries = &names.draft.kinds.entries;
    if names.label_rounds.are_of(entries) {
        return clients_from_counts(alloc, &names.label_rounds.counts, entries);
    }
    let counts = kind_counts(alloc, recording, kinds, entries)?;
    clients_from_counts(alloc, &counts, entries)
}

fn clients_from_counts(
    alloc: Global,
    counts: &[KindCount],
    entries: &[Entry],
) -> Result<Vec<Client>, LearnError>
    ensures counts { (kinds : Kinds) (lines : List RecordedLine)
        → AreOfKinds kinds (names_of entries.now) lines
        → AreCountsOf kinds lines counts.now
        → IfOk result (λ clients. AreCounted lines clients.items) }
    ensures names { IfOk result (λ clients. client_names clients.items ≡ names_of entries.now) }
    ensures err { (kinds : Kinds) (lines : List RecordedLine)
        → AreOfKinds kinds (names_of entries.now) lines
        → AreCountsOf kinds lines counts.now
        → (0 < length entries.now → HasActors lines)
        → IfErr result (IsLearnError lines) }
{
    let mut clients = Vec::new(alloc);
    for kind in 0..entries.len() {
        let (Some(entry), Some(count)) = (entries.get(kind), count_at(counts, kind)) else {
            return Err(LearnError::InferenceLimit(InferenceLimit::Paths));
        };
        let client = client_from_count(alloc, entry, count)?;
        push_client(&mut clients, client)?;
    }
    Ok(clients)
}

fn count_at(counts: &[KindCount], kind: usize) -> Option<KindCount>
    ensures { result ≡ slice_get counts.now kind }
{
    counts.get(kind).copied()
}

fn push_client(clients: &mut Vec<Client>, client: Client) -> Result<(), AllocError>
    ensures { OnOk result (clients.new.items ≡ clients.old.items ++ client ∷ []) }
{
    clients.push(client)?;
    Ok(())
}

fn client_from_count(alloc: Global, entry: &Entry, count: KindCount) -> Result<Client, LearnError>
    ensures counted { (kinds : Kinds) (lines : List RecordedLine) (kind : ℕ)
        → IsCountOf kinds lines kind count
        → IfOk result (IsCounted kinds lines kind) }
    ensures name { IfOk result (λ client. client.name ≡ string_bytes entry.now.name) }
    ensures err { (kinds : Kinds) (names : List (List ℕ)) (lines : List RecordedLine) (kind : ℕ)
        → AreOfKinds kinds names lines
        → IsCountOf kinds lines kind count
        → IfErr result (IsLearnError lines) }
{
    if count.most > MAX_SIZE {
        return Err(LearnError::InferenceLimit(InferenceLimit::Rounds));
    }
    let repeat = count.begun > count.most;
    Ok(client_of(alloc, entry, count.most.max(1), repeat)?)
}
