//! The unsettled actors of a recording. An actor is settled once it has ended and all jobs of its
//! path are settled.

ghost use Rattle.std.specs.Prelude.{◌≡◌, ◌+◌, ℕ, nat_eq, true, OnOk, IfOk, None, Some, is_some, if◌then◌else◌};
ghost use Rattle.std.specs.List.Sorted.{IsNonDecreasing};
ghost use Rattle.std.specs.Set.{is_member};
ghost use Rattle.std.specs.Option.{option_map, option_copied, option_and_then};
ghost use Rattle.support.specs.Numbered.{value_at, count_of};
ghost use Rattle.recordings.specs.declared.recording_line.RecordedActor.{RecordedActor};
ghost use Rattle.recordings.specs.LineParts.{is_same_actor};
ghost use Rattle.conformance.specs.ActorTables.{in_table, InsertsActor, without_submitter, with_ended_path, with_known, is_job};
ghost use Rattle.conformance.specs.RemainingActors.{AreJobsAmong, AreRoundsAmong};

use recordings::{RecordedActor, RecordedStep};
use std::alloc::{AllocError, Global};
use support::IdMap;

/// An unsettled actor: an actor that has not ended, or that has an unsettled job in its path.
#[derive(Drop)]
pub(crate) struct UnsettledActor {
    /// The class of a job, or the kind of a round.
    pub(crate) label: String,
    /// The pool of a job. It is empty for a round.
    pub(crate) pool: String,
    /// The submitter of a job. It is `None` for a refused job and for a round.
    pub(crate) submitter: Option<RecordedActor>,
    /// The path of the actor if the actor has ended, and `None` otherwise.
    pub(crate) ended_path: Option<EndedPath>,
}

/// The path of an ended actor that is not yet classified.
#[derive(Drop)]
pub(crate) struct EndedPath {
    pub(crate) path: Vec<RecordedStep>,
    /// The length of a prefix of the path. All jobs that this prefix submits are settled, so the
    /// next search for an unsettled job starts after it.
    pub(crate) known: usize,
}

impl UnsettledActor {
    fn advance(&mut self, known: usize)
        ensures { self.new ≡ with_known known self.old }
    {
        if let Some(ended_path) = &mut self.ended_path {
            ended_path.known = known;
        }
    }
}

/// A map from the numbers of jobs and rounds to the unsettled actors.
#[derive(Drop)]
pub(crate) struct ActorTable {
    pub(crate) jobs: IdMap<UnsettledActor>,
    pub(crate) rounds: IdMap<UnsettledActor>,
}

impl ActorTable {
    /// Creates an empty table.
    pub(crate) fn new(alloc: Global) -> ActorTable
        ensures { (one : RecordedActor) → in_table result one ≡ None }
    {
        ActorTable {
            jobs: IdMap::new(alloc),
            rounds: IdMap::new(alloc),
        }
    }

    /// Inserts the actor, with `kept` as its entry. Replaces the entry if the table already has
    /// one.
    ///
    /// # Errors
    ///
    /// Returns `AllocError` if memory runs out.
    pub(crate) fn insert(
        &mut self,
        actor: RecordedActor,
        kept: UnsettledActor,
    ) -> Result<(), AllocError>
        ensures { OnOk result
            ((one : RecordedActor)
            → in_table self.new one
            ≡ (if is_same_actor actor one then Some kept else in_table self.old one)) }
    {
        match actor {
            RecordedActor::Job(job) => self.jobs.insert(job, kept),
            RecordedActor::Round(round) => self.rounds.insert(round, kept),
        }
    }

    /// Inserts an actor that has not ended. Replaces its entry if the table already has one.
    ///
    /// - `label` is the class of a job or the kind of a round.
    /// - `pool` is the pool of a job, and empty for a round.
    /// - `submitter` is the submitter of a job, and `None` for a round.
    ///
    /// # Errors
    ///
    /// Returns `AllocError` if memory runs out.
    pub(crate) fn begin(
        &mut self,
        alloc: Global,
        actor: RecordedActor,
        label: &str,
        pool: &str,
        submitter: Option<RecordedActor>,
    ) -> Result<(), AllocError>
        ensures { OnOk result (InsertsActor self.old actor label.now pool.now submitter self.new) }
    {
        let kept = UnsettledActor {
            label: String::from_str(alloc, label)?,
            pool: String::from_str(alloc, pool)?,
            submitter,
            ended_path: None,
        };
        self.insert(actor, kept)
    }

    /// Sets the `submitter` of a refused job to `None`, because the job is not part of its
    /// submitter's path. Does nothing if the job is not in the table.
    pub(crate) fn clear_submitter(&mut self, job: usize)
        ensures { (one : RecordedActor)
            → in_table self.new one
            ≡ (if is_same_actor (RecordedActor.Job job) one then option_map without_submitter
            (in_table self.old one) else in_table self.old one) }
    {
        if let Some(kept) = self.jobs.get_mut(job) {
            kept.submitter = None;
        }
    }

    /// Stores the path of an actor that has ended. Does nothing if the actor is not in the table.
    pub(crate) fn set_ended(&mut self, actor: RecordedActor, ended_path: EndedPath)
        ensures { (one : RecordedActor)
            → in_table self.new one
            ≡ (if is_same_actor actor one then option_map (with_ended_path ended_path)
            (in_table self.old one) else in_table self.old one) }
    {
        match actor {
            RecordedActor::Job(job) => {
                if let Some(kept) = self.jobs.get_mut(job) {
                    kept.ended_path = Some(ended_path);
                }
            }
            RecordedActor::Round(round) => {
                if let Some(kept) = self.rounds.get_mut(round) {
                    kept.ended_path = Some(ended_path);
                }
            }
        }
    }

    /// Returns the path of an ended actor, and how many of its first steps were already found to
    /// submit only settled jobs. Returns `None` if the actor has not ended or is not in the table.
    pub(crate) fn ended_path(&self, actor: RecordedActor) -> Option<&EndedPath>
        ensures { option_copied result
            ≡ option_and_then (λ kept. kept.ended_path) (in_table self.now actor) }
    {
        let kept = match actor {
            RecordedActor::Job(job) => self.jobs.get(job)?,
            RecordedActor::Round(round) => self.rounds.get(round)?,
        };
        kept.ended_path.as_ref()
    }

    /// Stores `known` for an ended actor: the length of a prefix of the actor's path. All jobs that
    /// this prefix submits must be settled. Does nothing if the actor has not ended or is not in
    /// the table.
    pub(crate) fn advance(&mut self, actor: RecordedActor, known: usize)
        ensures later { (one : RecordedActor)
            → in_table self.new one
            ≡ (if is_same_actor actor one then option_map (with_known known) (in_table self.old one)
            else in_table self.old one) }
    {
        match actor {
            RecordedActor::Job(job) => {
                if let Some(kept) = self.jobs.get_mut(job) {
                    kept.advance(known);
                }
            }
            RecordedActor::Round(round) => {
                if let Some(kept) = self.rounds.get_mut(round) {
                    kept.advance(known);
                }
            }
        }
    }

    /// Removes the actor, and returns it if it was in the table.
    pub(crate) fn remove(&mut self, actor: RecordedActor) -> Option<UnsettledActor>
        ensures value { result ≡ in_table self.old actor }
        ensures later { (one : RecordedActor)
            → in_table self.new one
            ≡ (if is_same_actor actor one then None else in_table self.old one) }
        ensures fewer { count_of self.new.jobs + (if is_some result then is_job actor else 0)
            ≡ count_of self.old.jobs }
    {
        match actor {
            RecordedActor::Job(job) => self.jobs.remove(job),
            RecordedActor::Round(round) => self.rounds.remove(round),
        }
    }

    /// Returns the numbers of the jobs in the table, in ascending order.
    ///
    /// # Errors
    ///
    /// Returns `AllocError` if memory runs out.
    pub(crate) fn job_numbers(&self, alloc: Global) -> Result<Vec<usize>, AllocError>
        ensures all { IfOk result (λ numbers. AreJobsAmong self.now numbers.items) }
        ensures sorted { IfOk result (λ numbers. IsNonDecreasing numbers.items) }
    {
        numbers_of(alloc, &self.jobs)
    }

    /// Returns the numbers of the rounds in the table, in ascending order.
    ///
    /// # Errors
    ///
    /// Returns `AllocError` if memory runs out.
    pub(crate) fn round_numbers(&self, alloc: Global) -> Result<Vec<usize>, AllocError>
        ensures { IfOk result (λ numbers. AreRoundsAmong self.now numbers.items) }
    {
        numbers_of(alloc, &self.rounds)
    }
}

fn numbers_of(alloc: Global, actors: &IdMap<UnsettledActor>) -> Result<Vec<usize>, AllocError>
    ensures all { IfOk result (λ numbers.
        (number : ℕ)
        → is_some (value_at actors.now number) ≡ true
        → is_member nat_eq numbers.items number ≡ true) }
    ensures sorted { IfOk result (λ numbers. IsNonDecreasing numbers.items) }
{
    actors.numbers(alloc)
}
