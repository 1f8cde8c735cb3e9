//! Replays of selected events of a script, which is a list of events. A replay skips events that
//! are no longer possible because others were left out.

use crate::machine::{Machine, Phase, StepOutcome};
use crate::scripts::Script;
use crate::waiting_sets::JobSet;
use crate::walks::Violation;
use job_bodies::Plan;
use pool_machine::{Event, Parent};
use std::alloc::{AllocError, Global};

/// The state of a replay of some events of a script. It has the machine, and maps the clients and
/// jobs of the script to those of the replay, whose numbers can differ.
#[derive(Drop)]
pub(crate) struct Replay<'a> {
    pub(crate) machine: Machine<'a>,
    pub(crate) script: Script,
    pub(crate) is_refused: bool,
    /// For each client of the script, the corresponding client of the replay, or `None` if the
    /// client has not moved in the replay.
    clients: Vec<Option<Parent>>,
    /// For each job of the script, the corresponding job of the replay, or `None` if the replay has
    /// not created this job.
    jobs: Vec<Option<Parent>>,
}

impl<'a> Replay<'a> {
    /// Replays, in order, the events of the script whose elements in `kept` are `true`. Skips an
    /// event that is not possible, and stops after the first refused submit.
    pub(crate) fn of(
        alloc: Global,
        plan: &'a Plan,
        script: &Script,
        kept: &[bool],
    ) -> Result<Replay<'a>, AllocError> {
        let mut replay = Replay {
            machine: Machine::start(alloc, plan)?,
            script: Script::new(alloc),
            is_refused: false,
            clients: vec![in alloc; None; script.kinds.len()]?,
            jobs: vec![in alloc; None; script.steps.len()]?,
        };
        for (act, kept) in script.steps.iter().zip(kept) {
            if *kept {
                replay.add(script, act.event, act.made)?;
                if replay.is_refused {
                    break;
                }
            }
        }
        Ok(replay)
    }

    /// Replays all events of the script in order, as [`of`](Replay::of) does.
    pub(crate) fn of_whole(
        alloc: Global,
        plan: &'a Plan,
        script: &Script,
    ) -> Result<Replay<'a>, AllocError> {
        let kept = vec![in alloc; true; script.steps.len()]?;
        Replay::of(alloc, plan, script, &kept)
    }

    /// Returns the numbers of jobs that wait only for each other, in ascending order. The list is
    /// minimal, unless the work for this exceeds its limit. It is empty if the replay ended in a
    /// refused submit. If `permanent` is `true`, each pool with one of these jobs in its queue must
    /// have `max` threads.
    pub(crate) fn waiting_jobs(
        &self,
        alloc: Global,
        permanent: bool,
    ) -> Result<Vec<usize>, AllocError> {
        if self.is_refused {
            return Ok(Vec::new(alloc));
        }
        JobSet::greatest(alloc, &self.machine, permanent)?
            .made_least(alloc, &self.machine, permanent)?
            .numbers(alloc)
    }

    /// Returns `true` if the replay ended in the violation `wanted` or in a refused submit. If
    /// `wanted` is [`Violation::StuckNow`], a permanent wait counts too.
    pub(crate) fn has_violation(
        &self,
        alloc: Global,
        wanted: Violation,
    ) -> Result<bool, AllocError> {
        if self.is_refused {
            return Ok(true);
        }
        if wanted == Violation::Refused {
            return Ok(false);
        }
        let permanent = wanted == Violation::StuckForever;
        let members = JobSet::greatest(alloc, &self.machine, permanent)?;
        Ok(!members.is_empty())
    }

    /// Ends the idle threads of each pool that has a job of `members` in its queue. The jobs in
    /// `members` must wait only for each other as soon as these threads have ended.
    pub(crate) fn end_idle_threads(&mut self, members: &[usize]) -> Result<(), AllocError> {
        for member in members {
            let Some(job) = self.machine.jobs.get(*member).copied() else {
                continue;
            };
            if job.phase == Phase::Queued {
                self.retire_all(job.pool)?;
            }
        }
        Ok(())
    }

    fn retire_all(&mut self, pool: usize) -> Result<(), AllocError> {
        for _ in 0..u64::MAX {
            if !self.machine.retire(pool) {
                break;
            }
            self.script.add_retire(pool)?;
        }
        Ok(())
    }

    fn add(
        &mut self,
        script: &Script,
        event: Event,
        made: Option<usize>,
    ) -> Result<(), AllocError> {
        let actor = match event {
            Event::Client(client) => self.client(script, client)?,
            Event::Job(job) => self.jobs.get(job).copied().unwrap_or(None),
            Event::Take(pool) => {
                if self.machine.take(pool).is_some() {
                    self.script.add_take(pool)?;
                }
                None
            }
            Event::Retire(pool) => {
                if self.machine.retire(pool) {
                    self.script.add_retire(pool)?;
                }
                None
            }
        };
        match actor {
            Some(actor) => self.act(actor, made),
            None => Ok(()),
        }
    }

    /// Returns the client of the replay that corresponds to the client `client` of the script. If
    /// this client has not moved in the replay yet, adds it to the replay. Returns `None` if the
    /// script has no client with the number `client`.
    fn client(&mut self, script: &Script, client: usize) -> Result<Option<Parent>, AllocError> {
        if let Some(actor) = self.clients.get(client).copied().unwrap_or(None) {
            return Ok(Some(actor));
        }
        let Some(kind) = script.kinds.get(client).copied() else {
            return Ok(None);
        };
        let actor = self.script.begin(&mut self.machine, kind)?;
        if let Some(place) = self.clients.get_mut(client) {
            *place = Some(actor);
        }
        Ok(Some(actor))
    }

    fn act(&mut self, actor: Parent, made: Option<usize>) -> Result<(), AllocError> {
        let outcome = self.machine.act(actor)?;
        if outcome == StepOutcome::Nothing {
            return Ok(());
        }
        self.script.add(actor, outcome)?;
        self.is_refused = outcome == StepOutcome::Refused;
        if let Some(job) = outcome.created_job() {
            if let Some(place) = made.and_then(|made| self.jobs.get_mut(made)) {
                *place = Some(Parent::Job(job));
            }
        }
        Ok(())
    }
}
