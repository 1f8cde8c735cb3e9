//! Walks. A walk repeatedly makes a possible choice: the one that comes first in an order, or the
//! one that loses the least weight under a vector. If a pool has just rejected the submit of a
//! choice, this choice comes after all others. Without this rule, an actor could repeat the same
//! submit forever.

use crate::choices::{Choice, Choices};
use crate::machine::{Machine, StepOutcome};
use crate::orders::{Rng, shuffle};
use crate::scripts::Script;
use crate::stuck_checks::StuckChecks;
use crate::vectors::Potential;
use job_bodies::{Action, Plan};
use pool_machine::Parent;
use std::alloc::{AllocError, Global};

/// The violation in which a list of events ends. Every violation except `StuckNow` is *permanent*.
#[derive(Clone, Copy)]
pub(crate) enum Violation {
    /// The last event is a refused submit.
    Refused,
    /// Some jobs wait only for each other. If one of these jobs is queued in a pool, this pool has
    /// `max` threads.
    StuckForever,
    /// Some jobs wait only for each other, either already or once idle threads end. A later event
    /// may end this wait.
    StuckNow,
}

/// The rules by which a walk makes its choices, and the limits of the walk.
#[derive(Drop)]
pub(crate) struct Rules {
    /// The key of each choice. The walk makes the possible choice that loses the least weight.
    /// Among choices with equal losses, it makes the one with the least key. In a walk without a
    /// vector, all losses are 0.
    pub(crate) keys: Vec<u64>,
    /// The maximum number of clients that take part in the walk. All other clients never act.
    pub(crate) max_active_clients: usize,
    /// The maximum number of states that the walk visits, including the initial state.
    pub(crate) max_states: usize,
    /// Whether all keys are replaced by random numbers at random steps of the walk.
    pub(crate) changing: bool,
}

/// The events of a walk, and the violation in which they end, if any.
#[derive(Drop)]
pub(crate) struct WalkResult {
    pub(crate) script: Script,
    pub(crate) violation: Option<Violation>,
    /// The number of visited states, including the initial state.
    pub(crate) states: usize,
}

/// The outcome of a choice.
#[derive(Clone, Copy)]
pub(crate) enum WalkStep {
    /// The walk moved to a new state, and no submit was rejected or refused.
    Advanced,
    /// A submit was rejected, as the plan allows, and the walk moved on.
    Rejected,
    /// A submit was refused.
    Refused,
    /// The choice was not possible.
    Nothing,
}

/// The state of a walk: the machine, the events so far, and the actors ready for each choice.
#[derive(Drop)]
pub(crate) struct Walk<'a> {
    pub(crate) machine: Machine<'a>,
    pub(crate) choices: &'a Choices,
    pub(crate) script: Script,
    /// For each choice, the actors at its submit, in the order in which they arrived there.
    pub(crate) ready: Vec<Vec<Parent>>,
    /// For each client kind, the number of its clients that have started their bodies.
    pub(crate) begun: Vec<u64>,
    /// The choices that ended in a rejected submit, since the last choice with another outcome.
    pub(crate) rejected: Vec<usize>,
    /// Whether an actor has stopped since this flag was last cleared. An actor stops at a get that
    /// must wait, and a client that does not repeat also stops at the end of its body. After a
    /// stop, there may be jobs that wait only for each other, so the search checks for them.
    pub(crate) has_blocked: bool,
}

/// Performs a walk by these rules from the plan's initial state. If `potential` is given, this
/// vector guides the walk. After each choice, performs the steps that follow without another
/// choice. The walk ends at a violation, when no choice is possible, or at the limit of states.
pub(crate) fn perform_walk<'a>(
    alloc: Global,
    plan: &'a Plan,
    choices: &'a Choices,
    rules: &mut Rules,
    potential: Option<&Potential>,
    rng: &mut Rng,
) -> Result<WalkResult, AllocError> {
    let mut walk = Walk::start(alloc, plan, choices)?;
    let (violation, states) = walk.perform(alloc, rules, potential, rng)?;
    Ok(walk.into_result(violation, states))
}

impl<'a> Walk<'a> {
    pub(crate) fn start(
        alloc: Global,
        plan: &'a Plan,
        choices: &'a Choices,
    ) -> Result<Walk<'a>, AllocError> {
        let mut ready = Vec::with_capacity(alloc, choices.all.len())?;
        for _ in &choices.all {
            ready.push(Vec::new(alloc))?;
        }
        Ok(Walk {
            machine: Machine::start(alloc, plan)?,
            choices,
            script: Script::new(alloc),
            ready,
            begun: vec![in alloc; 0; plan.clients().len()]?,
            rejected: Vec::new(alloc),
            has_blocked: false,
        })
    }

    fn into_result(self, violation: Option<Violation>, states: usize) -> WalkResult {
        WalkResult {
            script: self.script,
            violation,
            states,
        }
    }

    /// Makes the choices of [`perform_walk`]. Returns the violation in which the walk ends, if any,
    /// and the number of visited states.
    fn perform(
        &mut self,
        alloc: Global,
        rules: &mut Rules,
        potential: Option<&Potential>,
        rng: &mut Rng,
    ) -> Result<(Option<Violation>, usize), AllocError> {
        let mut checks = StuckChecks::new();
        let mut states = 1usize;
        for step in 1..rules.max_states {
            if rules.changing && rng.next_number() % 16 == 0 {
                shuffle(&mut rules.keys, rng);
            }
            match self.step(rules, potential)? {
                WalkStep::Advanced | WalkStep::Rejected => states = states.saturating_add(1),
                WalkStep::Refused => return Ok((Some(Violation::Refused), states)),
                WalkStep::Nothing => break,
            }
            let violation = self.check_if_due(alloc, step, &mut checks)?;
            if violation.is_some() {
                return Ok((violation, states));
            }
        }
        Ok((self.check_at_end(alloc, &checks)?, states))
    }

    /// Makes the choice of [`first_possible`](Walk::first_possible), if there is one.
    fn step(
        &mut self,
        rules: &Rules,
        potential: Option<&Potential>,
    ) -> Result<WalkStep, AllocError> {
        let Some(place) = self.first_possible(rules, potential) else {
            return Ok(WalkStep::Nothing);
        };
        let step = self.choose(place, 0)?;
        if step != WalkStep::Rejected {
            self.rejected.clear();
        } else if !self.rejected.contains(&place) {
            self.rejected.push(place)?;
        }
        Ok(step)
    }

    /// Makes the choice with this index. If the choice needs an actor that is ready for it, `newer`
    /// selects the actor: 0 for the one that became ready last, 1 for the one before, and so on.
    /// Changes nothing and returns [`WalkStep::Nothing`] if the choice is not possible. But if the
    /// choice starts a new client, the caller must ensure that it is possible.
    pub(crate) fn choose(&mut self, place: usize, newer: usize) -> Result<WalkStep, AllocError> {
        match self.choices.all.get(place).copied() {
            Some(Choice::Begin(kind)) => {
                let client = self.script.begin(&mut self.machine, kind)?;
                if let Some(begun) = self.begun.get_mut(kind) {
                    *begun = begun.saturating_add(1);
                }
                self.run_to_next_choice(client)?;
                self.submit_of(client)
            }
            Some(Choice::Take(class)) => self.take(class),
            Some(Choice::Retire(pool)) => self.retire(pool),
            Some(_) => match self.take_ready(place, newer) {
                Some(actor) => self.submit(actor),
                None => Ok(WalkStep::Nothing),
            },
            None => Ok(WalkStep::Nothing),
        }
    }

    /// Removes one of the actors that are ready for the choice with the index `place`, and returns
    /// it. `newer` selects the actor: 0 for the one that became ready last, 1 for the one before,
    /// and so on. Returns `None` if there is no such actor.
    fn take_ready(&mut self, place: usize, newer: usize) -> Option<Parent> {
        let ready = self.ready.get_mut(place)?;
        let at = ready.len().checked_sub(1)?.checked_sub(newer)?;
        if at < ready.len() {
            Some(ready.remove(at))
        } else {
            None
        }
    }

    /// Returns `true` if some client of the kind has not moved yet, and the kind's body has a
    /// submit.
    pub(crate) fn has_more(&self, kind: usize) -> bool {
        let Some(client) = self.machine.plan.client_at(kind) else {
            return false;
        };
        let begun = self.begun.get(kind).copied().unwrap_or(0);
        begun < client.count
            && client
                .body
                .iter()
                .any(|action| matches!(action, Action::Submit(_)))
    }

    /// Performs the first submit of a new client. This client must be the actor that became ready
    /// last for this submit.
    fn submit_of(&mut self, client: Parent) -> Result<WalkStep, AllocError> {
        let place = match self.machine.point(client) {
            Some((position, _)) => self.choices.place_of(&self.machine, client, position),
            None => None,
        };
        if let Some(ready) = place.and_then(|place| self.ready.get_mut(place)) {
            ready.pop();
        }
        self.submit(client)
    }

    fn submit(&mut self, actor: Parent) -> Result<WalkStep, AllocError> {
        let outcome = self.machine.act(actor)?;
        if outcome == StepOutcome::Nothing {
            return Ok(WalkStep::Nothing);
        }
        self.script.add(actor, outcome)?;
        if outcome == StepOutcome::Refused {
            return Ok(WalkStep::Refused);
        }
        self.run_to_next_choice(actor)?;
        match outcome {
            StepOutcome::Rejected(_) => Ok(WalkStep::Rejected),
            StepOutcome::Created { job, started: true } => {
                self.run_to_next_choice(Parent::Job(job))?;
                Ok(WalkStep::Advanced)
            }
            _ => Ok(WalkStep::Advanced),
        }
    }

    /// Performs the actor's steps up to its next submit, a get that must wait, or its end. At a
    /// submit, adds the actor to those that are ready for this submit. If a job ends while its
    /// parent waits for this job, continues with the steps of the parent.
    pub(crate) fn run_to_next_choice(&mut self, actor: Parent) -> Result<(), AllocError> {
        let mut actor = actor;
        for _ in 0..u64::MAX {
            let Some((position, action)) = self.machine.point(actor) else {
                break;
            };
            if let Some(Action::Submit(_)) = action {
                self.add_ready(actor, position)?;
                break;
            }
            let outcome = self.machine.act(actor)?;
            if outcome == StepOutcome::Nothing {
                self.has_blocked = true;
                break;
            }
            self.script.add(actor, outcome)?;
            if let StepOutcome::Finished(parent) = outcome {
                let Parent::Job(child) = actor else {
                    break;
                };
                if self.machine.waits_for(parent) != Some(child) {
                    break;
                }
                actor = parent;
            }
        }
        Ok(())
    }

    /// Adds the actor, which is at a submit, to the actors that are ready for this submit.
    fn add_ready(&mut self, actor: Parent, position: usize) -> Result<(), AllocError> {
        let place = self.choices.place_of(&self.machine, actor, position);
        if let Some(ready) = place.and_then(|place| self.ready.get_mut(place)) {
            ready.push(actor)?;
        }
        Ok(())
    }
}
