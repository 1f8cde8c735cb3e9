//! Scripts: lists of events in which clients are numbered in the order of their first steps.

use crate::machine::{Machine, StepOutcome};
use job_bodies::Plan;
use pool_machine::{Event, Parent};
use std::alloc::{AllocError, Global};

/// An event of a script, and the number of the job that the event created, if it created one.
/// Clients are numbered in the order of their first steps, as in [`Machine`].
#[derive(Clone, Copy)]
pub(crate) struct ScriptStep {
    pub(crate) event: Event,
    pub(crate) made: Option<usize>,
}

/// A list of events that are possible in sequence from a plan's initial state.
#[derive(Drop)]
pub(crate) struct Script {
    pub(crate) steps: Vec<ScriptStep>,
    /// For each client that moves, the index of its client kind. The list is in the order of the
    /// clients' numbers.
    pub(crate) kinds: Vec<usize>,
}

impl Script {
    /// Creates an empty script.
    pub(crate) fn new(alloc: Global) -> Script {
        Script {
            steps: Vec::new(alloc),
            kinds: Vec::new(alloc),
        }
    }

    /// Appends the event in which this actor performs a step with this outcome.
    pub(crate) fn add(&mut self, actor: Parent, outcome: StepOutcome) -> Result<(), AllocError> {
        let made = outcome.created_job();
        let event = match actor {
            Parent::Client(client) => Event::Client(client),
            Parent::Job(job) => Event::Job(job),
        };
        self.steps.push(ScriptStep { event, made })?;
        Ok(())
    }

    /// Appends the event in which a thread takes a job from the pool's queue.
    pub(crate) fn add_take(&mut self, pool: usize) -> Result<(), AllocError> {
        let event = Event::Take(pool);
        self.steps.push(ScriptStep { event, made: None })?;
        Ok(())
    }

    /// Appends the event in which an idle thread of the pool ends.
    pub(crate) fn add_retire(&mut self, pool: usize) -> Result<(), AllocError> {
        let event = Event::Retire(pool);
        self.steps.push(ScriptStep { event, made: None })?;
        Ok(())
    }

    /// Returns the events, with each client's number replaced by its number in the plan. The
    /// clients of a client kind get the numbers of this kind in the order of their first moves. The
    /// first to move gets the lowest number.
    pub(crate) fn events(&self, alloc: Global, plan: &Plan) -> Result<Vec<Event>, AllocError> {
        let numbers = self.numbers(alloc, plan)?;
        self.steps
            .iter()
            .map(|act| match act.event {
                Event::Client(client) => {
                    Event::Client(numbers.get(client).copied().unwrap_or(client))
                }
                other => other,
            })
            .collect(alloc)
    }

    /// Returns, for each client of the script, its number in the plan.
    fn numbers(&self, alloc: Global, plan: &Plan) -> Result<Vec<usize>, AllocError> {
        let mut next = Vec::with_capacity(alloc, plan.clients().len())?;
        let mut clients = 0usize;
        for kind in plan.clients() {
            next.push(clients)?;
            clients = clients.saturating_add(kind.count as usize);
        }
        let mut numbers = Vec::with_capacity(alloc, self.kinds.len())?;
        for kind in &self.kinds {
            let number = match next.get_mut(*kind) {
                Some(next) => {
                    let number = *next;
                    *next = number.saturating_add(1);
                    number
                }
                None => 0,
            };
            numbers.push(number)?;
        }
        Ok(numbers)
    }

    /// Starts a client of this client kind in the machine, records it in the script, and returns
    /// the client.
    pub(crate) fn begin(
        &mut self,
        machine: &mut Machine,
        kind: usize,
    ) -> Result<Parent, AllocError> {
        self.kinds.push(kind)?;
        machine.begin(kind)
    }
}
