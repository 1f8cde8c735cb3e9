//! Sketches of vectors. A sketch has the weights of queued jobs, of done jobs, and of clients at
//! the start of their bodies. It is computed in one pass over the bodies.

use crate::numbers::{number_at, put_at};
use crate::target::Target;
use crate::weight::Weight;
use crate::{Levels, submitted_class};
use job_bodies::{Action, Class, Client, MAX_WEIGHT, Plan};
use std::alloc::{AllocError, Global};

/// The total of a sketch if there is no vector with the given worker weights, or if the total
/// overflows. There is no vector in two cases: the weight of a job or a client would be above
/// `MAX_WEIGHT`, or a repeating client would need more weight in each round than in the round
/// before.
pub(crate) const TOO_HEAVY: u64 = u64::MAX;

/// The parts of a vector that determine its total, without the weights at the positions of bodies.
#[derive(Drop)]
pub(crate) struct Sketch {
    /// The weight of a queued job of each class.
    pub(crate) queued: Vec<u64>,
    /// The weight of a done job of each class.
    pub(crate) done: Vec<u64>,
    /// The weight of a client of each kind at the start of its body.
    pub(crate) starts: Vec<u64>,
    /// For each pool, the largest weight that a job of the pool has at any position of its body.
    /// This assumes that the job weighs as little as possible when it is done. Classes that are
    /// never submitted are ignored. If the workers of the pool weigh 0, the search tries this
    /// weight for them.
    pub(crate) peaks: Vec<u64>,
    /// The total weight of all workers, if each pool has its maximum of workers.
    pub(crate) on_loan: u64,
    /// The number of classes that are never submitted and have a weight above `MAX_WEIGHT`.
    pub(crate) overweight_unsubmitted: usize,
    /// The total of the vector, or [`TOO_HEAVY`] if there is no vector.
    pub(crate) total: u64,
}

impl Sketch {
    /// Computes the sketch of the target with these worker weights. Processes the classes in
    /// ascending order of levels.
    pub(crate) fn of(
        alloc: Global,
        plan: &Plan,
        levels: &Levels,
        target: &Target,
        workers: &[u64],
    ) -> Result<Sketch, AllocError> {
        let on_loan = target.workers_weigh(plan, workers);
        let mut sketch = Sketch {
            queued: vec![in alloc; 0; plan.classes().len()]?,
            done: vec![in alloc; 0; plan.classes().len()]?,
            starts: Vec::with_capacity(alloc, plan.clients().len())?,
            peaks: vec![in alloc; 0; plan.pools().len()]?,
            on_loan,
            overweight_unsubmitted: 0,
            total: on_loan,
        };
        for number in &levels.order {
            if let Some(class) = plan.class_at(*number) {
                sketch.weigh_class(target, levels, workers, *number, class);
            }
        }
        for client in plan.clients() {
            sketch.weigh_client(target, client)?;
        }
        Ok(sketch)
    }

    /// Computes and stores the weights of a job of the class when it is queued and when it is done.
    /// If a body submits the class, also updates the peak of its pool: the largest weight of a
    /// running job.
    ///
    /// If a weight of the job is above `MAX_WEIGHT`, the total of the sketch becomes [`TOO_HEAVY`].
    /// If no body submits the class, `overweight_unsubmitted` then grows by 1.
    fn weigh_class(
        &mut self,
        target: &Target,
        levels: &Levels,
        workers: &[u64],
        number: usize,
        class: &Class,
    ) {
        let worker = number_at(workers, class.pool);
        let mut weight = Weight::at_end(worker).at_least(target.need_at_end(class));
        let mut peak = weight.number;
        for action in class.body.iter().rev() {
            let need = target.need_at(class, *action);
            weight = self
                .before(target, &class.body, *action, weight)
                .at_least(need);
            peak = peak.max(weight.number);
        }
        let queued = weight.less(worker).at_least(target.need_queued(class));
        put_at(&mut self.queued, number, queued.number);
        put_at(&mut self.done, number, queued.number.min(queued.slack));
        let is_submitted = levels.is_submitted(number);
        if is_submitted {
            let highest = peak.max(number_at(&self.peaks, class.pool));
            put_at(&mut self.peaks, class.pool, highest);
        }
        if peak > MAX_WEIGHT || queued.number > MAX_WEIGHT {
            self.total = TOO_HEAVY;
            if !is_submitted {
                self.overweight_unsubmitted = self.overweight_unsubmitted.saturating_add(1);
            }
        }
    }

    /// Computes the weight of a client of this kind at the start of its body, and adds this weight
    /// to the total once for each client. Sets the total to [`TOO_HEAVY`] if a weight is above
    /// `MAX_WEIGHT`, or if a repeating client would need more weight in each round than in the
    /// round before.
    fn weigh_client(&mut self, target: &Target, client: &Client) -> Result<(), AllocError> {
        let mut weight = Weight::at_end(0);
        let mut peak = 0;
        for action in client.body.iter().rev() {
            weight = self.before(target, &client.body, *action, weight);
            peak = weight.number.max(peak);
        }
        self.add(weight.number, client.count);
        if peak > MAX_WEIGHT || (client.repeat && weight.slack < weight.number) {
            self.total = TOO_HEAVY;
        }
        self.starts.push(weight.number)?;
        Ok(())
    }

    /// Returns the weight of an actor before the action, given its weight after the action.
    /// `actions` is the body that contains the action.
    pub(crate) fn before(
        &self,
        target: &Target,
        actions: &[Action],
        action: Action,
        weight: Weight,
    ) -> Weight {
        match action {
            Action::Work(_) => weight,
            Action::Submit(class) => weight.plus(number_at(&self.queued, class)),
            Action::Get(submit) if target.gives_back() => {
                weight.less(number_at(&self.done, submitted_class(actions, submit)))
            }
            Action::Get(_) => weight,
        }
    }

    /// Adds `count` times this weight to the total.
    fn add(&mut self, weight: u64, count: u64) {
        self.total = self.total.saturating_add(weight.saturating_mul(count));
    }
}
