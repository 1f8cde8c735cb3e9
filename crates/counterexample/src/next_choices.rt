//! The selection of the choice that a walk makes next.

use crate::choices::Choice;
use crate::losses::Losses;
use crate::vectors::Potential;
use crate::walks::{Rules, Walk};
use pool_machine::Parent;

/// The factor by which a walk multiplies the loss of a choice, before it adds the key of the
/// choice. The walk makes the choice with the least result. The factor is greater than every key,
/// so the keys decide only among choices with equal losses.
const FOR_A_LOSS: u64 = 10_000_000_000_000;

/// The priority of a possible choice. The walk makes the choice whose priority precedes all others.
#[derive(Clone, Copy)]
struct Priority {
    /// Whether a pool has just rejected the submit of the choice.
    is_late: bool,
    /// The loss of the choice, combined with its key.
    key: u64,
}

impl Priority {
    fn precedes(self, other: Priority) -> bool {
        if self.is_late == other.is_late {
            self.key < other.key
        } else {
            other.is_late
        }
    }
}

impl Walk<'_> {
    /// Returns the index of the choice that the walk makes next, or `None` if no choice is
    /// possible. Selects the choice that loses the least weight under `potential`. Among choices
    /// with equal losses, and in a walk without a vector, selects the choice with the least key.
    ///
    /// - A choice in `rejected` is returned only if no other choice is possible.
    /// - A submit to an unbounded queue that is at its limit is never returned.
    pub(crate) fn first_possible(
        &self,
        rules: &Rules,
        potential: Option<&Potential>,
    ) -> Option<usize> {
        let mut best = None;
        let mut first = Priority {
            is_late: true,
            key: u64::MAX,
        };
        for (place, key) in rules.keys.iter().enumerate() {
            if let Some(priority) = self.priority(rules, potential, place, *key) {
                if priority.precedes(first) {
                    first = priority;
                    best = Some(place);
                }
            }
        }
        best
    }

    /// Returns the priority of the choice with the index `place`, whose key is `key`. Returns
    /// `None` if the choice is not possible, or if it is a submit to an unbounded queue that is at
    /// its limit.
    fn priority(
        &self,
        rules: &Rules,
        potential: Option<&Potential>,
        place: usize,
        key: u64,
    ) -> Option<Priority> {
        let choice = *self.choices.all.get(place)?;
        let ready = self.ready.get(place)?;
        if !self.is_possible(rules, choice, ready)
            || self.choices.is_at_limit(&self.machine, place)
        {
            return None;
        }
        let lost = self.loss_under(potential, choice, ready.last().copied());
        Some(Priority {
            is_late: self.rejected.contains(&place),
            key: lost.saturating_mul(FOR_A_LOSS).saturating_add(key),
        })
    }

    /// Returns the weight that the state loses under the vector if `actor` makes the choice, or 0
    /// if there is no vector.
    fn loss_under(
        &self,
        potential: Option<&Potential>,
        choice: Choice,
        actor: Option<Parent>,
    ) -> u64 {
        match potential {
            Some(potential) => Losses::new(&self.machine, potential).of(choice, actor),
            None => 0,
        }
    }

    fn is_possible(&self, rules: &Rules, choice: Choice, ready: &[Parent]) -> bool {
        match choice {
            Choice::Begin(kind) => {
                self.machine.active_clients() < rules.max_active_clients && self.has_more(kind)
            }
            Choice::Take(class) => self.would_take(class),
            Choice::Retire(pool) => self.machine.can_retire(pool),
            _ => !ready.is_empty(),
        }
    }
}
