//! States that the best-first search recreates by a replay.

use crate::branches::Branch;
use crate::vectors::Potential;
use crate::walks::Walk;
use std::alloc::AllocError;

/// A reached state, recreated by a replay of the branches that lead to it. The search does not
/// store whole states. For each vector, `lost` has the weight that was lost on the way to the
/// state.
#[derive(Drop)]
pub(crate) struct ReplayedState<'a> {
    pub(crate) walk: Walk<'a>,
    pub(crate) lost: Vec<u64>,
}

impl ReplayedState<'_> {
    /// Performs the branches of `path` in order, and adds the weights that they lose to `lost`.
    /// `potentials` has the vectors of `lost`, in the same order.
    pub(crate) fn perform(
        &mut self,
        path: &[Branch],
        potentials: &[Potential],
    ) -> Result<(), AllocError> {
        for branch in path {
            for (lost, potential) in self.lost.iter_mut().zip(potentials) {
                *lost = lost.saturating_add(self.walk.loss(*branch, potential));
            }
            self.walk.choose(branch.place, branch.newer)?;
        }
        Ok(())
    }

    /// Returns the value of the measure with the number `measure` in the successor to which `branch`
    /// leads. `walk` is in this successor.
    pub(crate) fn cost_after(
        &self,
        walk: &Walk,
        branch: Branch,
        measure: usize,
        potentials: &[Potential],
    ) -> u64 {
        match potentials.get(measure) {
            Some(potential) => self.lost_after(branch, measure, potential),
            None if measure == potentials.len() => walk.moving_threads(),
            None => walk.least_room(),
        }
    }

    /// Returns the weight that is lost under `potential` on the way from the initial state to the
    /// successor to which `branch` leads. `potential` is the vector with the number `vector`.
    fn lost_after(&self, branch: Branch, vector: usize, potential: &Potential) -> u64 {
        let lost = self.lost.get(vector).copied().unwrap_or(0);
        lost.saturating_add(self.walk.loss(branch, potential))
    }
}
