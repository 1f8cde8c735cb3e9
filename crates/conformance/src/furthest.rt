//! The furthest index of a body that joint walks reach.

ghost use Rattle.std.specs.Prelude.{◌≡◌, true, false, IsTrue};
ghost use Rattle.support.specs.In.{In};
ghost use Rattle.conformance.specs.declared.walk_state.WalkState.{WalkState};
ghost use Rattle.conformance.specs.WalkState.{is_at};
ghost use Rattle.conformance.specs.WalkStates as spec;

use crate::walk_state::WalkState;

/// An index of a body, and a state in which the body can be there.
#[derive(Clone, Copy)]
pub(crate) struct Reached {
    /// The place of the state in the list of states.
    pub(crate) state: usize,
    pub(crate) index: usize,
}

/// Returns the last index up to `end` where the body can be, over all states. The result also has a
/// state in which the body can be there. Returns `None` if there is no such index.
pub(crate) fn furthest(states: &[WalkState], end: usize) -> Option<Reached>
    ensures { spec.IsFurthest states.now end result }
{
    let mut reached = None;
    for number in 0..states.len() {
        reached = further(reached, number, states[number].last_at(end));
    }
    reached
}

/// Returns true if the body can be at the index `end` in one of the states.
pub(crate) fn reaches(states: &[WalkState], end: usize) -> bool
    ensures yes { IsTrue result → (state : WalkState) × In state states.now × (is_at state end ≡ true) }
    ensures no { result ≡ false → (state : WalkState) → In state states.now → is_at state end ≡ false }
{
    match furthest(states, end) {
        Some(reached) => reached.index == end,
        None => false,
    }
}

/// Returns the larger one of two indices, with its state. The first index is in `before`. The
/// second one is `index`, and `number` is the place of its state. If one of them is `None`, returns
/// the other one. If they are equal, returns `before`.
fn further(before: Option<Reached>, number: usize, index: Option<usize>) -> Option<Reached>
    ensures { result ≡ spec.further before number index }
{
    let Some(index) = index else {
        return before;
    };
    match before {
        Some(before) if index <= before.index => Some(before),
        _ => Some(Reached {
            state: number,
            index,
        }),
    }
}
