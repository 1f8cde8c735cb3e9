//! Orders of the choices of a walk. An order gives each choice a key, and the choice with the least
//! key comes first.

use crate::choices::Choice;
use std::alloc::{AllocError, Global};

/// The number of fixed orders of the choices. These orders use no random numbers.
pub(crate) const FIXED_ORDERS: usize = 48;

/// The seed of the pseudo-random number generator.
const SEED: u64 = 0x9e37_79b9_7f4a_7c15;

/// A deterministic pseudo-random number generator.
#[derive(Clone, Copy)]
pub(crate) struct Rng {
    state: u64,
}

impl Rng {
    pub(crate) fn new() -> Rng {
        Rng { state: SEED }
    }

    /// Returns the next pseudo-random number, which is below 2^31.
    pub(crate) fn next_number(&mut self) -> u64 {
        self.state = self
            .state
            .wrapping_mul(6_364_136_223_846_793_005)
            .wrapping_add(1_442_695_040_888_963_407);
        self.state >> 33
    }
}

/// Returns, for each choice, its key in the fixed order with this number. A walk prefers choices
/// with small keys. There are [`FIXED_ORDERS`] different orders, and larger numbers repeat them.
pub(crate) fn fixed_order(
    alloc: Global,
    choices: &[Choice],
    number: usize,
) -> Result<Vec<u64>, AllocError> {
    let params = OrderParams {
        groups: number % 6,
        old_first: number / 6 % 2 == 1,
        places_down: number / 12 % 2 == 1,
        kinds_down: number / 24 % 2 == 1,
    };
    choices
        .iter()
        .enumerate()
        .map(|(place, choice)| params.key(place as u64, *choice))
        .collect(alloc)
}

/// Replaces each key by a pseudo-random number, for a random order.
pub(crate) fn shuffle(keys: &mut [u64], rng: &mut Rng) {
    for key in keys.iter_mut() {
        *key = rng.next_number();
    }
}

/// The parameters of a fixed order of the choices. The choices are in three groups: first submits
/// of clients, other submits, and what idle threads do (take a queued job or end). The parameters
/// determine
///
/// - the order of the three groups,
/// - whether a client that has moved comes before a new client of the same kind,
/// - whether client kinds with larger numbers come first among the first submits, and
/// - whether choices with larger indexes come first in each of the other two groups.
#[derive(Clone, Copy)]
struct OrderParams {
    groups: usize,
    old_first: bool,
    places_down: bool,
    kinds_down: bool,
}

impl OrderParams {
    fn key(&self, place: u64, choice: Choice) -> u64 {
        let (group, down) = match choice {
            Choice::Begin(_) | Choice::First(_) => (0, self.kinds_down),
            Choice::Later(_) | Choice::Inner(_) => (1, self.places_down),
            Choice::Take(_) | Choice::Retire(_) => (2, self.places_down),
        };
        let late = match choice {
            Choice::Begin(_) => self.old_first,
            Choice::First(_) => !self.old_first,
            _ => false,
        };
        // The choices `Begin` and `First` of a client kind get the same number, so that they are
        // adjacent in the order.
        let number = match choice {
            Choice::Begin(kind) | Choice::First(kind) => kind as u64,
            _ => place,
        };
        let number = if down {
            1_000_000u64.saturating_sub(number)
        } else {
            number
        };
        self.rank(group)
            .saturating_mul(10_000_000)
            .saturating_add(number.saturating_mul(2))
            .saturating_add(u64::from(late))
    }

    /// Returns the position of this group of choices in the order of the three groups: 0, 1 or 2.
    fn rank(&self, group: usize) -> u64 {
        let ranks = match self.groups {
            0 => [0, 1, 2],
            1 => [0, 2, 1],
            2 => [1, 0, 2],
            3 => [1, 2, 0],
            4 => [2, 0, 1],
            _ => [2, 1, 0],
        };
        ranks.get(group).copied().unwrap_or(0)
    }
}
