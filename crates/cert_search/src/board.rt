//! The board of one round of the search, on which each pool is free, claimed or done. A worker (a
//! thread of the search) claims a free pool, searches for its vectors and gives the pool back. The
//! pool is then done. A pool that has a rank is done from the start: an earlier round found its
//! blocked vector.

ghost use Rattle.std.specs.Prelude.{◌≡◌, ◌++◌, ◌∷◌, [], List, true, false, Some, None, IfOk, IfSome, OnErr, IsTrue, is_some, position, slice_get};
ghost use Rattle.std.specs.List.{list_all};
ghost use Rattle.std.specs.Option.{IfNone};
ghost use Rattle.cert_search.specs.declared.board.PoolStatus.{PoolStatus};
ghost use Rattle.cert_search.specs.declared.board.BoardEvent.TheVariants as event;
ghost use Rattle.cert_search.specs.Board as spec;

use held_machines::{Held, Machine};
use std::alloc::{AllocError, Global};
use std::marker::Model;

/// The state of a pool on the board of a round.
#[derive(Clone, Copy)]
pub(crate) enum PoolStatus {
    /// A pool without a rank that no thread of the search has claimed.
    Free,
    /// A pool that a thread of the search has claimed and not finished yet.
    Claimed,
    /// A pool that a thread of the search has finished in this round, or that has a rank from an
    /// earlier round.
    Done,
}

/// An action of a worker on the board of a round. A worker is a thread of the search.
#[derive(Clone, Copy)]
pub(crate) enum BoardEvent {
    /// Claims the free pool with this number.
    Claim(usize),
    /// Marks the claimed pool with this number as done.
    Return(usize),
}

/// Returns the state of a pool at the start of a round: done if the pool has a rank from an earlier
/// round, and otherwise free.
fn initial_status(has_rank: bool) -> PoolStatus
    ensures { result ≡ spec.initial_status has_rank }
{
    if has_rank {
        PoolStatus::Done
    } else {
        PoolStatus::Free
    }
}

/// Returns whether a pool in this state is free.
fn is_free(status: PoolStatus) -> bool
    ensures { result ≡ spec.is_free status }
{
    match status {
        PoolStatus::Free => true,
        PoolStatus::Claimed | PoolStatus::Done => false,
    }
}

/// Returns whether a pool in this state is done.
fn is_done(status: PoolStatus) -> bool
    ensures { result ≡ spec.is_done status }
{
    match status {
        PoolStatus::Done => true,
        PoolStatus::Free | PoolStatus::Claimed => false,
    }
}

/// The state of each pool in one round.
#[derive(Drop)]
pub(crate) struct PoolStatuses {
    statuses: Vec<PoolStatus>,
}

impl Model for PoolStatuses {
    ghost use Rattle.std.specs.Prelude.{List};
    ghost use Rattle.cert_search.specs.declared.board.PoolStatus.{PoolStatus};

    ghost Value = { List PoolStatus };

    ghost view = { λ s. s.statuses.items };
}

impl PoolStatuses {
    /// Returns the number of the first free pool, or `None` if no pool is free.
    fn first_free(&self) -> Option<usize>
        ensures { result ≡ position spec.is_free self.now }
    {
        self.statuses.iter().position(|status| is_free(*status))
    }

    /// Returns whether vectors were searched for every pool, with or without a result.
    pub(crate) fn are_done(&self) -> bool
        ensures { result ≡ list_all spec.is_done self.now }
    {
        self.statuses.iter().all(|status| is_done(*status))
    }

    /// Claims a free pool and returns `true`. If the pool is not free, changes nothing and returns
    /// `false`.
    fn claim(&mut self, pool: usize) -> bool
        ensures taken { IsTrue result
            → spec.claimed self.old pool (slice_get self.old pool) ≡ Some self.new }
        ensures refused { result ≡ false
            → (spec.claimed self.old pool (slice_get self.old pool) ≡ None)
            × (self.new ≡ self.old) }
    {
        match self.statuses.get(pool) {
            Some(PoolStatus::Free) => {
                self.statuses[pool] = PoolStatus::Claimed;
                true
            }
            _ => false,
        }
    }

    /// Makes a claimed pool done and returns `true`. If the pool is not claimed, changes nothing
    /// and returns `false`.
    fn give_back(&mut self, pool: usize) -> bool
        ensures given { IsTrue result
            → spec.returned self.old pool (slice_get self.old pool) ≡ Some self.new }
        ensures refused { result ≡ false
            → (spec.returned self.old pool (slice_get self.old pool) ≡ None)
            × (self.new ≡ self.old) }
    {
        match self.statuses.get(pool) {
            Some(PoolStatus::Claimed) => {
                self.statuses[pool] = PoolStatus::Done;
                true
            }
            _ => false,
        }
    }
}

/// The board of a round, from which the threads of the search take the pools that have no rank yet.
/// Each of these pools can be claimed by only one thread.
#[derive(Drop)]
pub(crate) struct Board {
    /// For each pool, whether it has a rank from an earlier round.
    pub(crate) has_rank: Vec<bool>,
}

impl Machine for Board {
    ghost use Rattle.std.specs.Prelude.{List};
    ghost use Rattle.cert_search.specs.declared.board.PoolStatus.{PoolStatus};

    type State = PoolStatuses;

    type Event = BoardEvent;

    ghost SpecState = { List PoolStatus };

    ghost first = { λ board. spec.initial_statuses board.has_rank.items };

    ghost next = { λ _ statuses event. spec.next_statuses statuses event };

    ghost stored_state = { λ _ statuses. statuses };

    fn start(&self, alloc: Global) -> Result<PoolStatuses, AllocError> {
        let statuses = self
            .has_rank
            .iter()
            .map(|has_rank| initial_status(*has_rank))
            .collect(alloc)?;
        Ok(PoolStatuses { statuses })
    }

    fn step(&self, state: &mut PoolStatuses, event: BoardEvent) -> Result<bool, AllocError> {
        Ok(match event {
            BoardEvent::Claim(pool) => state.claim(pool),
            BoardEvent::Return(pool) => state.give_back(pool),
        })
    }
}

/// Claims the first free pool and returns its number. Returns `None` if no pool is free.
///
/// # Errors
///
/// Returns [`AllocError`] if memory runs out. The board is then unchanged.
pub(crate) fn claim(board: &mut Held<Board>) -> Result<Option<usize>, AllocError>
    ensures pool { IfOk result (λ taken. taken ≡ position spec.is_free board.old.state) }
    ensures taken { IfOk result (λ taken.
        IfSome taken (λ pool. board.new.history ≡ board.old.history ++ event.Claim pool ∷ [])) }
    ensures none { IfOk result (λ taken. IfNone taken (board.new ≡ board.old)) }
    ensures error { OnErr result (board.new ≡ board.old) }
{
    let Some(pool) = board.state().first_free() else {
        return Ok(None);
    };
    match board.act(BoardEvent::Claim(pool))? {
        Some(_) => Ok(Some(pool)),
        None => Ok(None),
    }
}

/// Gives a claimed pool back to the board and returns `true`. The pool is then done. If the pool is
/// not claimed, changes nothing and returns `false`.
///
/// # Errors
///
/// Returns [`AllocError`] if memory runs out. The board is then unchanged.
pub(crate) fn give_back(board: &mut Held<Board>, pool: usize) -> Result<bool, AllocError>
    ensures possible { IfOk result (λ given. (statuses : List PoolStatus) → spec.LeadsTo board.old.machine.has_rank.items board.old.history statuses
        → given ≡ is_some (spec.next_statuses statuses (event.Return pool))) }
    ensures given { IfOk result
        (λ given. given ≡ true → board.new.history ≡ board.old.history ++ event.Return pool ∷ []) }
    ensures refused { IfOk result (λ given. given ≡ false → board.new ≡ board.old) }
    ensures error { OnErr result (board.new ≡ board.old) }
{
    match board.act(BoardEvent::Return(pool))? {
        Some(_) => Ok(true),
        None => Ok(false),
    }
}
