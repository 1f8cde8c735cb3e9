//! The data of the live jobs, in a sequence indexed by job number.

ghost use Rattle.std.specs.Prelude.{◌≡◌, ◌+◌, ◌<◌, ◌^◌, [], ◌∷◌, ◌++◌, length, is_some, IsSome, slice_set, ◌≤◌, ◌⊎◌, nat_eq, None, Some, OnOk};
ghost use Rattle.std.specs.HashMap.{get, spare, Updates};
ghost use Rattle.std.specs.VecDeque.{deque_len, deque_capacity};
ghost use Rattle.interleaving.specs.JobEntry.{place_at, place_in_phase};
ghost use Rattle.interleaving.specs.JobRing.{HasNoGapAtFront, gaps, longest};

use crate::Phase;
use crate::job_table::JobEntry;
use std::alloc::{AllocError, Global};
use std::collections::{HashMap, VecDeque};
use std::marker::Model;

// A ring is too long if half its length exceeds the number of live jobs by more than this number.
// The first job of such a ring moves into the map.
const SPARE_NUMBERS: usize = 16;

/// A sequence with an entry for each job that was ever created, in the order of the job numbers.
/// The entry of a job that is no longer live is a gap.
///
/// The entries with numbers from `base` up are in the ring buffer `recent`, in which a look-up is
/// an index operation. The live jobs with lower numbers are in the map `older`.
///
/// If the ring is too long for the number of live jobs, its first job moves into the map. The ring
/// then begins at the next live job. So a job that stays live for long does not keep the gaps after
/// it in memory.
#[derive(Drop)]
pub(crate) struct JobRing {
    // The number of the first entry of `recent`.
    base: usize,
    recent: VecDeque<Option<JobEntry>>,
    // The live jobs with numbers below `base`.
    older: HashMap<usize, JobEntry>,
}

impl Model for JobRing {
    ghost use Rattle.std.specs.Prelude.{◌+◌, ◌-◌, ◌^◌, min};
    ghost use Rattle.std.specs.VecDeque.{deque_len, deque_capacity};
    ghost use Rattle.interleaving.specs.JobRing.{Row, row_items, IsRow};

    ghost Value = { Row };

    ghost view = { λ r. record { items = row_items r.older r.base r.recent.items; span = deque_len r.recent; room = min (deque_capacity r.recent - deque_len r.recent) (2 ^ 64 - 1 - (r.base + deque_len r.recent)) } };

    ghost invariant = { λ r. IsRow r.older r.base r.recent.items };
}

impl JobRing {
    /// Creates an empty sequence.
    pub(crate) fn new(alloc: Global) -> JobRing
        ensures items { result.items ≡ [] }
        ensures span { result.span ≡ 0 }
    {
        JobRing {
            base: 0,
            recent: VecDeque::new(alloc),
            older: HashMap::new(alloc),
        }
    }

    /// Returns the number of jobs ever created.
    pub(crate) fn len(&self) -> usize
        ensures { result ≡ length self.now.items }
    {
        self.base + self.recent.len()
    }

    /// Returns the data of the job with this number, or `None` if the job is not live.
    #[inline(always)]
    pub(crate) fn get(&self, number: usize) -> Option<JobEntry>
        ensures { result ≡ place_at self.now.items number }
    {
        if number < self.base {
            return get_older(&self.older, number);
        }
        *self.recent.get(number - self.base)?
    }

    /// Stores `place` as the data of the live job with this number.
    pub(crate) fn set(&mut self, number: usize, place: JobEntry)
        requires { IsSome (place_at self.old.items number) }
        ensures items { self.new.items ≡ slice_set self.old.items number (Some place) }
        ensures span { self.new.span ≡ self.old.span }
        ensures room { self.new.room ≡ self.old.room }
    {
        if number < self.base {
            put(&mut self.older, number, place);
        } else {
            self.recent[number - self.base] = Some(place);
        }
    }

    /// Sets the phase of the live job with this number to `phase`.
    pub(crate) fn set_phase(&mut self, number: usize, phase: Phase)
        requires { IsSome (place_at self.old.items number) }
        ensures items { self.new.items
            ≡ slice_set self.old.items number
            (place_in_phase phase (place_at self.old.items number)) }
        ensures span { self.new.span ≡ self.old.span }
        ensures room { self.new.room ≡ self.old.room }
    {
        if number < self.base {
            put_phase(&mut self.older, number, phase);
        } else {
            set_phase_at(&mut self.recent, number - self.base, phase);
        }
    }

    /// Removes the data of the job with this number, and returns whether the job was live.
    pub(crate) fn free(&mut self, number: usize) -> bool
        ensures value { result ≡ is_some (place_at self.old.items number) }
        ensures items { self.new.items ≡ slice_set self.old.items number None }
        ensures span { self.new.span ≤ self.old.span }
        ensures room { self.old.room ≤ self.new.room }
    {
        if number < self.base {
            return self.older.remove(&number).is_some();
        }
        let was_kept = clear(&mut self.recent, number - self.base);
        self.base += skip_gaps(&mut self.recent);
        was_kept
    }

    /// Reserves memory for one more job. `live` is the number of live jobs. If the ring is too long
    /// for this number of live jobs, moves the first job of the ring into the map.
    ///
    /// # Errors
    ///
    /// Returns `AllocError` if there is not enough memory, or if the number of jobs ever created
    /// would overflow.
    pub(crate) fn reserve(&mut self, live: usize) -> Result<(), AllocError>
        ensures items { self.new.items ≡ self.old.items }
        ensures span { self.new.span ≤ self.old.span }
        ensures short { OnOk result
            ((self.new.span < longest live) ⊎ (self.new.span < self.old.span)) }
        ensures room { OnOk result (0 < self.new.room) }
    {
        self.shorten(live)?;
        if self.len() == usize::MAX {
            return Err(AllocError);
        }
        self.recent.reserve(1)
    }

    // Moves the first job of the ring into the map if the ring is too long for this number of live
    // jobs.
    fn shorten(&mut self, live: usize) -> Result<(), AllocError>
        ensures items { self.new.items ≡ self.old.items }
        ensures span { self.new.span ≤ self.old.span }
        ensures short { OnOk result
            ((self.new.span < longest live) ⊎ (self.new.span < self.old.span)) }
    {
        if self.recent.len() / 2 <= live.saturating_add(SPARE_NUMBERS) {
            return Ok(());
        }
        let Some(Some(place)) = self.recent.front() else {
            return Ok(());
        };
        let place = *place;
        self.older.insert(self.base, place)?;
        self.recent.pop_front();
        self.base += 1;
        self.base += skip_gaps(&mut self.recent);
        Ok(())
    }

    /// Appends a new job with the data `place`. [`reserve`](JobRing::reserve) must have reserved
    /// memory for it.
    pub(crate) fn push(&mut self, place: JobEntry)
        requires { 0 < self.old.room }
        ensures items { self.new.items ≡ self.old.items ++ Some place ∷ [] }
        ensures span { self.new.span ≡ self.old.span + 1 }
        ensures fits { length self.old.items + 1 < 2 ^ 64 }
    {
        self.recent.push_back_reserved(Some(place));
    }
}

// Removes the gaps at the start of the ring, and returns their number.
fn skip_gaps(recent: &mut VecDeque<Option<JobEntry>>) -> usize
    ensures items { recent.old.items ≡ gaps result ++ recent.new.items }
    ensures front { HasNoGapAtFront recent.new.items }
    ensures len { deque_len recent.new + result ≡ deque_len recent.old }
    ensures capacity { deque_capacity recent.new ≡ deque_capacity recent.old }
{
    let mut skipped = 0;
    while let Some(None) = recent.front() {
        recent.pop_front();
        skipped += 1;
    }
    skipped
}

// Clears the entry at this index of the ring, and returns whether it was occupied.
fn clear(recent: &mut VecDeque<Option<JobEntry>>, index: usize) -> bool
    ensures value { result ≡ is_some (place_at recent.old.items index) }
    ensures items { recent.new.items ≡ slice_set recent.old.items index None }
    ensures len { deque_len recent.new ≡ deque_len recent.old }
    ensures capacity { deque_capacity recent.new ≡ deque_capacity recent.old }
{
    match recent.get_mut(index) {
        Some(place) => place.take().is_some(),
        None => false,
    }
}

// Sets the phase of the job at this index of the ring to `phase`, if the entry is occupied.
fn set_phase_at(recent: &mut VecDeque<Option<JobEntry>>, index: usize, phase: Phase)
    ensures items { recent.new.items
        ≡ slice_set recent.old.items index
        (place_in_phase phase (place_at recent.old.items index)) }
    ensures len { deque_len recent.new ≡ deque_len recent.old }
    ensures capacity { deque_capacity recent.new ≡ deque_capacity recent.old }
{
    if let Some(place) = recent.get_mut(index) {
        set_phase_in(place, phase);
    }
}

// Sets the phase of the job in this entry to `phase`, if the entry is occupied.
fn set_phase_in(place: &mut Option<JobEntry>, phase: Phase)
    ensures { place.new ≡ place_in_phase phase place.old }
{
    if let Some(place) = place {
        place.job.phase = phase;
    }
}

// Returns the data of the job with this number from the map. Not inlined, since few look-ups need
// the map.
#[inline(never)]
fn get_older(older: &HashMap<usize, JobEntry>, number: usize) -> Option<JobEntry>
    ensures { result ≡ get nat_eq older.now number }
{
    older.get(&number).copied()
}

// Stores `place` as the data of the job with this number. The job must be in the map.
fn put(older: &mut HashMap<usize, JobEntry>, number: usize, place: JobEntry)
    requires { IsSome (get nat_eq older.old number) }
    ensures { Updates nat_eq older.old older.new number (Some place) }
{
    if let Some(kept) = older.get_mut(&number) {
        *kept = place;
    }
}

// Sets the phase of the job with this number to `phase`. The job must be in the map.
fn put_phase(older: &mut HashMap<usize, JobEntry>, number: usize, phase: Phase)
    requires { IsSome (get nat_eq older.old number) }
    ensures { Updates nat_eq older.old older.new number
        (place_in_phase phase (get nat_eq older.old number)) }
{
    if let Some(kept) = older.get_mut(&number) {
        kept.job.phase = phase;
    }
}
