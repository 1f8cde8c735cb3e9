//! Rows. A row says where a body can be after the steps of a path. It has an element for each index
//! of the body, and one for the end of the body. An element is true if the body can be there.

ghost use Rattle.std.specs.Prelude.{◌≡◌, ◌<◌, ℕ, ◌+◌, false, ◌&&◌, ◌||◌, None, nat_lt, length, slice_get, slice_index_or};
ghost use Rattle.std.specs.Option.{option_copied};
ghost use Rattle.conformance.specs.BodyGets.{pass_after};
ghost use Rattle.conformance.specs.Path as spec;
ghost use Rattle.conformance.specs.WalkStates.{AreJoined};

use crate::body_gets::BodyGet;
use job_bodies::Action;

/// Updates `row`, the set of indices where the body can be, for a step of the path that submits a
/// job of the class. At the same time, the body makes a submit of the class at one of these indices
/// and goes to the next index. The new row has exactly the next indices of all such submits.
pub(crate) fn shift_row(row: &mut [bool], body: &[Action], class: usize)
    requires { length row.old ≡ length body.now + 1 }
    ensures first { slice_index_or row.new 0 false ≡ false }
    ensures rest { (index : ℕ)
        → index < length body.now
        → slice_index_or row.new (index + 1) false
        ≡ (slice_index_or row.old index false && spec.is_submit_of class (slice_get body.now index)) }
{
    let mut before = false;
    for index in 0..row.len() {
        let here = row[index];
        row[index] = before;
        before = here && is_submit_of(class, body.get(index));
    }
}

/// Returns true if the body submits a job of the class at this index.
pub(crate) fn has_submit_at(body: &[Action], index: usize, class: usize) -> bool
    ensures { result ≡ spec.is_submit_of class (slice_get body.now index) }
{
    is_submit_of(class, body.get(index))
}

fn is_submit_of(class: usize, action: Option<&Action>) -> bool
    ensures { result ≡ spec.is_submit_of class (option_copied action.entry) }
{
    match action {
        Some(Action::Submit(other)) => *other == class,
        _ => false,
    }
}

/// Removes the index `end` and all larger indices from `row`, the set of indices where the body can
/// be.
pub(crate) fn cut_row(row: &mut [bool], end: usize)
    ensures { (index : ℕ) → slice_index_or row.new index false
        ≡ (slice_index_or row.old index false && nat_lt index end) }
{
    for index in 0..row.len() {
        if index >= end {
            row[index] = false;
        }
    }
}

/// Adds to `row` the indices that the body can reach while the path makes no step. `row` is the set
/// of indices where the body can be. `passes` says for each action whether the body may pass the
/// action: go to the next one while the path makes no step.
pub(crate) fn close_row(row: &mut [bool], passes: &[bool])
    requires { length row.old ≡ length passes.now + 1 }
    ensures first { slice_index_or row.new 0 false ≡ slice_index_or row.old 0 false }
    ensures rest { (index : ℕ)
        → index < length passes.now
        → slice_index_or row.new (index + 1) false
        ≡ (slice_index_or row.old (index + 1) false
        || (slice_index_or row.new index false && slice_index_or passes.now index false)) }
{
    for index in 0..passes.len() {
        if row[index] && passes[index] {
            row[index + 1] = true;
        }
    }
}

/// Adds to `row` the indices of another row. Ignores the indices past the end of `row`.
pub(crate) fn add_row(row: &mut [bool], other: &[bool])
    ensures { AreJoined row.old other.now row.new }
{
    for index in 0..row.len() {
        row[index] = row[index] || other.get(index).copied().unwrap_or(false);
    }
}

/// Updates `passes` for a new number of open jobs: the path now has `count` open jobs of the class.
/// `passes` says for each action whether the body may pass the action: go to the next one while the
/// path makes no step. The body may pass a get of the class if `count` is at most the get's
/// [`limit`](BodyGet::limit).
pub(crate) fn update_passes(
    passes: &mut [bool],
    gets: &[Option<BodyGet>],
    class: usize,
    count: usize,
)
    requires { length passes.old ≡ length gets.now }
    ensures { (index : ℕ)
        → index < length gets.now
        → slice_index_or passes.new index false
        ≡ pass_after class count (slice_index_or gets.now index None) (slice_index_or passes.old index false) }
{
    for index in 0..gets.len() {
        passes[index] = pass_after(class, count, gets[index], passes[index]);
    }
}

fn pass_after(class: usize, count: usize, get: Option<BodyGet>, before: bool) -> bool
    ensures { result ≡ pass_after class count get before }
{
    match get {
        Some(get) if get.class == class => count <= get.limit,
        _ => before,
    }
}
