//! A search for the get that keeps a body from reaching an index: the index of a submit, or the end
//! of the body. While a path is matched against the body, a get blocks the body if too many jobs of
//! the get's class are open in the path. The search finds the reason why a recorded path does not
//! match a body.

ghost use Rattle.std.specs.Prelude.{◌≡◌, ◌≤◌, ◌<◌, ◌==◌, ◌&&◌, nat_lt, if◌then◌else◌, length};
ghost use Rattle.conformance.specs.BlockingGet as spec;

use crate::body_gets::BodyGet;

/// The result of a search for a get that blocks the body on its way to an index. The way starts at
/// the last index, up to this one, where the body can be. It ends before the action at this index.
#[derive(Clone, Copy)]
enum Way {
    /// There is no way: the body can be neither at the index nor before it.
    Unreached,
    /// No get on the way to the index blocks the body.
    Free,
    /// At least one get on the way to the index blocks the body. The candidates are the first such
    /// get, and all later gets of the same class on the way. The field is the candidate with the
    /// smallest [`limit`](BodyGet::limit).
    Blocked(BodyGet),
}

/// Returns the get that blocks the way of the body to the index `end`. Returns `None` if no get on
/// the way blocks the body, or if the body can be neither at this index nor before it.
///
/// A get blocks the body if the body may not pass the get. The way starts at the last index, up to
/// `end`, where the body can be. It ends before the action at `end`. The candidates are the first
/// blocking get on the way, and all later gets of the same class on the way. The result is the
/// candidate with the smallest [`limit`](BodyGet::limit).
///
/// - `row` says for each index, and for the end of the body, whether the body can be there.
/// - `passes` says for each action whether the body may pass the action: go to the next one while
///   the path makes no step.
/// - `gets` has an entry for each action: the get, or `None` if the action is no get.
pub(crate) fn blocking_get(
    row: &[bool],
    passes: &[bool],
    gets: &[Option<BodyGet>],
    end: usize,
) -> Option<BodyGet>
    requires row { end < length row.now }
    requires passes { end ≤ length passes.now }
    requires gets { end ≤ length gets.now }
    ensures { spec.IsBlocking row.now passes.now gets.now end result }
{
    let mut way = Way::Unreached;
    for index in 0..end {
        let here = way_at(way, row[index]);
        way = way_after(here, passes[index], gets[index]);
    }
    get_on(way_at(way, row[end]))
}

/// Returns the [`Way`] to an index. `before` is the result for the actions before the index. If the
/// body can be at the index (`is_at`), returns [`Way::Free`], because the way starts there.
/// Otherwise returns `before`.
fn way_at(before: Way, is_at: bool) -> Way
    ensures { result ≡ spec.way_at before is_at }
{
    if is_at { Way::Free } else { before }
}

/// Returns the get of [`Way::Blocked`], or `None` if no get blocks the body.
fn get_on(way: Way) -> Option<BodyGet>
    ensures { result ≡ spec.get_on way }
{
    match way {
        Way::Blocked(get) => Some(get),
        Way::Unreached | Way::Free => None,
    }
}

/// Returns the [`Way`] to the index after an action. `way` is the way to the index of the action.
/// `get` is the action, or `None` if the action is no get. `passes` says whether the body may pass
/// the action.
fn way_after(way: Way, passes: bool, get: Option<BodyGet>) -> Way
    ensures { result ≡ spec.way_after way passes get }
{
    match way {
        Way::Unreached => Way::Unreached,
        Way::Free => match get {
            Some(get) => { if passes { Way::Free } else { Way::Blocked(get) } }
            None => Way::Free,
        },
        Way::Blocked(least) => Way::Blocked(least_get(least, get)),
    }
}

/// Returns `get` if it has the same class as `least` and a smaller [`limit`](BodyGet::limit).
/// Otherwise returns `least`.
fn least_get(least: BodyGet, get: Option<BodyGet>) -> BodyGet
    ensures { result ≡ spec.least_get least get }
{
    match get {
        Some(get) => {
            if get.class == least.class && get.limit < least.limit {
                get
            } else {
                least
            }
        }
        None => least,
    }
}
