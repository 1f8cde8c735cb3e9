//! The settings of a pool in a `pool` line: its sizes, its queue and its handler. Each parser
//! returns `None` if the text has another form.

ghost use Rattle.std.specs.Prelude.{◌≡◌, option_map};
ghost use Rattle.recordings.specs.PoolSizes as spec;

use crate::words::{is_word, parse_number, parse_word_and_number, strip_word};
use support::{MAX_LINE_NUMBER, split_space};

/// The capacity of an unbounded queue in a `pool` line. A `LinkedBlockingQueue` with this capacity
/// counts as unbounded.
///
/// A `LinkedBlockingQueue` that is created without a capacity has the capacity 2,147,483,647. A
/// recorder writes [`MAX_LINE_NUMBER`] instead, because no number in a line may be larger.
pub const UNBOUNDED_CAPACITY: usize = MAX_LINE_NUMBER;

/// The settings of a pool in a `pool` line. If a value is above
/// [`MAX_LINE_NUMBER`](support::MAX_LINE_NUMBER), a recorder writes this limit instead, so no
/// number in a line is larger.
#[derive(Clone, Copy)]
pub struct PoolSizes {
    pub core: usize,
    pub max: usize,
    pub queue: QueueKind,
    /// The capacity of the queue.
    pub capacity: usize,
    /// Whether core threads may time out.
    pub timeout: bool,
    /// The number of threads of the pool when the pool's recording began.
    pub prestarted: usize,
    pub handler: HandlerKind,
}

impl PoolSizes {
    /// Returns true if the queue counts as unbounded, which means that it is a
    /// `LinkedBlockingQueue` with the capacity [`UNBOUNDED_CAPACITY`].
    pub fn has_unbounded_queue(self) -> bool
        ensures { result ≡ spec.has_unbounded_queue self }
    {
        self.queue.is_linked() && self.capacity == UNBOUNDED_CAPACITY
    }
}

/// The kind of a pool's queue. A queue of a subclass of `ArrayBlockingQueue` or
/// `LinkedBlockingQueue` has the kind [`Other`](QueueKind::Other).
#[derive(Clone, Copy, PartialEq, Eq, Hash)]
pub enum QueueKind {
    Array,
    Linked,
    Synchronous,
    Priority,
    Other,
}

impl QueueKind {
    /// Returns true if the queue is a `LinkedBlockingQueue`.
    pub fn is_linked(self) -> bool
        ensures { result ≡ spec.is_linked self }
    {
        matches!(self, QueueKind::Linked)
    }
}

/// The kind of a pool's handler for refused jobs.
#[derive(Clone, Copy)]
pub enum HandlerKind {
    Abort,
    CallerRuns,
    Discard,
    DiscardOldest,
    Other,
}

#[tactic(auto, unfolding(crate::specs::PoolSizes::queue_kind_of))]
fn queue_kind_of(word: &[u8]) -> Option<QueueKind>
    ensures { result ≡ spec.queue_kind_of word.now }
{
    if is_word(word, "array") {
        Some(QueueKind::Array)
    } else if is_word(word, "linked") {
        Some(QueueKind::Linked)
    } else if is_word(word, "synchronous") {
        Some(QueueKind::Synchronous)
    } else if is_word(word, "priority") {
        Some(QueueKind::Priority)
    } else if is_word(word, "other") {
        Some(QueueKind::Other)
    } else {
        None
    }
}

#[tactic(auto, unfolding(crate::specs::PoolSizes::handler_kind_of))]
fn handler_kind_of(word: &[u8]) -> Option<HandlerKind>
    ensures { result ≡ spec.handler_kind_of word.now }
{
    if is_word(word, "abort") {
        Some(HandlerKind::Abort)
    } else if is_word(word, "caller_runs") {
        Some(HandlerKind::CallerRuns)
    } else if is_word(word, "discard") {
        Some(HandlerKind::Discard)
    } else if is_word(word, "discard_oldest") {
        Some(HandlerKind::DiscardOldest)
    } else if is_word(word, "other") {
        Some(HandlerKind::Other)
    } else {
        None
    }
}

#[tactic(auto, unfolding(crate::specs::PoolSizes::yes_or_no))]
fn yes_or_no(word: &[u8]) -> Option<bool>
    ensures { result ≡ spec.yes_or_no word.now }
{
    if is_word(word, "yes") {
        Some(true)
    } else if is_word(word, "no") {
        Some(false)
    } else {
        None
    }
}

/// Parses `queue KIND` and a space at the start of the text. Returns the kind and the text after
/// the space.
#[tactic(auto, unfolding(crate::specs::PoolSizes::parse_queue))]
fn parse_queue(text: &[u8]) -> Option<(QueueKind, &[u8])>
    ensures { option_map (λ read. (read.0, read.1.now)) result ≡ spec.parse_queue text.now }
{
    let (word, rest) = split_space(strip_word("queue", text)?)?;
    Some((queue_kind_of(word)?, rest))
}

/// Parses `timeout WORD` and a space at the start of the text. The word must be `yes` or `no`.
/// Returns true for `yes` and false for `no`. Also returns the text after the space.
#[tactic(auto, unfolding(crate::specs::PoolSizes::parse_timeout))]
fn parse_timeout(text: &[u8]) -> Option<(bool, &[u8])>
    ensures { option_map (λ read. (read.0, read.1.now)) result ≡ spec.parse_timeout text.now }
{
    let (word, rest) = split_space(strip_word("timeout", text)?)?;
    Some((yes_or_no(word)?, rest))
}

/// Parses `handler KIND`, which must be the whole text, and returns the kind.
#[tactic(auto, unfolding(crate::specs::PoolSizes::handler_of))]
fn handler_of(text: &[u8]) -> Option<HandlerKind>
    ensures { result ≡ spec.handler_of text.now }
{
    handler_kind_of(strip_word("handler", text)?)
}

/// Parses the settings `core C max C queue KIND C timeout WORD prestarted C handler KIND`, which
/// must be the whole text. Returns `None` if the text has another form.
#[tactic(auto, unfolding(crate::specs::PoolSizes::pool_sizes_of))]
pub(crate) fn pool_sizes_of(text: &[u8]) -> Option<PoolSizes>
    ensures { result ≡ spec.pool_sizes_of text.now }
{
    let (core, rest) = parse_word_and_number("core", text)?;
    let (max, rest) = parse_word_and_number("max", rest)?;
    let (queue, rest) = parse_queue(rest)?;
    let (capacity, rest) = parse_number(rest)?;
    let (timeout, rest) = parse_timeout(rest)?;
    let (prestarted, rest) = parse_word_and_number("prestarted", rest)?;
    let handler = handler_of(rest)?;
    Some(PoolSizes {
        core,
        max,
        queue,
        capacity,
        timeout,
        prestarted,
        handler,
    })
}
