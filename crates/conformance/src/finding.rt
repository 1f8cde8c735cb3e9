//! Differences between a recording and a plan.

ghost use Rattle.std.specs.Prelude.{◌≡◌, ◌<◌};
ghost use Rattle.conformance.specs.Finding as spec;

use crate::actor_label::ActorLabel;
use crate::mismatch::PathMismatch;
use crate::unplanned::UnplannedLabel;
use crate::{Difference, PoolDeviation, RoundExcess};
use recordings::{ForeignGet, Invalidation, RecordedActor};

/// The factor by which the line number is multiplied in the sort key of a finding: 2^64. The lower
/// 64 bits of the key are a rank of 4 bits and a number of 60 bits.
const RANKS: u128 = 1 << 64;

const NUMBERS: u128 = 1 << 60;

const LAST_NUMBER: usize = (1 << 60) - 1;

/// A difference between a recording and a plan, or an event that invalidates a SAFE answer. Lines
/// are numbered from 1.
#[derive(Drop)]
pub enum Finding {
    /// A pool that differs from the plan.
    Pool(PoolDeviation),
    /// A label that is not in the plan. A label is a class with its pool, or a client kind.
    UnplannedLabel(UnplannedLabel),
    /// An actor with a path that matches no body of its label. It is the first such actor of the
    /// label, by number. `line` is the line of the first step that no body allows, or `None` if no
    /// line records this step. A label is a class with its pool, or a client kind.
    PathMismatch {
        line: Option<usize>,
        mismatch: PathMismatch,
    },
    /// An actor with an undecided match: it is unknown which bodies of the actor's label the path
    /// matches. It is the first such actor of the label, by number. The comparison has no complete
    /// result for this label. A label is a class with its pool, or a client kind.
    NotDecided {
        actor: RecordedActor,
        label: ActorLabel,
    },
    /// The first line at which a client kind has more rounds than the plan allows. A round is one
    /// pass of a client through its body. Each round is counted for the first kind that it can
    /// belong to. If it can belong to none, it is counted for the first kind that its label may
    /// refer to. A round with an undecided kind is not counted.
    TooMany(RoundExcess),
    /// The first foreign get: a line in which an actor gets a job that another actor submitted, and
    /// the submitter has not got the job in an earlier line. `label` is the label of the actor that
    /// gets the job. `job` is the label of the job.
    ForeignGet {
        get: ForeignGet,
        label: ActorLabel,
        job: ActorLabel,
    },
    /// An event that invalidates a SAFE answer. It is the first such event of its type.
    Invalidation {
        invalidation: Invalidation,
        /// The class and the pool that the text of the finding names:
        ///
        /// - for a call of `invokeAny`, the class or client kind of the calling actor, and the pool
        ///   of the call;
        /// - for an `unseen` line, which reports jobs without `submit` lines, an empty name, and
        ///   the pool of the line;
        /// - for any other event, the class and the pool of the job.
        label: ActorLabel,
    },
}

impl Finding {
    /// Returns the line number of the finding. Returns `None` for these findings, which have no
    /// line:
    ///
    /// - a pool of the plan that the recording lacks;
    /// - an actor with an undecided match;
    /// - a path mismatch whose field `line` is `None`.
    pub fn line(&self) -> Option<usize>
        ensures { result ≡ spec.line_of self.now }
    {
        match self {
            Finding::Pool(deviation) => pool_line(deviation),
            Finding::UnplannedLabel(label) => label_line(label),
            Finding::PathMismatch { line, .. } => *line,
            Finding::NotDecided { .. } => None,
            Finding::TooMany(excess) => Some(excess.line),
            Finding::ForeignGet { get, .. } => Some(get.line),
            Finding::Invalidation { invalidation, .. } => Some(invalidation.line),
        }
    }

    /// Returns the sort key of the finding. It orders findings by line, then by the rank of their
    /// type, and then by [`number`](Finding::number). Findings without a line come last.
    pub(crate) fn sort_key(&self) -> u128
        ensures { result ≡ spec.sort_key self.now }
    {
        let number = self.number().min(LAST_NUMBER);
        self.place() as u128 * RANKS + self.rank() as u128 * NUMBERS + number as u128
    }

    fn place(&self) -> usize
        ensures { result ≡ spec.place_of self.now }
    {
        self.line().unwrap_or(usize::MAX)
    }

    /// Returns the rank of the finding's type. The types in ascending order of rank are: pools,
    /// labels, path mismatches, undecided jobs, undecided rounds, numbers of rounds, foreign gets
    /// and events.
    fn rank(&self) -> usize
        ensures value { result ≡ spec.rank_of self.now }
        ensures few { result < 8 }
    {
        match self {
            Finding::Pool(_) => 0,
            Finding::UnplannedLabel(_) => 1,
            Finding::PathMismatch { .. } => 2,
            Finding::NotDecided {
                actor: RecordedActor::Job(_),
                ..
            } => 3,
            Finding::NotDecided {
                actor: RecordedActor::Round(_),
                ..
            } => 4,
            Finding::TooMany(_) => 5,
            Finding::ForeignGet { .. } => 6,
            Finding::Invalidation { .. } => 7,
        }
    }

    /// Returns the number that orders findings of the same line and type:
    ///
    /// - for a difference, the number of the setting that differs, from 0 (core) to 5 (prestarted);
    /// - for a pool that is not recorded, the number of the pool;
    /// - for an undecided actor, the number of the actor;
    /// - for an excess of rounds, the number of the client kind;
    /// - for any other finding, 0.
    fn number(&self) -> usize
        ensures { result ≡ spec.number_of self.now }
    {
        match self {
            Finding::Pool(deviation) => pool_number(deviation),
            Finding::NotDecided { actor, .. } => actor_number(*actor),
            Finding::TooMany(excess) => excess.kind,
            _ => 0,
        }
    }
}

fn pool_number(deviation: &PoolDeviation) -> usize
    ensures { result ≡ spec.pool_number deviation.now }
{
    match deviation {
        PoolDeviation::UnplannedLabel { .. } => 0,
        PoolDeviation::Differs { difference, .. } => difference_number(*difference),
        PoolDeviation::NotRecorded { pool } => *pool,
    }
}

fn difference_number(difference: Difference) -> usize
    ensures { result ≡ spec.difference_number difference }
{
    match difference {
        Difference::Core { .. } => 0,
        Difference::Max { .. } | Difference::BoundedMax { .. } => 1,
        Difference::KindOfQueue(_) => 2,
        Difference::Capacity { .. } | Difference::BoundedQueue { .. } => 3,
        Difference::CoreTimeout | Difference::NoCoreTimeout => 4,
        Difference::Prestarted { .. } => 5,
    }
}

fn actor_number(actor: RecordedActor) -> usize
    ensures { result ≡ spec.actor_number actor }
{
    match actor {
        RecordedActor::Job(job) => job,
        RecordedActor::Round(round) => round,
    }
}

fn pool_line(deviation: &PoolDeviation) -> Option<usize>
    ensures { result ≡ spec.pool_line deviation.now }
{
    match deviation {
        PoolDeviation::UnplannedLabel { line, .. } | PoolDeviation::Differs { line, .. } => Some(
            *line,
        ),
        PoolDeviation::NotRecorded { .. } => None,
    }
}

fn label_line(label: &UnplannedLabel) -> Option<usize>
    ensures { result ≡ spec.label_line label.now }
{
    match label {
        UnplannedLabel::Class { line, .. } | UnplannedLabel::Kind { line, .. } => Some(*line),
    }
}
