//! Vectors of weights, ranks of pools, and the conditions on them. A certificate consists of such
//! vectors and ranks. The vectors bound the numbers of queued, submitted and blocked jobs.
//!
//! A [`Row`] is one condition at one place of the plan. A walk over the conditions passes each row
//! to a [`RowVisitor`]. Functions such as [`Vector::standing_fault`] return the first condition
//! that fails.
//!
//! The crate also searches for vectors with small totals ([`pool_bound`], [`blocked_vector`]). The
//! weights are chosen so that no event increases the sum of the weights in a state. For example, if
//! each queued job of a pool weighs at least 1, this sum bounds the number of queued jobs of the
//! pool. The contracts of the search promise only the shape of a vector, so each vector must be
//! checked before its use, for example with `cert_check::accepts`.
#![tactic(auto)]

mod blocked;
mod body;
mod bound;
mod complete_vector;
mod counted;
mod counted_by_ranks;
mod fits;
mod get_return;
mod levels;
mod lifetime;
mod minimize_total;
mod numbers;
mod rank_rows;
mod ranks;
mod reached;
mod relief;
mod resized_plan;
mod row;
mod rows;
mod sketch;
mod sketch_cache;
mod standing;
mod submitted;
mod target;
mod total;
mod vector;
mod vectors;
mod visitor;
mod weight;

pub use blocked::{BlockedFault, blocked_fault, visit_blocked_rows};
pub use body::submitted_class;
pub use bound::Bound;
pub use counted::Counted;
pub use counted_by_ranks::RanksOf;
pub use fits::are_small;
pub use get_return::GetReturn;
pub use levels::Levels;
pub use rank_rows::RankFault;
pub use ranks::Ranks;
pub use reached::reach;
pub use resized_plan::{Kind, ResizedPlan, VectorSummary};
pub use row::{Place, Row, RowFault, Rule, StandingFault};
pub use vector::Vector;
pub use vectors::{blocked_vector, pool_bound};
pub use visitor::{FirstFault, RowVisitor};
