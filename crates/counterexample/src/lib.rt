//! Counterexamples to a plan. This crate searches for one, checks it by a replay, and writes it as
//! event lines.
//!
//! A [`Witness`] is a list of events. Either the last event is a refused submit, or some jobs wait
//! only for each other after the last event. The search is not trusted: [`confirmed`] replays the
//! events that the search finds.
//!
//! If core threads of a pool may time out, events of a witness can end idle threads of this pool.
//! In some states, jobs wait only for each other as soon as idle threads have ended. The search
//! finds these jobs too. The last events of the witness then end the threads.
//!
//! A full pool refuses or rejects a submit:
//!
//! - A pool *refuses* a submit if the pool must not reject jobs. The witness ends with this event.
//! - A pool *rejects* a submit if the plan allows the pool to reject jobs. This is an ordinary
//!   event of a witness. [`find_rejection`] searches for events that lead to a rejection.
//!
//! A pool with an unbounded queue neither refuses nor rejects a job.
#![tactic(auto)]

mod best_first;
mod branches;
mod choices;
mod confirmation;
mod ending;
mod event_texts;
mod fingerprints;
mod laws;
mod losses;
mod machine;
mod next_choices;
mod no_thread_starts;
mod orders;
mod pool_threads;
mod pools;
mod queue_limits;
mod rejections;
mod replayed_states;
mod replaying;
mod replays;
mod rising;
mod scripts;
mod search;
mod shorten;
mod stuck_checks;
mod vectors;
mod waiting_sets;
mod walks;
mod witness;

pub use confirmation::confirmed;
pub use ending::{Ending, Reason};
pub use event_texts::push_event_lines;
pub use interleaving::Event;
pub use laws::{
    permanent_waiting_sets_stay, standing_pools_stay_at_core, witnessed_plans_are_not_accepted,
    witnessed_plans_are_not_safe,
};
pub use rejections::find_rejection;
pub use search::{CandidateWitness, SearchResult, search_witness};
pub use weights::Vector;
pub use witness::Witness;
