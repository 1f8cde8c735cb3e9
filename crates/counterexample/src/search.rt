//! The search for a witness: a list of events that proves that a plan is not safe. The search
//! performs several kinds of walks, and then a best-first search. A walk starts in the plan's
//! initial state and makes one possible choice after another. A *guided* walk uses a vector, which
//! gives weights to workers, clients and jobs. The walk prefers the choices that lose the least
//! weight.
//!
//! A violation is *permanent* in two cases:
//!
//! - A submit is refused.
//! - Jobs wait only for each other, and no later event ends this wait.

ghost use Rattle.std.specs.Prelude.{◌≤◌, IfOk};

use crate::best_first::best_first;
use crate::choices::Choices;
use crate::orders::{FIXED_ORDERS, Rng, fixed_order, shuffle};
use crate::pools::most_threads;
use crate::queue_limits::most_queued;
use crate::replays::Replay;
use crate::scripts::Script;
use crate::shorten::shorten_script;
use crate::vectors::{Potential, missed_vectors};
use crate::walks::{Rules, Violation, WalkResult, perform_walk};
use job_bodies::Plan;
use pool_machine::Event;
use std::alloc::{AllocError, Global};

/// The maximum number of guided walks for each vector. A guided walk prefers the choices that lose
/// the least weight under the vector.
const GUIDED_WALKS: usize = 256;
/// The maximum number of walks in random orders.
const RANDOM_WALKS: usize = 1500;

/// A list of events that is probably a witness. [`confirmed`](crate::confirmed) checks whether it
/// is a witness.
#[derive(Drop)]
pub struct CandidateWitness {
    /// The events that lead from the plan's initial state to the violation.
    pub events: Vec<Event>,
    /// The numbers of the jobs that wait only for each other after the events. This list is empty
    /// if the last event is a refused submit.
    pub members: Vec<usize>,
}

/// The result of a search for a witness: a probable witness, if one was found, and the number of
/// visited states.
#[derive(Drop)]
pub struct SearchResult {
    /// A probable witness, if one was found.
    pub found: Option<CandidateWitness>,
    /// The number of visited states. A state counts each time that the search visits it:
    ///
    /// - the initial state counts at the start of each walk and of the best-first search,
    /// - the state after each choice counts, and
    /// - in the best-first search, each choice that ends in a refused submit counts too.
    pub states: usize,
}

/// Searches for a witness against the plan. A witness is a list of events. Either the last event is
/// a refused submit, or some jobs wait only for each other after the last event. A later event may
/// end this wait.
///
/// Visits at most `states` states. If the search finds no witness, the plan may still have one. The
/// result is the same for each call with the same arguments.
///
/// The contract promises nothing about the events that are found. Pass them to
/// [`confirmed`](crate::confirmed), which replays them.
///
/// # Errors
///
/// Returns [`AllocError`] if memory runs out.
pub fn search_witness(alloc: Global, plan: &Plan, states: usize) -> Result<SearchResult, AllocError>
    ensures { IfOk result (λ searched. searched.states ≤ states) }
{
    let mut search = Search {
        alloc,
        plan,
        choices: Choices::of(alloc, plan)?,
        longest_walk: longest_walk(plan),
        rng: Rng::new(),
        left: states,
        reserved: 0,
        found: None,
    };
    let found = search.find()?;
    Ok(SearchResult {
        found,
        states: states.saturating_sub(search.left),
    })
}

/// The state of a search for a witness.
#[derive(Drop)]
struct Search<'a> {
    alloc: Global,
    plan: &'a Plan,
    choices: Choices,
    /// The maximum number of states that one walk may visit.
    longest_walk: usize,
    rng: Rng,
    /// The number of states that the search may still visit.
    left: usize,
    /// The number of states that are reserved for the later stages of the search. They are not
    /// included in `left`.
    reserved: usize,
    /// The first permanent violation, with the events that lead to it. If there is none, the first
    /// violation that is not permanent: some jobs wait only for each other, and a later event may
    /// end their wait.
    found: Option<(Script, Violation)>,
}

impl Search<'_> {
    /// Performs the stages of the search: walks in fixed orders, guided walks, walks in random
    /// orders, and the best-first search. Returns a probable witness for the first permanent
    /// violation. If no stage finds one, returns a probable witness for the first other violation,
    /// or `None` if no violation was found.
    fn find(&mut self) -> Result<Option<CandidateWitness>, AllocError> {
        if !self.in_fixed_orders()? {
            self.find_with_vectors()?;
        }
        self.release_reserved();
        self.candidate()
    }

    /// Performs the later stages of [`find`](Search::find): guided walks, walks in random orders,
    /// and the best-first search.
    fn find_with_vectors(&mut self) -> Result<(), AllocError> {
        let potentials = missed_vectors(self.alloc, self.plan)?;
        self.find_with(&potentials)
    }

    /// Performs the stages of [`find_with_vectors`](Search::find_with_vectors). Each vector in
    /// `potentials` guides walks, and the first of them are also measures of the best-first search.
    fn find_with(&mut self, potentials: &[Potential]) -> Result<(), AllocError> {
        if !self.search_guided(potentials)? && !self.random_walks()? {
            self.best_first(potentials)?;
        }
        Ok(())
    }

    /// Reserves half of the remaining states for the later stages of the search.
    fn reserve_half(&mut self) {
        self.reserved = self.left / 2;
        self.left = self.left.saturating_sub(self.reserved);
    }

    fn release_reserved(&mut self) {
        self.left = self.left.saturating_add(self.reserved);
        self.reserved = 0;
    }

    /// Performs the walks in fixed orders, until one of them finds a permanent violation. Returns
    /// whether one did. No walk visits more than [`longest_walk`] states. Within this limit, the
    /// first walk may visit all remaining states, and the other walks together may visit half of
    /// the states that then remain.
    fn in_fixed_orders(&mut self) -> Result<bool, AllocError> {
        let first = self.fixed_rules(0)?;
        if self.walk_once(first, None)? {
            return Ok(true);
        }
        self.reserve_half();
        for number in 1..FIXED_ORDERS {
            let rules = self.fixed_rules(number)?;
            if self.walk_once(rules, None)? {
                return Ok(true);
            }
        }
        self.release_reserved();
        Ok(false)
    }

    /// Performs guided walks for each vector in `potentials`, until a walk finds a permanent
    /// violation. Returns whether one did. All these walks together may visit half of the remaining
    /// states.
    fn search_guided(&mut self, potentials: &[Potential]) -> Result<bool, AllocError> {
        self.reserve_half();
        for potential in potentials {
            for number in 0..GUIDED_WALKS {
                let rules = self.guided_rules(number)?;
                if self.walk_once(rules, Some(potential))? {
                    return Ok(true);
                }
            }
        }
        self.release_reserved();
        Ok(false)
    }

    /// Performs the walks in random orders, until one of them finds a permanent violation. Returns
    /// whether one did. All these walks together may visit half of the remaining states.
    fn random_walks(&mut self) -> Result<bool, AllocError> {
        self.reserve_half();
        for number in 0..RANDOM_WALKS {
            let rules = self.random_rules(number)?;
            if self.walk_once(rules, None)? {
                return Ok(true);
            }
        }
        self.release_reserved();
        Ok(false)
    }

    /// Performs the best-first search, which may visit all remaining states. Records the violation
    /// that it finds, if any.
    fn best_first(&mut self, potentials: &[Potential]) -> Result<(), AllocError> {
        if self.left == 0 {
            return Ok(());
        }
        let best = best_first(self.alloc, self.plan, &self.choices, potentials, self.left)?;
        self.left = best.left;
        if let Some((script, violation)) = best.found {
            self.record(script, violation);
        }
        Ok(())
    }

    /// Performs a walk by these rules. If `potential` is given, this vector guides the walk.
    /// Records the violation that the walk finds, if any, and returns whether it is permanent.
    fn walk_once(
        &mut self,
        rules: Rules,
        potential: Option<&Potential>,
    ) -> Result<bool, AllocError> {
        let mut rules = rules;
        rules.max_states = rules.max_states.min(self.left);
        if rules.max_states == 0 {
            return Ok(false);
        }
        let walk_result = perform_walk(
            self.alloc,
            self.plan,
            &self.choices,
            &mut rules,
            potential,
            &mut self.rng,
        )?;
        Ok(self.record_walk(walk_result))
    }

    /// Records the violation that the walk found, if any, and subtracts the visited states from
    /// those that the search may still visit. Returns whether the violation is permanent.
    fn record_walk(&mut self, walk_result: WalkResult) -> bool {
        self.left = self.left.saturating_sub(walk_result.states);
        match walk_result.violation {
            Some(violation) => self.record(walk_result.script, violation),
            None => false,
        }
    }

    /// Stores the violation, with the events that lead to it, in `found`, and returns whether it is
    /// permanent. If it is not permanent and `found` has a violation already, stores nothing.
    fn record(&mut self, script: Script, violation: Violation) -> bool {
        let is_permanent = violation != Violation::StuckNow;
        if is_permanent || self.found.is_none() {
            self.found = Some((script, violation));
        }
        is_permanent
    }

    /// Returns a probable witness for the violation in `found`, or `None` if there is none.
    fn candidate(&mut self) -> Result<Option<CandidateWitness>, AllocError> {
        match self.found.take() {
            Some((script, violation)) => {
                let found = candidate_of(self.alloc, self.plan, script, violation)?;
                Ok(Some(found))
            }
            None => Ok(None),
        }
    }

    /// Returns the rules of the walk in the fixed order with this number.
    fn fixed_rules(&self, number: usize) -> Result<Rules, AllocError> {
        Ok(Rules {
            keys: fixed_order(self.alloc, &self.choices.all, number)?,
            max_active_clients: usize::MAX,
            max_states: self.longest_walk,
            changing: false,
        })
    }

    /// Returns the rules of the guided walk with this number. Among choices with equal losses, the
    /// first [`FIXED_ORDERS`] guided walks follow the fixed orders, and the others follow random
    /// orders. Every second walk with a random order changes this order at random steps.
    fn guided_rules(&mut self, number: usize) -> Result<Rules, AllocError> {
        let mut rules = self.fixed_rules(number)?;
        if number >= FIXED_ORDERS {
            shuffle(&mut rules.keys, &mut self.rng);
            rules.changing = number % 2 == 1;
        }
        Ok(rules)
    }

    /// Returns the rules of the random walk with this number. In every eighth walk, any number of
    /// clients may move. Each other walk has a limit on the number of clients that may move. In the
    /// first 64 walks, this limit is between 1 and 7. It grows by 1 after every 64 walks.
    fn random_rules(&mut self, number: usize) -> Result<Rules, AllocError> {
        let mut rules = self.fixed_rules(number)?;
        shuffle(&mut rules.keys, &mut self.rng);
        rules.changing = number % 2 == 1;
        rules.max_active_clients = match number % 8 {
            7 => usize::MAX,
            few => few.saturating_add(1).saturating_add(number / 64),
        };
        Ok(rules)
    }
}

/// Returns the maximum number of states that one walk may visit. It is 128, plus 12 for each thread
/// and each queued job that the pools can have. A pool with a bounded queue can have as many
/// threads as its maximum, and as many queued jobs as its capacity. For a pool with an unbounded
/// queue, these numbers are its core size and [`most_queued`].
fn longest_walk(plan: &Plan) -> usize {
    let mut room = 0u64;
    for (number, pool) in plan.pools().iter().enumerate() {
        let places = if pool.unbounded {
            most_queued(plan, number)
        } else {
            pool.queue
        };
        room = room
            .saturating_add(most_threads(pool))
            .saturating_add(places);
    }
    room.saturating_mul(12).saturating_add(128) as usize
}

/// Shortens the script, and returns the result as a probable witness. The given script ends in
/// `violation`. The shorter script ends in the same violation or in a refused submit.
///
/// If idle threads must end before the jobs wait only for each other, the witness also has the
/// events that end these threads.
fn candidate_of(
    alloc: Global,
    plan: &Plan,
    script: Script,
    violation: Violation,
) -> Result<CandidateWitness, AllocError> {
    let script = shorten_script(alloc, plan, script, violation)?;
    let mut replay = Replay::of_whole(alloc, plan, &script)?;
    candidate_after(alloc, plan, &mut replay, violation)
}

/// Returns the events of the replay as a probable witness. The last event of the replay is a
/// refused submit, or it completes `violation`. If jobs wait only for each other as soon as some
/// idle threads have ended, the witness also contains the ends of these threads, as its last events.
fn candidate_after(
    alloc: Global,
    plan: &Plan,
    replay: &mut Replay,
    violation: Violation,
) -> Result<CandidateWitness, AllocError> {
    let members = replay.waiting_jobs(alloc, violation == Violation::StuckForever)?;
    replay.end_idle_threads(&members)?;
    Ok(CandidateWitness {
        events: replay.script.events(alloc, plan)?,
        members,
    })
}
