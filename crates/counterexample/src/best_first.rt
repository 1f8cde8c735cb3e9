//! A best-first search for a violation. The search repeatedly selects a state that it has reached,
//! and *expands* this state. To expand a state means to visit the successors of the state. A
//! *branch* leads from a state to a successor: it is a choice and the actor that makes it. Several
//! measures take turns in the selection:
//!
//! - the weight that was lost under a vector on the way to the state (see below),
//! - the number of threads that do not wait at a get, and
//! - the room of the pool with the least room: the number of jobs that this pool still accepts
//!   before it refuses one.
//!
//! A vector gives weights to workers, clients and jobs. No event increases the sum of these
//! weights. If an event decreases the sum, the difference is lost.
//!
//! A violation is *permanent* in two cases:
//!
//! - A submit is refused.
//! - Jobs wait only for each other, and no later event ends this wait.

use crate::branches::Branch;
use crate::choices::Choices;
use crate::replayed_states::ReplayedState;
use crate::scripts::Script;
use crate::vectors::Potential;
use crate::walks::{Violation, Walk, WalkStep};
use job_bodies::Plan;
use std::alloc::{AllocError, Global};
use std::collections::{BinaryHeap, HashSet};
use std::hash::{BuildHasherDefault, FoldHasher};

/// The maximum number of vectors that the search uses as measures. A vector gives weights to
/// workers, clients and jobs. The less weight was lost on the way to a state, the more promising
/// the state is.
const MAX_VECTORS: usize = 2;

/// A state that the search reached. The state is open until the search visits its successors. Then
/// it is closed.
#[derive(Clone, Copy)]
struct Node {
    /// The number of the preceding state, from which `branch` leads to this state. For the initial
    /// state, this is the number of the initial state itself.
    before: usize,
    branch: Branch,
    is_open: bool,
}

/// The result of a best-first search.
#[derive(Drop)]
pub(crate) struct BestFirstResult {
    /// A permanent violation, with the events that lead to it. If the search found none, the first
    /// violation that is not permanent.
    pub(crate) found: Option<(Script, Violation)>,
    /// The number of states that the search could still have visited within its limit.
    pub(crate) left: usize,
}

/// Searches for a permanent violation, from the plan's initial state. Visits at most `states`
/// states.
///
/// The search expands one open state after another. It selects them in turns: in one turn the
/// oldest open state, and in each other turn the open state with the smallest value of one of these
/// measures:
///
/// - the weight lost under each of the first [`MAX_VECTORS`] vectors in `potentials`,
/// - the number of threads that do not wait at a get, and
/// - the room of the pool with the least room: the number of jobs that this pool still accepts
///   before it refuses one.
pub(crate) fn best_first(
    alloc: Global,
    plan: &Plan,
    choices: &Choices,
    potentials: &[Potential],
    states: usize,
) -> Result<BestFirstResult, AllocError> {
    let mut search = BestFirst::start(alloc, plan, choices, potentials, states)?;
    search.find()?;
    Ok(search.into_result())
}

/// A best-first search in progress. Each state that it has reached takes about 100 bytes: its node,
/// its fingerprint and its entries in the heaps.
#[derive(Drop)]
struct BestFirst<'a> {
    alloc: Global,
    plan: &'a Plan,
    choices: &'a Choices,
    potentials: &'a [Potential],
    nodes: Vec<Node>,
    seen: HashSet<u64, BuildHasherDefault<FoldHasher>, Global>,
    /// For each measure, a heap of the open states, with the most promising state on top. The
    /// initial state is in no heap. The heaps can also contain closed states.
    opens: Vec<BinaryHeap<(u64, usize), Global>>,
    /// A number such that all states with smaller numbers are closed. The search for the oldest
    /// open state starts at this number.
    oldest: usize,
    /// The number of states that the search may still visit.
    left: usize,
    /// A permanent violation, with the events that lead to it. If there is none, the first violation
    /// that is not permanent: some jobs wait only for each other, and a later event may end their
    /// wait.
    found: Option<(Script, Violation)>,
}

impl<'a> BestFirst<'a> {
    /// Creates a search that starts from the plan's initial state and may visit `states` states.
    /// The initial state counts as visited.
    fn start(
        alloc: Global,
        plan: &'a Plan,
        choices: &'a Choices,
        potentials: &'a [Potential],
        states: usize,
    ) -> Result<BestFirst<'a>, AllocError> {
        let potentials = potentials.get(..MAX_VECTORS).unwrap_or(potentials);
        let mut opens = Vec::new(alloc);
        for _ in 0..potentials.len().saturating_add(2) {
            opens.push(BinaryHeap::new(alloc))?;
        }
        let mut search = BestFirst {
            alloc,
            plan,
            choices,
            potentials,
            nodes: Vec::new(alloc),
            seen: HashSet::new(alloc),
            opens,
            oldest: 0,
            left: states.saturating_sub(1),
            found: None,
        };
        let start = Branch { place: 0, newer: 0 };
        search.add_node(0, start)?;
        Ok(search)
    }

    fn into_result(self) -> BestFirstResult {
        BestFirstResult {
            found: self.found,
            left: self.left,
        }
    }

    /// Visits the successors of *open* states, those that were not expanded yet, until a permanent
    /// violation is found, the limit of states is reached, or no open state is left. Stores the
    /// violation in `found`.
    fn find(&mut self) -> Result<(), AllocError> {
        for turn in 0..usize::MAX {
            if self.left == 0 {
                break;
            }
            let Some(number) = self.next_open(turn) else {
                break;
            };
            if self.expand(number)? {
                break;
            }
        }
        Ok(())
    }

    fn add_node(&mut self, before: usize, branch: Branch) -> Result<usize, AllocError> {
        let number = self.nodes.len();
        self.nodes.push(Node {
            before,
            branch,
            is_open: true,
        })?;
        Ok(number)
    }

    /// Selects an open state, closes it, and returns its number, or `None` if no state is open.
    /// `turn` is the number of the current turn. The turns repeat in this order:
    ///
    /// - For each measure, a turn selects the open state that is most promising by this measure.
    /// - After that, a turn selects the oldest open state.
    fn next_open(&mut self, turn: usize) -> Option<usize> {
        let number = self.select_open(turn)?;
        if let Some(node) = self.nodes.get_mut(number) {
            node.is_open = false;
        }
        Some(number)
    }

    /// Returns the number of the open state that [`next_open`](BestFirst::next_open) selects.
    fn select_open(&mut self, turn: usize) -> Option<usize> {
        let measures = self.opens.len().saturating_add(1);
        let promising = self.most_promising(turn.checked_rem(measures)?);
        if promising.is_some() {
            promising
        } else {
            self.first_open()
        }
    }

    fn most_promising(&mut self, measure: usize) -> Option<usize> {
        let heap = self.opens.get_mut(measure)?;
        pop_open(heap, &self.nodes)
    }

    fn first_open(&mut self) -> Option<usize> {
        for number in self.oldest..self.nodes.len() {
            if is_open(&self.nodes, number) {
                self.oldest = number;
                return Some(number);
            }
        }
        None
    }

    /// Visits the successors of the state with this number, within the limit of states, until a
    /// permanent violation is found. Returns whether one was found. Stores the first violation in
    /// `found`, and replaces it by a permanent one.
    fn expand(&mut self, number: usize) -> Result<bool, AllocError> {
        let replayed = self.replayed(number)?;
        let branches = replayed.walk.branches(self.alloc)?;
        self.expand_along(&replayed, number, &branches)
    }

    /// Visits the successors to which these branches lead, as [`expand`](BestFirst::expand) does.
    /// `replayed` is the state with this number.
    fn expand_along(
        &mut self,
        replayed: &ReplayedState<'a>,
        number: usize,
        branches: &[Branch],
    ) -> Result<bool, AllocError> {
        for branch in branches {
            if self.left == 0 {
                break;
            }
            self.left = self.left.saturating_sub(1);
            if let Some(violation) = self.visit(replayed, number, *branch)? {
                self.record_violation(number, *branch, violation)?;
                if violation != Violation::StuckNow {
                    return Ok(true);
                }
            }
        }
        Ok(false)
    }

    /// Stores the violation, with the events that lead to it, in `found`. The violation is in the
    /// successor to which `branch` leads from the state with this number.
    fn record_violation(
        &mut self,
        number: usize,
        branch: Branch,
        violation: Violation,
    ) -> Result<(), AllocError> {
        let script = self.script_of(number, branch)?;
        self.found = Some((script, violation));
        Ok(())
    }

    /// Visits the successor to which `branch` leads from the state with this number. Returns the
    /// violation in the successor, if there is one. If the violation is not permanent, returns it
    /// only if `found` has no violation yet.
    ///
    /// Adds the successor to the open states. Skips this if a submit was refused, or if the search
    /// has reached the successor before.
    fn visit(
        &mut self,
        replayed: &ReplayedState<'a>,
        number: usize,
        branch: Branch,
    ) -> Result<Option<Violation>, AllocError> {
        let mut walk = replayed.walk.try_clone(self.alloc)?;
        match walk.choose(branch.place, branch.newer)? {
            WalkStep::Refused => Ok(Some(Violation::Refused)),
            WalkStep::Nothing => Ok(None),
            WalkStep::Advanced | WalkStep::Rejected => {
                self.visit_successor(replayed, &walk, number, branch)
            }
        }
    }

    /// Visits a successor as [`visit`](BestFirst::visit) does. `walk` is in the successor, and no
    /// submit was refused.
    fn visit_successor(
        &mut self,
        replayed: &ReplayedState<'a>,
        walk: &Walk<'a>,
        number: usize,
        branch: Branch,
    ) -> Result<Option<Violation>, AllocError> {
        let print = walk.fingerprint(self.alloc)?;
        if !self.seen.insert(print)? {
            return Ok(None);
        }
        let next = self.add_node(number, branch)?;
        self.add_open(replayed, walk, branch, next)?;
        if (walk.has_blocked || self.choices.has_core_timeout) && walk.has_closed() {
            return walk.stuck(self.alloc, self.found.is_none());
        }
        Ok(None)
    }

    /// Adds an open state to the heap of each measure. `number` is the number of this state, and
    /// `walk` is in this state. `replayed` is the preceding state, from which `branch` leads to the
    /// open state.
    fn add_open(
        &mut self,
        replayed: &ReplayedState<'a>,
        walk: &Walk<'a>,
        branch: Branch,
        number: usize,
    ) -> Result<(), AllocError> {
        let potentials = self.potentials;
        for (measure, heap) in self.opens.iter_mut().enumerate() {
            let cost = replayed.cost_after(walk, branch, measure, potentials);
            heap.push((u64::MAX.saturating_sub(cost), number))?;
        }
        Ok(())
    }

    /// Returns the branches that lead from the initial state to the state with this number, in
    /// order.
    fn path_to(&self, number: usize) -> Result<Vec<Branch>, AllocError> {
        let mut path = Vec::new(self.alloc);
        let mut number = number;
        for _ in 0..self.nodes.len() {
            if number == 0 {
                break;
            }
            let Some(node) = self.nodes.get(number) else {
                break;
            };
            path.push(node.branch)?;
            number = node.before;
        }
        path.reverse();
        Ok(path)
    }

    /// Recreates the state with this number by performing the branches that lead to this state.
    fn replayed(&self, number: usize) -> Result<ReplayedState<'a>, AllocError> {
        let path = self.path_to(number)?;
        let mut replayed = self.initial_state()?;
        replayed.perform(&path, self.potentials)?;
        Ok(replayed)
    }

    fn initial_state(&self) -> Result<ReplayedState<'a>, AllocError> {
        let lost = vec![in self.alloc; 0u64; self.potentials.len()]?;
        let walk = Walk::start(self.alloc, self.plan, self.choices)?;
        Ok(ReplayedState { walk, lost })
    }

    /// Returns the events that lead to the state with this number, followed by the events of the
    /// branch.
    fn script_of(&self, number: usize, branch: Branch) -> Result<Script, AllocError> {
        let mut replayed = self.replayed(number)?;
        replayed.walk.choose(branch.place, branch.newer)?;
        Ok(replayed.walk.script)
    }
}

/// Removes states from the heap, the most promising first, until it has removed an open state.
/// Returns the number of this state, or `None` if the heap has no open state.
fn pop_open(heap: &mut BinaryHeap<(u64, usize), Global>, nodes: &[Node]) -> Option<usize> {
    for _ in 0..heap.len() {
        let (_, number) = heap.pop()?;
        if is_open(nodes, number) {
            return Some(number);
        }
    }
    None
}

fn is_open(nodes: &[Node], number: usize) -> bool {
    match nodes.get(number) {
        Some(node) => node.is_open,
        None => false,
    }
}
