//! The conditions of a certificate.

use weights::{Place, Rule};

/// A section of a certificate's conditions: the conditions of the ranks, or those of one vector of
/// a pool. The ranks determine which gets can block a thread that other jobs need. Each variant for
/// a vector has the index of the vector's pool.
#[derive(Clone, Copy, Debug, PartialEq, Eq)]
pub enum Section {
    Ranks,
    Standing(usize),
    Lifetime(usize),
    Blocked(usize),
}

/// A condition of a certificate: the inequality `left <= right`. `rule` names the kind of the
/// condition, and `place` is the place in the plan to which the condition applies. `section` is the
/// section to which the condition belongs.
#[derive(Clone, Copy, Debug, PartialEq, Eq)]
pub struct Note {
    pub section: Section,
    pub place: Place,
    pub rule: Rule,
    pub left: u64,
    pub right: u64,
}
