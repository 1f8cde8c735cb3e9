//! The weight that a get gives its actor.

ghost use Rattle.std.specs.Prelude.{◌≡◌};
ghost use Rattle.weights.specs.GetReturn.{get_rule};

use crate::Rule;

/// The weight that a get gives to its actor, which is the job or the client that performs the get.
/// The kind of the vector decides which variant applies.
#[derive(Clone, Copy)]
pub enum GetReturn {
    /// The weight of the done job that the actor gets. Standing and blocked vectors use this
    /// variant.
    DoneWeight,
    /// No weight. Lifetime vectors use this variant.
    NoWeight,
}

impl GetReturn {
    /// Returns the rule that limits the weight of the actor after a get: [`Rule::V5`] if the get
    /// gives it the weight of the done job, and [`Rule::L5`] if the get gives it no weight.
    pub fn rule(self) -> Rule
        ensures { result ≡ get_rule self }
    {
        match self {
            GetReturn::DoneWeight => Rule::V5,
            GetReturn::NoWeight => Rule::L5,
        }
    }
}
