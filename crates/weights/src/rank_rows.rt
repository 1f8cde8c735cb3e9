//! The conditions of ranks: K1, K2 and K3, which [`Rule`] explains. [`Ranks`] explains the reaches
//! and levels of classes.

ghost use Rattle.std.specs.Prelude.{◌≡◌, ◌<◌, ◌+◌, IsTrue, Some, length, slice_get};
ghost use Rattle.std.specs.List.{flat_map, enumerate_from};
ghost use Rattle.job_bodies.specs.declared.action.Action.TheVariants.{Get};
ghost use Rattle.job_bodies.specs.WellFormed.{IsWellFormed};
ghost use Rattle.job_bodies.specs.Plan.{submitted_class};
ghost use Rattle.weights.specs.declared.row.Rule.TheVariants.{K1, K2, K3};
ghost use Rattle.weights.specs.declared.row.Place.TheVariants as place;
ghost use Rattle.weights.specs.Row.{row, first_failing};
ghost use Rattle.weights.specs.Visits.{Visits};
ghost use Rattle.weights.specs.Ranks as spec;

use crate::{FirstFault, Place, Ranks, Row, RowVisitor, Rule, submitted_class};
use job_bodies::{Action, Class, Plan};

/// A failing [`Row`] of ranks: its `left` is greater than its `right`.
pub type RankFault = Row;

/// Returns condition K2 for the get at `position` in the body of the class at index `number`. This
/// get waits for the job of the submit at position `submit`. K2 requires that the reach of the
/// class at index `number` is at least the reach of that job's class.
fn get_row(
    plan: &Plan,
    ranks: &Ranks,
    number: usize,
    class: &Class,
    position: usize,
    submit: usize,
) -> Row
    requires fits { IsTrue (spec.ranks_fit plan.now ranks.now) }
    requires well_formed { IsWellFormed plan.now }
    requires class { slice_get plan.now.classes number ≡ Some class.now }
    requires action { slice_get class.now.body position ≡ Some (Get submit) }
    ensures { let reached = spec.reach ranks.now (submitted_class class.now.body submit) in
        result ≡ row K2 (place.ClassAction number position) reached (spec.reach ranks.now number) }
{
    Row::new(
        Rule::K2,
        Place::ClassAction(number, position),
        ranks.reach_of(submitted_class(&class.body, submit)),
        ranks.reach_of(number),
    )
}

/// Returns condition K3 for a submit. The submit is at `position` in the body of the class at index
/// `number`. K3 requires that the level of this class is above the level of the submitted class.
fn submit_row(plan: &Plan, ranks: &Ranks, number: usize, position: usize, submitted: usize) -> Row
    requires fits { IsTrue (spec.ranks_fit plan.now ranks.now) }
    requires class { number < length plan.now.classes }
    requires submitted { submitted < length plan.now.classes }
    ensures { result
        ≡ row K3 (place.ClassAction number position) (spec.level ranks.now submitted + 1)
        (spec.level ranks.now number) }
{
    Row::new(
        Rule::K3,
        Place::ClassAction(number, position),
        ranks.levels[submitted] + 1,
        ranks.levels[number],
    )
}

/// Passes the condition for an action to the visitor: K2 for a get, or K3 for a submit (see
/// [`Rule`]). Does nothing for other actions, which have no condition. The action is at `position`
/// in the body of the class at index `number`.
fn visit_action_row<V: RowVisitor>(
    plan: &Plan,
    ranks: &Ranks,
    number: usize,
    class: &Class,
    position: usize,
    action: Action,
    visitor: &mut V,
)
    requires fits { IsTrue (spec.ranks_fit plan.now ranks.now) }
    requires well_formed { IsWellFormed plan.now }
    requires class { slice_get plan.now.classes number ≡ Some class.now }
    requires action { slice_get class.now.body position ≡ Some action }
    ensures { Visits V.HasSeen visitor.old visitor.new
        (spec.rank_rows_of_action ranks.now number class.now.body position action) }
{
    match action {
        Action::Work(_) => {}
        Action::Submit(submitted) => {
            visitor.visit(submit_row(plan, ranks, number, position, submitted));
        }
        Action::Get(submit) => {
            visitor.visit(get_row(plan, ranks, number, class, position, submit));
        }
    }
}

/// Returns condition K1 for the class at index `number`. K1 requires that the reach of the class is
/// at least the rank of its pool.
fn own_row(plan: &Plan, ranks: &Ranks, number: usize, class: &Class) -> Row
    requires fits { IsTrue (spec.ranks_fit plan.now ranks.now) }
    requires well_formed { IsWellFormed plan.now }
    requires class { slice_get plan.now.classes number ≡ Some class.now }
    ensures { result
        ≡ row K1 (place.Class number) (spec.rank ranks.now class.now.pool)
        (spec.reach ranks.now number) }
{
    Row::new(
        Rule::K1,
        Place::Class(number),
        ranks.rank_of(class.pool),
        ranks.reach_of(number),
    )
}

/// Passes the conditions for the actions of the class at index `number` to the visitor: K2 for each
/// get, and K3 for each submit (see [`Rule`]).
fn visit_action_rows<V: RowVisitor>(
    plan: &Plan,
    ranks: &Ranks,
    number: usize,
    class: &Class,
    visitor: &mut V,
)
    requires fits { IsTrue (spec.ranks_fit plan.now ranks.now) }
    requires well_formed { IsWellFormed plan.now }
    requires class { slice_get plan.now.classes number ≡ Some class.now }
    ensures { let all = flat_map (λ entry. spec.rank_rows_of_action ranks.now number class.now.body entry.0 entry.1) (enumerate_from 0 class.now.body) in
        Visits V.HasSeen visitor.old visitor.new all }
{
    for (position, action) in class.body.iter().enumerate() {
        visit_action_row(plan, ranks, number, class, position, *action, visitor);
    }
}

/// Passes the conditions for the class at index `number` to the visitor (see [`Rule`]). The first
/// one is K1. The others are K2 for each get and K3 for each submit, in the order of the body.
fn visit_class_rows<V: RowVisitor>(
    plan: &Plan,
    ranks: &Ranks,
    number: usize,
    class: &Class,
    visitor: &mut V,
)
    requires fits { IsTrue (spec.ranks_fit plan.now ranks.now) }
    requires well_formed { IsWellFormed plan.now }
    requires class { slice_get plan.now.classes number ≡ Some class.now }
    ensures { Visits V.HasSeen visitor.old visitor.new
        (spec.rank_rows_of_class ranks.now number class.now) }
{
    visitor.visit(own_row(plan, ranks, number, class));
    visit_action_rows(plan, ranks, number, class, visitor);
}

impl Ranks {
    /// Passes all conditions of the ranks to the visitor, class by class (see [`Rule`]). The first
    /// one for each class is K1. The others are K2 for each get and K3 for each submit, in the
    /// order of the body.
    pub fn visit_rank_rows<V: RowVisitor>(&self, plan: &Plan, visitor: &mut V)
        requires { IsTrue (spec.ranks_fit plan.now self.now) }
        ensures { Visits V.HasSeen visitor.old visitor.new (spec.rank_rows plan.now self.now) }
    {
        for (number, class) in plan.classes().iter().enumerate() {
            visit_class_rows(plan, self, number, class, visitor);
        }
    }

    /// Returns the first failing condition of the ranks, or `None` if all conditions hold.
    /// Allocates no memory.
    pub fn fault(&self, plan: &Plan) -> Option<RankFault>
        requires { IsTrue (spec.ranks_fit plan.now self.now) }
        ensures { result ≡ first_failing (spec.rank_rows plan.now self.now) }
    {
        let mut first = FirstFault::new();
        self.visit_rank_rows(plan, &mut first);
        first.found
    }
}
