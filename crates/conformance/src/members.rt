//! The classes and client kinds whose bodies a path matches.

ghost use Rattle.std.specs.Prelude.{◌≡◌, ◌≤◌, ℕ, false, All, Any, Contains, IsTrue, IfOk, length};
ghost use Rattle.std.specs.List.Sorted.{IsStrictlyIncreasing};
ghost use Rattle.conformance.specs.declared.step.ActorKind.TheVariants as actor_kind;
ghost use Rattle.conformance.specs.Family.{class_family, client_family};
ghost use Rattle.conformance.specs.FamilyMatch.{IsClassOf, IsKindOf, AreExactly, IsMostExplained, NamesMissing, AreOneClassEach, class_body, client_body, class_bodies, client_bodies};
ghost use Rattle.conformance.specs.PathMatch.{IsUnambiguous, HasManyOpenLists};

use crate::bodies::{class_body, client_body};
use crate::family::{is_class_in_family, is_client_in_family};
use crate::family_match::FamilyMatch;
use crate::{ActorKind, PathState, PathStep};
use job_bodies::Plan;
use std::alloc::{AllocError, Global};

/// Matches the path of a job against the bodies of a family. The family has the classes that a job
/// of this label in this pool may belong to.
///
/// # Errors
///
/// Returns [`AllocError`] if memory runs out.
pub fn classes_of_path(
    alloc: Global,
    plan: &Plan,
    label: &str,
    pool: &str,
    path: &[PathStep],
    path_state: PathState,
) -> Result<FamilyMatch, AllocError>
    ensures sound { IfOk result
        (λ reported. All (IsClassOf plan.now label.now pool.now path_state path.now) reported.members.items) }
    ensures ascending { IfOk result (λ reported. IsStrictlyIncreasing reported.members.items) }
    ensures exact { IfOk result (λ reported.
        IsTrue reported.is_decided
        → AreExactly (IsClassOf plan.now label.now pool.now path_state path.now) reported.members.items) }
    ensures sure { IfOk result (λ reported. (class : ℕ)
        → IsClassOf plan.now label.now pool.now path_state path.now class
        → IsUnambiguous (class_body plan.now class) path.now
        → Contains reported.members.items class) }
    ensures explained { IfOk result (λ reported.
        IsTrue reported.is_decided
        → IsMostExplained actor_kind.Job (class_bodies plan.now label.now pool.now) path.now reported.explained) }
    ensures named { IfOk result (λ reported.
        IsTrue reported.is_decided
        → NamesMissing reported.members.items (class_bodies plan.now label.now pool.now) path.now reported.explained) }
    ensures decided { IfOk result (λ reported.
        AreOneClassEach path.now → IsTrue reported.is_decided) }
    ensures many { IfOk result (λ reported.
        reported.is_decided ≡ false
        → Any (λ member. HasManyOpenLists actor_kind.Job (class_body plan.now member) path.now) (class_family plan.now label.now pool.now)) }
    ensures few { IfOk result (λ reported.
        length reported.members.items ≤ length (class_family plan.now label.now pool.now)) }
{
    let mut reported = FamilyMatch::new(alloc);
    for class in 0..plan.classes().len() {
        if is_class_in_family(plan, label, pool, class) {
            let body = class_body(plan, class);
            reported.match_body(alloc, class, body, path, ActorKind::Job, path_state)?;
        }
    }
    Ok(reported)
}

/// Matches the path of a round against the bodies of a family. The family has the client kinds that
/// a round of this label may belong to.
///
/// # Errors
///
/// Returns [`AllocError`] if memory runs out.
pub fn kinds_of_path(
    alloc: Global,
    plan: &Plan,
    label: &str,
    path: &[PathStep],
    path_state: PathState,
) -> Result<FamilyMatch, AllocError>
    ensures sound { IfOk result
        (λ reported. All (IsKindOf plan.now label.now path_state path.now) reported.members.items) }
    ensures ascending { IfOk result (λ reported. IsStrictlyIncreasing reported.members.items) }
    ensures exact { IfOk result (λ reported.
        IsTrue reported.is_decided
        → AreExactly (IsKindOf plan.now label.now path_state path.now) reported.members.items) }
    ensures sure { IfOk result (λ reported. (kind : ℕ)
        → IsKindOf plan.now label.now path_state path.now kind
        → IsUnambiguous (client_body plan.now kind) path.now
        → Contains reported.members.items kind) }
    ensures explained { IfOk result (λ reported.
        IsTrue reported.is_decided
        → IsMostExplained actor_kind.Round (client_bodies plan.now label.now) path.now reported.explained) }
    ensures named { IfOk result (λ reported.
        IsTrue reported.is_decided
        → NamesMissing reported.members.items (client_bodies plan.now label.now) path.now reported.explained) }
    ensures decided { IfOk result (λ reported.
        AreOneClassEach path.now → IsTrue reported.is_decided) }
    ensures many { IfOk result (λ reported.
        reported.is_decided ≡ false
        → Any (λ member. HasManyOpenLists actor_kind.Round (client_body plan.now member) path.now) (client_family plan.now label.now)) }
    ensures few { IfOk result (λ reported.
        length reported.members.items ≤ length (client_family plan.now label.now)) }
{
    let mut reported = FamilyMatch::new(alloc);
    for kind in 0..plan.clients().len() {
        if is_client_in_family(plan, label, kind) {
            let body = client_body(plan, kind);
            reported.match_body(alloc, kind, body, path, ActorKind::Round, path_state)?;
        }
    }
    Ok(reported)
}
