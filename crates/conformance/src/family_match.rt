//! The result of matching a path against the bodies of a family.

ghost use Rattle.std.specs.Prelude.{◌≡◌, ℕ, List, [], ◌∷◌, ◌++◌, OnOk};
ghost use Rattle.job_bodies.specs.declared.action.Action.{Action};
ghost use Rattle.conformance.specs.declared.step.ActorKind.{ActorKind};
ghost use Rattle.conformance.specs.declared.step.PathStep.{PathStep};
ghost use Rattle.conformance.specs.declared.step.PathState.{PathState};
ghost use Rattle.conformance.specs.FamilyResult.{IsCorrectMatch};

use crate::explained_prefix::{ExplainedPrefix, longer};
use crate::{ActorKind, PathMatch, PathState, PathStep, match_path};
use job_bodies::Action;
use std::alloc::{AllocError, Global};

/// The result of matching a path against a family of classes or client kinds.
#[derive(Drop)]
pub struct FamilyMatch {
    /// The numbers of the classes or client kinds whose bodies the path matches, in ascending
    /// order.
    pub members: Vec<usize>,
    /// The longest prefix of the path that a body of the family explains. A body explains a prefix
    /// if some path that matches the body begins with this prefix. The longest prefix is the whole
    /// path if the path matches a body, and empty if the family is empty.
    pub explained: ExplainedPrefix,
    /// True if it is known for each body of the family whether the path matches the body. If false,
    /// the path may also match bodies of classes or kinds that are not in `members`, and a body may
    /// explain a longer prefix than `explained`.
    pub is_decided: bool,
}

impl FamilyMatch {
    /// Creates the result for an empty family.
    pub(crate) fn new(alloc: Global) -> FamilyMatch
        ensures { (kind : ActorKind) (body_of : ℕ → List Action) (path_state : PathState) (path : List PathStep)
            → IsCorrectMatch result kind body_of path_state path [] }
    {
        FamilyMatch {
            members: Vec::new(alloc),
            explained: ExplainedPrefix {
                length: 0,
                excess: None,
                missing: None,
            },
            is_decided: true,
        }
    }

    /// Matches the path against one more body of the family, and adds the outcome to this result.
    /// `body` is the body of the class or client kind with the number `number`.
    ///
    /// # Errors
    ///
    /// Returns `AllocError` if memory runs out.
    pub(crate) fn match_body(
        &mut self,
        alloc: Global,
        number: usize,
        body: &[Action],
        path: &[PathStep],
        kind: ActorKind,
        path_state: PathState,
    ) -> Result<(), AllocError>
        ensures { (body_of : ℕ → List Action) (matched : List ℕ)
            → body_of number ≡ body.now
            → IsCorrectMatch self.old kind body_of path_state path.now matched
            → OnOk result (IsCorrectMatch self.new kind body_of path_state path.now (matched ++ number ∷ [])) }
    {
        let path_match = match_path(alloc, body, path, kind, path_state)?;
        match path_match {
            PathMatch::Fits => {
                self.explained = ExplainedPrefix {
                    length: path.len(),
                    excess: None,
                    missing: None,
                };
                self.members.push(number)?;
                Ok(())
            }
            PathMatch::Deviates(explained) => {
                self.explained = longer(self.explained, explained);
                Ok(())
            }
            PathMatch::Undecided => {
                self.is_decided = false;
                Ok(())
            }
        }
    }
}
