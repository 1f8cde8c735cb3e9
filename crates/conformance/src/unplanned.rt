//! The labels of a recording that are not in the plan.

ghost use Rattle.std.specs.Prelude.{◌≡◌, ◌++◌, ◌∷◌, [], List, OnOk};
ghost use Rattle.job_bodies.specs.Plan as plans;
ghost use Rattle.recordings.specs.RecordingLine.{RecordedLine, line_view};
ghost use Rattle.conformance.specs.UnplannedLabels as spec;

use crate::labels::{LabelSet, pair};
use crate::{first_class, first_client};
use job_bodies::Plan;
use recordings::Line;
use std::alloc::{AllocError, Global};

/// A label that is not in the plan, with the number of the first line that has it. A label is a
/// class with its pool, or a client kind.
#[derive(Drop)]
pub enum UnplannedLabel {
    /// A job of this class was submitted to this pool. The plan has no such class in the pool.
    Class {
        line: usize,
        class: String,
        pool: String,
    },
    /// A round of this kind began. The plan has no such client kind.
    Kind {
        line: usize,
        kind: String,
    },
}

/// The labels that are not in the plan, from the lines read so far.
#[derive(Drop)]
pub(crate) struct UnplannedLabels {
    pub(crate) found: Vec<UnplannedLabel>,
    classes: LabelSet,
    kinds: LabelSet,
    alloc: Global,
}

impl UnplannedLabels {
    /// Creates an empty set.
    pub(crate) fn new(alloc: Global) -> UnplannedLabels
        ensures { (plan : plans.Plan) → spec.AreUnplannedLabelsOf plan [] result }
    {
        UnplannedLabels {
            found: Vec::new(alloc),
            classes: LabelSet::new(alloc),
            kinds: LabelSet::new(alloc),
            alloc,
        }
    }

    /// Reads line `number`. Adds the label of the line if the plan lacks the label and no earlier
    /// line has it.
    ///
    /// # Errors
    ///
    /// Returns `AllocError` if memory runs out.
    pub(crate) fn take(
        &mut self,
        plan: &Plan,
        number: usize,
        line: &Line<'_>,
    ) -> Result<(), AllocError>
        ensures { (before : List RecordedLine)
            → spec.IsNext number before
            → spec.AreUnplannedLabelsOf plan.now before self.old
            → OnOk result
            (spec.AreUnplannedLabelsOf plan.now (before ++ line_view line.now ∷ []) self.new) }
    {
        match *line {
            Line::Submits { class, pool, .. } => self.take_class(plan, number, class, pool),
            Line::RoundBegins { kind, .. } => self.take_kind(plan, number, kind),
            _ => Ok(()),
        }
    }

    fn take_class(
        &mut self,
        plan: &Plan,
        number: usize,
        class: &str,
        pool: &str,
    ) -> Result<(), AllocError>
        ensures { OnOk result
            (spec.AddsClass plan.now number class.now pool.now self.old self.new) }
    {
        if first_class(plan, class, pool).is_some() {
            return Ok(());
        }
        let label = pair(self.alloc, class, pool)?;
        if self.classes.contains(&label) {
            return Ok(());
        }
        let class = String::from_str(self.alloc, class)?;
        let pool = String::from_str(self.alloc, pool)?;
        self.classes.insert(&label)?;
        self.found.push(UnplannedLabel::Class {
            line: number,
            class,
            pool,
        })?;
        Ok(())
    }

    fn take_kind(&mut self, plan: &Plan, number: usize, kind: &str) -> Result<(), AllocError>
        ensures { OnOk result (spec.AddsKind plan.now number kind.now self.old self.new) }
    {
        if first_client(plan, kind).is_some() {
            return Ok(());
        }
        if self.kinds.contains(kind) {
            return Ok(());
        }
        let label = String::from_str(self.alloc, kind)?;
        self.kinds.insert(kind)?;
        self.found.push(UnplannedLabel::Kind {
            line: number,
            kind: label,
        })?;
        Ok(())
    }
}
