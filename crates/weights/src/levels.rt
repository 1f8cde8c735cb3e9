//! The levels of classes: each class has a higher level than the classes that it submits.

ghost use Rattle.std.specs.Prelude.{◌≡◌, IfOk, IfSome, length, vec_len};

use crate::numbers::{number_at, put_at};
use crate::submitted::submitted_classes;
use job_bodies::{Action, Class, Plan};
use std::alloc::{AllocError, Global};

/// The value in `Levels::of_classes` for a class that has no known level yet.
const NO_LEVEL: u64 = u64::MAX;

/// The levels of the classes of a plan, and which of the classes are submitted by clients, directly
/// or through other jobs.
#[derive(Drop)]
pub struct Levels {
    /// The level of each class: 1 plus the greatest level of the classes that it submits, or 0 if
    /// it submits no class.
    pub of_classes: Vec<u64>,
    /// The classes in ascending order of levels: each class comes after all classes that it
    /// submits.
    pub order: Vec<usize>,
    /// For each class, whether clients submit it, directly or through other jobs. A class that is
    /// not submitted never has a job, so its weights do not count towards any total.
    pub submitted: Vec<bool>,
}

impl Levels {
    /// Returns the levels of the classes of the plan, or `None` if a class submits itself, directly
    /// or through other classes.
    ///
    /// # Errors
    ///
    /// Returns [`AllocError`] if memory runs out.
    pub fn of(alloc: Global, plan: &Plan) -> Result<Option<Levels>, AllocError>
        ensures { IfOk result (λ found.
            IfSome found (λ levels. vec_len levels.of_classes ≡ length plan.now.classes)) }
    {
        let count = plan.classes().len();
        let mut levels = Levels {
            of_classes: vec![in alloc; NO_LEVEL; count]?,
            order: Vec::with_capacity(alloc, count)?,
            submitted: Vec::new(alloc),
        };
        let mut known = vec![in alloc; 0usize; count]?;
        for level in 0..count as u64 {
            levels.add_level(plan, level, &mut known)?;
        }
        if levels.order.len() != count {
            return Ok(None);
        }
        levels.submitted = submitted_classes(alloc, plan, &levels.order)?;
        Ok(Some(levels))
    }

    /// Returns whether clients submit the class, directly or through other jobs.
    pub(crate) fn is_submitted(&self, class: usize) -> bool {
        self.submitted.get(class).copied().unwrap_or(false)
    }

    /// Gives `level` to each class that has no level yet and submits only classes of lower levels.
    /// Appends these classes to `order`. For each class, `known` has the length of a prefix of its
    /// body. The actions of this prefix submit only classes below `level`, so they are not checked
    /// again. Updates these lengths.
    fn add_level(&mut self, plan: &Plan, level: u64, known: &mut [usize]) -> Result<(), AllocError>
        ensures { vec_len self.new.of_classes ≡ vec_len self.old.of_classes }
    {
        for (number, (class, known)) in plan.classes().iter().zip(known.iter_mut()).enumerate() {
            if number_at(&self.of_classes, number) == NO_LEVEL {
                *known = self.known_actions(class, level, *known);
                if *known == class.body.len() {
                    self.order.push(number)?;
                    put_at(&mut self.of_classes, number, level);
                }
            }
        }
        Ok(())
    }

    /// Returns the length of the longest prefix of the class's body that submits only classes with
    /// a level below `level`. The first `known` actions are known to be in this prefix, and are not
    /// checked again.
    fn known_actions(&self, class: &Class, level: u64, known: usize) -> usize {
        let mut known = known;
        for action in class.body.iter().skip(known) {
            if !self.is_below(*action, level) {
                return known;
            }
            known = known.saturating_add(1);
        }
        known
    }

    /// Returns `true` if the action submits a class with a level below `level`, or is not a submit.
    fn is_below(&self, action: Action, level: u64) -> bool {
        match action {
            Action::Submit(class) => number_at(&self.of_classes, class) < level,
            Action::Work(_) | Action::Get(_) => true,
        }
    }
}
