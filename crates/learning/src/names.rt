//! The names of classes and client kinds.

ghost use Rattle.std.specs.Prelude.{◌<◌, length, string_bytes, IfOk, IfErr};
ghost use Rattle.job_bodies.specs.declared.limits.TheConstants.{MAX_CLASSES};
ghost use Rattle.conformance.specs.Family.{IsOfFamily};
ghost use Rattle.learning.specs.LearningState.{IsNameError};

use crate::entries::Entry;
use crate::inference_limit::InferenceLimit;
use crate::learn_error::LearnError;
use job_bodies::MAX_NAME_BYTES;
use std::alloc::{AllocError, Global};

/// Returns the first free name among LABEL, LABEL_2, LABEL_3 and so on. A name is free if no entry
/// has it.
///
/// # Errors
///
/// - [`LearnError::InferenceLimit`] if the first free name is too long for a plan.
/// - [`LearnError::Memory`] if memory runs out.
pub(crate) fn free_name(alloc: Global, entries: &[Entry], label: &str) -> Result<String, LearnError>
    ensures ok { length entries.now < MAX_CLASSES
        → IfOk result (λ name. IsOfFamily label.now (string_bytes name)) }
    ensures err { length entries.now < MAX_CLASSES → IfErr result (IsNameError label.now) }
{
    if !has_name(entries, label) {
        return Ok(String::from_str(alloc, label)?);
    }
    // The loop always returns, because one of its names is free: with the label, there is one more
    // name than there are entries.
    for step in 0..entries.len() {
        let number = step.saturating_add(2);
        let name = format!(in alloc; "{label}_{number}")?;
        if name.len() > MAX_NAME_BYTES {
            return Err(LearnError::InferenceLimit(InferenceLimit::Names));
        }
        if !has_name(entries, &name) {
            return Ok(name);
        }
    }
    Err(LearnError::Memory(AllocError))
}

fn has_name(entries: &[Entry], name: &str) -> bool {
    entries.iter().any(|entry| entry.name.as_str() == name)
}
