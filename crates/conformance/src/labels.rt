//! A set of labels of a recording.

ghost use Rattle.std.specs.Prelude.{◌≡◌, ◌||◌, ◌++◌, ℕ, List, OnOk, IfOk, false, codes, string_bytes};
ghost use Rattle.std.specs.Str.{bytes_eq};
ghost use Rattle.conformance.specs.LabelSet.{has_label, pair_text};

use std::alloc::{AllocError, Global};
use std::collections::HashSet;

/// A set of labels, which are texts such as the name of a client kind, or a class with its pool.
#[derive(Drop)]
pub(crate) struct LabelSet {
    labels: HashSet<String>,
    alloc: Global,
}

impl LabelSet {
    /// Creates an empty set.
    pub(crate) fn new(alloc: Global) -> LabelSet
        ensures { (q : List ℕ) → has_label result q ≡ false }
    {
        LabelSet {
            labels: HashSet::new(alloc),
            alloc,
        }
    }

    pub(crate) fn contains(&self, label: &str) -> bool
        ensures { result ≡ has_label self.now label.now }
    {
        self.labels.contains(label)
    }

    /// Adds a label.
    ///
    /// # Errors
    ///
    /// Returns `AllocError` if memory runs out.
    pub(crate) fn insert(&mut self, label: &str) -> Result<(), AllocError>
        ensures { OnOk result
            ((q : List ℕ) → has_label self.new q ≡ (has_label self.old q || bytes_eq label.now q)) }
    {
        if !self.labels.contains(label) {
            let label = String::from_str(self.alloc, label)?;
            self.labels.insert(label)?;
        }
        Ok(())
    }
}

/// Returns a class and its pool as one text, separated by a space as in a `submit` line.
pub(crate) fn pair(alloc: Global, class: &str, pool: &str) -> Result<String, AllocError>
    ensures { IfOk result (λ text. string_bytes text ≡ pair_text class.now pool.now) }
{
    let mut text = String::new(alloc);
    write!(text, "{class} {pool}")?;
    Ok(text)
}
