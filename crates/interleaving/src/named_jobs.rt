//! The jobs that a `stuck` line names.

ghost use Rattle.std.specs.Prelude.{◌≡◌, IfOk};
ghost use Rattle.interleaving.specs.Words.{members_in};

use std::alloc::{AllocError, Global};
use std::marker::Model;
use support::{number_of, split_space};

/// The job numbers of a `stuck` line, stored as text.
#[derive(Drop)]
pub struct NamedJobs<'a> {
    // The numbers, separated by single spaces.
    words: &'a [u8],
}

impl<'a> Model for NamedJobs<'a> {
    ghost use Rattle.std.specs.Prelude.{ℕ, List, IsSome};
    ghost use Rattle.interleaving.specs.Words.{members_in, unwrap_or_empty};

    ghost Value = { List ℕ };

    ghost view = { λ m. unwrap_or_empty (members_in m.words.now) };

    ghost invariant = { λ m. IsSome (members_in m.words.now) };
}

impl<'a> NamedJobs<'a> {
    /// Parses a text of one or more job numbers with a single space between them. Returns `None`
    /// for any other text. Also returns `None` if [`number_of`] does not accept a number, for
    /// example because the number has a leading zero.
    pub(crate) fn read(words: &'a [u8]) -> Option<NamedJobs<'a>>
        ensures { result ≡ members_in words.now }
    {
        let mut rest = words;
        while let Some((word, behind)) = split_space(rest) {
            number_of(word)?;
            rest = behind;
        }
        number_of(rest)?;
        Some(NamedJobs { words })
    }

    /// Returns the job numbers in the order of the line.
    ///
    /// # Errors
    ///
    /// Returns [`AllocError`] if memory runs out.
    pub fn to_vec(&self, alloc: Global) -> Result<Vec<usize>, AllocError>
        ensures { IfOk result (λ numbers. numbers.items ≡ self.now) }
    {
        let mut numbers = Vec::new(alloc);
        let mut rest = self.words;
        while let Some((word, behind)) = split_space(rest) {
            if let Some(number) = number_of(word) {
                numbers.push(number)?;
            }
            rest = behind;
        }
        if let Some(number) = number_of(rest) {
            numbers.push(number)?;
        }
        Ok(numbers)
    }
}
