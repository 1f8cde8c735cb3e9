//! The letters and digits of a text.

ghost use Rattle.std.specs.Prelude.{◌≡◌, IfOk, string_bytes};
ghost use Rattle.std.specs.Str.{encode_utf8_all};
ghost use Rattle.diagnostics.specs.Letters as spec;
ghost use Rattle.support.specs.Pushed.{Pushes};

use std::alloc::{AllocError, Global};

/// Returns the ASCII letters and digits of the text, in lowercase. So the result is the same for
/// `coreSize`, `core-size` and `CORE_SIZE`.
pub(crate) fn letters_of(alloc: Global, text: &str) -> Result<String, AllocError>
    ensures { IfOk result (λ letters. string_bytes letters ≡ spec.letters_of text.now) }
{
    let mut letters = String::new(alloc);
    push_letters(&mut letters, text)?;
    Ok(letters)
}

fn push_letters(letters: &mut String, text: &str) -> Result<(), AllocError>
    ensures { Pushes result letters.old letters.new (spec.letters_of text.now) }
{
    for letter in text.chars() {
        push_kept(letters, letter)?;
    }
    Ok(())
}

#[tactic(auto, unfolding(crate::specs::Letters::kept))]
fn push_kept(letters: &mut String, letter: char) -> Result<(), AllocError>
    ensures { Pushes result letters.old letters.new (encode_utf8_all (spec.kept letter)) }
{
    if letter.is_ascii_alphanumeric() {
        letters.push(letter.to_ascii_lowercase())
    } else {
        Ok(())
    }
}
