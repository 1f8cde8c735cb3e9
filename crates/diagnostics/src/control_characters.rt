//! Escaping of control characters in messages.

ghost use Rattle.std.specs.Prelude.{◌≡◌, IfOk, string_bytes};
ghost use Rattle.std.specs.Char.Escape.{escape_default};
ghost use Rattle.std.specs.Str.{encode_utf8_all};
ghost use Rattle.diagnostics.specs.Lines as spec;
ghost use Rattle.support.specs.Pushed.{Pushes};

use std::alloc::{AllocError, Global};

/// Returns the text as a single line. Each control character is replaced by an escape, such as `\n`
/// for a newline.
///
/// # Errors
///
/// Returns [`AllocError`] if memory runs out.
pub fn one_line(alloc: Global, text: &str) -> Result<String, AllocError>
    ensures exact { IfOk result (λ line. string_bytes line ≡ spec.one_line text.now) }
    ensures single { IfOk result (λ line. spec.HasNoNewline (string_bytes line)) }
{
    let mut line = String::new(alloc);
    push_text(&mut line, text)?;
    Ok(line)
}

fn push_text(line: &mut String, text: &str) -> Result<(), AllocError>
    ensures { Pushes result line.old line.new (spec.one_line text.now) }
{
    for letter in text.chars() {
        push_letter(line, letter)?;
    }
    Ok(())
}

#[tactic(auto, unfolding(crate::specs::Lines::plain))]
fn push_letter(line: &mut String, letter: char) -> Result<(), AllocError>
    ensures { Pushes result line.old line.new (encode_utf8_all (spec.plain letter)) }
{
    if letter.is_control() {
        push_escape(line, letter)
    } else {
        line.push(letter)
    }
}

fn push_escape(line: &mut String, letter: char) -> Result<(), AllocError>
    ensures { Pushes result line.old line.new (encode_utf8_all (escape_default letter)) }
{
    for part in letter.escape_default() {
        line.push(part)?;
    }
    Ok(())
}
