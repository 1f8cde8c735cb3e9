//! The text of a JSON value, on one line.

ghost use Rattle.std.specs.Prelude.{IfOk, string_bytes};
ghost use Rattle.serde_json.specs.View.{view};
ghost use Rattle.report.specs.JsonLine as spec;

use serde_json::Value;
use std::alloc::{AllocError, Global};

/// Returns the JSON text of the value, followed by a newline.
#[tactic(auto, using(crate::proofs::CompactText::compact_text_is_a_line))]
pub(crate) fn line_of(alloc: Global, value: &Value) -> Result<String, AllocError>
    ensures { IfOk result (λ text. spec.IsLineOf (view value.now) (string_bytes text)) }
{
    let mut text = value.to_string(alloc)?;
    text.push('\n')?;
    Ok(text)
}
