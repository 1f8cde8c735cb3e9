//! The failing rows of one part of a certificate. A row is one condition at one place of the plan.

ghost use Rattle.std.specs.Prelude.{◌≡◌, ◌++◌, List, [], OnOk, IsOk, filter};
ghost use Rattle.weights.specs.declared.row.Row.{Row as Seen};
ghost use Rattle.weights.specs.Row.{fails};
ghost use Rattle.soundness.specs.Conditions as spec;
ghost use Rattle.refusal_notes.specs.FailingRows.{Keeps};

use crate::{Note, Section};
use std::alloc::{AllocError, Global};
use weights::{Row, RowVisitor};

/// A visitor that collects the failing rows. Its `visit` method cannot return an error, so the
/// visitor stores an error that occurs.
#[derive(Drop)]
pub struct FailingRows {
    /// The failing rows, in order.
    rows: Vec<Row>,
    /// `Err` if memory ran out. Some failing rows are then missing.
    outcome: Result<(), AllocError>,
}

impl FailingRows {
    /// Creates a visitor that has seen no row.
    pub fn new(alloc: Global) -> FailingRows
        ensures outcome { IsOk result.outcome }
        ensures none { Keeps result [] }
    {
        FailingRows {
            rows: Vec::new(alloc),
            outcome: Ok(()),
        }
    }

    /// Appends the failing rows to the notes, as notes of this section. Returns `AllocError` if
    /// memory runs out now, or if it ran out while the visitor collected the rows.
    pub fn push_notes(self, notes: &mut Vec<Note>, section: Section) -> Result<(), AllocError>
        ensures { (seen : List Seen)
            → Keeps self seen
            → OnOk result
            (notes.new.items ≡ notes.old.items ++ spec.in_section section (filter fails seen)) }
    {
        self.outcome?;
        push_section_notes(notes, section, &self.rows)
    }
}

impl RowVisitor for FailingRows {
    ghost HasSeen = { Keeps };

    fn visit(&mut self, row: Row) {
        if row.fails() && self.outcome.is_ok() {
            self.outcome = self.rows.push(row).map_err(AllocError::from);
        }
    }
}

fn push_section_notes(
    notes: &mut Vec<Note>,
    section: Section,
    rows: &[Row],
) -> Result<(), AllocError>
    ensures { OnOk result (notes.new.items ≡ notes.old.items ++ spec.in_section section rows.now) }
{
    for row in rows {
        notes.push(note(section, *row))?;
    }
    Ok(())
}

fn note(section: Section, row: Row) -> Note
    ensures { result ≡ spec.note section row }
{
    Note {
        section,
        place: row.place,
        rule: row.rule,
        left: row.left,
        right: row.right,
    }
}
