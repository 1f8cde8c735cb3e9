//! Visitors of rows, which are the conditions of a certificate.

ghost use Rattle.std.specs.Prelude.{◌≡◌, ◌∷◌, [], List, None};
ghost use Rattle.weights.specs.declared.row.Row.{Row as FirstFailing};
ghost use Rattle.weights.specs.Row.{first_failing};
ghost use Rattle.weights.specs.Visits.{Visits};

use crate::{Row, RowFault};

/// A visitor of rows, which are the conditions of a certificate. A walk over the conditions passes
/// each of them to a visitor. One visitor finds the first failing row, and another collects all
/// failing rows.
pub trait RowVisitor {
    // The visitor has seen exactly these rows, in this order.
    ghost HasSeen: { Self → List FirstFailing → Type 0 };

    /// Processes the next row of the walk.
    fn visit(&mut self, row: Row)
        ensures { Visits HasSeen self.old self.new (row ∷ []) };
}

/// A visitor that stores the first failing row. Allocates no memory.
#[derive(Clone, Copy)]
pub struct FirstFault {
    /// The first visited row that fails, or `None` if no visited row fails.
    pub found: Option<RowFault>,
}

impl FirstFault {
    /// Creates a visitor that has seen no row.
    pub fn new() -> FirstFault
        ensures { result.found ≡ None }
    {
        FirstFault { found: None }
    }
}

impl RowVisitor for FirstFault {
    ghost HasSeen = { λ first rows. first.found ≡ first_failing rows };

    fn visit(&mut self, row: Row) {
        if row.fails() && self.found.is_none() {
            self.found = Some(row);
        }
    }
}
