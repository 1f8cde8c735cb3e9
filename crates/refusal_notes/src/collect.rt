//! The failing conditions of a certificate, as notes. Each note belongs to a section: the ranks, or
//! one vector of a pool. The ranks determine which gets can block a thread that other jobs need. A
//! vector has a weight for the workers of each pool, and for each position of each class and each
//! client kind. The *bound* of a pool is its standing vector, which bounds how many jobs wait in
//! its queue, or its lifetime vector, which bounds how many jobs it is ever given. A pool that may
//! reject jobs or has an unbounded queue need not have a bound.

ghost use Rattle.std.specs.Prelude.{◌≡◌, ◌<◌, ◌++◌, IsTrue, IfOk, OnOk, filter, length};
ghost use Rattle.weights.specs.Bound.{bound_vector, bound_rows};
ghost use Rattle.weights.specs.Row.{fails};
ghost use Rattle.weights.specs.Vector.{vector_fits};
ghost use Rattle.weights.specs.Blocked.{blocked_rows};
ghost use Rattle.weights.specs.Ranks.{is_counted, rank_rows, ranks_fit};
ghost use Rattle.cert_text.specs.Cert.{bound_fits, pool_cert_fits, cert_fits};
ghost use Rattle.soundness.specs.declared.note.Section.TheVariants as section;
ghost use Rattle.soundness.specs.Conditions.{bound_section, failing, in_section};
ghost use Rattle.refusal_notes.specs.FailingRows.{failing_of_bound};

use crate::failing_rows::FailingRows;
use crate::{Note, Section};
use cert_text::{Cert, PoolCert};
use job_bodies::Plan;
use std::alloc::{AllocError, Global};
use weights::{Bound, Ranks, RanksOf, Vector, visit_blocked_rows};

/// Appends the failing conditions of the certificate's ranks to the notes. The ranks determine
/// which gets can block a thread that other jobs need.
pub(crate) fn push_rank_notes(
    alloc: Global,
    notes: &mut Vec<Note>,
    plan: &Plan,
    ranks: &Ranks,
) -> Result<(), AllocError>
    requires { IsTrue (ranks_fit plan.now ranks.now) }
    ensures { let rows = filter fails (rank_rows plan.now ranks.now) in
        OnOk result (notes.new.items ≡ notes.old.items ++ in_section section.Ranks rows) }
{
    let mut found = FailingRows::new(alloc);
    ranks.visit_rank_rows(plan, &mut found);
    found.push_notes(notes, Section::Ranks)
}

/// Returns the section for the notes of the pool's bound, which is a standing or a lifetime vector.
fn section_of(pool: usize, bound: &Bound) -> Section
    ensures { result ≡ bound_section pool bound.now }
{
    match bound {
        Bound::Standing(_) => Section::Standing(pool),
        Bound::Lifetime(_) => Section::Lifetime(pool),
    }
}

/// Appends the failing conditions of the pool's standing or lifetime vector to the notes.
fn push_vector_notes(
    alloc: Global,
    notes: &mut Vec<Note>,
    plan: &Plan,
    pool: usize,
    bound: &Bound,
) -> Result<(), AllocError>
    requires fits { IsTrue (vector_fits plan.now (bound_vector bound.now)) }
    requires pool { pool < length plan.now.pools }
    ensures { let rows = filter fails (bound_rows plan.now pool bound.now) in
        OnOk result (notes.new.items ≡ notes.old.items ++ in_section (bound_section pool bound.now) rows) }
{
    let mut found = FailingRows::new(alloc);
    bound.visit_rows(plan, pool, &mut found);
    found.push_notes(notes, section_of(pool, bound))
}

/// Appends the failing conditions of the pool's bound to the notes. Does nothing if the pool has no
/// bound.
fn push_bound_notes(
    alloc: Global,
    notes: &mut Vec<Note>,
    plan: &Plan,
    pool: usize,
    bound: &Option<Bound>,
) -> Result<(), AllocError>
    requires fits { IsTrue (bound_fits plan.now pool bound.now) }
    requires pool { pool < length plan.now.pools }
    ensures { OnOk result (notes.new.items ≡ notes.old.items ++ failing_of_bound plan.now pool bound.now) }
{
    match bound {
        Some(bound) => push_vector_notes(alloc, notes, plan, pool, bound),
        None => Ok(()),
    }
}

/// Appends the failing conditions of the pool's blocked vector to the notes. This vector bounds how
/// many threads of the pool wait at counted gets.
fn push_blocked_notes(
    alloc: Global,
    notes: &mut Vec<Note>,
    plan: &Plan,
    ranks: &Ranks,
    pool: usize,
    blocked: &Vector,
) -> Result<(), AllocError>
    requires ranks { IsTrue (ranks_fit plan.now ranks.now) }
    requires fits { IsTrue (vector_fits plan.now blocked.now) }
    requires pool { pool < length plan.now.pools }
    ensures { let rows = filter fails (blocked_rows plan.now pool (is_counted plan.now ranks.now) blocked.now) in
        OnOk result (notes.new.items ≡ notes.old.items ++ in_section (section.Blocked pool) rows) }
{
    let counted = RanksOf::new(plan, ranks);
    let mut found = FailingRows::new(alloc);
    visit_blocked_rows(plan, pool, &counted, blocked, &mut found);
    found.push_notes(notes, Section::Blocked(pool))
}

/// Appends the failing conditions of a pool to the notes: first those of its bound, and then those
/// of its blocked vector.
pub(crate) fn push_pool_notes(
    alloc: Global,
    notes: &mut Vec<Note>,
    plan: &Plan,
    ranks: &Ranks,
    number: usize,
    pool: &PoolCert,
) -> Result<(), AllocError>
    requires ranks { IsTrue (ranks_fit plan.now ranks.now) }
    requires fits { IsTrue (pool_cert_fits plan.now number pool.now) }
    requires number { number < length plan.now.pools }
    ensures { let of_bound = failing_of_bound plan.now number pool.now.bound in
        let of_blocked = in_section (section.Blocked number) (filter fails (blocked_rows plan.now number (is_counted plan.now ranks.now) pool.now.blocked)) in
        OnOk result (notes.new.items ≡ notes.old.items ++ of_bound ++ of_blocked) }
{
    push_bound_notes(alloc, notes, plan, number, &pool.bound)?;
    push_blocked_notes(alloc, notes, plan, ranks, number, &pool.blocked)
}

/// Returns the failing conditions of a certificate, each with its left and right side. The
/// certificate must fit the plan. The conditions of the ranks come first. Then come, for each pool,
/// the conditions of its bound and those of its blocked vector.
///
/// # Errors
///
/// Returns [`AllocError`] if memory runs out.
pub fn notes(alloc: Global, plan: &Plan, cert: &Cert) -> Result<Vec<Note>, AllocError>
    requires fits { IsTrue (cert_fits plan.now cert.now) }
    ensures { IfOk result (λ notes. notes.items ≡ failing plan.now cert.now) }
{
    let mut notes = Vec::new(alloc);
    push_rank_notes(alloc, &mut notes, plan, &cert.ranks)?;
    for (number, pool) in cert.pools.iter().enumerate() {
        push_pool_notes(alloc, &mut notes, plan, &cert.ranks, number, pool)?;
    }
    Ok(notes)
}
