//! Writers of the parts of a certificate. They append to a text and build no JSON tree. The part
//! for a pool begins with the blocked vector, which bounds the pool's jobs that wait for other
//! jobs. The bound of the pool's queue follows, if there is one.

ghost use Rattle.std.specs.Prelude.{◌≡◌, ◌++◌, map, codes, Some};
ghost use Rattle.serde_json.specs.Written.{comma_if, compact_text};
ghost use Rattle.support.specs.Pushed.{Pushes};
ghost use Rattle.cert_text.specs.CertText as spec;
ghost use Rattle.cert_text.specs.Canonical.{bound_text};

use crate::PoolCert;
use std::alloc::AllocError;
use support::push_number;
use weights::{Bound, Ranks, Vector};

/// Appends a comma if `later` is `true`, which means that the next list element is not the first.
#[inline(always)]
fn push_comma(text: &mut String, later: bool) -> Result<(), AllocError>
    ensures { Pushes result text.old text.new (comma_if later) }
{
    if later { text.push(',') } else { Ok(()) }
}

fn push_numbers(text: &mut String, numbers: &[u64]) -> Result<(), AllocError>
    ensures { Pushes result text.old text.new (compact_text (spec.numbers_data numbers.now)) }
{
    text.push('[')?;
    let mut later = false;
    for number in numbers {
        push_comma(text, later)?;
        push_number(text, *number)?;
        later = true;
    }
    text.push(']')
}

fn push_rows(text: &mut String, rows: &[Vec<u64>]) -> Result<(), AllocError>
    ensures { Pushes result text.old text.new
        (compact_text (spec.rows_data (map (λ row. row.items) rows.now))) }
{
    text.push('[')?;
    let mut later = false;
    for row in rows {
        push_comma(text, later)?;
        push_numbers(text, row)?;
        later = true;
    }
    text.push(']')
}

fn push_vector(text: &mut String, vector: &Vector) -> Result<(), AllocError>
    ensures { Pushes result text.old text.new (compact_text (spec.vector_data vector.now)) }
{
    text.push_str("{\"classes\":")?;
    push_rows(text, &vector.classes)?;
    text.push_str(",\"clients\":")?;
    push_rows(text, &vector.clients)?;
    text.push_str(",\"workers\":")?;
    push_numbers(text, &vector.workers)?;
    text.push('}')
}

/// Appends the bound of a pool: a comma, the key `standing` or `lifetime`, and the vector. The
/// comma separates the bound from the blocked vector before it.
fn push_bound(text: &mut String, bound: &Bound) -> Result<(), AllocError>
    ensures { Pushes result text.old text.new (bound_text (Some bound.now)) }
{
    match bound {
        Bound::Standing(vector) => {
            text.push_str(",\"standing\":")?;
            push_vector(text, vector)
        }
        Bound::Lifetime(vector) => {
            text.push_str(",\"lifetime\":")?;
            push_vector(text, vector)
        }
    }
}

/// Appends the bound of a pool, or nothing if the pool has none.
fn push_bound_if_any(text: &mut String, bound: &Option<Bound>) -> Result<(), AllocError>
    ensures { Pushes result text.old text.new (bound_text bound.now) }
{
    match bound {
        Some(bound) => push_bound(text, bound),
        None => Ok(()),
    }
}

fn push_pool(text: &mut String, pool: &PoolCert) -> Result<(), AllocError>
    ensures { Pushes result text.old text.new (compact_text (spec.pool_data pool.now)) }
{
    text.push_str("{\"blocked\":")?;
    push_vector(text, &pool.blocked)?;
    push_bound_if_any(text, &pool.bound)?;
    text.push('}')
}

/// Appends the JSON list of the parts of all pools.
pub fn push_pools(text: &mut String, pools: &[PoolCert]) -> Result<(), AllocError>
    ensures { Pushes result text.old text.new
        (compact_text (spec.list_data (map spec.pool_data pools.now))) }
{
    text.push('[')?;
    let mut later = false;
    for pool in pools {
        push_comma(text, later)?;
        push_pool(text, pool)?;
        later = true;
    }
    text.push(']')
}

/// Appends the JSON object of the ranks.
pub fn push_ranks(text: &mut String, ranks: &Ranks) -> Result<(), AllocError>
    ensures { Pushes result text.old text.new (compact_text (spec.ranks_data ranks.now)) }
{
    text.push_str("{\"levels\":")?;
    push_numbers(text, &ranks.levels)?;
    text.push_str(",\"pools\":")?;
    push_numbers(text, &ranks.pools)?;
    text.push_str(",\"reach\":")?;
    push_numbers(text, &ranks.reach)?;
    text.push('}')
}
