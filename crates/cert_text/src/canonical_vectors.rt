//! Parsers of vectors in canonical form at the start of a text. A vector has a row of numbers for
//! each class and each client kind, and a number for each pool.

ghost use Rattle.std.specs.Prelude.{◌≡◌, IfOk, IsTrue, length, map};
ghost use Rattle.std.specs.List.{list_all};
ghost use Rattle.weights.specs.Vector.{is_small, vector_fits};
ghost use Rattle.cert_text.specs.Vectors.{class_points, client_points};
ghost use Rattle.cert_text.specs.CertText as spec;
ghost use Rattle.cert_text.specs.Canonical.{BeginsAs, AreRows};

use crate::canonical_numbers::{
    CanonicalError, list_with_capacity, parse_numbers, strip_byte, strip_bytes, strip_comma,
};
use crate::vectors::{class_points, client_points};
use job_bodies::Plan;
use std::alloc::Global;
use weights::Vector;

/// Parses the rows of all classes at the start of a text, and returns the rows and the rest of the
/// text. A row is the list of the weights of a class.
fn parse_class_rows<'a>(
    alloc: Global,
    plan: &Plan,
    text: &'a [u8],
) -> Result<(Vec<Vec<u64>>, &'a [u8]), CanonicalError>
    ensures text { IfOk result (λ read.
        BeginsAs text.now (spec.rows_data (map (λ row. row.items) read.0.items)) read.1.now) }
    ensures rows { IfOk result (λ read.
        AreRows (length plan.now.classes) (class_points plan.now)
        (map (λ row. row.items) read.0.items)) }
    ensures small { IfOk result
        (λ read. IsTrue (list_all (list_all is_small) (map (λ row. row.items) read.0.items))) }
{
    let count = plan.classes().len();
    let mut rows = list_with_capacity(alloc, count, text)?;
    let mut rest = strip_byte(text, b'[')?;
    for place in 0..count {
        let element = strip_comma(rest, place)?;
        let (row, remaining) = parse_numbers(alloc, class_points(plan, place), element)?;
        rows.push(row)?;
        rest = remaining;
    }
    Ok((rows, strip_byte(rest, b']')?))
}

/// Parses the rows of all client kinds at the start of a text, and returns the rows and the rest of
/// the text. A row is the list of the weights of a client kind.
fn parse_client_rows<'a>(
    alloc: Global,
    plan: &Plan,
    text: &'a [u8],
) -> Result<(Vec<Vec<u64>>, &'a [u8]), CanonicalError>
    ensures text { IfOk result (λ read.
        BeginsAs text.now (spec.rows_data (map (λ row. row.items) read.0.items)) read.1.now) }
    ensures rows { IfOk result (λ read.
        AreRows (length plan.now.clients) (client_points plan.now)
        (map (λ row. row.items) read.0.items)) }
    ensures small { IfOk result
        (λ read. IsTrue (list_all (list_all is_small) (map (λ row. row.items) read.0.items))) }
{
    let count = plan.clients().len();
    let mut rows = list_with_capacity(alloc, count, text)?;
    let mut rest = strip_byte(text, b'[')?;
    for place in 0..count {
        let element = strip_comma(rest, place)?;
        let (row, remaining) = parse_numbers(alloc, client_points(plan, place), element)?;
        rows.push(row)?;
        rest = remaining;
    }
    Ok((rows, strip_byte(rest, b']')?))
}

/// Parses the vector at the start of a text, and returns the vector and the rest of the text.
pub fn parse_vector<'a>(
    alloc: Global,
    plan: &Plan,
    text: &'a [u8],
) -> Result<(Vector, &'a [u8]), CanonicalError>
    ensures text { IfOk result (λ read. BeginsAs text.now (spec.vector_data read.0) read.1.now) }
    ensures fits { IfOk result (λ read. IsTrue (vector_fits plan.now read.0)) }
{
    let rest = strip_bytes(text, b"{\"classes\":")?;
    let (classes, rest) = parse_class_rows(alloc, plan, rest)?;
    let rest = strip_bytes(rest, b",\"clients\":")?;
    let (clients, rest) = parse_client_rows(alloc, plan, rest)?;
    let rest = strip_bytes(rest, b",\"workers\":")?;
    let (workers, rest) = parse_numbers(alloc, plan.pools().len(), rest)?;
    let rest = strip_byte(rest, b'}')?;
    let vector = Vector {
        workers,
        classes,
        clients,
    };
    Ok((vector, rest))
}
