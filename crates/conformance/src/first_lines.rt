//! For each of several queries, the first line of a recording that matches it. One pass over the
//! text finds all these lines.

ghost use Rattle.std.specs.Prelude.{◌≡◌, ◌+◌, ◌++◌, ◌∷◌, [], List, OnOk, IfOk, length, string_bytes};
ghost use Rattle.recordings.specs.RecordingLine.{RecordedLine, line_view};
ghost use Rattle.conformance.specs.Lines.{lines_of};
ghost use Rattle.conformance.specs.LineQuery.{IsLabelOf};
ghost use Rattle.conformance.specs.FailedGets.{failed_gets};
ghost use Rattle.conformance.specs.FirstLines as spec;
ghost use Rattle.recordings.specs.declared.recording_line.RecordedActor.TheVariants.{Job};

use crate::actor_label::ActorLabel;
use crate::failed_gets::{FailedGets, JobGet, count_of, failed_gets_in};
use crate::line_query::{LineQuery, first_line, label_in, pool_in, query_of};
use crate::well_formed_lines::WellFormedLines;
use recordings::{Line, RecordedActor};
use std::alloc::{AllocError, Global};
use std::collections::HashMap;
use std::marker::Model;

/// A line that matches a query.
#[derive(Drop)]
pub(crate) struct FoundLine {
    /// The number of the line, from 1.
    pub(crate) number: usize,
    /// The class in a `submit` line, or the kind in a `begin` line. It is empty for any other line.
    label: String,
    /// The pool in a `submit`, `any` or `unseen` line. It is empty for any other line.
    pool: String,
}

/// A map from each query to the first line that matches it. The value is `None` if no line matches
/// the query.
pub(crate) type LineTable = HashMap<LineQuery, Option<FoundLine>>;

/// The text of a recording, with two results of reading it:
///
/// - for each of several queries, the first line that matches the query;
/// - for each actor and each job, the number of times that a get of the job by the actor timed out
///   or was interrupted.
///
/// In contracts, the value of this type is the text.
#[derive(Drop)]
pub(crate) struct FirstLines<'a> {
    text: &'a [u8],
    table: LineTable,
    failed: FailedGets,
}

impl<'a> Model for FirstLines<'a> {
    ghost use Rattle.std.specs.Prelude.{ℕ, List};
    ghost use Rattle.conformance.specs.Lines.{lines_of};
    ghost use Rattle.conformance.specs.FirstLines.{AreFirst};
    ghost use Rattle.conformance.specs.FailedGets.{AreCounts};

    ghost Value = { List ℕ };

    ghost view = { λ first. first.text.now };

    ghost invariant = { λ first.
        AreFirst (lines_of first.text.now) first.table × AreCounts (lines_of first.text.now) first.failed };
}

impl<'a> FirstLines<'a> {
    /// Finds, for each of the queries, the first line of the text that matches it. Also counts the
    /// gets that timed out or were interrupted.
    ///
    /// # Errors
    ///
    /// Returns `AllocError` if memory runs out.
    pub(crate) fn new(
        alloc: Global,
        text: &'a [u8],
        queries: &[LineQuery],
    ) -> Result<FirstLines<'a>, AllocError>
        ensures { IfOk result (λ first. first ≡ text.now) }
    {
        let mut table = HashMap::new(alloc);
        for query in queries {
            seek(&mut table, *query)?;
        }
        note_lines(alloc, text, &mut table)?;
        let failed = failed_gets_in(alloc, text)?;
        Ok(FirstLines {
            text,
            table,
            failed,
        })
    }

    /// Returns the first line that matches the query, or `None` if no line does. If the query
    /// was passed to [`new`](FirstLines::new), this is only a look-up. Otherwise this call searches
    /// the text.
    ///
    /// # Errors
    ///
    /// Returns `AllocError` if memory runs out.
    pub(crate) fn find(
        &self,
        alloc: Global,
        query: LineQuery,
    ) -> Result<Option<FoundLine>, AllocError>
        ensures { IfOk result (spec.IsFound (lines_of self.now) query) }
    {
        match self.table.get(&query) {
            Some(found) => copy_of(found),
            None => found_in_text(alloc, self.text, query),
        }
    }

    /// Returns the label of a job. Both names of the label are empty if no line submits the job.
    ///
    /// # Errors
    ///
    /// Returns `AllocError` if memory runs out.
    pub(crate) fn label_of(&self, alloc: Global, job: usize) -> Result<ActorLabel, AllocError>
        ensures { IfOk result
            (λ label. IsLabelOf (lines_of self.now) (Job job) (string_bytes label.name) (string_bytes label.pool)) }
    {
        match self.find(alloc, LineQuery::Submit(job))? {
            Some(FoundLine { label, pool, .. }) => Ok(ActorLabel { name: label, pool }),
            None => Ok(ActorLabel {
                name: String::new(alloc),
                pool: String::new(alloc),
            }),
        }
    }

    /// Returns how often a get of the job by the actor timed out or was interrupted.
    pub(crate) fn failed_gets(&self, actor: RecordedActor, job: usize) -> usize
        ensures { result ≡ failed_gets (lines_of self.now) actor job }
    {
        count_of(&self.failed, JobGet { actor, job })
    }
}

/// Adds the query to the table, with `None` as its line.
fn seek(table: &mut LineTable, query: LineQuery) -> Result<(), AllocError>
    ensures { spec.AreFirst [] table.old → OnOk result (spec.AreFirst [] table.new) }
{
    table.insert(query, None)?;
    Ok(())
}

/// Stores, for each query of the table, the first line of the text that matches this query. Reads
/// the lines only if the table has a query.
fn note_lines(alloc: Global, text: &[u8], table: &mut LineTable) -> Result<(), AllocError>
    ensures { spec.AreFirst [] table.old → OnOk result (spec.AreFirst (lines_of text.now) table.new) }
{
    if table.is_empty() {
        return Ok(());
    }
    let mut lines = WellFormedLines::new(text);
    let mut number = 0;
    while let Some(line) = lines.next() {
        number += 1;
        note_line(alloc, number, &line, table)?;
    }
    Ok(())
}

/// Stores line `number` for the query that the line matches. Does nothing if the line matches no
/// query of the table, or if the table already has a line for the query.
fn note_line(
    alloc: Global,
    number: usize,
    line: &Line<'_>,
    table: &mut LineTable,
) -> Result<(), AllocError>
    ensures { (before : List RecordedLine)
        → number ≡ length before + 1
        → spec.AreFirst before table.old
        → OnOk result (spec.AreFirst (before ++ line_view line.now ∷ []) table.new) }
{
    match query_of(line) {
        Some(query) => note_match(alloc, query, number, line, table),
        None => Ok(()),
    }
}

fn note_match(
    alloc: Global,
    query: LineQuery,
    number: usize,
    line: &Line<'_>,
    table: &mut LineTable,
) -> Result<(), AllocError>
    ensures { OnOk result (spec.NotesMatch query number (line_view line.now) table.old table.new) }
{
    if is_sought(table, query) {
        let found = found_line(alloc, number, line)?;
        table.insert(query, Some(found))?;
    }
    Ok(())
}

/// Returns true if the table has the query, but no line for it yet.
fn is_sought(table: &LineTable, query: LineQuery) -> bool
    ensures { result ≡ spec.is_sought table.now query }
{
    match table.get(&query) {
        Some(found) => found.is_none(),
        None => false,
    }
}

fn found_line(alloc: Global, number: usize, line: &Line<'_>) -> Result<FoundLine, AllocError>
    ensures { IfOk result (spec.IsSeenAs number (line_view line.now)) }
{
    let label = String::from_str(alloc, label_in(line))?;
    let pool = String::from_str(alloc, pool_in(line))?;
    Ok(FoundLine {
        number,
        label,
        pool,
    })
}

fn copy_of(found: &Option<FoundLine>) -> Result<Option<FoundLine>, AllocError>
    ensures { IfOk result (spec.IsCopy found.now) }
{
    match found {
        Some(found) => {
            let copy = copy_of_line(found)?;
            Ok(Some(copy))
        }
        None => Ok(None),
    }
}

fn copy_of_line(found: &FoundLine) -> Result<FoundLine, AllocError>
    ensures number { IfOk result (λ copy. copy.number ≡ found.now.number) }
    ensures label { IfOk result (λ copy. string_bytes copy.label ≡ string_bytes found.now.label) }
    ensures pool { IfOk result (λ copy. string_bytes copy.pool ≡ string_bytes found.now.pool) }
{
    let label = found.label.clone()?;
    let pool = found.pool.clone()?;
    Ok(FoundLine {
        number: found.number,
        label,
        pool,
    })
}

fn found_in_text(
    alloc: Global,
    text: &[u8],
    query: LineQuery,
) -> Result<Option<FoundLine>, AllocError>
    ensures { IfOk result (spec.IsFound (lines_of text.now) query) }
{
    match first_line(text, query) {
        Some((number, line)) => {
            let found = found_line(alloc, number, &line)?;
            Ok(Some(found))
        }
        None => Ok(None),
    }
}
