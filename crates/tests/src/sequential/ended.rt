//! Runs of commands that use no threads, and the results of the commands.

use sizing_cli::{
    MemorySink, RecordingCommand, ReviewCommand, ServeFault, Sink, Source, Status, serve_alone,
    serve_recording,
};
use std::alloc::{AllocError, Global};

/// A command that uses no threads.
#[derive(Clone, Copy)]
pub enum Query {
    ReviewCommand(ReviewCommand),
    RecordingCommand(RecordingCommand),
}

impl Query {
    /// Runs the command on the input that the source provides.
    pub fn serve<S: Source, K: Sink>(
        self,
        alloc: Global,
        source: &mut S,
        sink: &mut K,
    ) -> Result<Status, ServeFault> {
        match self {
            Query::ReviewCommand(review) => serve_alone(alloc, review, source, sink),
            Query::RecordingCommand(reading) => serve_recording(alloc, reading, source, sink),
        }
    }
}

/// The result of a command: its output, and its exit status or fault.
#[derive(PartialEq, Drop)]
pub struct Ended {
    pub written: Vec<u8>,
    pub outcome: Result<Status, ServeFault>,
}

impl Ended {
    /// Returns the output, followed by the exit status or the fault.
    pub fn to_text(&self, alloc: Global) -> Result<String, AllocError> {
        let mut text = String::from_utf8_lossy(alloc, &self.written)?;
        match self.outcome {
            Ok(Status::Done) => text.push_str("status 0")?,
            Ok(Status::Refused) => text.push_str("status 1")?,
            Ok(Status::BadText) => text.push_str("status 2")?,
            Ok(Status::Undecided) => text.push_str("status 4")?,
            Err(fault) => write!(text, "{fault}")?,
        }
        Ok(text)
    }
}

/// Runs the command on the input that the source provides, and returns its result.
pub fn serve<S: Source>(
    alloc: Global,
    query: Query,
    source: &mut S,
    sink: MemorySink,
) -> Result<Ended, AllocError> {
    let mut sink = sink;
    let outcome = query.serve(alloc, source, &mut sink);
    let written = sink.written().to_vec(alloc)?;
    Ok(Ended { written, outcome })
}
