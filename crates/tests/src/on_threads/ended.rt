//! The result of a command.

ghost use Rattle.command_line.specs.Command.{IsInRange};

use sizing_cli::{
    Command, MemorySink, MemorySource, ReviewCommand, ServeFault, Source, Status, serve,
    serve_alone,
};
use std::alloc::{AllocError, Global};
use std::sync::Wait;
use std::thread::Threads;

/// The result of a command: its output, and its exit status or fault.
#[derive(PartialEq, Drop)]
pub struct Ended {
    pub written: Vec<u8>,
    pub outcome: Result<Status, ServeFault>,
}

impl Ended {
    /// Runs the command on an input in memory, and returns its result.
    pub fn of_input<R: Threads + Wait + Sync>(
        rt: &R,
        alloc: Global,
        command: Command,
        input: &[u8],
    ) -> Result<Ended, AllocError>
        requires { IsInRange command }
    {
        let sink = MemorySink::new(alloc);
        Ended::of_source(rt, alloc, command, &mut MemorySource::new(input), sink)
    }

    /// Runs the command on the input that the source provides, and returns its result. The sink is
    /// in memory.
    pub fn of_source<R: Threads + Wait + Sync, S: Source>(
        rt: &R,
        alloc: Global,
        command: Command,
        source: &mut S,
        sink: MemorySink,
    ) -> Result<Ended, AllocError>
        requires { IsInRange command }
    {
        let mut sink = sink;
        let outcome = serve(rt, alloc, command, source, &mut sink);
        let written = sink.written().to_vec(alloc)?;
        Ok(Ended { written, outcome })
    }

    /// Runs `check` on a bundle, and returns its result.
    pub fn of_bundle(alloc: Global, bundle: &[u8]) -> Result<Ended, AllocError> {
        let mut sink = MemorySink::new(alloc);
        let outcome = serve_alone(
            alloc,
            ReviewCommand::Check,
            &mut MemorySource::new(bundle),
            &mut sink,
        );
        let written = sink.written().to_vec(alloc)?;
        Ok(Ended { written, outcome })
    }

    /// Returns the output, followed by the exit status or the fault.
    pub fn to_text(&self, alloc: Global) -> Result<String, AllocError> {
        let mut text = String::from_utf8_lossy(alloc, &self.written)?;
        self.push_outcome(&mut text)?;
        Ok(text)
    }

    /// Returns the first line of the output, followed by the exit status or the fault.
    pub fn first_line(&self, alloc: Global) -> Result<String, AllocError> {
        let written = String::from_utf8_lossy(alloc, &self.written)?;
        let mut text = String::new(alloc);
        writeln!(text, "{}", written.as_str().lines().next().unwrap_or(""))?;
        self.push_outcome(&mut text)?;
        Ok(text)
    }

    /// Returns the JSON object in the HTML page that the command wrote, followed by the exit status
    /// or the fault. If the page has no such object, `no object` takes its place.
    pub fn object_in_page(&self, alloc: Global) -> Result<String, AllocError> {
        let written = String::from_utf8_lossy(alloc, &self.written)?;
        let mut text = String::new(alloc);
        writeln!(text, "{}", element(written.as_str()).unwrap_or("no object"))?;
        self.push_outcome(&mut text)?;
        Ok(text)
    }

    fn push_outcome(&self, text: &mut String) -> Result<(), AllocError> {
        match self.outcome {
            Ok(status) => write!(text, "status {}", status.code()),
            Err(fault) => write!(text, "{fault}"),
        }
    }
}

// Returns the content of the page's script element that has the answer.
fn element(page: &str) -> Option<&str> {
    let (_, after) = page.split_once("<script id=\"answer\" type=\"application/json\">")?;
    let (object, _) = after.split_once("</script>")?;
    Some(object)
}
