//! Sources and sinks of bytes that count their failed calls.
//!
//! `read_up_to` reads a whole input from any [`Source`], up to a limit. `write_all` writes a whole
//! answer to any [`Sink`]. There is a source for every std reader and a sink for every std writer.
//! For tests, there are a source and a sink in memory.
#![tactic(auto)]

mod failures;
mod io_fault;
mod memory_sink;
mod memory_source;
mod reading;
mod scripted_fault;
mod std_sink;
mod std_source;
mod writing;

pub use io_fault::IoFault;
pub use memory_sink::MemorySink;
pub use memory_source::MemorySource;
pub use reading::{InputError, Source, read_up_to};
pub use std_sink::StdSink;
pub use std_source::StdSource;
pub use writing::{Sink, write_all};
