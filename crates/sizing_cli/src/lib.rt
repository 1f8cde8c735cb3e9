//! The commands of `sizing`, from the arguments and the input to the bytes of the answer.
//!
//! [`serve`] runs one command on one input. [`serve_words`] parses the command line, reads the
//! files and standard input, and writes the answer.
#![tactic(auto)]

mod answer;
mod arguments;
mod ask_answer;
mod ask_faults;
mod bundle;
mod certificate;
mod certificate_file;
mod certified_bundle;
mod certify;
mod check;
mod conform;
mod entry_points;
mod explain;
mod fault;
mod finding;
mod finding_answer;
mod fit;
mod input;
mod laws;
mod learn;
mod line_ends;
mod lowered_plan;
mod named_texts;
mod noop_gate;
mod recording_commands;
mod refute;
mod rejections;
mod replay;
mod review_commands;
mod run;
mod status;
mod std_files;
mod text_files;
mod witness;

pub use answer::Output;
pub use arguments::serve_words;
pub use ask_answer::{AskOutput, ask};
pub use bundle::{Bundle, bundle_of, join_texts, whole_lines};
pub use byte_streams::{IoFault, MemorySink, MemorySource, Sink, Source, StdSink, StdSource};
pub use command_line::{
    AskInput, AskOptions, Command, Form, RecordingCommand, RefuteFormat, ReviewCommand, SizesForm,
    Task, read_words,
};
pub use entry_points::serve;
pub use fault::CliError;
pub use fit::answer_of_sizes;
pub use input::most_bytes;
pub use laws::{
    a_yes_means_safe, inputs_split_at_the_last_separator, joined_texts_split_again,
    no_bundle_without_a_separator,
};
pub use recording_commands::serve_recording;
pub use review_commands::serve_alone;
pub use status::{ServeFault, Status};
pub use std_files::StdFiles;
pub use text_files::TextFiles;
