//! The arguments of the command line, and the command that they select.
//!
//! `clap` parses the arguments. It returns an error if it finds them invalid, and also if they ask
//! for help or for the version. In `specs/`, `Application.antt` defines the application, and
//! `Command.antt` defines which command the arguments select.
#![tactic(auto)]

mod application;
mod command;
mod flag;
mod form;
mod help;
mod number;
mod refusal;
mod text;

pub use command::{
    AskInput, AskOptions, Cli, Command, Form, RecordingCommand, RefuteFormat, ReviewCommand,
    SizesForm, Task, read_words,
};
