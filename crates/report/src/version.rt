//! The version of the program.

/// The version of the program, as its answers show it.
pub const VERSION: &str = "0.9.0";
