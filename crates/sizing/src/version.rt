//! The version of the program.

/// The version and the commit of the program. This is only a default: `make gate` and `make
/// program` replace this text in the copy of the sources that they prove.
pub(crate) const VERSION: &str = "(development)";
