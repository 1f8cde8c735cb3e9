//! Definitions and helpers that most other crates share:
//!
//! - The map [`IdMap`], and the counter [`Counter`].
//! - The numbers and names of faults, and the start of a fault's text.
//! - The writing of numbers in decimal digits.
//! - The function [`read_each`], which reads the elements of a list, and the error [`ReadError`].
//! - The splitting of a text into lines and words, and the parsing of the numbers in them.
//! - Lemmas about lists whose elements are given by index.
#![tactic(auto)]

mod counter;
mod decimals;
mod each;
mod entry;
mod head;
mod id_map;
mod laws;
mod line_number;
mod name;
pub mod number;
mod overflow;
mod pieces;
mod places;
mod read_error;

pub use counter::Counter;
pub use decimals::push_number;
pub use each::read_each;
pub use head::FaultHead;
pub use id_map::IdMap;
pub use laws::fault_numbers_are_stated;
pub use line_number::{MAX_LINE_NUMBER, leading_number, number_of};
pub use name::name_of;
pub use pieces::{split_line, split_space};
pub use read_error::ReadError;
