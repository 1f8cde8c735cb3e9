//! Test cases in files of rows: inputs, each with its expected answer.
//!
//! A row begins with a line `== NAME`. Each part of a row begins with a line `-- HEAD`. Text before
//! the first row is a comment, and so is text between a row's name and its first part. Newlines at
//! the end of a part are ignored.
//!
//! A part with the head `KIND` or `KIND at PLACE` is an input of that kind. A row may have any
//! number of inputs. Three other parts have expected answers:
//!
//! - A part `answer` is the expected answer to each input of the row.
//! - A part `answers` is a table. Its line `ONE | TWO => ANSWER` is a case for each input: `ONE`
//!   replaces `$1` and `TWO` replaces `$2` in the input, and `ANSWER` is the expected answer.
//! - A part `lines` is a table, too. The left sides of its lines are appended to each input, and
//!   the right sides are the lines of the expected answer.
//!
//! In an expected answer, the first `*` stands for the place of the input. Inputs and answers may
//! contain:
//!
//! - `$(NAME)`: the text of the row's part `let NAME`.
//! - `$(one_pool 1 1 2 2)`: a sample plan with these sizes.
//! - `$(standing_cert)`: a sample certificate. `$(standing_cert OLD NEW)` is the same certificate
//!   with `NEW` in place of its first `OLD`.
//! - `^<64 TEXT^>`: 64 copies of the text. In the text, `^#` is the number of the copy, counted
//!   from 0, and `^+` is the number of the copy, counted from 1.
//! - `^<to 64 X^>`: the byte X, repeated until the input or answer has 64 bytes.
//! - `^n`, `^r`, `^t` and `^s`: a newline, a carriage return, a tab and a space. `^xff` is the byte
//!   `ff`.
mod certs;
mod fill;
mod plans;
mod repeat;
mod rows;
mod spelling;
mod suite;

pub use suite::{Suite, run_files};
