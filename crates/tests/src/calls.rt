//! Tests of calls that the rows of the files in `data/` cannot express.

mod bytes;
mod cert_texts;
mod event_texts;
mod file_names;
mod fits;
mod help_texts;
mod judged_plans;
mod judged_texts;
mod limits;
mod note_lines;
mod pools;
mod stairs;
mod starved_pools;
mod witnesses;
mod words_and_files;
