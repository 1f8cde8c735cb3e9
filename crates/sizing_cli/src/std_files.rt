//! The files of the operating system.

ghost use Rattle.std.specs.Prelude.{None};

use crate::text_files::TextFiles;
use byte_streams::{InputError, IoFault, StdSink, StdSource, read_up_to, write_all};
use std::alloc::Global;
use std::fs;
use std::fs::{File, Files};

/// The files of the operating system. No contract says what the files contain, or what is written
/// to them.
#[derive(Clone, Copy)]
pub struct StdFiles<'a, R> {
    files: &'a R,
}

impl<'a, R: Files> StdFiles<'a, R> {
    /// Creates a [`TextFiles`] that opens the files of the operating system through `files`.
    pub fn new(files: &'a R) -> StdFiles<'a, R> {
        StdFiles { files }
    }
}

impl<R: Files> TextFiles for StdFiles<'_, R> {
    ghost content = { λ _ _. None };

    ghost directory = { λ _ _. None };

    ghost writes = { λ _. None };

    fn read(&self, alloc: Global, name: &str, limit: usize) -> Result<Vec<u8>, InputError> {
        match File::open(self.files, name) {
            Ok(file) => read_up_to(alloc, &mut StdSource::new(file), limit),
            Err(_) => Err(InputError::Fault),
        }
    }

    fn read_stored(
        &self,
        alloc: Global,
        name: &str,
        limit: usize,
    ) -> Result<Option<Vec<u8>>, InputError> {
        match fs::metadata(self.files, name) {
            Ok(found) if found.is_file() => Ok(Some(self.read(alloc, name, limit)?)),
            _ => Ok(None),
        }
    }

    fn is_directory(&self, name: &str) -> bool {
        match fs::metadata(self.files, name) {
            Ok(found) => found.is_dir(),
            Err(_) => false,
        }
    }

    fn write(&mut self, name: &str, bytes: &[u8]) -> Result<(), IoFault> {
        match File::create(self.files, name) {
            Ok(file) => write_all(&mut StdSink::new(file), bytes),
            Err(_) => Err(IoFault),
        }
    }
}
