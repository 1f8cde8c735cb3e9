//! The interface to files.

ghost use Rattle.std.specs.Prelude.{◌≡◌, ℕ, Bool, [], ◌∷◌, List, Option, Some, None, IfOk, IfErr, IfSome, is_ok, option_map, take};
ghost use Rattle.sizing_cli.specs.FileWrites.{AppendsWrites, FileWrite};

use byte_streams::{InputError, IoFault};
use std::alloc::Global;

/// A store of files that are read and written by name.
pub trait TextFiles {
    // The bytes of the file of this name, if they are known.
    ghost content: { Self → List ℕ → Option (List ℕ) };

    // Whether there is a directory of this name, if that is known.
    ghost directory: { Self → List ℕ → Option Bool };

    // The writes so far, if they are known.
    ghost writes: { Self → Option (List FileWrite) };

    /// Reads the first `limit` bytes of a file, or the whole file if it is shorter.
    ///
    /// # Errors
    ///
    /// - [`InputError::Fault`] if the file cannot be read, for example because it does not exist or
    ///   is a directory.
    /// - [`InputError::Memory`] if memory runs out.
    fn read(&self, alloc: Global, name: &str, limit: usize) -> Result<Vec<u8>, InputError>
        ensures bytes { IfOk result (λ bytes. IfSome (content self.now name.now) (λ known. bytes.items ≡ take limit known)) }
        ensures unread { IfErr result (λ error. error ≡ InputError.Fault → content self.now name.now ≡ None) };

    /// Reads the first `limit` bytes of a regular file, or the whole file if it is shorter. Returns
    /// `None` if there is no regular file of this name. For example, a pipe or a terminal is not a
    /// regular file.
    ///
    /// # Errors
    ///
    /// Fails as [`read`](TextFiles::read) does, if there is a regular file of this name.
    fn read_stored(
        &self,
        alloc: Global,
        name: &str,
        limit: usize,
    ) -> Result<Option<Vec<u8>>, InputError>
        ensures bytes { IfOk result (λ found. IfSome (content self.now name.now) (λ known. option_map (λ bytes. bytes.items) found ≡ Some (take limit known))) }
        ensures unread { IfErr result (λ error. error ≡ InputError.Fault → content self.now name.now ≡ None) };

    /// Returns true if there is a directory of this name.
    fn is_directory(&self, name: &str) -> bool
        ensures { IfSome (directory self.now name.now) (λ known. result ≡ known) };

    /// Writes these bytes to a file. Creates the file, or replaces its content.
    ///
    /// # Errors
    ///
    /// Returns [`IoFault`] if the file cannot be written. The file may then have a prefix of the
    /// bytes.
    fn write(&mut self, name: &str, bytes: &[u8]) -> Result<(), IoFault>
        ensures { AppendsWrites (writes self.old) (writes self.new)
            ((record { name = name.now; bytes = bytes.now; is_done = is_ok result }) ∷ []) };
}
