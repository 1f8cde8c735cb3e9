//! The errors of [`serve_words`](crate::serve_words), the entry point for the arguments of a
//! command line.

ghost use Rattle.std.specs.Prelude.{◌≡◌};
ghost use Rattle.sizing_cli.specs.declared.fault.CliError.TheVariants.{Serve, Words};
ghost use Rattle.support.specs.declared.number.TheConstants.{MEMORY};
ghost use Rattle.sizing_cli.specs.CliError as spec;

use crate::ServeFault;
use clap::Error;
use clap::error::ErrorKind;
use std::alloc::AllocError;

/// The exit status for bad arguments.
const USAGE: u8 = 2;
/// The exit status for any error other than bad arguments.
const NO_ANSWER: u8 = 3;

/// The error of [`serve_words`](crate::serve_words). Nothing was written, except in two cases:
///
/// - If the sink failed, a prefix of the answer was written.
/// - If the certificate's file could not be written, the whole answer was written.
#[derive(Drop)]
pub enum CliError<'a> {
    /// An error of `clap`, or a request for help or for the version. The `Display` of this field
    /// writes the text of `clap` for the user.
    Words(Error),
    /// The arguments name no command.
    NoCommand,
    /// The arguments say that both texts come from standard input.
    InputTwice,
    /// Two texts are given, and one of them is itself a bundle of two texts. The field is the file
    /// name of this text, or `<stdin>`.
    Bundle(&'a str),
    /// The file of this name could not be read. This is fault 60.
    Unread(&'a str),
    /// The certificate's file is named `-`, which is not the name of a file.
    CertificateNeedsFile,
    /// The name of the certificate's file is that of a directory.
    Directory(&'a str),
    /// The certificate was not written, because the file of this name holds a text that is not a
    /// certificate. The file is unchanged.
    Occupied(&'a str),
    /// The certificate could not be written to the file of this name (fault 61). The whole answer
    /// was written before.
    Unwritten(&'a str),
    /// The command ended with this fault.
    Serve(ServeFault),
}

impl CliError<'_> {
    /// Returns the program's exit status: 2 for bad arguments and for a request for help, and 3 for
    /// any other error. The program does not use it for a request for the version.
    pub fn code(&self) -> u8
        ensures { spec.IsCode self.now result }
    {
        match self {
            CliError::Words(error) if error.kind() == ErrorKind::OutOfMemory => NO_ANSWER,
            CliError::Words(_)
            | CliError::NoCommand
            | CliError::InputTwice
            | CliError::Bundle(_)
            | CliError::CertificateNeedsFile
            | CliError::Directory(_)
            | CliError::Occupied(_) => USAGE,
            CliError::Unread(_) | CliError::Unwritten(_) | CliError::Serve(_) => NO_ANSWER,
        }
    }
}

impl<'a> From<Error> for CliError<'a> {
    ghost from_gives = { λ error fault. fault ≡ Words error };

    fn from(error: Error) -> CliError<'a> {
        CliError::Words(error)
    }
}

impl<'a> From<ServeFault> for CliError<'a> {
    ghost from_gives = { λ error fault. fault ≡ Serve error };

    fn from(fault: ServeFault) -> CliError<'a> {
        CliError::Serve(fault)
    }
}

impl<'a> From<AllocError> for CliError<'a> {
    ghost from_gives = { λ _ fault. fault ≡ Serve (record { number = MEMORY }) };

    fn from(error: AllocError) -> CliError<'a> {
        CliError::Serve(ServeFault::from(error))
    }
}
