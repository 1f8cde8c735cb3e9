//! The entry point that serves the arguments of a command line.

ghost use Rattle.std.specs.Prelude.{◌≡◌, ◌+◌, IfOk, IfErr, IfSome, map, option_map, [], is_some, true, false};
ghost use Rattle.std.specs.Io.KnownBytes.{Keeps};
ghost use Rattle.command_line.specs.Command.{IsInRange, certificate_of, command_of, faults_of, files_of_cli, files_of};
ghost use Rattle.support.specs.declared.number.TheConstants.{READ_FAILED, WRITE_FAILED};
ghost use Rattle.sizing_cli.specs.CommandResult.{WritesWithCertificate, MeansSafe, WritesAnswer};
ghost use Rattle.sizing_cli.specs.FileWrites.{AppendsWrites, WritesAtMostOnce};
ghost use Rattle.sizing_cli.specs.SavedCertificate.{IsReplaceable, WritesCertificateFile};
ghost use Rattle.sizing_cli.specs.declared.status.Status.{Status as StatusValue};
ghost use Rattle.sizing_cli.specs.Texts as spec;
ghost use Rattle.sizing_cli.specs.CliError.{IsBundled, IsFaultOf, IsOccupied, IsOfTexts, IsUnreadable, IsWrittenBefore, count_in, is_of_sink, is_unwritten};

use crate::certificate_file::{ensure_replaceable, write_certificate};
use crate::entry_points::write_answer;
use crate::fault::CliError;
use crate::named_texts::{display_name, read_texts};
use crate::text_files::TextFiles;
use crate::{Status, read_words};
use byte_streams::{Sink, Source};
use command_line::Cli;
use std::alloc::Global;
use std::sync::Wait;
use std::thread::Threads;

/// Runs the command that the arguments select, and writes its answer to the sink. The first
/// argument is the program's name.
///
/// The arguments can also give the names of input files, which are in `files`:
///
/// - With one name, the file has the whole input of the command.
/// - With two names, the first file has the plan, and the second file has the text that follows the
///   plan. The whole input is then both texts, with a line `%%` between them.
/// - Without a name, the whole input is read from `input`, which is standard input.
///
/// The name `-` means `input`.
///
/// With `--certificate`, the arguments of `ask` also give the name of a certificate file, which is
/// an output. If the answer is based on a certificate, the certificate is written to this file
/// after the answer. The certificate is not written if its text is too long to be read back.
///
/// The certificate file need not exist. A regular file is replaced only if it is empty or contains
/// a JSON object with the keys of a certificate. In these cases, the call fails before it reads the
/// input:
///
/// - The certificate file is a regular file that cannot be read, or whose content may not be
///   replaced.
/// - The name of the certificate file is `-`, or is the name of a directory.
///
/// # Errors
///
/// Returns the [`CliError`] of the first failure. How much was written depends on the failure:
///
/// - If the sink failed, a prefix of the answer was written.
/// - If the certificate file could not be written, the whole answer was written.
/// - After any other failure, nothing was written.
pub fn serve_words<'a, R: Threads + Wait + Sync, F: TextFiles, S: Source, K: Sink>(
    rt: &R,
    alloc: Global,
    words: &'a [&'a str],
    files: &mut F,
    input: &mut S,
    sink: &mut K,
) -> Result<Status, CliError<'a>>
    // The written bytes and the status are those of a possible answer of the named command to the
    // named texts.
    ensures named { IfOk result (λ _.
        (is_some (command_of (map (λ word. word.now) words.now)) ≡ true)
        × (faults_of (map (λ word. word.now) words.now) ≡ [])) }
    ensures answered { IfOk result (λ status.
        IfSome
        (command_of (map (λ word. word.now) words.now))
        (λ command.
        IfSome
        (spec.input_named command (F.content files.old) (S.remaining input.old) (files_of (map (λ word. word.now) words.now)))
        (λ text.
        WritesAnswer command (spec.plan_name (files_of (map (λ word. word.now) words.now))) text status
        (K.written sink.old) (K.written sink.new)))) }
    ensures safe { IfOk result (λ status.
        status ≡ Status.Done
        → IfSome
        (command_of (map (λ word. word.now) words.now))
        (λ command.
        IfSome
        (spec.input_named command (F.content files.old) (S.remaining input.old) (files_of (map (λ word. word.now) words.now)))
        (λ text.
        MeansSafe command text (K.written sink.old)
        (K.written sink.new)))) }

    // Nothing is written to files except the certificate that the answer is based on, if there is
    // one.
    ensures kept { IfOk result (λ status.
        IfSome
        (command_of (map (λ word. word.now) words.now))
        (λ command.
        IfSome
        (spec.input_named command (F.content files.old) (S.remaining input.old) (files_of (map (λ word. word.now) words.now)))
        (λ text.
        WritesCertificateFile (F.writes files.old) (F.writes files.new)
        (certificate_of (map (λ word. word.now) words.now)) true
        command (spec.plan_name (files_of (map (λ word. word.now) words.now))) text status
        (K.written sink.old) (K.written sink.new)))) }
    ensures attempted { IfErr result (λ fault.
        is_unwritten fault ≡ true
        → IfSome
        (command_of (map (λ word. word.now) words.now))
        (λ command.
        IfSome
        (spec.input_named command (F.content files.old) (S.remaining input.old) (files_of (map (λ word. word.now) words.now)))
        (λ text.
        (status : StatusValue) × WritesCertificateFile (F.writes files.old) (F.writes files.new)
        (certificate_of (map (λ word. word.now) words.now)) false
        command (spec.plan_name (files_of (map (λ word. word.now) words.now))) text status
        (K.written sink.old) (K.written sink.new)))) }
    ensures untouched { IfErr result
        (λ fault. is_unwritten fault ≡ false → AppendsWrites (F.writes files.old) (F.writes files.new) []) }
    ensures once { IfOk result (λ _.
        WritesAtMostOnce (F.writes files.old) (F.writes files.new)
        (certificate_of (map (λ word. word.now) words.now)) true) }
    ensures once_failed { IfErr result (λ fault.
        is_unwritten fault ≡ true
        → WritesAtMostOnce (F.writes files.old) (F.writes files.new)
        (certificate_of (map (λ word. word.now) words.now)) false) }
    ensures replaceable { IfOk result
        (λ _. IsReplaceable (F.content files.old) (F.directory files.old) (certificate_of (map (λ word. word.now) words.now))) }
    ensures occupied { IfErr result (IsOccupied (F.content files.old) (F.directory files.old)) }

    // A file whose content is known is never reported as unread.
    ensures unread { IfErr result (IsUnreadable (F.content files.old)) }

    // If two texts are named, neither of them is a bundle. Only the recording of `conform` may be
    // one.
    ensures alone { IfOk result (λ _.
        IfSome
        (command_of (map (λ word. word.now) words.now))
        (λ command. spec.AreAlone command (F.content files.old) (S.remaining input.old) (files_of (map (λ word. word.now) words.now)))) }
    ensures bundled { IfErr result (λ fault.
        IfSome
        (command_of (map (λ word. word.now) words.now))
        (λ command. IsBundled command (F.content files.old) (S.remaining input.old) (files_of (map (λ word. word.now) words.now)) fault)) }
    ensures fault { IfErr result (IsFaultOf (map (λ word. word.now) words.now)) }

    // The error is `CliError::Serve` with fault 60 exactly if standard input failed, and with
    // fault 61 exactly if the sink failed.
    ensures read_failed { S.failures input.new ≡ S.failures input.old + count_in READ_FAILED result }
    ensures write_failed { K.failures sink.new ≡ K.failures sink.old + count_in WRITE_FAILED result }
    ensures nothing { IfErr result
        (λ fault. is_of_sink fault ≡ false → Keeps (K.written sink.old) (K.written sink.new)) }

    // If the sink failed, a prefix of a possible answer was written. If the certificate file could
    // not be written, the whole answer was written.
    ensures before { IfErr result (λ fault.
        IfSome
        (command_of (map (λ word. word.now) words.now))
        (λ command.
        IfSome
        (spec.input_named command (F.content files.old) (S.remaining input.old) (files_of (map (λ word. word.now) words.now)))
        (λ text.
        IsWrittenBefore fault command (spec.plan_name (files_of (map (λ word. word.now) words.now))) text
        (K.written sink.old) (K.written sink.new)))) }
{
    let Some(cli) = read_words(alloc, words)? else {
        return Err(CliError::NoCommand);
    };
    ensure_replaceable(alloc, &*files, cli.certificate)?;
    let mut found = None;
    let status = serve_parsed(rt, alloc, cli, &*files, &mut found, input, sink)?;
    write_certificate(files, cli.certificate, &found)?;
    Ok(status)
}

/// Runs the command of the parsed arguments, and writes its answer to the sink. If the command is
/// `ask` and this call succeeds, `found` becomes the text of the certificate that the answer is
/// based on. `found` becomes `None` if there is no such certificate, or if its text is too long to
/// be read back. Any other command leaves `found` unchanged.
fn serve_parsed<'a, R: Threads + Wait + Sync, F: TextFiles, S: Source, K: Sink>(
    rt: &R,
    alloc: Global,
    cli: Cli<'a>,
    files: &F,
    found: &mut Option<Vec<u8>>,
    input: &mut S,
    sink: &mut K,
) -> Result<Status, CliError<'a>>
    requires { IsInRange cli.command }
    ensures answered { IfOk result (λ status.
        IfSome
        (spec.input_named cli.entry.command (F.content files.now) (S.remaining input.old) (files_of_cli cli.entry))
        (λ text.
        WritesAnswer cli.entry.command (spec.plan_name (files_of_cli cli.entry)) text status
        (K.written sink.old) (K.written sink.new))) }
    ensures safe { IfOk result (λ status.
        status ≡ Status.Done
        → IfSome
        (spec.input_named cli.entry.command (F.content files.now) (S.remaining input.old) (files_of_cli cli.entry))
        (λ text.
        MeansSafe cli.entry.command text
        (K.written sink.old) (K.written sink.new))) }
    ensures left { IfOk result (λ status.
        IfSome
        (spec.input_named cli.entry.command (F.content files.now) (S.remaining input.old) (files_of_cli cli.entry))
        (λ text.
        WritesWithCertificate cli.entry.command (spec.plan_name (files_of_cli cli.entry)) text status
        (option_map (λ text. text.items) found.new)
        (K.written sink.old) (K.written sink.new))) }
    ensures alone { IfOk result (λ _.
        spec.AreAlone cli.entry.command (F.content files.now) (S.remaining input.old) (files_of_cli cli.entry)) }
    ensures bundled { IfErr result
        (IsBundled cli.entry.command (F.content files.now) (S.remaining input.old) (files_of_cli cli.entry)) }
    ensures unread { IfErr result (IsUnreadable (F.content files.now)) }
    ensures fault { IfErr result (IsOfTexts cli.entry.command (files_of_cli cli.entry)) }
    ensures read_failed { S.failures input.new ≡ S.failures input.old + count_in READ_FAILED result }
    ensures write_failed { K.failures sink.new ≡ K.failures sink.old + count_in WRITE_FAILED result }
    ensures nothing { IfErr result
        (λ fault. is_of_sink fault ≡ false → Keeps (K.written sink.old) (K.written sink.new)) }
    ensures before { IfErr result (λ fault.
        IfSome
        (spec.input_named cli.entry.command (F.content files.now) (S.remaining input.old) (files_of_cli cli.entry))
        (λ text.
        IsWrittenBefore fault cli.entry.command (spec.plan_name (files_of_cli cli.entry)) text
        (K.written sink.old) (K.written sink.new))) }
{
    let text = read_texts(alloc, cli, files, input)?;
    let plan_name = display_name(cli.first);
    Ok(write_answer(rt, alloc, cli.command, plan_name, found, text, sink)?)
}
