//! The reading of a command's input from files or from standard input. The arguments give the names
//! of the files.

ghost use Rattle.std.specs.Prelude.{◌≡◌, ◌+◌, IfOk, IfErr, IfSome, None, Some, false, option_map, take};
ghost use Rattle.command_line.specs.Command.{files_of_cli};
ghost use Rattle.support.specs.declared.number.TheConstants.{READ_FAILED};
ghost use Rattle.sizing_cli.specs.Bundle.{bundle_of};
ghost use Rattle.sizing_cli.specs.Texts as spec;
ghost use Rattle.sizing_cli.specs.CliError.{IsBundled, IsOfBoth, IsOfBundle, IsOfBundles, IsOfFile, IsOfNamed, IsOfPair, IsOfReading, IsOfTexts, IsUnreadable, count_in, is_of_sink};

use crate::bundle::{bundle_of, join_texts};
use crate::fault::CliError;
use crate::text_files::TextFiles;
use crate::{ServeFault, most_bytes};
use byte_streams::{InputError, Source, read_up_to};
use command_line::{Cli, Command, RecordingCommand};
use std::alloc::{AllocError, Global};

/// The file name that means standard input.
pub(crate) const STANDARD_INPUT: &str = "-";

/// The name that messages use for a text that is not read from a file.
pub(crate) const NO_FILE: &str = "<stdin>";

/// Reads the input of the command. This is one text, or two texts that are joined by a line `%%`.
pub(crate) fn read_texts<'a, F: TextFiles, S: Source>(
    alloc: Global,
    cli: Cli<'a>,
    files: &F,
    input: &mut S,
) -> Result<Vec<u8>, CliError<'a>>
    ensures text { IfOk result (λ text.
        IfSome
        (spec.input_named cli.entry.command (F.content files.now) (S.remaining input.old) (files_of_cli cli.entry))
        (λ known. spec.IsReadOf cli.entry.command text.items known)) }
    ensures alone { IfOk result (λ _.
        spec.AreAlone cli.entry.command (F.content files.now) (S.remaining input.old) (files_of_cli cli.entry)) }
    ensures bundled { IfErr result
        (IsBundled cli.entry.command (F.content files.now) (S.remaining input.old) (files_of_cli cli.entry)) }
    ensures fault { IfErr result (IsOfTexts cli.entry.command (files_of_cli cli.entry)) }
    ensures before { IfErr result (λ fault. is_of_sink fault ≡ false) }
    ensures unread { IfErr result (IsUnreadable (F.content files.now)) }
    ensures read_failed { S.failures input.new ≡ S.failures input.old + count_in READ_FAILED result }
{
    match cli.second {
        Some(second) => read_both(alloc, cli.command, files, input, cli.first, second),
        None => read_named(alloc, cli.command, files, input, cli.first),
    }
}

/// Reads the two texts of the command from the files `first` and `second`, and joins them with a
/// line `%%`. The result must split into the same two texts again, so neither text may have a line
/// `%%` itself. The exception is the recording of `conform`: it may have such lines, because
/// `conform` splits its input at the first one.
fn read_both<'a, F: TextFiles, S: Source>(
    alloc: Global,
    command: Command,
    files: &F,
    input: &mut S,
    first: Option<&'a str>,
    second: &'a str,
) -> Result<Vec<u8>, CliError<'a>>
    ensures text { IfOk result (λ text.
        IfSome
        (spec.input_named command (F.content files.now) (S.remaining input.old) (option_map (λ name. name.now) first.entry, Some second.now))
        (λ known. text.items ≡ known)) }
    ensures alone { IfOk result (λ _.
        spec.AreAlone command (F.content files.now) (S.remaining input.old) (option_map (λ name. name.now) first.entry, Some second.now)) }
    ensures fault { IfErr result
        (IsOfBoth command (F.content files.now) (S.remaining input.old) (option_map (λ name. name.now) first.entry) second.now) }
    ensures read_failed { S.failures input.new ≡ S.failures input.old + count_in READ_FAILED result }
{
    let (plan, behind) = read_pair(alloc, command, files, input, first, second)?;
    ensure_both_alone(command, first, &plan, second, &behind)?;
    Ok(join_texts(plan, &behind)?)
}

/// Reads the two texts of the command from the files `first` and `second`. The name `-` and no name
/// mean standard input. Returns an error if both texts are to come from standard input.
fn read_pair<'a, F: TextFiles, S: Source>(
    alloc: Global,
    command: Command,
    files: &F,
    input: &mut S,
    first: Option<&'a str>,
    second: &'a str,
) -> Result<(Vec<u8>, Vec<u8>), CliError<'a>>
    ensures plan { IfOk result (λ pair.
        IfSome
        (spec.text_named (F.content files.now) (S.remaining input.old) (option_map (λ name. name.now) first.entry))
        (λ known. pair.0.items ≡ spec.read_part command known)) }
    ensures behind { IfOk result (λ pair.
        IfSome
        (spec.text_named (F.content files.now) (S.remaining input.old) (Some second.now))
        (λ known. pair.1.items ≡ spec.read_part command known)) }
    ensures fault { IfErr result
        (IsOfPair (F.content files.now) (option_map (λ name. name.now) first.entry) second.now) }
    ensures read_failed { S.failures input.new ≡ S.failures input.old + count_in READ_FAILED result }
{
    if file_named(first).is_none() && file_named(Some(second)).is_none() {
        return Err(CliError::InputTwice);
    }
    let plan = read_named(alloc, command, files, input, first)?;
    Ok((
        plan,
        read_named(alloc, command, files, input, Some(second))?,
    ))
}

/// Returns an error if one of the two texts has a line `%%`. The recording of `conform` may have
/// such lines.
fn ensure_both_alone<'a>(
    command: Command,
    first: Option<&'a str>,
    plan: &[u8],
    second: &'a str,
    behind: &[u8],
) -> Result<(), CliError<'a>>
    ensures plan { IfOk result (λ _. bundle_of plan.now ≡ None) }
    ensures behind { IfOk result (λ _. spec.splits_at_first command ≡ false → bundle_of behind.now ≡ None) }
    ensures bundle { IfErr result
        (IsOfBundles command (option_map (λ name. name.now) first.entry) plan.now second.now behind.now) }
{
    ensure_alone(first, plan)?;
    if splits_at_first(command) {
        return Ok(());
    }
    ensure_alone(Some(second), behind)
}

/// Returns an error if `text` has a line `%%`, because the text is then itself a bundle of two
/// texts. `text` is one of the two texts of a command, and `name` is the name of its file. The
/// error contains this name.
fn ensure_alone<'a>(name: Option<&'a str>, text: &[u8]) -> Result<(), CliError<'a>>
    ensures alone { IfOk result (λ _. bundle_of text.now ≡ None) }
    ensures bundle { IfErr result (IsOfBundle (option_map (λ name. name.now) name.entry) text.now) }
{
    match bundle_of(text) {
        Some(_) => Err(CliError::Bundle(display_name(name))),
        None => Ok(()),
    }
}

/// Returns true for `conform`, which splits its input at the first line `%%`. Every other command
/// splits its input at the last one.
fn splits_at_first(command: Command) -> bool
    ensures { result ≡ spec.splits_at_first command }
{
    matches!(command, Command::OnRecording(RecordingCommand::Conform))
}

/// Reads a text of the command from the file `name`. The name `-` and no name mean standard input.
fn read_named<'a, F: TextFiles, S: Source>(
    alloc: Global,
    command: Command,
    files: &F,
    input: &mut S,
    name: Option<&'a str>,
) -> Result<Vec<u8>, CliError<'a>>
    ensures text { IfOk result (λ text.
        IfSome
        (spec.text_named (F.content files.now) (S.remaining input.old) (option_map (λ name. name.now) name.entry))
        (λ known. text.items ≡ spec.read_part command known)) }
    ensures fault { IfErr result (IsOfNamed (F.content files.now) (option_map (λ name. name.now) name.entry)) }
    ensures unchanged { IfSome (spec.file_named (option_map (λ name. name.now) name.entry)) (λ _. input.new ≡ input.old) }
    ensures read_failed { S.failures input.new ≡ S.failures input.old + count_in READ_FAILED result }
{
    match file_named(name) {
        Some(name) => read_file(alloc, command, files, name),
        None => read_input(alloc, command, input),
    }
}

/// Reads standard input for the command. Reads at most one byte more than the maximum length of the
/// command's input.
fn read_input<'a, S: Source>(
    alloc: Global,
    command: Command,
    input: &mut S,
) -> Result<Vec<u8>, CliError<'a>>
    ensures text { IfOk result
        (λ text. IfSome (S.remaining input.old) (λ known. text.items ≡ spec.read_part command known)) }
    ensures fault { IfErr result IsOfReading }
    ensures read_failed { S.failures input.new ≡ S.failures input.old + count_in READ_FAILED result }
{
    match read_up_to(alloc, input, most_bytes(command) + 1) {
        Ok(text) => Ok(text),
        Err(error) => Err(CliError::Serve(ServeFault::from(error))),
    }
}

/// Reads a file for the command. Reads at most one byte more than the maximum length of the
/// command's input.
fn read_file<'a, F: TextFiles>(
    alloc: Global,
    command: Command,
    files: &F,
    name: &'a str,
) -> Result<Vec<u8>, CliError<'a>>
    ensures text { IfOk result (λ text.
        IfSome (F.content files.now name.now) (λ known. text.items ≡ spec.read_part command known)) }
    ensures fault { IfErr result (IsOfFile name.now) }
    ensures unread { IfErr result (IsUnreadable (F.content files.now)) }
{
    match files.read(alloc, name, most_bytes(command) + 1) {
        Ok(text) => Ok(text),
        Err(InputError::Fault) => Err(CliError::Unread(name)),
        Err(InputError::Memory) => Err(CliError::from(AllocError)),
    }
}

/// Returns the name of the file to read. Returns `None` if there is no name or the name is `-`,
/// because both mean standard input.
fn file_named(name: Option<&str>) -> Option<&str>
    ensures { option_map (λ name. name.now) result
        ≡ spec.file_named (option_map (λ name. name.now) name.entry) }
{
    name.filter(|name| *name != STANDARD_INPUT)
}

/// Returns the name that messages use for a text. This is the name of its file, or `<stdin>` if the
/// text is read from standard input.
pub(crate) fn display_name<'a>(name: Option<&'a str>) -> &'a str
    ensures { result.now ≡ spec.name_or_none (spec.file_named (option_map (λ name. name.now) name.entry)) }
{
    match file_named(name) {
        Some(name) => name,
        None => NO_FILE,
    }
}
