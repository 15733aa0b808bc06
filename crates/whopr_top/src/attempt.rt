// What a command does before it prints anything: its reads, its work and its writes. What it gives is the text that is printed.
ghost use Rattle.std.specs.Prelude.{◌≡◌, [], Some, true, IfOk};
ghost use Rattle.whopr_words.specs.Commands.{Cc, Lgen, Show, Run, words_of, is_file_name};
ghost use Rattle.whopr_top.specs.Answers.{IsQuiet};
ghost use Rattle.whopr_top.specs.Built.{command_of, IsWhole};
ghost use Rattle.whopr_top.specs.Attempts.{Attempt, Counted, Lined, Judged};
ghost use Rattle.whopr_top.specs.Refusal.{answer_of, text_of};

use crate::compiling::{ImageFault, image_of};
use crate::interpreting::interp;
use crate::objects::{object_of, shown};
use crate::refusal::Refusal;
use crate::resolving::resolve;
use crate::running::run_image;
use crate::top::FILE_BYTES;
use gimple_syntax::{TextError, read_module};
use link_laws::linked_image_follows;
use lto_object::ObjectError;
use outer_files::{FileStore, ReadFault, WriteFault};
use rv64_meaning::LoadError;
use std::alloc::Global;
use whopr_words::{Command, read_words};

/// Does the command that the words are. The text that it prints is the answer.
pub fn attempt<'a, F: FileStore>(
    alloc: Global,
    words: &'a [String],
    files: &mut F,
) -> Result<Vec<u8>, Refusal<'a>>
    requires { IsWhole (command_of (words_of words.now)) }
    ensures quiet { IfOk result (λ text. IsQuiet (command_of (words_of words.now)) → text.items ≡ []) }
    ensures attempt { Attempt FILE_BYTES (command_of (words_of words.now)) (F.held files.old) (F.held files.new) (answer_of result) }
    ensures counted { Counted (F.faults files.old) (F.faults files.new) (answer_of result) }
    ensures lined { Lined FILE_BYTES (command_of (words_of words.now)) (F.held files.old) (answer_of result) (text_of result) }
    ensures judged { Judged FILE_BYTES (command_of (words_of words.now)) (F.held files.old) (F.held files.new) (F.faults files.old) (F.faults files.new) (answer_of result) (text_of result) }
{
    match read_words(words) {
        Some(Command::Cc { input, out }) => cc(alloc, input, out, files),
        Some(Command::Lgen { input, out }) => lgen(alloc, input, out, files),
        Some(Command::Show { object }) => show(alloc, object, files),
        Some(
            Command::Run {
                image,
                steps,
                input,
                out,
            },
        ) => run(alloc, image, steps, input, out, files),
        Some(Command::Resolve { out, objects }) => resolve(alloc, out, objects, files),
        Some(
            Command::Interp {
                jobs,
                steps,
                input,
                out,
            },
        ) => interp(alloc, jobs, steps, input, out, files),
        Some(Command::Link { .. }) => unreachable!(),
        Some(Command::Batch { .. }) => Err(Refusal::NoCommand),
        Some(Command::Replay { .. }) => Err(Refusal::NoCommand),
        Some(Command::Gen { .. }) => Err(Refusal::NoCommand),
        None => Err(Refusal::NoCommand),
    }
}

// Compiles a text.
fn cc<'a, F: FileStore>(
    alloc: Global,
    input: &'a str,
    out: &'a str,
    files: &mut F,
) -> Result<Vec<u8>, Refusal<'a>>
    requires { is_file_name input.now ≡ true }
    ensures quiet { IfOk result (λ text. IsQuiet (Some (Cc input.now out.now)) → text.items ≡ []) }
    ensures attempt { Attempt FILE_BYTES (Some (Cc input.now out.now)) (F.held files.old) (F.held files.new) (answer_of result) }
    ensures counted { Counted (F.faults files.old) (F.faults files.new) (answer_of result) }
    ensures lined { Lined FILE_BYTES (Some (Cc input.now out.now)) (F.held files.old) (answer_of result) (text_of result) }
    ensures judged { Judged FILE_BYTES (Some (Cc input.now out.now)) (F.held files.old) (F.held files.new) (F.faults files.old) (F.faults files.new) (answer_of result) (text_of result) }
{
    let text = match files.read_all(alloc, input, FILE_BYTES) {
        Ok(text) => text,
        Err(ReadFault::Failed) => return Err(Refusal::Read(input)),
        Err(ReadFault::TooLong) => return Err(Refusal::TooLong),
        Err(ReadFault::NoMemory) => return Err(Refusal::Memory),
    };
    let source = match read_module(alloc, &text) {
        Ok(source) => source,
        Err(TextError::Fault(fault)) => return Err(Refusal::Text(fault.line, fault.kind)),
        Err(TextError::NoMemory) => return Err(Refusal::Memory),
    };
    let image = match image_of(alloc, input, &text, &source) {
        Ok(image) => image,
        Err(ImageFault::Resolution(kind, place)) => return Err(Refusal::Resolution(kind, place)),
        Err(ImageFault::Limit(passed)) => return Err(Refusal::Limit(passed)),
        Err(ImageFault::NoMemory) => return Err(Refusal::Memory),
    };
    linked_image_follows();
    match files.write_all(out, &image) {
        Ok(()) => Ok(Vec::new(alloc)),
        Err(WriteFault::Failed) => Err(Refusal::Write(out)),
        Err(WriteFault::NoMemory) => Err(Refusal::Memory),
    }
}

// Writes the object of a text.
fn lgen<'a, F: FileStore>(
    alloc: Global,
    input: &'a str,
    out: &'a str,
    files: &mut F,
) -> Result<Vec<u8>, Refusal<'a>>
    ensures quiet { IfOk result (λ text. IsQuiet (Some (Lgen input.now out.now)) → text.items ≡ []) }
    ensures attempt { Attempt FILE_BYTES (Some (Lgen input.now out.now)) (F.held files.old) (F.held files.new) (answer_of result) }
    ensures counted { Counted (F.faults files.old) (F.faults files.new) (answer_of result) }
    ensures lined { Lined FILE_BYTES (Some (Lgen input.now out.now)) (F.held files.old) (answer_of result) (text_of result) }
    ensures judged { Judged FILE_BYTES (Some (Lgen input.now out.now)) (F.held files.old) (F.held files.new) (F.faults files.old) (F.faults files.new) (answer_of result) (text_of result) }
{
    let text = match files.read_all(alloc, input, FILE_BYTES) {
        Ok(text) => text,
        Err(ReadFault::Failed) => return Err(Refusal::Read(input)),
        Err(ReadFault::TooLong) => return Err(Refusal::TooLong),
        Err(ReadFault::NoMemory) => return Err(Refusal::Memory),
    };
    let source = match read_module(alloc, &text) {
        Ok(source) => source,
        Err(TextError::Fault(fault)) => return Err(Refusal::Text(fault.line, fault.kind)),
        Err(TextError::NoMemory) => return Err(Refusal::Memory),
    };
    let Ok(object) = object_of(alloc, &text, &source) else {
        return Err(Refusal::Memory);
    };
    match files.write_all(out, &object) {
        Ok(()) => Ok(Vec::new(alloc)),
        Err(WriteFault::Failed) => Err(Refusal::Write(out)),
        Err(WriteFault::NoMemory) => Err(Refusal::Memory),
    }
}

// Gives the text of an object's module.
fn show<'a, F: FileStore>(
    alloc: Global,
    object: &'a str,
    files: &mut F,
) -> Result<Vec<u8>, Refusal<'a>>
    ensures quiet { IfOk result (λ text. IsQuiet (Some (Show object.now)) → text.items ≡ []) }
    ensures attempt { Attempt FILE_BYTES (Some (Show object.now)) (F.held files.old) (F.held files.new) (answer_of result) }
    ensures counted { Counted (F.faults files.old) (F.faults files.new) (answer_of result) }
    ensures lined { Lined FILE_BYTES (Some (Show object.now)) (F.held files.old) (answer_of result) (text_of result) }
    ensures judged { Judged FILE_BYTES (Some (Show object.now)) (F.held files.old) (F.held files.new) (F.faults files.old) (F.faults files.new) (answer_of result) (text_of result) }
{
    let bytes = match files.read_all(alloc, object, FILE_BYTES) {
        Ok(bytes) => bytes,
        Err(ReadFault::Failed) => return Err(Refusal::Read(object)),
        Err(ReadFault::TooLong) => return Err(Refusal::TooLong),
        Err(ReadFault::NoMemory) => return Err(Refusal::Memory),
    };
    match shown(alloc, &bytes) {
        Ok(text) => Ok(text),
        Err(ObjectError::Fault(fault)) => Err(Refusal::Object(0, fault)),
        Err(ObjectError::NoMemory) => Err(Refusal::Memory),
    }
}

// Runs an image, and gives the line that says how the machine stands.
fn run<'a, F: FileStore>(
    alloc: Global,
    image: &'a str,
    steps: u64,
    input: &'a str,
    out: &'a str,
    files: &mut F,
) -> Result<Vec<u8>, Refusal<'a>>
    ensures quiet { IfOk result (λ text. IsQuiet (Some (Run image.now steps input.now out.now)) → text.items ≡ []) }
    ensures attempt { Attempt FILE_BYTES (Some (Run image.now steps input.now out.now)) (F.held files.old) (F.held files.new) (answer_of result) }
    ensures counted { Counted (F.faults files.old) (F.faults files.new) (answer_of result) }
    ensures lined { Lined FILE_BYTES (Some (Run image.now steps input.now out.now)) (F.held files.old) (answer_of result) (text_of result) }
    ensures judged { Judged FILE_BYTES (Some (Run image.now steps input.now out.now)) (F.held files.old) (F.held files.new) (F.faults files.old) (F.faults files.new) (answer_of result) (text_of result) }
{
    let bytes = match files.read_all(alloc, image, FILE_BYTES) {
        Ok(bytes) => bytes,
        Err(ReadFault::Failed) => return Err(Refusal::Read(image)),
        Err(ReadFault::TooLong) => return Err(Refusal::TooLong),
        Err(ReadFault::NoMemory) => return Err(Refusal::Memory),
    };
    let given = match files.read_all(alloc, input, FILE_BYTES) {
        Ok(given) => given,
        Err(ReadFault::Failed) => return Err(Refusal::Read(input)),
        Err(ReadFault::TooLong) => return Err(Refusal::TooLong),
        Err(ReadFault::NoMemory) => return Err(Refusal::Memory),
    };
    let (line, output) = match run_image(alloc, &bytes, given, steps) {
        Ok(stood) => stood,
        Err(LoadError::Fault(fault)) => return Err(Refusal::Image(fault.offset)),
        Err(LoadError::NoMemory) => return Err(Refusal::Memory),
    };
    match files.write_all(out, &output) {
        Ok(()) => Ok(line),
        Err(WriteFault::Failed) => Err(Refusal::Write(out)),
        Err(WriteFault::NoMemory) => Err(Refusal::Memory),
    }
}
