// Why a command was refused: its status and its line.
ghost use Rattle.std.specs.Prelude.{◌≡◌, IfOk, string_bytes};
ghost use Rattle.whopr_top.specs.Refusal.{status_of, read_line, refusal_line};

use crate::lines::{limit_line, object_line, resolution_line, text_line};
use gimple_ir::Name;
use gimple_syntax::TextKind;
use lto_object::ObjectFault;
use program_link::LimitFault;
use std::alloc::{AllocError, Global};
use symbol_resolution::ResolutionKind;

/// Where a fault of a resolution is.
#[derive(Drop)]
pub enum ResolutionPlace {
    /// At this line of its text, counted from 1.
    AtLine(u32),
    /// At the symbols of this name.
    AtName(Name),
}

/// Why a command was refused. One variant a status.
#[derive(Drop)]
pub enum Refusal<'a> {
    /// 2: the words are no command.
    NoCommand,
    /// 3: the object with this number among those of the command has a fault; its first.
    Object(usize, ObjectFault),
    /// 4: a file that is read is longer than 16 MiB.
    TooLong,
    /// 4: the objects have more than 256 MiB together.
    TooMuch,
    /// 4: the program passes a limit; the first.
    Limit(LimitFault),
    /// 5: this file of the words could not be read.
    Read(&'a str),
    /// 5: this other file could not be read.
    ReadOf(Name),
    /// 6: this file could not be written.
    Write(&'a str),
    /// 7: there was no memory.
    Memory,
    /// 8: the objects have no resolution, or do not merge under it; the first fault.
    Resolution(ResolutionKind, ResolutionPlace),
    /// 9: the text is outside the grammar, or the checks refuse it; the line and the kind of its first fault.
    Text(u32, TextKind),
    /// 10: the job file has another form; its first bad line, counted from 1.
    Jobs(u32),
    /// 11: the image has its first fault at this byte.
    Image(u64),
}

impl Refusal<'_> {
    /// The status that the command answers.
    pub fn status(&self) -> u8
        ensures { result ≡ status_of self.now }
    {
        match self {
            Refusal::NoCommand => 2,
            Refusal::Object(_, _) => 3,
            Refusal::TooLong | Refusal::TooMuch | Refusal::Limit(_) => 4,
            Refusal::Read(_) | Refusal::ReadOf(_) => 5,
            Refusal::Write(_) => 6,
            Refusal::Memory => 7,
            Refusal::Resolution(_, _) => 8,
            Refusal::Text(_, _) => 9,
            Refusal::Jobs(_) => 10,
            Refusal::Image(_) => 11,
        }
    }
}

/// The line of a file that could not be read.
pub fn read_line(alloc: Global, name: &str) -> Result<String, AllocError>
    ensures { IfOk result (λ line. string_bytes line ≡ read_line name.now) }
{
    format!(in alloc; "5 read {name}\n")
}

/// The line of a refusal.
pub fn refusal_line(alloc: Global, refusal: Refusal<'_>) -> Result<String, AllocError>
    ensures { IfOk result (λ line. string_bytes line ≡ refusal_line refusal.entry) }
{
    match refusal {
        Refusal::NoCommand => format!(in alloc; "2 words\n"),
        Refusal::Object(number, fault) => object_line(alloc, number, &fault),
        Refusal::TooLong => format!(in alloc; "4 limit FileBytes 16777217 16777216\n"),
        Refusal::TooMuch => format!(in alloc; "4 limit BatchBytes 268435457 268435456\n"),
        Refusal::Limit(passed) => limit_line(alloc, passed),
        Refusal::Read(name) => read_line(alloc, name),
        Refusal::ReadOf(name) => read_line(alloc, name.as_str()),
        Refusal::Write(name) => format!(in alloc; "6 write {name}\n"),
        Refusal::Memory => format!(in alloc; "7 memory\n"),
        Refusal::Resolution(kind, place) => resolution_line(alloc, kind, &place),
        Refusal::Text(line, kind) => text_line(alloc, line, kind),
        Refusal::Jobs(line) => format!(in alloc; "10 jobs {line}\n"),
        Refusal::Image(offset) => format!(in alloc; "11 image {offset}\n"),
    }
}
