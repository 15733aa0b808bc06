// The lines that commands print.
ghost use Rattle.std.specs.Prelude.{◌≡◌, ◌++◌, IfOk, OnOk, [], string_bytes, decimal};
ghost use Rattle.rv64_meaning.specs.Standings.{outcome_by};
ghost use Rattle.whopr_top.specs.Lines.{outcome_line, undefined_line, standing_line, check_word, kind_word, text_line, object_word, object_place, object_line, quantity_word, limit_line, resolution_word, resolution_line, spaced};
ghost use Rattle.whopr_top.specs.declared.refusal.ResolutionPlace.TheVariants.{AtLine, AtName};

use crate::refusal::ResolutionPlace;
use gimple_ir::{Name, TypeFault, TypeKind};
use gimple_meaning::Outcome;
use gimple_syntax::TextKind;
use lto_object::ObjectFault;
use program_link::{LimitFault, Quantity};
use rv64_meaning::MachineState;
use std::alloc::{AllocError, Global};
use symbol_resolution::ResolutionKind;

/// The line that says how a machine stands.
pub fn state_line(alloc: Global, state: MachineState) -> Result<String, AllocError>
    ensures { IfOk result (λ line. string_bytes line ≡ outcome_line (outcome_by state [])) }
{
    match state {
        MachineState::Running => format!(in alloc; "running\n"),
        MachineState::Ended(status) => format!(in alloc; "ended {status}\n"),
        MachineState::Trapped { address } => format!(in alloc; "trapped {address}\n"),
    }
}

// The line of a program that is undefined at a statement.
fn undefined_line(alloc: Global, function: u32, statement: u32) -> Result<String, AllocError>
    ensures { IfOk result (λ line. string_bytes line ≡ undefined_line function statement) }
{
    let mut text = format!(in alloc; "undefined {function}")?;
    push_number(alloc, &mut text, u64::from(statement))?;
    text.push_str("\n")?;
    Ok(text)
}

/// The line that says how a program stands.
pub fn standing_line(alloc: Global, standing: Outcome) -> Result<String, AllocError>
    ensures { IfOk result (λ line. string_bytes line ≡ standing_line standing) }
{
    match standing {
        Outcome::Running => format!(in alloc; "running\n"),
        Outcome::Ended(status) => format!(in alloc; "ended {status}\n"),
        Outcome::Undefined {
            function,
            statement,
        } => undefined_line(alloc, function, statement),
    }
}

fn check_word(kind: TypeKind) -> &'static str
    ensures { result.now ≡ check_word kind }
{
    match kind {
        TypeKind::DoubleName => "DoubleName",
        TypeKind::UnknownName => "UnknownName",
        TypeKind::TooMany => "TooMany",
        TypeKind::BadLabel => "BadLabel",
        TypeKind::OpenEnd => "OpenEnd",
        TypeKind::WrongCount => "WrongCount",
        TypeKind::WrongType => "WrongType",
        TypeKind::NegLiteral => "NegLiteral",
        TypeKind::BadCase => "BadCase",
    }
}

fn kind_word(kind: TextKind) -> &'static str
    ensures { result.now ≡ kind_word kind }
{
    match kind {
        TextKind::Byte => "Byte",
        TextKind::Syntax => "Syntax",
        TextKind::Literal => "Literal",
        TextKind::Check(kind) => check_word(kind),
    }
}

/// The line of a text's first fault.
pub fn text_line(alloc: Global, line: u32, kind: TextKind) -> Result<String, AllocError>
    ensures { IfOk result (λ found. string_bytes found ≡ text_line line kind) }
{
    let mut text = format!(in alloc; "9 text {line} ")?;
    text.push_str(kind_word(kind))?;
    text.push_str("\n")?;
    Ok(text)
}

fn object_word(fault: &ObjectFault) -> &'static str
    ensures { result.now ≡ object_word fault.now }
{
    match fault {
        ObjectFault::NotElf { .. } => "NotElf",
        ObjectFault::WrongClass { .. } => "WrongClass",
        ObjectFault::WrongMachine { .. } => "WrongMachine",
        ObjectFault::Truncated { .. } => "Truncated",
        ObjectFault::MissingSection { .. } => "MissingSection",
        ObjectFault::DoubleSection { .. } => "DoubleSection",
        ObjectFault::Compressed { .. } => "Compressed",
        ObjectFault::BadVersion { .. } => "BadVersion",
        ObjectFault::BadStream { .. } => "BadStream",
        ObjectFault::Trailing { .. } => "Trailing",
        ObjectFault::TypeFault(_) => "TypeFault",
        ObjectFault::SummaryDiffers { .. } => "SummaryDiffers",
        ObjectFault::SymbolsDiffer { .. } => "SymbolsDiffer",
        ObjectFault::BadLayout { .. } => "BadLayout",
    }
}

// Appends a number behind a space.
fn push_number(alloc: Global, text: &mut String, number: u64) -> Result<(), AllocError>
    ensures { OnOk result (string_bytes text.new ≡ string_bytes text.old ++ spaced (decimal number)) }
{
    let word = format!(in alloc; " {number}")?;
    text.push_str(word.as_str())
}

// Appends where an object's fault is.
fn push_place(alloc: Global, text: &mut String, fault: &ObjectFault) -> Result<(), AllocError>
    ensures { OnOk result (string_bytes text.new ≡ string_bytes text.old ++ object_place fault.now) }
{
    match fault {
        ObjectFault::NotElf { offset } => push_number(alloc, text, *offset),
        ObjectFault::WrongClass { offset } => push_number(alloc, text, *offset),
        ObjectFault::WrongMachine { offset } => push_number(alloc, text, *offset),
        ObjectFault::Truncated { offset } => push_number(alloc, text, *offset),
        ObjectFault::MissingSection { offset } => push_number(alloc, text, *offset),
        ObjectFault::DoubleSection { offset } => push_number(alloc, text, *offset),
        ObjectFault::Compressed { offset } => push_number(alloc, text, *offset),
        ObjectFault::BadVersion { offset } => push_number(alloc, text, *offset),
        ObjectFault::BadStream { offset } => push_number(alloc, text, *offset),
        ObjectFault::Trailing { offset } => push_number(alloc, text, *offset),
        ObjectFault::TypeFault(fault) => push_check(alloc, text, fault),
        ObjectFault::SummaryDiffers { function, .. } => {
            push_number(alloc, text, u64::from(*function))
        }
        ObjectFault::SymbolsDiffer { place } => push_number(alloc, text, u64::from(*place)),
        ObjectFault::BadLayout { offset } => push_number(alloc, text, *offset),
    }
}

// Appends the kind, the item and the statement of a fault of the checks.
fn push_check(alloc: Global, text: &mut String, fault: &TypeFault) -> Result<(), AllocError>
    ensures { OnOk result (string_bytes text.new ≡ string_bytes text.old ++ ((spaced (check_word fault.now.kind) ++ spaced (decimal fault.now.item)) ++ spaced (decimal fault.now.statement))) }
{
    text.push_str(" ")?;
    text.push_str(check_word(fault.kind))?;
    push_number(alloc, text, u64::from(fault.item))?;
    push_number(alloc, text, u64::from(fault.statement))
}

/// The line of the first fault of the object with this number.
pub fn object_line(alloc: Global, number: usize, fault: &ObjectFault) -> Result<String, AllocError>
    ensures { IfOk result (λ found. string_bytes found ≡ object_line number fault.now) }
{
    let mut text = format!(in alloc; "3 object {number} ")?;
    text.push_str(object_word(fault))?;
    push_place(alloc, &mut text, fault)?;
    text.push_str("\n")?;
    Ok(text)
}

fn quantity_word(quantity: Quantity) -> &'static str
    ensures { result.now ≡ quantity_word quantity }
{
    match quantity {
        Quantity::LinkFunctions => "LinkFunctions",
        Quantity::LinkCode => "LinkCode",
        Quantity::LinkData => "LinkData",
    }
}

/// The line of a limit that is passed.
pub fn limit_line(alloc: Global, passed: LimitFault) -> Result<String, AllocError>
    ensures { IfOk result (λ line. string_bytes line ≡ limit_line passed) }
{
    let mut text = String::from_str(alloc, "4 limit ")?;
    text.push_str(quantity_word(passed.quantity))?;
    push_number(alloc, &mut text, passed.number)?;
    push_number(alloc, &mut text, passed.limit)?;
    text.push_str("\n")?;
    Ok(text)
}

fn resolution_word(kind: ResolutionKind) -> &'static str
    ensures { result.now ≡ resolution_word kind }
{
    match kind {
        ResolutionKind::BadLine => "BadLine",
        ResolutionKind::FileCount => "FileCount",
        ResolutionKind::FileName => "FileName",
        ResolutionKind::SymbolCount => "SymbolCount",
        ResolutionKind::SymbolName => "SymbolName",
        ResolutionKind::NativeWord => "NativeWord",
        ResolutionKind::NoPrevailing => "NoPrevailing",
        ResolutionKind::TwoPrevailing => "TwoPrevailing",
        ResolutionKind::WordKind => "WordKind",
        ResolutionKind::TypeMismatch => "TypeMismatch",
        ResolutionKind::NoMain => "NoMain",
    }
}

/// The line of a resolution's fault at a line of its text.
pub fn resolution_at_line(
    alloc: Global,
    kind: ResolutionKind,
    line: u32,
) -> Result<String, AllocError>
    ensures { IfOk result (λ found. string_bytes found ≡ resolution_line kind (AtLine line)) }
{
    let mut text = String::from_str(alloc, "8 resolution ")?;
    text.push_str(resolution_word(kind))?;
    push_number(alloc, &mut text, u64::from(line))?;
    text.push_str("\n")?;
    Ok(text)
}

// Appends a name behind a space.
fn push_name(text: &mut String, name: &Name) -> Result<(), AllocError>
    ensures { OnOk result (string_bytes text.new ≡ string_bytes text.old ++ spaced name.now) }
{
    text.push_str(" ")?;
    text.push_str(name.as_str())
}

/// The line of a resolution's fault at a name.
pub fn resolution_at_name(
    alloc: Global,
    kind: ResolutionKind,
    name: &Name,
) -> Result<String, AllocError>
    ensures { IfOk result (λ found. string_bytes found ≡ resolution_line kind (AtName name.now)) }
{
    let mut text = String::from_str(alloc, "8 resolution ")?;
    text.push_str(resolution_word(kind))?;
    push_name(&mut text, name)?;
    text.push_str("\n")?;
    Ok(text)
}

/// The line of a resolution's fault.
pub fn resolution_line(
    alloc: Global,
    kind: ResolutionKind,
    place: &ResolutionPlace,
) -> Result<String, AllocError>
    ensures { IfOk result (λ line. string_bytes line ≡ resolution_line kind place.now) }
{
    match place {
        ResolutionPlace::AtLine(line) => resolution_at_line(alloc, kind, *line),
        ResolutionPlace::AtName(name) => resolution_at_name(alloc, kind, name),
    }
}
