//! The members of the parts: where each version's words and relocations stand.
ghost use Rattle.std.specs.Prelude.{◌≡◌, ◌<◌, ◌≤◌, ◌+◌, ◌-◌, ◌*◌, ◌^◌, ◌++◌, length, filter, slice_index, All, IfOk, OnOk};
ghost use Rattle.elf_container.specs.Relocatable.{IsObject};
ghost use Rattle.final_link.specs.Names.{named};
ghost use Rattle.final_link.specs.Members.{members_in, members_from, member_in, Fits, words_in, relocations_in, symbols_in, member_words, lies_in, lower_immediate, upper_immediate, constant_of, frame_size};

use crate::names::NameTable;
use elf_container::{RelSymbol, Reloc, RelocObject};
use gimple_ir::{Name, NoMemory};
use std::alloc::Global;

/// A function that a part defines: the part's place among the parts, and the function's place and size in the part's text,
/// in bytes.
#[derive(Clone, Copy)]
pub struct Member {
    pub part: usize,
    pub start: u64,
    pub size: u64,
}

fn push_members<'a>(
    entries: &mut Vec<(&'a str, Member)>,
    part: usize,
    symbols: &'a [RelSymbol],
) -> Result<(), NoMemory>
    ensures { OnOk result (named entries.new.items ≡ named entries.old.items ++ members_in part symbols.now) }
{
    for symbol in symbols {
        let Some(start) = symbol.start else {
            continue;
        };
        let member = Member {
            part,
            start,
            size: symbol.size,
        };
        entries.push((symbol.name.as_str(), member))?;
    }
    Ok(())
}

/// The functions that the parts define, by name.
pub fn members_of<'a>(
    alloc: Global,
    parts: &'a [RelocObject],
) -> Result<NameTable<'a, Member>, NoMemory>
    ensures { IfOk result (λ members. members ≡ members_from 0 parts.now) }
{
    let mut entries: Vec<(&'a str, Member)> = Vec::new(alloc);
    for (part, object) in parts.iter().enumerate() {
        push_members(&mut entries, part, object.symbols.as_slice())?;
    }
    NameTable::new(alloc, entries)
}

/// The member with this symbol.
pub fn member_in(members: &NameTable<'_, Member>, symbol: &Name) -> Member
    ensures { result ≡ member_in members.now symbol.now }
{
    members.value(
        symbol.as_str(),
        Member {
            part: 0,
            start: 0,
            size: 0,
        },
    )
}

/// The words of a member, with their relocated fields as the part has them.
pub fn words_of<'a>(parts: &'a [RelocObject], member: Member) -> &'a [u32]
    requires { Fits parts.now member }
    ensures value { result.now ≡ member_words parts.now member }
    ensures len { 4 * length result.now ≡ member.size }
{
    let Some(part) = parts.get(member.part) else {
        return &[];
    };
    let start = (member.start / 4) as usize;
    let end = start + (member.size / 4) as usize;
    &part.words.as_slice()[start..end]
}

/// The symbols of a part.
pub fn symbols_of<'a>(parts: &'a [RelocObject], part: usize) -> &'a [RelSymbol]
    ensures { result.now ≡ symbols_in parts.now part }
{
    match parts.get(part) {
        Some(part) => part.symbols.as_slice(),
        None => &[],
    }
}

// The relocations of a part.
fn relocations_in<'a>(parts: &'a [RelocObject], part: usize) -> &'a [Reloc]
    ensures { result.now ≡ relocations_in parts.now part }
{
    match parts.get(part) {
        Some(part) => part.relocations.as_slice(),
        None => &[],
    }
}

/// The relocations that lie in a member.
pub fn relocations_of<'a>(parts: &'a [RelocObject], member: Member) -> &'a [Reloc]
    requires { All IsObject parts.now }
    ensures value { result.now ≡ filter (lies_in member) (relocations_in parts.now member.part) }
    ensures inside { All (λ r. (member.start ≤ r.offset) × (r.offset - member.start < member.size)) result.now }
{
    let start = member.start;
    let size = member.size;
    let relocations = relocations_in(parts, member.part);
    let from = relocations.partition_point(|reloc| reloc.offset < start);
    let behind = relocations.split_at(from).1;
    let count = behind.partition_point(|reloc| reloc.offset < start || reloc.offset - start < size);
    behind.split_at(count).0
}

// ---- the frame

fn word_at(words: &[u32], place: usize) -> u32
    ensures { result ≡ slice_index words.now place }
{
    match words.get(place) {
        Some(word) => *word,
        None => 0,
    }
}

fn lower_immediate(word: u32) -> i64
    ensures { result ≡ lower_immediate word }
{
    let field = i64::from(word / 1_048_576);
    if field < 2048 { field } else { field - 4096 }
}

fn upper_immediate(word: u32) -> i64
    ensures { result ≡ upper_immediate word }
{
    let field = i64::from(word / 4096);
    let signed = if field < 524_288 {
        field
    } else {
        field - 1_048_576
    };
    4096 * signed
}

// The constant of a member's first words.
fn constant_of(words: &[u32]) -> i64
    ensures { result ≡ constant_of words.now }
{
    let first = word_at(words, 0);
    let second = word_at(words, 1);
    if first % 128 == 0x13 {
        return lower_immediate(first);
    }
    upper_immediate(first) + lower_immediate(second)
}

/// The size of the frame that a member's first words make, in bytes.
#[tactic(auto, unfolding(crate::specs::Members::frame_size))]
pub fn frame_size(words: &[u32]) -> u64
    ensures { result ≡ frame_size words.now }
{
    constant_of(words).unsigned_abs()
}
