//! The symbols of a link with the words that a resolution has for them.
ghost use Rattle.std.specs.Prelude.{◌≡◌, ◌++◌, IfOk, OnOk, length};
ghost use Rattle.std.specs.List.{find};
ghost use Rattle.symbol_resolution.specs.Groups.{named};
ghost use Rattle.symbol_resolution.specs.LineFaults.{is_prevailing as prevailing};
ghost use Rattle.symbol_resolution.specs.Marks.{marks_in, marks_from, prevails as prevails_of, prevailing_mark};
ghost use Rattle.symbol_resolution.specs.Lines.{HaveWords};

use crate::groups::NameGroups;
use gimple_ir::NoMemory;
use lto_object::{Object, Symbol};
use resolution_text::{Resolved, ResolvedFile, Word};
use std::alloc::Global;

/// A symbol as a resolution has it: its object, its number in the module, and its word.
#[derive(Clone, Copy)]
pub struct Mark {
    pub object: usize,
    pub place: u32,
    /// A function, and not an array.
    pub function: bool,
    pub word: Word,
}

pub fn is_prevailing(word: Word) -> bool
    ensures { result ≡ prevailing word }
{
    matches!(
        word,
        Word::PrevailingDef | Word::PrevailingDefIronly | Word::PrevailingDefIronlyExp
    )
}

pub fn prevails(mark: &Mark) -> bool
    ensures { result ≡ prevails_of mark.now }
{
    is_prevailing(mark.word)
}

/// The first of a name's symbols that prevails.
pub fn first_prevailing(group: &[Mark]) -> Option<Mark>
    ensures { result ≡ find prevails_of group.now }
{
    group.iter().copied().find(prevails)
}

/// The symbol that prevails under a name.
pub fn prevailing(marks: &NameGroups<'_, Mark>, name: &str) -> Option<Mark>
    ensures { result ≡ prevailing_mark name.now marks.now }
{
    first_prevailing(marks.group(name))
}

fn push_marks<'a>(
    marks: &mut Vec<(&'a str, Mark)>,
    object: usize,
    symbols: &'a [Symbol],
    words: &[Resolved],
) -> Result<(), NoMemory>
    requires { length symbols.now ≡ length words.now }
    ensures { OnOk result (named marks.new.items ≡ named marks.old.items ++ marks_in object symbols.now words.now) }
{
    for (place, symbol) in symbols.iter().enumerate() {
        marks.push((
            symbol.name.as_str(),
            Mark {
                object,
                place: symbol.place,
                function: symbol.function,
                word: words[place].word,
            },
        ))?;
    }
    Ok(())
}

/// The marks of all symbols, in order, where each file has as many words as its object has symbols.
pub fn marks_of<'a>(
    alloc: Global,
    objects: &'a [Object<'_>],
    files: &[ResolvedFile],
) -> Result<NameGroups<'a, Mark>, NoMemory>
    requires same { length objects.now ≡ length files.now }
    requires counts { HaveWords objects.now files.now }
    ensures { IfOk result (λ marks. marks ≡ marks_from 0 objects.now files.now) }
{
    let mut marks: Vec<(&'a str, Mark)> = Vec::new(alloc);
    for (object, item) in objects.iter().enumerate() {
        push_marks(
            &mut marks,
            object,
            item.symbols().as_slice(),
            files[object].words.as_slice(),
        )?;
    }
    NameGroups::of(alloc, marks)
}
