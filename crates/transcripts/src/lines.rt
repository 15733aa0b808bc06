//! The lines of a transcript. The first word of a line says what it is:
//!
//! | Line | What it says |
//! |---|---|
//! | `# ..` | nothing, as an empty line |
//! | `clear` | there are no files |
//! | `file NAME` | there is a file of this name, which has no bytes so far |
//! | `\| TEXT` | its next line |
//! | `+ TEXT` | its next bytes |
//! | `times COUNT TEXT` | its next bytes, so many times; `\#` in the text is the number of the turn, from 0 |
//! | `each COUNT FILE TEXT` | .. and each time the bytes of the other file behind the text |
//! | `object NAME FILE` | there is a file of this name, which is the object of the text that the other file holds |
//! | `image NAME FILE` | .. which is its image |
//! | `byte NAME OFFSET NUMBER` | this byte of a file is the number |
//! | `bytes NAME OFFSET HEX..` | its bytes from there on are these, two digits each |
//! | `word NAME OFFSET HEX` | its four bytes there are this word, the lowest byte first |
//! | `size NAME LENGTH` | a file has so many bytes: it is cut, or zeros are added |
//! | `fail N..` | the calls of the next command on files with these numbers, from 0, fail |
//! | `sink N..` | its puts with these numbers fail |
//! | `$ WORD..` | a command, which finds these files and no other |
//! | `> TEXT` | it prints this line |
//! | `= STATUS` | a row: it answers this, and has printed those lines |
//! | `holds NAME TEXT` | a row: it leaves a file with these bytes |
//! | `has NAME OFFSET TEXT` | a row: it leaves a file that has these bytes there |
//! | `same NAME FILE` | a row: it leaves a file with the bytes of the other, which it found |
//! | `long NAME LENGTH` | a row: it leaves a file with so many bytes |
//! | `none NAME` | a row: it leaves no file of this name |
//! | `keep NAME` | the next commands find this file as it was left |
//! | `as WORD..` | the command of the next two kinds of rows |
//! | `changed NAME OFFSET NUMBER STATUS TEXT` | a row: with this byte of a file changed to the number, it answers this and prints the line TEXT; nothing where that is empty |
//! | `cuts NAME STATUS TEXT` | a row for each length below that of a file: cut to it, the command does so; `\#` in the text is the length |
//! | `inverts NAME` | a row for each byte of an object: with all its bits turned, `show` answers 3, or `lgen` makes this object of what it shows |
//! | `before TEXT` | the texts of the rows below stand behind this |
//! | `behind TEXT` | and before this |
//! | `reads TEXT` | a row: `lgen` makes an object of the text |
//! | `fault LINE KIND TEXT` | a row: it refuses the text for this fault |
//! | `ends STATUS TEXT` | a row: the program of the text ends so, interpreted and compiled |
//! | `stops FUNCTION PLACE TEXT` | a row: interpreted, the program is undefined there |
//!
//! In TEXT, `\n`, `\r`, `\t` and `\xHH` are one byte each.
use crate::changes::{changed, cuts, inverts, parted, put_bytes, put_word};
use crate::files::put_spelled;
use crate::stage::Stage;
use anyhow::{Result, bail};
use std::alloc::Global;

/// Does what a line says. Whether the last command did so too, where the line is a row.
pub fn play(alloc: Global, stage: &mut Stage, line: &str) -> Result<bool> {
    let (word, rest) = parted(line);
    match word {
        "" | "#" => {}
        "$" => stage.command(alloc, rest)?,
        ">" => stage.want(rest)?,
        "fail" => stage.fail_calls(alloc, rest)?,
        "sink" => stage.fail_puts(alloc, rest)?,
        "keep" => stage.keep(alloc, rest)?,
        "as" => stage.set_again(alloc, rest)?,
        "before" => stage.stand_before(alloc, rest)?,
        "behind" => stage.stand_behind(alloc, rest)?,
        "=" | "holds" | "has" | "same" | "long" | "none" => {
            let holds = check(alloc, stage, word, rest)?;
            return Ok(stage.count(holds));
        }
        "changed" | "cuts" | "inverts" => return changes(alloc, stage, word, rest),
        "reads" | "fault" | "ends" | "stops" => {
            let holds = text_row(alloc, stage, word, rest)?;
            return Ok(stage.count(holds));
        }
        _ => set(alloc, stage, word, rest)?,
    }
    Ok(true)
}

/// Whether a command does with a file that is changed what the line says.
fn changes(alloc: Global, stage: &mut Stage, word: &str, rest: &str) -> Result<bool> {
    let (name, more) = parted(rest);
    match word {
        "changed" => {
            let holds = changed(alloc, stage, name, more)?;
            Ok(stage.count(holds))
        }
        "cuts" => cuts(alloc, stage, name, more),
        _ => inverts(alloc, stage, name),
    }
}

/// Does what a line says of the files that commands find.
fn set(alloc: Global, stage: &mut Stage, word: &str, rest: &str) -> Result<()> {
    let (name, more) = parted(rest);
    match word {
        "clear" => stage.clear(alloc),
        "file" => stage.put_file(alloc, name, Vec::new(alloc))?,
        "|" => {
            let bytes = stage.last()?;
            put_spelled(bytes, rest, 0)?;
            bytes.push(b'\n')?;
        }
        "+" => put_spelled(stage.last()?, rest, 0)?,
        "times" => put_often(stage.last()?, name.parse::<u64>()?, more, b"")?,
        "each" => {
            let (file, text) = parted(more);
            let behind = Vec::from_slice(alloc, stage.file(file)?)?;
            put_often(stage.last()?, name.parse::<u64>()?, text, &behind)?;
        }
        "object" => made(alloc, stage, "lgen", more, name)?,
        "image" => made(alloc, stage, "cc", more, name)?,
        "byte" => change(stage, name, more)?,
        "bytes" => put_bytes(alloc, stage.file(name)?, more)?,
        "word" => put_word(stage.file(name)?, more)?,
        "size" => stage.file(name)?.resize(more.parse::<usize>()?, 0)?,
        _ => bail!("no line: {word}"),
    }
    Ok(())
}

/// Puts the bytes that a line spells, and others behind them, so many times.
fn put_often(bytes: &mut Vec<u8>, count: u64, line: &str, behind: &[u8]) -> Result<()> {
    for turn in 0..count {
        put_spelled(bytes, line, turn)?;
        bytes.extend_from_slice(behind)?;
    }
    Ok(())
}

/// Makes a file of a text by a command.
fn made(alloc: Global, stage: &mut Stage, command: &str, text: &str, name: &str) -> Result<()> {
    let line = format!(in alloc; "{command} {text} {name}")?;
    stage.run(alloc, line.as_str())?;
    stage.keep(alloc, name)
}

/// Changes a byte of a file.
fn change(stage: &mut Stage, name: &str, line: &str) -> Result<()> {
    let (offset, number) = parted(line);
    stage.replace(name, offset.parse::<usize>()?, number.parse::<u8>()?)?;
    Ok(())
}

/// Whether the last command did what the line says.
fn check(alloc: Global, stage: &mut Stage, word: &str, rest: &str) -> Result<bool> {
    let (name, more) = parted(rest);
    match word {
        "=" => Ok(stage.answered(rest.parse::<u8>()?)),
        "holds" => stage.holds(alloc, name, more),
        "has" => {
            let (offset, text) = parted(more);
            stage.has(alloc, name, offset.parse::<usize>()?, text)
        }
        "same" => stage.is_same(name, more),
        "long" => Ok(stage.length(name) == Some(more.parse::<usize>()?)),
        _ => Ok(stage.length(name).is_none()),
    }
}

/// Whether the commands do with a text what the line says.
fn text_row(alloc: Global, stage: &mut Stage, word: &str, rest: &str) -> Result<bool> {
    stage.clear(alloc);
    let (first, more) = parted(rest);
    match word {
        "reads" => read(alloc, stage, rest, 0, ""),
        "fault" => {
            let (kind, text) = parted(more);
            let line = format!(in alloc; "9 text {first} {kind}\n")?;
            read(alloc, stage, text, 9, line.as_str())
        }
        "ends" => {
            let line = format!(in alloc; "ended {first}\n")?;
            Ok(
                interpreted(alloc, stage, more, line.as_str())?
                    && compiled(alloc, stage, line.as_str())?,
            )
        }
        _ => {
            let (place, text) = parted(more);
            let line = format!(in alloc; "undefined {first} {place}\n")?;
            interpreted(alloc, stage, text, line.as_str())
        }
    }
}

/// Whether `lgen` answers this of a text.
fn read(alloc: Global, stage: &mut Stage, text: &str, status: u8, line: &str) -> Result<bool> {
    let bytes = stage.framed(alloc, text)?;
    stage.put_file(alloc, "t.g", bytes)?;
    stage.run(alloc, "lgen t.g t.o")?;
    Ok(stage.printed(status, line.as_bytes()))
}

const JOBS: &str =
    "batch 1 cache 1\nlink t.img t.r partitions 1 workers 1 growth 1 versions 1 objects 1\nt.o\n";

/// Whether the program of a text is said to stand so after many steps.
fn interpreted(alloc: Global, stage: &mut Stage, text: &str, line: &str) -> Result<bool> {
    if !read(alloc, stage, text, 0, "")? {
        return Ok(false);
    }
    stage.keep(alloc, "t.o")?;
    stage.run(alloc, "resolve t.r t.o")?;
    stage.keep(alloc, "t.r")?;
    stage.put_file(alloc, "jobs", Vec::from_slice(alloc, JOBS.as_bytes())?)?;
    stage.put_file(alloc, "empty", Vec::new(alloc))?;
    stage.run(alloc, "interp jobs 100000 empty out")?;
    Ok(stage.printed(0, line.as_bytes()))
}

/// Whether its image is.
fn compiled(alloc: Global, stage: &mut Stage, line: &str) -> Result<bool> {
    stage.run(alloc, "cc t.g t.img")?;
    stage.keep(alloc, "t.img")?;
    stage.run(alloc, "run t.img 1000000 empty out")?;
    Ok(stage.printed(0, line.as_bytes()))
}
