//! The lines of a file of rows. The first word of a line says what it is:
//!
//! | Line | What it says |
//! |---|---|
//! | `# ..` | nothing, as an empty line |
//! | `size LENGTH` | the file has so many bytes: it is cut, or zeros are added |
//! | `put OFFSET TEXT` | it has these bytes there |
//! | `words OFFSET WORD..` | it has these words there, the low byte of each first |
//! | `section NAME TYPE FLAGS LINK INFO ENTRY TEXT` | a section of the container that `write` makes |
//! | `write` | the file is the container of the sections before |
//! | `as READER` | the next rows read the file as `container` or as `object` |
//! | `cuts = ANSWER` | a row for each length that is less than the file's: cut to it, this is the answer; `#` is the length |
//! | `KIND INPUT = ANSWER` | a row: this call, with this input, answers so |
//!
//! Rows of the file, which they leave as it stands:
//!
//! | Row | Its answer |
//! |---|---|
//! | `file is` | `read`, or the fault and its offset |
//! | `byte OFFSET NUMBER` | the same where this byte is the number |
//! | `at OFFSET LENGTH` | the bytes there |
//! | `file long` | how many bytes it has |
//! | `file sections` | the sections of a container: name, type, flags, link, info, size of an entry, bytes |
//! | `file words`, `file symbols`, `file relocations` | those of an object |
//! | `result WORD T0 T1` | an image with this word at 0x10020: what it does, t2 behind it, what the next step does |
//! | `stored WORD T0 T1` | the same with the second half of the data in the place of t2 |
//! | `called WORD A7 A0 A1 A2` | the same with a0 |
//!
//! Other rows:
//!
//! | Row | Its answer |
//! |---|---|
//! | `word WORD` | its instruction, or `none` |
//! | `operation OPERATOR TYPE`, `branch OPERATOR TYPE`, `unary OPERATOR TYPE` | the words of the template |
//! | `conversion TO FROM`, `scaling ELEMENT`, `constant NUMBER`, `load SLOT`, `store SLOT` | the same |
//! | `code words`, `code relocations`, `code names` | those of a `main` that writes `Hi` and returns 7 |
//! | `body TEXT`, `declarations TEXT` | the statements, or the module, that a stream spells, as `Debug` prints them, or its fault |
//! | `structure LETTERS` | the same of the declarations of one struct whose name has so many letters |
//! | `uleb TEXT`, `number NUMBER` | the number behind the first byte; the bytes that spell a number |
//! | `fields TEXT`, `little NUMBER NUMBER NUMBER` | numbers of 16, 32 and 64 bits |
//! | `slice LENGTH TEXT` | the first bytes |
//! | `decimal TEXT` | its number, or `none` |
//! | `lines TEXT`, `parts TEXT` | the lines of a text, and the words of a line, with a bar between them |
//! | `end COUNT TEXT` | what the end of a text is behind so many lines, and what it is then |
//! | `name TEXT` | the name, or `none` |
//! | `resolution TEXT` | it is printed so |
//!
//! In TEXT, `\n`, `\r` and `\xHH` are one byte each. Words and the numbers of registers are hexadecimal.
use crate::codes::{code_row, instruction};
use crate::containers::sections;
use crate::machines::stepped;
use crate::numbers::number_row;
use crate::objects::object_row;
use crate::parts::{copied, parted, put_over};
use crate::stage::Stage;
use crate::streams::stream_row;
use crate::templates::{meant, template};
use crate::texts::text_row;
use anyhow::{Result, bail};
use std::alloc::Global;

/// Does what a line says. What was answered, where it is a row and something else is wanted.
pub fn play(alloc: Global, stage: &mut Stage, line: &str) -> Result<Option<String>> {
    let (word, rest) = parted(line);
    match word {
        "" | "#" => {}
        "size" => stage.resize(rest)?,
        "put" => stage.put(alloc, rest)?,
        "words" => stage.put_words(alloc, rest)?,
        "section" => stage.section(alloc, rest)?,
        "write" => stage.write(alloc)?,
        "as" => stage.read_by(alloc, rest)?,
        _ => return row(alloc, stage, line),
    }
    Ok(None)
}

fn row(alloc: Global, stage: &mut Stage, line: &str) -> Result<Option<String>> {
    let Some((input, wanted)) = line.split_once(" =") else {
        bail!("no line: {line}");
    };
    let wanted = wanted.strip_prefix(' ').unwrap_or(wanted);
    let (word, input) = parted(input);
    match word {
        "cuts" => cuts(alloc, stage, wanted),
        "operation"
        | "branch"
        | "unary"
        | "conversion"
        | "scaling"
        | "constant"
        | "load"
        | "store" => {
            let wanted = meant(alloc, wanted)?;
            let found = template(alloc, word, input)?;
            Ok(stage.count(found, wanted.as_str()))
        }
        _ => {
            let found = answer(alloc, stage, word, input)?;
            Ok(stage.count(found, wanted))
        }
    }
}

/// The answer of a row.
fn answer(alloc: Global, stage: &Stage, word: &str, input: &str) -> Result<String> {
    match word {
        "file" | "byte" | "at" => file_row(alloc, stage, word, input),
        "result" | "stored" | "called" => stepped(alloc, stage.file(), word, input),
        "word" => instruction(alloc, input),
        "code" => code_row(alloc, input),
        "body" | "declarations" | "structure" => stream_row(alloc, word, input),
        "lines" | "parts" | "end" | "name" | "resolution" => { text_row(alloc, word, input) }
        _ => number_row(alloc, word, input),
    }
}

/// The answer of a row on the file.
fn file_row(alloc: Global, stage: &Stage, word: &str, input: &str) -> Result<String> {
    let (first, second) = parted(input);
    match word {
        "byte" => {
            let mut bytes = Vec::from_slice(alloc, stage.file())?;
            put_over(
                &mut bytes,
                first.parse::<usize>()?,
                &[second.parse::<u8>()?],
            )?;
            object_row(alloc, stage.reader(), &bytes, "is")
        }
        "at" => {
            let offset = first.parse::<usize>()?;
            let rest = stage.file().get(offset..).unwrap_or(&[]);
            let bytes = rest.get(..second.parse::<usize>()?).unwrap_or(rest);
            let bytes = bytes.escape_ascii();
            Ok(format!(in alloc; "{bytes}")?)
        }
        _ => match input {
            "long" => {
                let length = stage.file().len();
                Ok(format!(in alloc; "{length}")?)
            }
            "sections" => sections(alloc, stage.file()),
            _ => object_row(alloc, stage.reader(), stage.file(), input),
        },
    }
}

/// A row for each length that is less than the file's; of those that differ, the last answer.
fn cuts(alloc: Global, stage: &mut Stage, wanted: &str) -> Result<Option<String>> {
    let file = Vec::from_slice(alloc, stage.file())?;
    let (before, behind) = wanted.split_once('#').unwrap_or((wanted, ""));
    let mut last = None;
    for length in 0..file.len() {
        let front = file.get(..length).unwrap_or(&[]);
        let found = object_row(alloc, stage.reader(), front, "is")?;
        let wanted = format!(in alloc; "{before}{length}{behind}")?;
        if let Some(found) = stage.count(found, wanted.as_str()) {
            last = Some(found);
        }
    }
    Ok(last)
}
