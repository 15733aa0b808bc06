//! The lines of a text, one after the other, with their numbers.
ghost use Rattle.std.specs.Prelude.{◌≡◌, ◌∷◌, ◌+◌, ◌<◌, ◌^◌, [], MatchOption, length};
ghost use Rattle.text_lines.specs.Lines.{lines_in};
ghost use Rattle.text_lines.specs.Reading.{GivesAll, at_end};

use crate::fault::LineError;
use cursors::TextCursor;
use std::marker::Model;

/// A place between the lines of a text that is lent. Contracts see the lines that are left, and the number of the next.
#[derive(Drop)]
pub struct LineReader<'a> {
    cursor: TextCursor<'a>,
    next: u32,
}

impl<'a> Model for LineReader<'a> {
    ghost use Rattle.std.specs.Prelude.{◌+◌, ◌<◌, ◌^◌, length};
    ghost use Rattle.cursors.specs.Lines.{lines_of};
    ghost use Rattle.text_lines.specs.Lines.{Lines};

    ghost Value = { Lines };

    ghost view = { λ r. record { number = r.next; rest = lines_of r.cursor } };

    ghost invariant = { λ r. r.next + length (lines_of r.cursor) < 2 ^ 32 };
}

impl<'a> LineReader<'a> {
    /// The start of this text of at most 2^32 - 2 bytes.
    pub fn new(text: &'a [u8]) -> LineReader<'a>
        requires { length text.now + 1 < 2 ^ 32 }
        ensures { result ≡ lines_in text.now }
    {
        LineReader {
            cursor: TextCursor::new(text),
            next: 1,
        }
    }

    /// The number of the next line, counted from 1; at the end that of the missing line.
    pub fn number(&self) -> u32
        ensures { result ≡ self.now.number }
    {
        self.next
    }

    /// The next line without its newline, or `None` at the end.
    pub fn line(&mut self) -> Option<&'a [u8]>
        ensures { MatchOption result ((self.old.rest ≡ []) × (self.new ≡ self.old))
            (λ line. (self.old.rest ≡ line.now ∷ self.new.rest) × (self.new.number ≡ self.old.number + 1)) }
    {
        match self.cursor.line() {
            Some(line) => {
                self.next += 1;
                Some(line)
            }
            None => None,
        }
    }

    /// Asks that no line is left.
    pub fn end(&mut self) -> Result<(), LineError>
        ensures { GivesAll result (at_end tt self.old) }
    {
        let line = self.number();
        match self.line() {
            Some(_) => Err(LineError::BadLine { line }),
            None => Ok(()),
        }
    }
}
