// A place between the lines of a text.
ghost use Rattle.std.specs.Prelude.{◌≡◌, ◌∷◌, IfSome, IfNone, option_copied, []};
ghost use Rattle.cursors.specs.Lines.{IsLineAt, lines_of};

use std::marker::Model;

/// A place between the lines of a text that is lent. Contracts see the text that is left. A line ends with a newline,
/// which the last may lack; a carriage return is a byte of its line.
#[derive(Drop)]
pub struct TextCursor<'a> {
    rest: &'a [u8],
}

impl<'a> Model for TextCursor<'a> {
    ghost use Rattle.std.specs.Prelude.{List, ℕ};

    ghost Value = { List ℕ };

    ghost view = { λ c. c.rest.now };
}

impl<'a> TextCursor<'a> {
    /// The start of this text.
    pub fn new(text: &'a [u8]) -> TextCursor<'a>
        ensures { result ≡ text.now }
    {
        TextCursor { rest: text }
    }

    /// The next line without its newline, or `None` at the end.
    pub fn line(&mut self) -> Option<&'a [u8]>
        ensures next { IsLineAt self.old self.new (option_copied result) }
        ensures some { IfSome (option_copied result) (λ line. lines_of self.old ≡ line ∷ lines_of self.new) }
        ensures none { IfNone result (lines_of self.old ≡ []) }
    {
        self.take_line()
    }

    fn take_line(&mut self) -> Option<&'a [u8]>
        ensures { IsLineAt self.old self.new (option_copied result) }
    {
        if self.rest.is_empty() {
            return None;
        }
        match self.rest.iter().position(|byte| *byte == b'\n') {
            None => {
                let line = self.rest;
                self.rest = &[];
                Some(line)
            }
            Some(place) => {
                let (line, rest) = self.rest.split_at(place);
                self.rest = &rest[1..];
                Some(line)
            }
        }
    }
}
