// A reader of tokens that looks one token ahead, so that each byte of the text is looked at once.
ghost use Rattle.std.specs.Prelude.{◌≡◌, ◌<◌, ◌≤◌, ◌+◌, ◌^◌, ◌-◌, ◌∷◌, true, false, length, drop, is_some, IfSome, IsTrue, []};
ghost use Rattle.gimple_tokens.specs.Tokens.{tokens_of, tokens_from, ends, placed, Name, Word, Sign, End};
ghost use Rattle.gimple_tokens.specs.Reading.{head_of, first_of, line_of, same, passed, read_number, Gives, Passes, SkipsPastBrace};
ghost use Rattle.gimple_tokens.specs.Numbers.{limit_of, number_in, number_fault, length_in, length_fault};
ghost use Rattle.gimple_tokens.specs.Operators.{operator_in};
ghost use Rattle.gimple_tokens.specs.Stops.{fault_at, past, single_at, name_in, GivesOr, PassesOr};

use crate::failure::Failure;
use crate::identifier::Identifier;
use crate::lexer::{Lexed, lex, past_brace};
use crate::numbers::{NumberPlace, fault_at, is_in_range, length_fault, number_fault};
use crate::operators::operator_of;
use crate::token::{Keyword, Mark, Suffix, TextKind, Token};
use gimple_ir::BinaryOp;
use std::marker::Model;

/// The tokens of a text that are left, of which the first is known. Contracts see it as the list of them, each with
/// its line; the last is the end of the text, or the fault of its bytes.
#[derive(Drop)]
pub struct Reader<'a> {
    token: Token<'a>,
    line: u32,
    rest: &'a [u8],
}

impl<'a> Model for Reader<'a> {
    ghost use Rattle.std.specs.Prelude.{List, ◌+◌, ◌<◌, ◌^◌, length};
    ghost use Rattle.gimple_tokens.specs.Tokens.{Placed, placed, followed, lexeme_of, tokens_from, IsNamed};

    ghost Value = { List Placed };

    ghost view = { λ r. followed (placed (lexeme_of r.token) r.line) (tokens_from r.line 0 r.rest.now) };

    ghost invariant = { λ r. (r.line + length r.rest.now < 2 ^ 32) × IsNamed (lexeme_of r.token) };
}

impl<'a> Reader<'a> {
    /// The tokens of a text, which has at most 2^32 - 2 bytes.
    pub fn new(text: &'a [u8]) -> Reader<'a>
        requires { length text.now < 2 ^ 32 - 1 }
        ensures tokens { result ≡ tokens_of text.now }
        ensures few { length result ≤ length text.now + 1 }
    {
        let Lexed { token, line, rest } = lex(text, 1);
        Reader { token, line, rest }
    }

    /// The line of the first token, from 1.
    pub fn line(&self) -> u32
        ensures value { result ≡ line_of self.now }
        ensures some { self.now ≡ first_of self.now ∷ drop 1 self.now }
    {
        self.line
    }

    /// Whether this sign stands first.
    pub fn is_sign(&self, mark: Mark) -> bool
        ensures { result ≡ same (Sign mark) (head_of self.now) }
    {
        match self.token {
            Token::Sign(found) => found == mark,
            _ => false,
        }
    }

    /// Whether this keyword stands first.
    pub fn is_word(&self, word: Keyword) -> bool
        ensures { result ≡ same (Word word) (head_of self.now) }
    {
        match self.token {
            Token::Word(found) => found == word,
            _ => false,
        }
    }

    /// Whether this name stands first.
    pub fn is_name(&self, name: &[u8]) -> bool
        ensures { result ≡ same (Name name.now) (head_of self.now) }
    {
        match self.token {
            Token::Name(found) => name == found,
            _ => false,
        }
    }

    /// Whether the text ends here.
    pub fn is_end(&self) -> bool
        ensures value { result ≡ same End (head_of self.now) }
        ensures last { IsTrue result → self.now ≡ placed End (line_of self.now) ∷ [] }
    {
        matches!(self.token, Token::End)
    }

    fn is_last(&self) -> bool
        ensures value { result ≡ ends (head_of self.now) }
        ensures last { IsTrue result → self.now ≡ first_of self.now ∷ [] }
    {
        matches!(self.token, Token::End | Token::Bad(_))
    }

    fn go_to(&mut self, text: &'a [u8], line: u32)
        requires { line + length text.now < 2 ^ 32 }
        ensures { self.new ≡ tokens_from line 0 text.now }
    {
        let Lexed { token, line, rest } = lex(text, line);
        self.token = token;
        self.line = line;
        self.rest = rest;
    }

    fn advance(&mut self)
        requires { ends (head_of self.old) ≡ false }
        ensures { self.old ≡ first_of self.old ∷ self.new }
    {
        self.go_to(self.rest, self.line);
    }

    /// Passes over the tokens up to the first `}`, and over that, without looking at what they are. Where no `}` is left, or a
    /// fault stands before it, nothing is said of what is left.
    pub fn skip_past_brace(&mut self)
        ensures { SkipsPastBrace self.old self.new }
    {
        if self.is_last() {
            return;
        }
        if self.is_sign(Mark::CloseCurly) {
            return self.advance();
        }
        let left = past_brace(self.rest, self.line);
        self.go_to(left.bytes, left.line);
    }

    /// Passes over a sign. `None` where another token stands first.
    #[tactic(auto, unfolding(crate::specs::Reading::passed))]
    pub fn pass_sign(&mut self, mark: Mark) -> Option<()>
        ensures { Passes result self.new (passed (Sign mark) self.old) }
    {
        if !self.is_sign(mark) {
            return None;
        }
        self.advance();
        Some(())
    }

    /// Passes over a keyword. `None` where another token stands first.
    #[tactic(auto, unfolding(crate::specs::Reading::passed))]
    pub fn pass_word(&mut self, word: Keyword) -> Option<()>
        ensures { Passes result self.new (passed (Word word) self.old) }
    {
        if !self.is_word(word) {
            return None;
        }
        self.advance();
        Some(())
    }

    /// Passes over a name. `None` where another token stands first.
    #[tactic(auto, unfolding(crate::specs::Reading::passed))]
    pub fn pass_name(&mut self, name: &[u8]) -> Option<()>
        ensures { Passes result self.new (passed (Name name.now) self.old) }
    {
        if !self.is_name(name) {
            return None;
        }
        self.advance();
        Some(())
    }

    /// Reads a number without a suffix that is below the limit. `None` where another token stands first.
    #[tactic(auto, unfolding(crate::specs::Reading::read_number))]
    pub fn number(&mut self, limit: u64) -> Option<u64>
        ensures value { Gives result self.new (read_number limit self.old) }
        ensures within { IfSome result (λ number. number < limit) }
    {
        match self.token {
            Token::Number(Some(number), Suffix::Plain) if number < limit => {
                self.advance();
                Some(number)
            }
            _ => None,
        }
    }

    /// Whether some name stands first.
    pub fn has_name(&self) -> bool
        ensures { result ≡ is_some (name_in (head_of self.now)) }
    {
        matches!(self.token, Token::Name(_))
    }

    /// The kind of the fault where the first token cannot come.
    pub fn fault(&self) -> TextKind
        ensures { result ≡ fault_at (head_of self.now) }
    {
        fault_at(self.token)
    }

    /// Passes over a sign, which must stand first.
    #[tactic(auto, unfolding(crate::specs::Stops::past))]
    pub fn expect_sign(&mut self, mark: Mark) -> Result<(), Failure>
        ensures { PassesOr result self.new (past (Sign mark) self.old) }
    {
        if !self.is_sign(mark) {
            return Err(Failure::Fault(self.fault()));
        }
        self.advance();
        Ok(())
    }

    /// Passes over a keyword, which must stand first.
    #[tactic(auto, unfolding(crate::specs::Stops::past))]
    pub fn expect_word(&mut self, word: Keyword) -> Result<(), Failure>
        ensures { PassesOr result self.new (past (Word word) self.old) }
    {
        if !self.is_word(word) {
            return Err(Failure::Fault(self.fault()));
        }
        self.advance();
        Ok(())
    }

    /// Reads a name, which must stand first.
    #[tactic(auto, unfolding(crate::specs::Stops::single_at))]
    pub fn name(&mut self) -> Result<Identifier<'a>, Failure>
        ensures { GivesOr result self.new (single_at name_in fault_at self.old) }
    {
        match self.token {
            Token::Name(text) => {
                self.advance();
                Ok(Identifier::from_bytes(text))
            }
            _ => Err(Failure::Fault(self.fault())),
        }
    }

    /// Reads a number that may stand at a place, with `-` before it or not, and its suffix.
    #[tactic(auto, unfolding(crate::specs::Stops::single_at))]
    pub fn number_at(
        &mut self,
        place: NumberPlace,
        negative: bool,
    ) -> Result<(u64, Suffix), Failure>
        ensures { GivesOr result self.new (single_at (number_in (limit_of place negative)) (number_fault place) self.old) }
    {
        match self.token {
            Token::Number(Some(number), suffix) if is_in_range(place, negative, number, suffix) => {
                self.advance();
                Ok((number, suffix))
            }
            token => Err(Failure::Fault(number_fault(place, token))),
        }
    }

    /// Reads the length of an array, in elements.
    #[tactic(auto, unfolding(crate::specs::Stops::single_at))]
    pub fn array_length(&mut self) -> Result<u32, Failure>
        ensures { GivesOr result self.new (single_at length_in length_fault self.old) }
    {
        match self.token {
            Token::Number(Some(number), Suffix::Plain) if number < 1 << 32 => {
                self.advance();
                Ok(number as u32)
            }
            token => Err(Failure::Fault(length_fault(token))),
        }
    }

    /// Reads a binary operator.
    #[tactic(auto, unfolding(crate::specs::Stops::single_at))]
    pub fn operator(&mut self) -> Result<BinaryOp, Failure>
        ensures { GivesOr result self.new (single_at operator_in fault_at self.old) }
    {
        match self.token {
            Token::Sign(mark) => match operator_of(mark) {
                Some(op) => {
                    self.advance();
                    Ok(op)
                }
                None => Err(Failure::Fault(TextKind::Syntax)),
            },
            _ => Err(Failure::Fault(self.fault())),
        }
    }
}
