// A place in bytes, and the fields that are read there.
ghost use Rattle.std.specs.Prelude.{slice_index, ◌≡◌, ◌++◌, ◌<◌, ◌^◌, length, ℕ, List, IfOk, Ok};
ghost use Rattle.cursors.specs.Cursor.{offset_of, is_nil};
ghost use Rattle.cursors.specs.Fixed.{le16, le32, le64};
ghost use Rattle.cursors.specs.Leb128.{uleb_of};
ghost use Rattle.cursors.specs.Reading.{Gives, same, uleb_at, byte_at, slice_at, le_at};

use crate::fixed::{number16, number32, number64};
use crate::leb128::{group_length, group_number};
use std::marker::Model;
use thiserror::Error;

/// Why a field could not be read. The offset is that of the field's first byte, from the start of the bytes.
#[derive(Clone, Copy, Debug, PartialEq, Eq, Error)]
pub enum ReadError {
    /// The bytes end before the field does.
    #[error("the bytes end inside the field at {offset}")]
    Short { offset: u64 },
    /// A longer spelling of a number that has a shorter one.
    #[error("the number at {offset} is not in its shortest form")]
    NotShortest { offset: u64 },
    /// The number needs more than 64 bits. This goes before the other two.
    #[error("the number at {offset} needs more than 64 bits")]
    TooWide { offset: u64 },
}

/// A place in bytes that are lent. Contracts see the bytes that are left and where the last of them ends. A read that is
/// refused leaves the place.
#[derive(Drop)]
pub struct ByteCursor<'a> {
    rest: &'a [u8],
    end: usize,
}

impl<'a> Model for ByteCursor<'a> {
    ghost use Rattle.std.specs.Prelude.{◌≤◌, length};
    ghost use Rattle.cursors.specs.Cursor.{Cursor};

    ghost Value = { Cursor };

    ghost view = { λ c. record { end = c.end; rest = c.rest.now } };

    ghost invariant = { λ c. length c.rest.now ≤ c.end };
}

impl<'a> ByteCursor<'a> {
    /// The start of these bytes.
    pub fn new(bytes: &'a [u8]) -> ByteCursor<'a>
        ensures { result ≡ record { end = length bytes.now; rest = bytes.now } }
    {
        ByteCursor {
            rest: bytes,
            end: bytes.len(),
        }
    }

    /// How many bytes were read.
    pub fn offset(&self) -> u64
        ensures { result ≡ offset_of self.now }
    {
        (self.end - self.rest.len()) as u64
    }

    /// Whether no byte is left.
    pub fn at_end(&self) -> bool
        ensures { result ≡ is_nil self.now.rest }
    {
        self.rest.is_empty()
    }

    /// The next byte.
    pub fn byte(&mut self) -> Result<u8, ReadError>
        ensures { Gives same result self.old self.new (byte_at self.old) }
    {
        let [first, rest @ ..] = self.rest else {
            let offset = self.offset();
            return Err(ReadError::Short { offset });
        };
        self.rest = rest;
        Ok(*first)
    }

    /// The next `n` bytes, which are lent and not copied.
    pub fn slice(&mut self, n: u64) -> Result<&'a [u8], ReadError>
        ensures { Gives (λ x. x.now) result self.old self.new (slice_at n self.old) }
    {
        if (self.rest.len() as u64) < n {
            let offset = self.offset();
            return Err(ReadError::Short { offset });
        }
        let (front, rest) = self.rest.split_at(n as usize);
        self.rest = rest;
        Ok(front)
    }

    /// The number in the next two bytes, the low one first.
    pub fn le16(&mut self) -> Result<u16, ReadError>
        ensures found { IfOk result (λ x. self.old.rest ≡ le16 x ++ self.new.rest) }
        ensures only { (x : ℕ) (rest : List ℕ) → x < 2 ^ 16 → self.old.rest ≡ le16 x ++ rest → (result ≡ Ok x) × (self.new.rest ≡ rest) }
        ensures exact { Gives same result self.old self.new (le_at 2 self.old) }
    {
        match self.slice(2) {
            Ok(field) => Ok(number16(field)),
            Err(error) => Err(error),
        }
    }

    /// The number in the next four bytes, the low one first.
    pub fn le32(&mut self) -> Result<u32, ReadError>
        ensures found { IfOk result (λ x. self.old.rest ≡ le32 x ++ self.new.rest) }
        ensures only { (x : ℕ) (rest : List ℕ) → x < 2 ^ 32 → self.old.rest ≡ le32 x ++ rest → (result ≡ Ok x) × (self.new.rest ≡ rest) }
        ensures exact { Gives same result self.old self.new (le_at 4 self.old) }
    {
        match self.slice(4) {
            Ok(field) => Ok(number32(field)),
            Err(error) => Err(error),
        }
    }

    /// The number in the next eight bytes, the low one first.
    pub fn le64(&mut self) -> Result<u64, ReadError>
        ensures found { IfOk result (λ x. self.old.rest ≡ le64 x ++ self.new.rest) }
        ensures only { (x : ℕ) (rest : List ℕ) → x < 2 ^ 64 → self.old.rest ≡ le64 x ++ rest → (result ≡ Ok x) × (self.new.rest ≡ rest) }
        ensures exact { Gives same result self.old self.new (le_at 8 self.old) }
    {
        match self.slice(8) {
            Ok(field) => Ok(number64(field)),
            Err(error) => Err(error),
        }
    }

    /// The number whose shortest LEB128 stands here.
    pub fn uleb(&mut self) -> Result<u64, ReadError>
        // What is read is spelled so; what is spelled so is read, whatever follows.
        ensures found { IfOk result (λ n. (n < 2 ^ 64) × (self.old.rest ≡ uleb_of n ++ self.new.rest)) }
        ensures only { (n : ℕ) (rest : List ℕ) → n < 2 ^ 64 → self.old.rest ≡ uleb_of n ++ rest → (result ≡ Ok n) × (self.new.rest ≡ rest) }

        // Which fault it is, and that a refusal leaves the place.
        ensures exact { Gives same result self.old self.new (uleb_at self.old) }
    {
        self.group()
    }

    // Reads the bytes up to the first below 128, and judges them then.
    fn group(&mut self) -> Result<u64, ReadError>
        ensures exact { Gives same result self.old self.new (uleb_at self.old) }
        ensures bytes { (i : ℕ) → slice_index self.old.rest i < 256 }
    {
        let offset = self.offset();
        let Some(len) = group_length(self.rest) else {
            return Err(match group_number(self.rest) {
                Some(_) => ReadError::Short { offset },
                None => ReadError::TooWide { offset },
            });
        };
        let (group, rest) = self.rest.split_at(len);
        let Some(number) = group_number(group) else {
            return Err(ReadError::TooWide { offset });
        };
        if len > 1 && group[len - 1] == 0 {
            return Err(ReadError::NotShortest { offset });
        }
        self.rest = rest;
        Ok(number)
    }
}
