// Numbers in two, four or eight bytes, the low one first.
ghost use Rattle.std.specs.Prelude.{◌≡◌, ◌++◌, length, OnOk, OnErr};
ghost use Rattle.byteorder.specs.Endian.{little_number};
ghost use Rattle.cursors.specs.Fixed.{le16, le32, le64};

use crate::NoMemory;
use byteorder::{ByteOrder, LittleEndian};

/// Writes two bytes at the end, the low one first.
#[tactic(auto, unfolding(crate::specs::Fixed::le16))]
pub fn put_le16(out: &mut Vec<u8>, value: u16) -> Result<(), NoMemory>
    ensures ok { OnOk result (out.new.items ≡ out.old.items ++ le16 value) }
    ensures err { OnErr result (out.new.items ≡ out.old.items) }
{
    let mut field = [0u8; 2];
    LittleEndian::write_u16(&mut field, value);
    out.extend_from_slice(&field)
}

/// Writes four bytes at the end, the low one first.
#[tactic(auto, unfolding(crate::specs::Fixed::le32))]
pub fn put_le32(out: &mut Vec<u8>, value: u32) -> Result<(), NoMemory>
    ensures ok { OnOk result (out.new.items ≡ out.old.items ++ le32 value) }
    ensures err { OnErr result (out.new.items ≡ out.old.items) }
{
    let mut field = [0u8; 4];
    LittleEndian::write_u32(&mut field, value);
    out.extend_from_slice(&field)
}

/// Writes eight bytes at the end, the low one first.
#[tactic(auto, unfolding(crate::specs::Fixed::le64))]
pub fn put_le64(out: &mut Vec<u8>, value: u64) -> Result<(), NoMemory>
    ensures ok { OnOk result (out.new.items ≡ out.old.items ++ le64 value) }
    ensures err { OnErr result (out.new.items ≡ out.old.items) }
{
    let mut field = [0u8; 8];
    LittleEndian::write_u64(&mut field, value);
    out.extend_from_slice(&field)
}

// The number that these two bytes are the spelling of.
pub(crate) fn number16(field: &[u8]) -> u16
    requires { length field.now ≡ 2 }
    ensures value { result ≡ little_number 2 field.now }
    ensures spelled { field.now ≡ le16 result }
{
    LittleEndian::read_u16(field)
}

// The number that these four bytes are the spelling of.
pub(crate) fn number32(field: &[u8]) -> u32
    requires { length field.now ≡ 4 }
    ensures value { result ≡ little_number 4 field.now }
    ensures spelled { field.now ≡ le32 result }
{
    LittleEndian::read_u32(field)
}

// The number that these eight bytes are the spelling of.
pub(crate) fn number64(field: &[u8]) -> u64
    requires { length field.now ≡ 8 }
    ensures value { result ≡ little_number 8 field.now }
    ensures spelled { field.now ≡ le64 result }
{
    LittleEndian::read_u64(field)
}
