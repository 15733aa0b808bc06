//! The fields that many streams are made of.
ghost use Rattle.std.specs.Prelude.{◌≡◌, ◌<◌, ◌≤◌, ◌^◌, IfOk};
ghost use Rattle.gimple_ir.specs.Values.{modulus};
ghost use Rattle.module_stream.specs.Readers.{Gives, GivesSeen, byte, number_below, bytes_of_field, text, coded};
ghost use Rattle.module_stream.specs.BodyReading.{value_at, typed_value_at};

use crate::codes::Coded;
use crate::fault::StreamError;
use cursors::ByteCursor;
use gimple_ir::{ScalarType, Value};

/// A byte.
#[tactic(auto, unfolding(crate::specs::Readers::byte))]
pub fn byte(cursor: &mut ByteCursor) -> Result<u8, StreamError>
    ensures { Gives result cursor.new (byte cursor.old) }
{
    let offset = cursor.offset();
    match cursor.byte() {
        Ok(byte) => Ok(byte),
        Err(_) => Err(StreamError::BadStream { offset }),
    }
}

/// A number in its shortest form that is below the limit.
#[tactic(auto, unfolding(crate::specs::Readers::number_below))]
pub fn number_below(cursor: &mut ByteCursor, limit: u128) -> Result<u64, StreamError>
    ensures value { Gives result cursor.new (number_below limit cursor.old) }
    ensures below { IfOk result (λ n. n < limit) }
{
    let offset = cursor.offset();
    match cursor.uleb() {
        Ok(number) if u128::from(number) < limit => Ok(number),
        _ => Err(StreamError::BadStream { offset }),
    }
}

/// A number that is below a count of things; the count is at most 2^32.
pub fn place_below(cursor: &mut ByteCursor, count: u64) -> Result<u32, StreamError>
    requires { count ≤ 2 ^ 32 }
    ensures { Gives result cursor.new (number_below count cursor.old) }
{
    let number = number_below(cursor, u128::from(count))?;
    Ok(number as u32)
}

/// One byte that stands for something.
pub fn coded<C: Coded>(cursor: &mut ByteCursor) -> Result<C, StreamError>
    ensures { Gives result cursor.new (coded C.table cursor.old) }
{
    let offset = cursor.offset();
    let byte = byte(cursor)?;
    match C::from_code(byte) {
        None => Err(StreamError::BadStream { offset }),
        Some(coded) => Ok(coded),
    }
}

// The bytes of the field at the offset, which are lent.
#[tactic(auto, unfolding(crate::specs::Readers::bytes_of_field))]
fn bytes_of_field<'a>(
    cursor: &mut ByteCursor<'a>,
    offset: u64,
    count: u64,
) -> Result<&'a [u8], StreamError>
    ensures { GivesSeen (λ bytes. bytes.now) result cursor.new (bytes_of_field offset count cursor.old) }
{
    match cursor.slice(count) {
        Ok(bytes) => Ok(bytes),
        Err(_) => Err(StreamError::BadStream { offset }),
    }
}

/// A length and as many bytes, which are lent.
#[tactic(auto, unfolding(crate::specs::Readers::text))]
pub fn text<'a>(cursor: &mut ByteCursor<'a>) -> Result<&'a [u8], StreamError>
    ensures { GivesSeen (λ bytes. bytes.now) result cursor.new (text cursor.old) }
{
    let offset = cursor.offset();
    let length = number_below(cursor, 1 << 64)?;
    bytes_of_field(cursor, offset, length)
}

// 2^width.
pub(crate) fn modulus(ty: ScalarType) -> u128
    ensures { result ≡ modulus ty }
{
    match ty {
        ScalarType::Int | ScalarType::UnsignedInt => 1 << 32,
        ScalarType::LongInt | ScalarType::LongUnsignedInt => 1 << 64,
    }
}

/// A value of the type, as its residue below 2^width.
#[tactic(auto, unfolding(crate::specs::BodyReading::value_at))]
pub fn value(cursor: &mut ByteCursor, ty: ScalarType) -> Result<Value, StreamError>
    ensures { Gives result cursor.new (value_at ty cursor.old) }
{
    let bits = number_below(cursor, modulus(ty))?;
    Ok(Value {
        ty,
        num: ty.from_residue(bits),
    })
}

/// The code of a type, and a value of the type.
#[tactic(auto, unfolding(crate::specs::BodyReading::typed_value_at))]
pub fn typed_value(cursor: &mut ByteCursor) -> Result<Value, StreamError>
    ensures { Gives result cursor.new (typed_value_at cursor.old) }
{
    let ty: ScalarType = coded(cursor)?;
    value(cursor, ty)
}
