//! The numbers that instructions compute, by machine words; `specs/Arithmetic.antt` says which.

ghost use Rattle.std.specs.Prelude.{◌≡◌, ◌≢◌, ◌<◌, ◌≤◌, ◌+◌, ◌/◌, ◌%◌, ◌^◌, ◌*ℤ◌, pos, unsigned_abs, int_div, int_rem, if◌then◌else◌};
ghost use Rattle.std.specs.Int.{int_shr};
ghost use Rattle.rv64_isa.specs.Format.{signed, IsUnsigned};
ghost use Rattle.rv64_meaning.specs.Arithmetic.{bits64, sign_extended, of_word, plus, upper, add, sub, less_signed, bit, sll, srl, sra, sllw, srlw, sraw, mul, mulh, mulhsu, mulhu, div, divu, rem, remu, divw, divuw, remw, remuw};

/// An immediate as 64 bits.
pub fn bits(imm: i32) -> u64
    ensures { result ≡ bits64 imm }
{
    i64::from(imm).cast_unsigned()
}

/// A register and an immediate.
pub fn plus(v: u64, imm: i32) -> u64
    ensures { result ≡ plus v imm }
{
    v.wrapping_add(bits(imm))
}

/// The sum.
pub fn add(a: u64, b: u64) -> u64
    ensures { result ≡ add a b }
{
    a.wrapping_add(b)
}

/// The difference.
pub fn sub(a: u64, b: u64) -> u64
    ensures { result ≡ sub a b }
{
    a.wrapping_sub(b)
}

/// The low 8 bits with their sign.
pub fn of_byte(v: u64) -> u64
    ensures { result ≡ sign_extended (2 ^ 8) v }
{
    let low = v & 0xff;
    if low < 0x80 {
        low
    } else {
        low + 0xffff_ffff_ffff_ff00
    }
}

/// The low 16 bits with their sign.
pub fn of_half(v: u64) -> u64
    ensures { result ≡ sign_extended (2 ^ 16) v }
{
    let low = v & 0xffff;
    if low < 0x8000 {
        low
    } else {
        low + 0xffff_ffff_ffff_0000
    }
}

/// The low 32 bits with their sign.
pub fn of_word(v: u64) -> u64
    ensures { result ≡ of_word v }
{
    let low = v & 0xffff_ffff;
    if low < 0x8000_0000 {
        low
    } else {
        low + 0xffff_ffff_0000_0000
    }
}

/// The field of `lui` and `auipc` in its place.
pub fn upper(imm: i32) -> u64
    requires small { IsUnsigned (2 ^ 20) imm }
    ensures { result ≡ upper imm }
{
    of_word(u64::from(imm.cast_unsigned()) << 12)
}

/// Below, with the sign.
pub fn less_signed(a: u64, b: u64) -> bool
    ensures { result ≡ less_signed a b }
{
    a.cast_signed() < b.cast_signed()
}

/// Shifts by the low six bits.
pub fn sll(a: u64, b: u64) -> u64
    ensures { result ≡ sll a b }
{
    a << (b & 63)
}

/// The shift that fills with zeros.
pub fn srl(a: u64, b: u64) -> u64
    ensures { result ≡ srl a b }
{
    a >> (b & 63)
}

/// The shift that fills with the sign.
pub fn sra(a: u64, b: u64) -> u64
    ensures { result ≡ sra a b }
{
    (a.cast_signed() >> (b & 63)).cast_unsigned()
}

/// Shifts of the low word by the low five bits.
pub fn sllw(a: u64, b: u64) -> u64
    ensures { result ≡ sllw a b }
{
    of_word(a << (b & 31))
}

/// The shift of the low word that fills with zeros.
pub fn srlw(a: u64, b: u64) -> u64
    ensures { result ≡ srlw a b }
{
    of_word((a & 0xffff_ffff) >> (b & 31))
}

/// The shift of the low word that fills with its sign.
pub fn sraw(a: u64, b: u64) -> u64
    ensures { result ≡ sraw a b }
{
    i64::from(((a & 0xffff_ffff) as u32).cast_signed() >> (b & 31)).cast_unsigned()
}

/// The low half of the product.
pub fn mul(a: u64, b: u64) -> u64
    ensures { result ≡ mul a b }
{
    a.wrapping_mul(b)
}

/// The high half of the product without signs.
pub fn mulhu(a: u64, b: u64) -> u64
    ensures { result ≡ mulhu a b }
{
    ((u128::from(a) * u128::from(b)) >> 64) as u64
}

/// The high half of the product with both signs.
pub fn mulh(a: u64, b: u64) -> u64
    ensures { result ≡ mulh a b }
{
    top_of(product(a.cast_signed(), b.cast_signed()))
}

/// The high half of the product with the sign of the first.
pub fn mulhsu(a: u64, b: u64) -> u64
    ensures { result ≡ mulhsu a b }
{
    let product = i128::from(a.cast_signed()) * i128::from(b);
    ((product >> 64) as i64).cast_unsigned()
}

fn product(x: i64, y: i64) -> i128
    ensures value { result ≡ x *ℤ y }
    ensures bound { unsigned_abs result < 2 ^ 127 }
{
    i128::from(x) * i128::from(y)
}

fn top_of(p: i128) -> u64
    requires { unsigned_abs p < 2 ^ 127 }
    ensures { result ≡ bits64 (int_shr p 64) }
{
    ((p >> 64) as i64).cast_unsigned()
}

/// The quotient with signs.
pub fn div(a: u64, b: u64) -> u64
    ensures { result ≡ div a b }
{
    if b == 0 {
        u64::MAX
    } else {
        a.cast_signed()
            .wrapping_div(b.cast_signed())
            .cast_unsigned()
    }
}

/// The remainder with signs.
pub fn rem(a: u64, b: u64) -> u64
    ensures { result ≡ rem a b }
{
    if b == 0 {
        a
    } else if b == u64::MAX {
        0
    } else {
        (a.cast_signed() % b.cast_signed()).cast_unsigned()
    }
}

/// The quotient.
pub fn divu(a: u64, b: u64) -> u64
    ensures { result ≡ divu a b }
{
    if b == 0 { u64::MAX } else { a / b }
}

/// The remainder.
pub fn remu(a: u64, b: u64) -> u64
    ensures { result ≡ remu a b }
{
    if b == 0 { a } else { a % b }
}

/// The quotient of the low words with signs.
pub fn divw(a: u64, b: u64) -> u64
    ensures { result ≡ divw a b }
{
    let (x, y) = ((a & 0xffff_ffff) as u32, (b & 0xffff_ffff) as u32);
    if y == 0 {
        u64::MAX
    } else {
        of_word(bits_of(quotient(wide(x), wide(y))))
    }
}

// A word as a number with its sign.
fn wide(x: u32) -> i64
    ensures value { result ≡ signed (2 ^ 32) x }
    ensures small { unsigned_abs result ≤ 2 ^ 31 }
{
    i64::from(x.cast_signed())
}

fn bits_of(z: i64) -> u64
    ensures { result ≡ bits64 z }
{
    z.cast_unsigned()
}

fn quotient(x: i64, y: i64) -> i64
    requires divisor { y ≢ pos 0 }
    requires small { unsigned_abs x ≤ 2 ^ 31 }
    ensures { result ≡ int_div x y }
{
    x / y
}

/// The quotient of the low words.
pub fn divuw(a: u64, b: u64) -> u64
    ensures { result ≡ divuw a b }
{
    let (a, b) = (a & 0xffff_ffff, b & 0xffff_ffff);
    if b == 0 { u64::MAX } else { of_word(a / b) }
}

/// The remainder of the low words with signs.
pub fn remw(a: u64, b: u64) -> u64
    ensures { result ≡ remw a b }
{
    let (x, y) = ((a & 0xffff_ffff) as u32, (b & 0xffff_ffff) as u32);
    if y == 0 {
        of_word(a)
    } else {
        remainder(x.cast_signed(), y.cast_signed())
    }
}

fn remainder(x: i32, y: i32) -> u64
    requires { y ≢ pos 0 }
    ensures { result ≡ bits64 (int_rem x y) }
{
    (i64::from(x) % i64::from(y)).cast_unsigned()
}

/// The remainder of the low words.
pub fn remuw(a: u64, b: u64) -> u64
    ensures { result ≡ remuw a b }
{
    let (x, y) = (a & 0xffff_ffff, b & 0xffff_ffff);
    if y == 0 { of_word(a) } else { of_word(x % y) }
}
