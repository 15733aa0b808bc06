//! The operations on values. Each definition of `specs/Values.antt` has a small function that computes it.
ghost use Rattle.std.specs.Prelude.{◌≡◌, ◌<◌, ◌-◌, ◌^◌, pos, ◌≤ℤ◌, ◌<ℤ◌, ◌≤◌, unsigned_abs, IfSome};
ghost use Rattle.gimple_ir.specs.Values.{width, is_signed, least, greatest, in_range, InRange, IsValue, modulus, residue, from_residue, reduced, value_of, result_of, truth_of, convert_of, binary_of, unary_of, can_divide, can_shift, TypesFit};

use crate::types::{BinaryOp, ScalarType, UnaryOp, Value};

impl ScalarType {
    /// The number of bits.
    pub fn width(self) -> u32
        ensures { result ≡ width self }
    {
        match self {
            ScalarType::Int | ScalarType::UnsignedInt => 32,
            ScalarType::LongInt | ScalarType::LongUnsignedInt => 64,
        }
    }

    /// Whether the type has negative numbers.
    pub fn is_signed(self) -> bool
        ensures { result ≡ is_signed self }
    {
        match self {
            ScalarType::Int | ScalarType::LongInt => true,
            ScalarType::UnsignedInt | ScalarType::LongUnsignedInt => false,
        }
    }

    /// The least number of the type.
    pub fn least(self) -> i128
        ensures { result ≡ least self }
    {
        match self {
            ScalarType::Int => -0x8000_0000,
            ScalarType::LongInt => -0x8000_0000_0000_0000,
            ScalarType::UnsignedInt | ScalarType::LongUnsignedInt => 0,
        }
    }

    /// The greatest number of the type.
    pub fn greatest(self) -> i128
        ensures { result ≡ greatest self }
    {
        match self {
            ScalarType::Int => 0x7fff_ffff,
            ScalarType::UnsignedInt => 0xffff_ffff,
            ScalarType::LongInt => 0x7fff_ffff_ffff_ffff,
            ScalarType::LongUnsignedInt => 0xffff_ffff_ffff_ffff,
        }
    }

    /// Whether the number is one of the type.
    pub fn holds(self, num: i128) -> bool
        ensures { result ≡ in_range self num }
    {
        self.least() <= num && num <= self.greatest()
    }

    /// The number's bits in two's complement, as many as the type has.
    pub fn residue(self, num: i128) -> u64
        ensures value { result ≡ residue self num }
        ensures bound { result < modulus self }
        ensures back { InRange self num → from_residue self result ≡ num }
    {
        num.rem_euclid(self.modulus()) as u64
    }

    /// The number of the type that has these bits.
    pub fn from_residue(self, bits: u64) -> i128
        requires { bits < modulus self }
        ensures value { result ≡ from_residue self bits }
        ensures in_range { InRange self result }
        ensures back { residue self result ≡ bits }
    {
        let num = i128::from(bits);
        if num <= self.greatest() {
            num
        } else {
            num - self.modulus()
        }
    }

    fn modulus(self) -> i128
        ensures { result ≡ pos (modulus self) }
    {
        match self {
            ScalarType::Int | ScalarType::UnsignedInt => 0x1_0000_0000,
            ScalarType::LongInt | ScalarType::LongUnsignedInt => 0x1_0000_0000_0000_0000,
        }
    }

    fn most_bits(self) -> u64
        ensures { result ≡ modulus self - 1 }
    {
        match self {
            ScalarType::Int | ScalarType::UnsignedInt => 0xffff_ffff,
            ScalarType::LongInt | ScalarType::LongUnsignedInt => u64::MAX,
        }
    }

    fn reduced(self, num: i128) -> i128
        ensures { result ≡ reduced self num }
    {
        self.from_residue(self.residue(num))
    }
}

/// The value modulo 2^width in the range of the type.
pub fn convert(ty: ScalarType, value: Value) -> Value
    requires { IsValue value }
    ensures value { result ≡ convert_of ty value }
    ensures well_formed { IsValue result }
{
    if ty.holds(value.num) {
        return Value { ty, num: value.num };
    }
    Value {
        ty,
        num: ty.reduced(value.num),
    }
}

fn value_of(ty: ScalarType, num: i128) -> Value
    ensures { result ≡ value_of ty num }
{
    Value { ty, num }
}

fn result_of(ty: ScalarType, num: i128) -> Option<Value>
    ensures { result ≡ result_of ty num }
{
    if !ty.is_signed() {
        Some(value_of(ty, ty.reduced(num)))
    } else if ty.holds(num) {
        Some(value_of(ty, num))
    } else {
        None
    }
}

fn truth_of(holds: bool) -> Option<Value>
    ensures { result ≡ truth_of holds }
{
    Some(value_of(ScalarType::Int, if holds { 1 } else { 0 }))
}

fn can_divide(ty: ScalarType, left: i128, right: i128) -> bool
    ensures { result ≡ can_divide ty left right }
{
    right != 0 && !(ty.is_signed() && left == ty.least() && right == -1)
}

fn can_shift(ty: ScalarType, count: i128) -> bool
    ensures { result ≡ can_shift ty count }
{
    0 <= count && count < i128::from(ty.width())
}

/// What the operation gives; None exactly where a negation is out of a signed type's range.
pub fn eval_unary(op: UnaryOp, value: Value) -> Option<Value>
    requires { IsValue value }
    ensures value { result ≡ unary_of op value }
    ensures well_formed { IfSome result IsValue }
{
    unary(op, value)
}

fn unary(op: UnaryOp, value: Value) -> Option<Value>
    requires { IsValue value }
    ensures { result ≡ unary_of op value }
{
    match op {
        UnaryOp::Neg => result_of(value.ty, -value.num),
        UnaryOp::Not => Some(value_of(value.ty, complement(value.ty, value.num))),
    }
}

fn complement(ty: ScalarType, num: i128) -> i128
    ensures { result ≡ from_residue ty (modulus ty - 1 - residue ty num) }
{
    ty.from_residue(ty.most_bits() - ty.residue(num))
}

/// What the operation gives; None exactly in the undefined cases: a signed sum, difference or product out of range, a
/// zero divisor, the least signed number divided by -1, a shift count below 0 or not below the width. The operands are
/// of one type, but for a shift count, which has any.
pub fn eval_binary(op: BinaryOp, left: Value, right: Value) -> Option<Value>
    requires left { IsValue left }
    requires right { IsValue right }
    requires fits { TypesFit op left right }
    ensures value { result ≡ binary_of op left right }
    ensures well_formed { IfSome result IsValue }
{
    binary(op, left, right)
}

fn binary(op: BinaryOp, left: Value, right: Value) -> Option<Value>
    requires left { IsValue left }
    requires right { IsValue right }
    requires fits { TypesFit op left right }
    ensures { result ≡ binary_of op left right }
{
    let ty = left.ty;
    match op {
        BinaryOp::Add => result_of(ty, left.num + right.num),
        BinaryOp::Sub => result_of(ty, left.num - right.num),
        BinaryOp::Mul => product(left, right),
        BinaryOp::Div => quotient(left, right),
        BinaryOp::Rem => remainder(left, right),
        BinaryOp::And => Some(value_of(
            ty,
            ty.from_residue(ty.residue(left.num) & ty.residue(right.num)),
        )),
        BinaryOp::Or => Some(value_of(
            ty,
            ty.from_residue(ty.residue(left.num) | ty.residue(right.num)),
        )),
        BinaryOp::Xor => Some(value_of(
            ty,
            ty.from_residue(ty.residue(left.num) ^ ty.residue(right.num)),
        )),
        BinaryOp::Shl => shifted_left(left, right),
        BinaryOp::Shr => shifted_right(left, right),
        BinaryOp::Eq => truth_of(left.num == right.num),
        BinaryOp::Ne => truth_of(left.num != right.num),
        BinaryOp::Lt => truth_of(left.num < right.num),
        BinaryOp::Le => truth_of(left.num <= right.num),
        BinaryOp::Gt => truth_of(left.num > right.num),
        BinaryOp::Ge => truth_of(left.num >= right.num),
    }
}

fn product(left: Value, right: Value) -> Option<Value>
    requires left { IsValue left }
    requires right { IsValue right }
    requires fits { left.ty ≡ right.ty }
    ensures { result ≡ binary_of BinaryOp.Mul left right }
{
    let ty = left.ty;
    if ty.is_signed() {
        return result_of(ty, left.num * right.num);
    }
    let bits = (left.num as u64).wrapping_mul(right.num as u64);
    Some(value_of(ty, ty.reduced(i128::from(bits))))
}

fn quotient(left: Value, right: Value) -> Option<Value>
    requires left { IsValue left }
    requires right { IsValue right }
    requires fits { left.ty ≡ right.ty }
    ensures { result ≡ binary_of BinaryOp.Div left right }
{
    if !can_divide(left.ty, left.num, right.num) {
        return None;
    }
    Some(value_of(left.ty, left.num / right.num))
}

fn remainder(left: Value, right: Value) -> Option<Value>
    requires left { IsValue left }
    requires right { IsValue right }
    requires fits { left.ty ≡ right.ty }
    ensures { result ≡ binary_of BinaryOp.Rem left right }
{
    if !can_divide(left.ty, left.num, right.num) {
        return None;
    }
    Some(value_of(left.ty, left.num % right.num))
}

fn power_of_two(exponent: i128) -> i128
    requires low { pos 0 ≤ℤ exponent }
    requires high { exponent <ℤ pos 64 }
    ensures value { result ≡ pos (2 ^ unsigned_abs exponent) }
    ensures bound { 2 ^ unsigned_abs exponent ≤ 2 ^ 63 }
{
    i128::from(1u64 << (exponent as u32))
}

fn shifted_left(left: Value, count: Value) -> Option<Value>
    requires left { IsValue left }
    requires right { IsValue count }
    ensures { result ≡ binary_of BinaryOp.Shl left count }
{
    if !can_shift(left.ty, count.num) {
        return None;
    }
    let num = left.num * power_of_two(count.num);
    Some(value_of(left.ty, left.ty.reduced(num)))
}

fn shifted_right(left: Value, count: Value) -> Option<Value>
    requires left { IsValue left }
    requires right { IsValue count }
    ensures { result ≡ binary_of BinaryOp.Shr left count }
{
    if !can_shift(left.ty, count.num) {
        return None;
    }
    Some(value_of(left.ty, left.num >> (count.num as u32)))
}
