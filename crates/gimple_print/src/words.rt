//! How types, linkages, operators and literals are written.
ghost use Rattle.std.specs.Prelude.{◌≡◌, ◌++◌, OnOk};
ghost use Rattle.std.specs.Fmt.{signed_decimal};
ghost use Rattle.gimple_print.specs.Words.{scalar_text, element_text, result_text, linkage_text, unary_text, binary_text, suffix_text, literal_text};

use gimple_ir::{BinaryOp, ElementType, Linkage, NoMemory, ResultType, ScalarType, UnaryOp, Value};
use itoa::Buffer;

pub fn scalar_text(ty: ScalarType) -> &'static str
    ensures { result.now ≡ scalar_text ty }
{
    match ty {
        ScalarType::Int => "int",
        ScalarType::UnsignedInt => "unsigned int",
        ScalarType::LongInt => "long int",
        ScalarType::LongUnsignedInt => "long unsigned int",
    }
}

pub fn element_text(element: ElementType) -> &'static str
    ensures { result.now ≡ element_text element }
{
    match element {
        ElementType::Scalar(ty) => scalar_text(ty),
        ElementType::UnsignedChar => "unsigned char",
    }
}

pub fn result_text(returned: ResultType) -> &'static str
    ensures { result.now ≡ result_text returned }
{
    match returned {
        ResultType::Void => "void",
        ResultType::Scalar(ty) => scalar_text(ty),
    }
}

/// With the space that follows; a strong definition has no word.
pub fn linkage_text(linkage: Linkage) -> &'static str
    ensures { result.now ≡ linkage_text linkage }
{
    match linkage {
        Linkage::Extern => "extern ",
        Linkage::Strong => "",
        Linkage::Weak => "weak ",
        Linkage::Static => "static ",
    }
}

pub fn unary_text(op: UnaryOp) -> &'static str
    ensures { result.now ≡ unary_text op }
{
    match op {
        UnaryOp::Neg => "-",
        UnaryOp::Not => "~",
    }
}

pub fn binary_text(op: BinaryOp) -> &'static str
    ensures { result.now ≡ binary_text op }
{
    match op {
        BinaryOp::Add => "+",
        BinaryOp::Sub => "-",
        BinaryOp::Mul => "*",
        BinaryOp::Div => "/",
        BinaryOp::Rem => "%",
        BinaryOp::And => "&",
        BinaryOp::Or => "|",
        BinaryOp::Xor => "^",
        BinaryOp::Shl => "<<",
        BinaryOp::Shr => ">>",
        BinaryOp::Eq => "==",
        BinaryOp::Ne => "!=",
        BinaryOp::Lt => "<",
        BinaryOp::Le => "<=",
        BinaryOp::Gt => ">",
        BinaryOp::Ge => ">=",
    }
}

fn suffix_text(ty: ScalarType) -> &'static str
    ensures { result.now ≡ suffix_text ty }
{
    match ty {
        ScalarType::Int => "",
        ScalarType::UnsignedInt => "u",
        ScalarType::LongInt => "l",
        ScalarType::LongUnsignedInt => "ul",
    }
}

/// Appends the number, with `-` directly before it where it is negative.
pub fn put_number(out: &mut Vec<u8>, number: i128) -> Result<(), NoMemory>
    ensures { OnOk result (out.new.items ≡ out.old.items ++ signed_decimal number) }
{
    let mut buffer = Buffer::new();
    out.extend_from_slice(buffer.format(number).as_bytes())?;
    Ok(())
}

/// Appends the number, and the suffix that gives it its type.
pub fn put_literal(out: &mut Vec<u8>, value: Value) -> Result<(), NoMemory>
    ensures { OnOk result (out.new.items ≡ out.old.items ++ literal_text value) }
{
    put_number(out, value.num)?;
    out.extend_from_slice(suffix_text(value.ty).as_bytes())?;
    Ok(())
}
