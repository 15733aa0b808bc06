//! The words of a line that are no numbers or names: what is answered of a symbol, and its id.
ghost use Rattle.std.specs.Prelude.{◌≡◌, ◌<◌, true};
ghost use Rattle.std.specs.Char.{digit_value};
ghost use Rattle.std.specs.List.{list_all};
ghost use Rattle.resolution_text.specs.Fields.{id_of, is_hexadecimal, spelling as spelling_of, word_of};

use crate::resolution::Word;

const WORDS: [Word; 10] = [
    Word::Unknown,
    Word::Undef,
    Word::PrevailingDef,
    Word::PrevailingDefIronly,
    Word::PrevailingDefIronlyExp,
    Word::PreemptedReg,
    Word::PreemptedIr,
    Word::ResolvedIr,
    Word::ResolvedExec,
    Word::ResolvedDyn,
];

pub fn spelling(word: Word) -> &'static str
    ensures { result.now ≡ spelling_of word }
{
    match word {
        Word::Unknown => "UNKNOWN",
        Word::Undef => "UNDEF",
        Word::PrevailingDef => "PREVAILING_DEF",
        Word::PrevailingDefIronly => "PREVAILING_DEF_IRONLY",
        Word::PrevailingDefIronlyExp => "PREVAILING_DEF_IRONLY_EXP",
        Word::PreemptedReg => "PREEMPTED_REG",
        Word::PreemptedIr => "PREEMPTED_IR",
        Word::ResolvedIr => "RESOLVED_IR",
        Word::ResolvedExec => "RESOLVED_EXEC",
        Word::ResolvedDyn => "RESOLVED_DYN",
    }
}

pub fn word(text: &[u8]) -> Option<Word>
    ensures { result ≡ word_of text.now }
{
    WORDS
        .iter()
        .copied()
        .find(|word| spelling(*word).as_bytes() == text)
}

fn all_hexadecimal(text: &[u8]) -> bool
    ensures { result ≡ list_all is_hexadecimal text.now }
{
    text.iter().all(|byte| byte.is_ascii_hexdigit())
}

/// The number that 1 to 16 hexadecimal digits in either case write.
pub fn id(text: &[u8]) -> Option<u64>
    ensures { result ≡ id_of text.now }
{
    if text.is_empty() || text.len() > 16 || !all_hexadecimal(text) {
        return None;
    }
    let mut id = 0u64;
    for byte in text {
        id = id * 16 + u64::from(digit(*byte));
    }
    Some(id)
}

fn digit(byte: u8) -> u8
    requires { is_hexadecimal byte ≡ true }
    ensures value { result ≡ digit_value byte }
    ensures small { result < 16 }
{
    match byte {
        b'0'..=b'9' => byte - b'0',
        b'a'..=b'f' => byte - b'a' + 10,
        _ => byte - b'A' + 10,
    }
}
