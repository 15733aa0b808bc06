// Numbers below 2^64 as decimals without leading zeros.
ghost use Rattle.std.specs.Prelude.{◌≡◌, ◌++◌, ◌<◌, ◌^◌, ℕ, OnOk, OnErr, IfSome, Some, decimal as decimal_of};
ghost use Rattle.cursors.specs.Decimals.{decimal_value};

use crate::NoMemory;
use itoa::Buffer;
use std::str;

/// The number below 2^64 whose decimal without leading zeros this is.
pub fn decimal(text: &[u8]) -> Option<u64>
    ensures found { IfSome result (λ n. (n < 2 ^ 64) × (text.now ≡ decimal_of n)) }
    ensures only { (n : ℕ) → n < 2 ^ 64 → text.now ≡ decimal_of n → result ≡ Some n }
    ensures exact { result ≡ decimal_value text.now }
{
    parsed(text)
}

// Reads digits by std's rules, which let zeros and a sign in, prints what was read, and compares.
fn parsed(text: &[u8]) -> Option<u64>
    ensures found { IfSome result (λ n. (n < 2 ^ 64) × (text.now ≡ decimal_of n)) }
    ensures only { (n : ℕ) → n < 2 ^ 64 → text.now ≡ decimal_of n → result ≡ Some n }
{
    let Ok(words) = str::from_utf8(text) else {
        return None;
    };
    let Ok(number) = words.parse::<u64>() else {
        return None;
    };
    let mut buffer = Buffer::new();
    if buffer.format(number).as_bytes() == text {
        Some(number)
    } else {
        None
    }
}

/// Writes the decimal at the end.
pub fn put_decimal(out: &mut Vec<u8>, value: u64) -> Result<(), NoMemory>
    ensures ok { OnOk result (out.new.items ≡ out.old.items ++ decimal_of value) }
    ensures err { OnErr result (out.new.items ≡ out.old.items) }
{
    let mut buffer = Buffer::new();
    out.extend_from_slice(buffer.format(value).as_bytes())
}
