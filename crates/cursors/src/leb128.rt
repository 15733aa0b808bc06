// Unsigned LEB128 in its shortest form: the group of bytes that spells a number, and the writing of one.
ghost use Rattle.std.specs.Prelude.{ℕ, List, slice_index, ◌↔◌, ◌≡◌, ◌++◌, ◌≤◌, ◌<◌, ◌^◌, length, Some, None, IfSome, OnOk, OnErr, nat_lt, if◌then◌else◌};
ghost use Rattle.cursors.specs.Leb128.{IsUleb, uleb_of, group_len, number_of};

use crate::NoMemory;

// The most bytes of a number below 2^64.
const MOST_BYTES: usize = 10;

/// Writes the shortest spelling at the end.
pub fn put_uleb(out: &mut Vec<u8>, value: u64) -> Result<(), NoMemory>
    ensures ok { OnOk result (out.new.items ≡ out.old.items ++ uleb_of value) }
    ensures err { OnErr result (out.new.items ≡ out.old.items) }
{
    let mut spelling = [0u8; MOST_BYTES];
    let mut len = 0;
    let mut rest = value;
    while rest >= 128 {
        spelling[len] = (128 + rest % 128) as u8;
        len += 1;
        rest /= 128;
    }
    spelling[len] = rest as u8;
    out.extend_from_slice(&spelling[..len + 1])
}

// How many bytes there are up to the first below 128, it included.
pub(crate) fn group_length(bytes: &[u8]) -> Option<usize>
    ensures value { result ≡ group_len bytes.now }
    ensures bytes { (i : ℕ) → slice_index bytes.now i < 256 }
    ensures within { IfSome result (λ len. (0 < len) × (len ≤ length bytes.now)) }
{
    for (place, byte) in bytes.iter().enumerate() {
        if *byte < 128 {
            return Some(place + 1);
        }
    }
    None
}

// The number that these bytes spell, the low seven bits first.
pub(crate) fn group_number(group: &[u8]) -> Option<u64>
    ensures { result ≡ (if nat_lt (number_of group.now) (2 ^ 64) then Some (number_of group.now) else None) }
{
    let mut number = 0u64;
    let mut place = group.len();
    while place > 0 {
        place -= 1;
        if number >= 1 << 57 {
            return None;
        }
        number = number * 128 + u64::from(group[place] % 128);
    }
    Some(number)
}

/// No spelling of a number begins another.
pub fn no_spelling_begins_another()
    ensures { (m n : ℕ) (x y : List ℕ) → m < 2 ^ 64 → n < 2 ^ 64 → uleb_of m ++ x ≡ uleb_of n ++ y → (m ≡ n) × (x ≡ y) }
{}

/// The spelling of a number is in the grammar of shortest LEB128, and it alone.
pub fn spelling_is_shortest()
    ensures { (n : ℕ) (text : List ℕ) → n < 2 ^ 64 → IsUleb text n ↔ (text ≡ uleb_of n) }
{}
