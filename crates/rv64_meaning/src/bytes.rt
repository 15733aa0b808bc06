//! Numbers in bytes, least first.

ghost use Rattle.std.specs.Prelude.{◌≡◌, ◌≤◌, length};
ghost use Rattle.rv64_meaning.specs.Bytes.{number_of};

/// The number in at most eight bytes, least first.
pub fn number(bytes: &[u8]) -> u64
    requires { length bytes.now ≤ 8 }
    ensures { result ≡ number_of bytes.now }
{
    let mut value = 0;
    for i in (0..bytes.len()).rev() {
        value = value * 256 + u64::from(bytes[i]);
    }
    value
}

/// The word in four bytes, least first.
#[tactic(auto, using(crate::proofs::ByteLaws::number_of_four))]
pub fn word(bytes: &[u8]) -> u32
    requires { length bytes.now ≡ 4 }
    ensures { result ≡ number_of bytes.now }
{
    let low = u32::from(bytes[0]) + u32::from(bytes[1]) * 0x100;
    low + u32::from(bytes[2]) * 0x1_0000 + u32::from(bytes[3]) * 0x100_0000
}
