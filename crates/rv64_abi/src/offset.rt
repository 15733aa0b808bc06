// An offset in two parts, as `%hi` and `%lo` of the psABI split it.
ghost use Rattle.std.specs.Prelude.{◌≡◌, ◌^◌, ◌-◌, pos, neg_ℤ, ◌≤ℤ◌, ◌<ℤ◌};
ghost use Rattle.rv64_isa.specs.Format.{IsUnsigned, IsSigned};
ghost use Rattle.rv64_abi.specs.Offsets.{hi, lo, upper_of};

fn hi(offset: i64) -> i64
    requires { offset <ℤ pos (2 ^ 63 - 2 ^ 11) }
    ensures { result ≡ hi offset }
{
    (offset + 0x800) >> 12
}

/// The 20-bit field of `lui` or `auipc` for the upper part of an offset, rounded so that `lower` makes up for the rest.
pub fn upper(offset: i64) -> i32
    requires { offset <ℤ pos (2 ^ 63 - 2 ^ 11) }
    ensures value { result ≡ upper_of offset }
    ensures field { IsUnsigned (2 ^ 20) result }
{
    hi(offset).rem_euclid(1 << 20) as i32
}

/// The lower part of an offset, from -2048 to 2047.
pub fn lower(offset: i64) -> i32
    requires { offset <ℤ pos (2 ^ 63 - 2 ^ 11) }
    ensures value { result ≡ lo offset }
    ensures field { IsSigned (2 ^ 12) result }
{
    (offset - 4096 * hi(offset)) as i32
}
