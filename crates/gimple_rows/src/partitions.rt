//! Rows of partitions.
ghost use Rattle.std.specs.Prelude.{◌≡◌, ◌^◌, ◌<◌, length, sum};

use crate::lines::{Tally, parted};
use anyhow::{Result, bail};
use balanced_partition::{NoMemory, Range, cut};
use gimple_ir::List;
use std::alloc::Global;

/// The numbers of a word, each below 256; none where it is `-`.
pub fn numbers_of(alloc: Global, word: &str) -> Result<Vec<u8>> {
    let mut numbers = Vec::new(alloc);
    if word != "-" {
        for part in word.split(',') {
            numbers.push(part.parse::<u8>()?)?;
        }
    }
    Ok(numbers)
}

/// The call of a word; none where it is `-`.
fn call_of(word: &str) -> Result<Option<(u32, u32)>> {
    if word == "-" {
        return Ok(None);
    }
    let Some((caller, callee)) = word.split_once('>') else {
        bail!("no call: {word}");
    };
    Ok(Some((caller.parse::<u32>()?, callee.parse::<u32>()?)))
}

/// The partitions of two versions.
fn cut_two(
    alloc: Global,
    a: u8,
    b: u8,
    call: Option<(u32, u32)>,
    wanted: u32,
) -> Result<List<Range>, NoMemory>
    requires { 0 < wanted }
{
    let sizes = [u64::from(a), u64::from(b)];
    match call {
        None => cut(alloc, &sizes, &[], wanted),
        Some((caller, callee)) => cut(alloc, &sizes, &[(caller % 2, callee % 2)], wanted),
    }
}

/// The partitions of four versions.
fn cut_four(
    alloc: Global,
    sizes: [u64; 4],
    call: Option<(u32, u32)>,
    wanted: u32,
) -> Result<List<Range>, NoMemory>
    requires count { length sizes ≡ 4 }
    requires sum { sum sizes < 2 ^ 62 }
    requires wanted { 0 < wanted }
{
    match call {
        None => cut(alloc, &sizes, &[], wanted),
        Some((caller, callee)) => cut(alloc, &sizes, &[(caller % 4, callee % 4)], wanted),
    }
}

/// The places behind the first at which the partitions begin, and that where the last ends.
fn places_of(alloc: Global, ranges: &List<Range>) -> Result<Vec<u8>> {
    let mut places = Vec::new(alloc);
    for range in ranges.as_slice() {
        places.push(u8::try_from(range.to)?)?;
    }
    Ok(places)
}

/// Whether the partitions of versions with calls between them are as the line says.
pub fn cuts_at(alloc: Global, line: &str) -> Result<bool> {
    let (wanted, rest) = parted(line);
    let (calls, rest) = parted(rest);
    let (sizes, places) = parted(rest);
    let wanted = wanted.parse::<u32>()?.max(1);
    let sizes = numbers_of(alloc, sizes)?;
    let call = call_of(calls)?;
    let ranges = match sizes.as_slice() {
        [a, b] => cut_two(alloc, *a, *b, call, wanted)?,
        [a, b, c, d] => cut_four(alloc, four_of(*a, *b, *c, *d), call, wanted)?,
        _ => bail!("neither two versions nor four"),
    };
    Ok(places_of(alloc, &ranges)? == numbers_of(alloc, places)?)
}

/// Four sizes.
fn four_of(a: u8, b: u8, c: u8, d: u8) -> [u64; 4]
    ensures count { length result ≡ 4 }
    ensures sum { sum result < 2 ^ 62 }
{
    [u64::from(a), u64::from(b), u64::from(c), u64::from(d)]
}

/// Which partitions the versions of these sizes fall into, with two calls: the sum of 1, 2 and 4 for a cut at 1, 2 and 3.
fn cuts_with(alloc: Global, sizes: [u8; 4], ends: u32, wanted: u32) -> Result<u8, NoMemory>
    requires { 0 < wanted }
{
    let [a, b, c, d] = sizes;
    let calls = [(ends % 4, ends / 4 % 4), (ends / 16 % 4, ends / 64 % 4)];
    let ranges = cut(alloc, &four_of(a, b, c, d), &calls, wanted)?;
    let mut cuts = 0;
    for range in ranges.as_slice() {
        cuts |= match range.to {
            1 => 1,
            2 => 2,
            3 => 4,
            _ => 0,
        };
    }
    Ok(cuts)
}

/// Whether they are as the line says, with each pair of calls: a row for each.
pub fn cuts_each(alloc: Global, tally: &mut Tally, line: &str) -> Result<bool> {
    let (wanted, rest) = parted(line);
    let (sizes, digits) = parted(rest);
    let wanted = wanted.parse::<u32>()?.max(1);
    let sizes = numbers_of(alloc, sizes)?;
    let [a, b, c, d] = sizes.as_slice() else {
        bail!("not four versions");
    };
    let sizes = [*a, *b, *c, *d];
    let mut all = true;
    for (ends, digit) in (0..256u32).zip(digits.bytes()) {
        let cuts = cuts_with(alloc, sizes, ends, wanted)?;
        let holds = tally.count(cuts.wrapping_add(b'0') == digit);
        all = all && holds;
    }
    if digits.len() != 256 {
        bail!("not 256 rows");
    }
    Ok(all)
}
