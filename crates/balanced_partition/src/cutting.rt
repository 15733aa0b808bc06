//! Cuts all versions, one partition after the other.
ghost use Rattle.std.specs.Prelude.{◌≡◌, ◌+◌, ◌*◌, ◌^◌, ◌<◌, ◌≤◌, All, IfOk, length, sum};
ghost use Rattle.balanced_partition.specs.Cuts.{cuts_of, JoinUp, IsBetween};

use crate::range::Range;
use crate::versions::Versions;
use gimple_ir::{List, NoMemory};
use std::alloc::Global;

/// The partitions of versions with these sizes, in order. Each call is a pair of versions.
///
/// More versions than a `u32` can number are refused as want of memory.
pub fn cut(
    alloc: Global,
    sizes: &[u64],
    calls: &[(u32, u32)],
    wanted: u32,
) -> Result<List<Range>, NoMemory>
    requires sizes { 0 < length sizes.now }
    requires sum { sum sizes.now < 2 ^ 62 }
    requires calls { All (IsBetween (length sizes.now)) calls.now }
    requires wanted { 0 < wanted }
    ensures cuts { IfOk result (λ ranges. ranges ≡ cuts_of sizes.now calls.now wanted) }
    ensures joined { IfOk result (λ ranges. JoinUp 0 (length sizes.now) ranges) }
    ensures few { IfOk result (λ ranges. length ranges ≤ 4 * wanted + 1) }
{
    if sizes.len() > u32::MAX as usize {
        return Err(NoMemory);
    }
    let versions = Versions::new(alloc, sizes, calls, wanted)?;
    let count = versions.count();
    let mut ranges = List::new(alloc);
    let mut from = 0;
    while from < count {
        let to = versions.cut_after(from);
        ranges.push(Range { from, to })?;
        from = to;
    }
    Ok(ranges)
}
