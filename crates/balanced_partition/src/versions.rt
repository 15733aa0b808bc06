//! Versions in their order, and what cutting them asks.
ghost use Rattle.std.specs.Prelude.{◌≡◌, [], ◌+◌, ◌-◌, ◌*◌, ◌^◌, ◌<◌, ◌≤◌, ◌++◌, ◌∷◌, All, IfOk, OnOk, length, sum, count_by, slice_set};
ghost use Rattle.std.specs.List.{slice_index_or};
ghost use Rattle.balanced_partition.specs.Cuts.{weight_of, is_within, reach_of, cut_of, IsBetween};
ghost use Rattle.balanced_partition.specs.Tables.{AreSums, AreEnds, calls_with};

use gimple_ir::{List, NoMemory};
use std::alloc::Global;

/// Versions with their sizes and calls, and the size that a partition is to have.
#[derive(Drop)]
pub struct Versions<'a> {
    pub sizes: &'a [u64],
    pub calls: &'a [(u32, u32)],
    pub aim: u64,
    sums: Vec<u64>,
    ends: Vec<List<u32>>,
    ghost small: { sum sizes.now < 2 ^ 62 },
    ghost numbered: { length sizes.now < 2 ^ 32 },
    ghost aimed: { aim < 2 ^ 62 },
    ghost between: { All (IsBetween (length sizes.now)) calls.now },
    ghost summed: { AreSums sizes.now sums.items },
    ghost ended: { AreEnds calls.now (length sizes.now) ends.items },
}

impl<'a> Versions<'a> {
    ghost use Rattle.std.specs.Int.{div_ceil};

    pub fn new(
        alloc: Global,
        sizes: &'a [u64],
        calls: &'a [(u32, u32)],
        wanted: u32,
    ) -> Result<Versions<'a>, NoMemory>
        requires numbered { length sizes.now < 2 ^ 32 }
        requires sum { sum sizes.now < 2 ^ 62 }
        requires calls { All (IsBetween (length sizes.now)) calls.now }
        requires wanted { 0 < wanted }
        ensures sizes { IfOk result (λ versions. versions.sizes.now ≡ sizes.now) }
        ensures calls { IfOk result (λ versions. versions.calls.now ≡ calls.now) }
        ensures aim { IfOk result (λ versions. versions.aim ≡ div_ceil (sum sizes.now) wanted) }
    {
        let (sums, total) = sums_of(alloc, sizes)?;
        let ends = ends_of(alloc, sizes.len(), calls)?;
        let aim = total.div_ceil(wanted as u64);
        Ok(Versions {
            sizes,
            calls,
            aim,
            sums,
            ends,
        })
    }

    pub fn count(&self) -> u32
        ensures { result ≡ length self.now.sizes.now }
    {
        self.sizes.len() as u32
    }

    /// Where a partition ends that begins at `from`.
    pub fn cut_after(&self, from: u32) -> u32
        requires { from < length self.now.sizes.now }
        ensures { result ≡ cut_of self.now.sizes.now self.now.aim from self.now.calls.now }
    {
        let reach = self.reach(from);
        if reach == self.count() {
            reach
        } else {
            self.best(from, reach)
        }
    }

    /// The last place to which the sum stays within the aim, one version at least.
    fn reach(&self, from: u32) -> u32
        requires { from < length self.now.sizes.now }
        ensures { result ≡ reach_of self.now.sizes.now self.now.aim from }
    {
        let count = self.count();
        let mut place = from + 1;
        while place < count && self.weight(from, place + 1) <= self.aim {
            place += 1;
        }
        place
    }

    /// The last place up to `reach` with the fewest calls to later versions, among those at half of the aim or beyond;
    /// `reach` where there is none.
    fn best(&self, from: u32, reach: u32) -> u32
        requires from { from < reach }
        requires reach { reach < length self.now.sizes.now }
        requires is { reach ≡ reach_of self.now.sizes.now self.now.aim from }
        ensures { result ≡ cut_of self.now.sizes.now self.now.aim from self.now.calls.now }
    {
        let count = self.count();
        let mut cut = reach;
        let mut fewest = self.calls.len();
        let mut crossing = 0;
        for version in from..reach {
            let place = version + 1;
            let joined = self.calls_to(version, from, version);
            let later = self.calls_to(version, place, count);
            crossing = crossing - joined + later;
            if self.aim <= 2 * self.weight(from, place) && crossing <= fewest {
                cut = place;
                fewest = crossing;
            }
        }
        cut
    }

    /// The sum of the sizes from one version up to a place.
    fn weight(&self, from: u32, place: u32) -> u64
        requires from { from ≤ place }
        requires place { place ≤ length self.now.sizes.now }
        ensures { result ≡ weight_of self.now.sizes.now from place }
    {
        self.sums[place as usize] - self.sums[from as usize]
    }

    /// How many calls there are between the version and those from `from` up to `to`.
    fn calls_to(&self, version: u32, from: u32, to: u32) -> usize
        requires { version < length self.now.sizes.now }
        ensures { result ≡ calls_with self.now.calls.now version (is_within from to) }
    {
        count_within(self.ends[version as usize].as_slice(), from, to)
    }
}

/// How many of the numbers are from `from` up to `to`, without `to` itself.
fn count_within(numbers: &[u32], from: u32, to: u32) -> usize
    ensures { result ≡ count_by (is_within from to) numbers.now }
{
    let mut count = 0;
    for number in numbers {
        if from <= *number && *number < to {
            count += 1;
        }
    }
    count
}

/// The sum before each place, and the whole sum.
fn sums_of(alloc: Global, sizes: &[u64]) -> Result<(Vec<u64>, u64), NoMemory>
    requires { sum sizes.now < 2 ^ 62 }
    ensures sums { IfOk result (λ pair. AreSums sizes.now pair.0.items) }
    ensures total { IfOk result (λ pair. pair.1 ≡ sum sizes.now) }
{
    let mut sums = Vec::new(alloc);
    let mut total = 0;
    sums.push(total)?;
    for size in sizes {
        total += *size;
        sums.push(total)?;
    }
    Ok((sums, total))
}

/// For each version the versions at the other ends of its calls.
fn ends_of(alloc: Global, count: usize, calls: &[(u32, u32)]) -> Result<Vec<List<u32>>, NoMemory>
    requires { All (IsBetween count) calls.now }
    ensures { IfOk result (λ ends. AreEnds calls.now count ends.items) }
{
    let counts = call_counts(alloc, count, calls)?;
    let mut ends = empty_lists(alloc, counts.as_slice())?;
    for call in calls {
        push_at(&mut ends, call.0, call.1)?;
        push_at(&mut ends, call.1, call.0)?;
    }
    Ok(ends)
}

/// How many ends of calls each version has, which only the capacities go by.
fn call_counts(alloc: Global, count: usize, calls: &[(u32, u32)]) -> Result<Vec<usize>, NoMemory>
    requires { All (IsBetween count) calls.now }
    ensures { IfOk result (λ counts. length counts.items ≡ count) }
{
    let mut counts: Vec<usize> = Vec::new(alloc);
    counts.resize(count, 0)?;
    for call in calls {
        add_one(&mut counts, call.0);
        add_one(&mut counts, call.1);
    }
    Ok(counts)
}

fn add_one(counts: &mut Vec<usize>, version: u32)
    requires { version < length counts.old.items }
    ensures { length counts.new.items ≡ length counts.old.items }
{
    counts[version as usize] = counts[version as usize].saturating_add(1);
}

/// A list without elements for each of these capacities.
fn empty_lists(alloc: Global, capacities: &[usize]) -> Result<Vec<List<u32>>, NoMemory>
    ensures { IfOk result (λ lists. AreEnds [] (length capacities.now) lists.items) }
{
    let mut lists = Vec::with_capacity(alloc, capacities.len())?;
    for capacity in capacities {
        lists.push(List::from_vec(Vec::with_capacity(alloc, *capacity)?))?;
    }
    Ok(lists)
}

/// Appends the number to the list at a place.
fn push_at(lists: &mut Vec<List<u32>>, place: u32, number: u32) -> Result<(), NoMemory>
    requires { place < length lists.old.items }
    ensures { OnOk result (lists.new.items ≡ slice_set lists.old.items place (slice_index_or lists.old.items place [] ++ number ∷ [])) }
{
    let list = &mut lists[place as usize];
    list.push(number)?;
    Ok(())
}
