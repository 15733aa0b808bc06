//! Where labels stand.
ghost use Rattle.std.specs.Prelude.{◌≡◌, ◌*◌, ◌≤◌, ◌^◌, ℕ, IfOk, slice_index};
ghost use Rattle.std.specs.List.{AllByRecursion};
ghost use Rattle.rv64_select.specs.Code.{words_of, words_in, label_offset};
ghost use Rattle.rv64_select.specs.Items.{LabelBelow};

use crate::item::Item;
use gimple_ir::NoMemory;
use std::alloc::Global;

impl Item {
    /// The number of words.
    pub fn words(self) -> u32
        ensures { result ≡ words_of self }
    {
        match self {
            Item::Label(_) => 0,
            Item::Call(_) => 2,
            _ => 1,
        }
    }
}

/// The offsets of the labels from 0 up to a number, in bytes.
pub fn label_offsets(alloc: Global, labels: u32, items: &[Item]) -> Result<Vec<u32>, NoMemory>
    requires short { 4 * words_in items.now ≤ 2 ^ 19 }
    requires below { AllByRecursion (LabelBelow labels) items.now }
    ensures { IfOk result (λ offsets. (l : ℕ) → slice_index offsets.items l ≡ label_offset items.now l) }
{
    let mut offsets = vec![in alloc; 0u32; labels as usize]?;
    let mut at = 0;
    for item in items {
        if let Item::Label(label) = *item {
            offsets[label as usize] = at;
        }
        at += 4 * item.words();
    }
    Ok(offsets)
}
