// An entry taken out of a store, with all below it and the slots that nothing has any more.
ghost use Rattle.std.specs.Prelude.{ℕ, ◌≤◌, ◌<◌, ◌≡◌, length};
ghost use Rattle.layout.specs.Numbers.{extent_at, most_slots, word_count};
ghost use Rattle.layout.specs.Slots.{total};
ghost use Rattle.layout.specs.Lent.{◌∘◌, with_words, with_records, with_heads, with_bytes, SomeLawful};
ghost use Rattle.layout.specs.Lent.{◌&◌, on_words, on_records, on_heads, on_bytes, OnLawful};
ghost use Rattle.slots.specs.Uses.{uses_in, Within, Standing};
ghost use Rattle.edit_entry.specs.Clearing.{keeps_one, keeps_used, Cleared};
ghost use Rattle.edit_entry.specs.Removal.{Block, Removed};

use layout::{COUNT_AT, MOST_SLOTS};
use std::ops::Range;

// Frees the slot that no record names any more, where no file number stands on it.
// kept: the words as a slice of a known length: as an array its caller would have to turn its slice into one.
fn free_one(words: &[u64], heads: &mut [u64], bytes: &mut [u8], s: usize)
    requires { (length words.now ≡ word_count) × (s < length heads.old) × (length heads.old ≤ most_slots)
        × (total heads.old ≤ length bytes.old) }
    ensures { Cleared heads.old bytes.old heads.new bytes.new
        (keeps_one words.now s) }
{
    if slots::marks::is_held(words, s as u64 + 1) {
        return;
    }
    slots::clear(heads, bytes, s);
}

// Frees every slot that no record names and no file number stands on. (No slot is named twice, so mark_records answers true.)
fn free_unused(words: &[u64], recs: &[u64], heads: &mut [u64], bytes: &mut [u8])
    requires { (extent_at ≤ length words.now) × Standing words.now × (length heads.old ≤ most_slots)
        × Within (length heads.old) recs.now × ((k : ℕ) → k < length heads.old → uses_in k recs.now ≤ 1)
        × (total heads.old ≤ length bytes.old) }
    ensures { Cleared heads.old bytes.old heads.new bytes.new
        (keeps_used words.now recs.now) }
{
    let mut marks = [0u8; MOST_SLOTS];
    let n = heads.len();
    slots::marks::mark_records(recs, &mut marks);
    slots::marks::mark_numbers(words, &mut marks);
    slots::sweep(heads, bytes, &marks[..n]);
}

// The records of the block, an entry and all below it.
// kept: the slices are lent one by one, since a removal touches no times, and Entries would ask them of the caller.
pub fn remove_entry(
    words: &mut [u64],
    records: &mut [u64],
    heads: &mut [u64],
    bytes: &mut [u8],
    block: Range<usize>,
)
    requires { SomeLawful (with_words words.old ∘ with_records records.old ∘ with_heads heads.old ∘ with_bytes bytes.old)
        (λ st. Block st block.start block.end) }
    ensures { OnLawful (on_words words.old words.new & on_records records.old records.new & on_heads heads.old heads.new
        & on_bytes bytes.old bytes.new) (λ st u. Removed st u block.start block.end) }
{
    let count = words[COUNT_AT] as usize;
    let s = layout::slot_of(records[block.start]);
    let gone = block.end - block.start;
    records::close_entries(&mut records[..count], bytes, block);
    let left = count - gone;
    words[COUNT_AT] = left as u64;
    if gone == 1 {
        free_one(words, heads, bytes, s);
        return;
    }
    free_unused(words, &records[..left], heads, bytes);
}
