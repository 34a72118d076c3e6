// An entry under another name, in another directory.
ghost use Rattle.std.specs.Prelude.{◌+◌, ◌≤◌, ◌<◌, length, take, get_or};
ghost use Rattle.layout.specs.Numbers.{most_entries, name_lengths, slot_numbers};
ghost use Rattle.layout.specs.Fields.{nlen_of, slot_of};
ghost use Rattle.layout.specs.Rows.{name_total};
ghost use Rattle.layout.specs.Lent.{◌∘◌, with_words, with_records, with_bytes, SomeLawful, still};
ghost use Rattle.layout.specs.Lent.{◌&◌, on_records, on_bytes, OnLawful};
ghost use Rattle.edit_entry.specs.Movement.{Movable, MovedTo};
ghost use Rattle.edit_entry.specs.Renaming.{Renamed};

use ask_find::Gap;
use layout::{COUNT_AT, depth_of};
use std::ops::Range;

// The record is taken out and put back with the other name: there is room, since one is out.
fn rename_record(records: &mut [u64], bytes: &mut [u8], i: usize, name: &[u8])
    requires { (i < length records.old) × (length records.old ≤ most_entries) × (length name.now < name_lengths)
        × (slot_of (get_or records.old i 0) < slot_numbers) × (name_total records.old ≤ length bytes.old)
        × (name_total records.old + length name.now ≤ length bytes.old + nlen_of (get_or records.old i 0)) }
    ensures { Renamed records.old bytes.old records.new bytes.new
        (length records.old) i name.now }
{
    let w = records[i];
    let word = layout::record_word(depth_of(w), name.len(), layout::slot_of(w));
    records::close_entries(records, bytes, i..i + 1);
    let left = records.len() - 1;
    records::open_entry(records, bytes, left, i, word, name);
}

// The records of the block, an entry with all below it, become the entry `name` at the gap.
pub fn move_entry(
    words: &[u64],
    records: &mut [u64],
    bytes: &mut [u8],
    block: Range<usize>,
    gap: Gap,
    name: &[u8],
)
    requires { SomeLawful (with_words words.now ∘ with_records records.old ∘ with_bytes bytes.old)
        (λ st. Movable st block.start block.end gap.at gap.depth name.now) }
    ensures { OnLawful (still (with_words words.now) & on_records records.old records.new
        & on_bytes bytes.old bytes.new) (λ st u. MovedTo st u block.start block.end gap.at gap.depth name.now) }
{
    let live = &mut records[..words[COUNT_AT] as usize];
    let i = block.start;
    let depth = depth_of(live[i]);
    rename_record(live, bytes, i, name);
    records::move_block(live, bytes, block, gap.at, gap.depth as u64, depth as u64);
}
