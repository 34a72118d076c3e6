// What stands in the slot of record i.
// kept: the slices are lent one by one, since each edit writes others of them; one struct of six `&mut` would ask to write them all.
ghost use Rattle.std.specs.Prelude.{IfSome, ◌≡◌, ◌≤◌, ◌<◌, length, get_or};
ghost use Rattle.layout.specs.Numbers.{word_count};
ghost use Rattle.layout.specs.Fields.{slot_of};
ghost use Rattle.layout.specs.Store.{count};
ghost use Rattle.layout.specs.Lent.{lends, lent_by};
ghost use Rattle.layout.specs.Lawful.{Lawful};
ghost use Rattle.ask_find.specs.Paths.{slot_at};
ghost use Rattle.edit_room.specs.Extents.{Roomy};
ghost use Rattle.edit_slot.specs.Changes.{HasRoom};

use crate::asked::{ready, room_for};
use edit_slot::Given;
use layout::kind::Kind;
use layout::slices::Slices;
use layout::{COUNT_AT, EXTENT_AT, len_of, slot_of};

// The slot of record i, if it is one of so many.
fn slot_at(words: &[u64], records: &[u64], slots: usize, i: usize) -> Option<usize>
    requires { (length words.now ≡ word_count) × (get_or words.now 2 0 ≤ length records.now) }
    ensures { IfSome result (λ k. (k < slots) × (i < get_or words.now 2 0) × (k ≡ slot_of (get_or records.now i 0))) }
{
    if words[COUNT_AT] as usize <= i {
        return None;
    }
    let slot = slot_of(records[i]);
    (slot < slots).then_some(slot)
}

// The slot of the file at record i, if n bytes in place of its own are within the byte limit.
fn file_at(lent: Slices, i: usize, n: usize) -> Option<usize>
    requires { Lawful (lent_by lent) }
    ensures { let st = lent_by lent.entry in IfSome result (λ k. (i < count st) × (k ≡ slot_at st i) × HasRoom st k n) }
{
    let slot = slot_at(lent.words, lent.records, lent.heads.len(), i)?;
    let h = lent.heads[slot];
    if Kind::of(h) != Some(Kind::File) {
        return None;
    }
    room_for(lent, len_of(h), n).then_some(slot)
}

pub fn try_mode(
    words: &[u64],
    records: &[u64],
    heads: &mut [u64],
    times: &[i64],
    paths: &[u8],
    bytes: &[u8],
    i: usize,
    mode: u32,
) -> bool {
    if !ready(words, records, heads, times, paths, bytes) {
        return false;
    }
    let slots = words[EXTENT_AT] as usize;
    let Some(slot) = slot_at(words, records, slots, i) else {
        return false;
    };
    edit_slot::set_mode(&mut heads[..slots], slot, mode);
    true
}

pub fn try_times(
    words: &[u64],
    records: &[u64],
    heads: &[u64],
    times: &mut [i64],
    paths: &[u8],
    bytes: &[u8],
    i: usize,
    accessed: i64,
    modified: i64,
) -> bool {
    if !ready(words, records, heads, times, paths, bytes) {
        return false;
    }
    let slots = words[EXTENT_AT] as usize;
    let Some(slot) = slot_at(words, records, slots, i) else {
        return false;
    };
    edit_slot::set_times(times, slot, accessed, modified);
    true
}

pub fn try_some_times(
    words: &[u64],
    records: &[u64],
    heads: &[u64],
    times: &mut [i64],
    paths: &[u8],
    bytes: &[u8],
    i: usize,
    accessed: Option<i64>,
    modified: Option<i64>,
) -> bool {
    if !ready(words, records, heads, times, paths, bytes) {
        return false;
    }
    let slots = words[EXTENT_AT] as usize;
    let Some(slot) = slot_at(words, records, slots, i) else {
        return false;
    };
    edit_slot::set_some_times(times, slot, Given { accessed, modified });
    true
}

// The contents of the file at record i.
pub fn contents_in(
    words: &[u64],
    records: &[u64],
    heads: &mut [u64],
    times: &mut [i64],
    paths: &[u8],
    bytes: &mut [u8],
    i: usize,
    text: &[u8],
    t: i64,
) -> bool
    requires { Roomy (lends words.now records.now heads.old times.old paths.now bytes.old) }
    ensures { Roomy (lends words.now records.now heads.new times.new paths.now bytes.new) }
{
    let slots = words[EXTENT_AT] as usize;
    let lent = Slices {
        words,
        records,
        heads: &heads[..slots],
        times,
        paths,
        bytes,
    };
    let Some(slot) = file_at(lent, i, text.len()) else {
        return false;
    };
    edit_slot::set_contents(&mut heads[..slots], times, bytes, slot, text, t);
    true
}

pub fn try_contents(
    words: &[u64],
    records: &[u64],
    heads: &mut [u64],
    times: &mut [i64],
    paths: &[u8],
    bytes: &mut [u8],
    i: usize,
    text: &[u8],
    t: i64,
) -> bool {
    if !ready(words, records, heads, times, paths, bytes) {
        return false;
    }
    contents_in(words, records, heads, times, paths, bytes, i, text, t)
}

pub fn try_length(
    words: &[u64],
    records: &[u64],
    heads: &mut [u64],
    times: &[i64],
    paths: &[u8],
    bytes: &mut [u8],
    i: usize,
    size: usize,
) -> bool {
    if !ready(words, records, heads, times, paths, bytes) {
        return false;
    }
    let slots = words[EXTENT_AT] as usize;
    let lent = Slices {
        words,
        records,
        heads: &heads[..slots],
        times,
        paths,
        bytes,
    };
    let Some(slot) = file_at(lent, i, size) else {
        return false;
    };
    edit_slot::set_length(&mut heads[..slots], bytes, slot, size);
    true
}
