#![tactic(auto)]
// The exact test of refusal 1: whether lent slices are a store.
ghost use Rattle.std.specs.Prelude.{ℕ, ◌^◌, ◌<◌, ◌≤◌, length, get_or};
ghost use Rattle.layout.specs.Numbers.{extent_at, most_entries, most_bytes, most_slots, paths_bytes};
ghost use Rattle.layout.specs.Lawful.{Keeps, Passes};
ghost use Rattle.layout.specs.Lent.{lends, lent_by};
ghost use Rattle.lawful_limits.specs.Settles.{Settles};
ghost use Rattle.lawful.specs.Parts.{Parts};

use layout::slices::Slices;
use layout::{COUNT_AT, EXTENT_AT, PATHS_BYTES, ROOM_AT, WORD_COUNT};

// kept: each part of the test takes the slices that it reads, with their facts: a struct for each such set is longer than the facts
pub mod cells;
pub mod held;
pub mod sizes;

// Whether slices obey the rules that are cut: to the records of the entries and no more, and the words of the slots so far.
fn parts_ok(cut: Slices) -> bool
    requires { (extent_at ≤ length cut.words.now) × (length cut.records.now ≤ most_entries) × (length cut.heads.now ≤ most_slots)
        × (paths_bytes ≤ length cut.paths.now) × (length cut.bytes.now ≤ most_bytes) }
    ensures { let c = cut.entry in Settles result (Parts c.words.now c.records.now c.heads.now c.paths.now c.bytes.now) }
{
    let names = held::names_total(cut.records);
    let rest = held::bytes_total(cut.heads);
    if cut.bytes.len() < names + rest
        || !lawful_entries::entries_ok(cut.records, cut.heads, cut.bytes, names)
        || !cells::kept_ok(cut.words, cut.paths, cut.heads.len())
    {
        return false;
    }
    let from = cut.bytes.len() - rest;
    held::slots_held(cut.words, cut.records, cut.heads, cut.bytes, from)
}

// Whether the slices keep the rules; each may be longer than the limits ask. Slots behind those so far are not looked at.
fn rules_ok(s: Slices) -> bool
    ensures { Settles result (Keeps (lent_by s.entry)) }
{
    if !lawful_limits::limits_ok(s.words) || !lawful_limits::is_long(s) {
        return false;
    }
    let slots = s.words[EXTENT_AT] as usize;
    let room = s.words[ROOM_AT] as usize;
    let count = s.words[COUNT_AT] as usize;
    parts_ok(Slices {
        words: &s.words[..WORD_COUNT],
        records: &s.records[..count],
        heads: &s.heads[..slots],
        times: s.times,
        paths: &s.paths[..PATHS_BYTES],
        bytes: &s.bytes[..room],
    })
}

// What words and bytes hold, whatever they hold: it is known of the slices themselves, and not of those in a struct.
fn unsigned_known(words: &[u64], heads: &[u64], bytes: &[u8])
    ensures words { (i : ℕ) → get_or words.now i 0 < 2 ^ 64 }
    ensures heads { (i : ℕ) → get_or heads.now i 0 < 2 ^ 64 }
    ensures bytes { (i : ℕ) → get_or bytes.now i 0 < 256 }
{}

// Whether the slices are a store. The times are gone through for their sizes alone, which costs nothing.
pub fn store_ok(lent: Slices) -> bool
    ensures { Settles result (Passes (lent_by lent.entry)) }
{
    sizes::known(lent.times);
    unsigned_known(lent.words, lent.heads, lent.bytes);
    rules_ok(lent)
}
