// Slots that are taken: a 1 for each that a record names or a file number stands on.
// kept: bytes and no bools, since the clauses tell of 0 and 1, and `filled` counts them as it counts the words of slots.
ghost use Rattle.std.specs.Prelude.{◌≡◌, ℕ, ◌≤◌, length, get_or, IfSome};
ghost use Rattle.layout.specs.Numbers.{extent_at, file_numbers, most_slots};
ghost use Rattle.slots.specs.Uses.{Within};
ghost use Rattle.lawful_slots.specs.Uses.{filled, entry_word, NamedBy, OpenedBy};

use layout::kind::Kind;
use layout::{FILE_NUMBERS, MOST_SLOTS, kind_of, len_of, slot_held, slot_of};

// Whether the word can be that of an entry's slot: a directory's, which has no bytes, a file's or a link's.
// kept: the kind as a number; by `Kind::of` a chain of 511 entries takes 10.04 ns an entry for 8.55, and its goal is 10 (bench/store.c).
fn entry_word(h: u64) -> bool
    ensures { result ≡ entry_word h }
{
    let kind = kind_of(h);
    ((kind == Kind::Directory.code()) & (len_of(h) == 0))
        | (kind == Kind::File.code())
        | (kind == Kind::Link.code())
}

// Takes the slot of each record; false where one is taken already, or its word is none of an entry's.
// kept: beside slots::marks::mark_records, as take_open beside mark_numbers: one contract for both, over closures, is longer than both
pub fn take_named(recs: &[u64], heads: &[u64], taken: &mut [u8; MOST_SLOTS]) -> bool
    requires { (length heads.now ≤ most_slots) × Within (length heads.now) recs.now × (length taken.old ≡ most_slots)
        × ((k : ℕ) → get_or taken.old k 0 ≡ 0) × (filled taken.old ≡ 0) }
    ensures { NamedBy recs.now heads.now taken.new result × (length taken.new ≡ most_slots) }
{
    for w in recs {
        let s = slot_of(*w);
        if taken[s] != 0 || !entry_word(heads[s]) {
            return false;
        }
        taken[s] = 1;
    }
    true
}

// Takes each slot that a file number stands on: how many were not taken before, or None where one is no file's.
pub fn take_open(words: &[u64], heads: &[u64], taken: &mut [u8; MOST_SLOTS]) -> Option<usize>
    requires { (extent_at ≤ length words.now) × (length heads.now ≤ most_slots) × (length taken.old ≡ most_slots)
        × ((k : ℕ) → get_or taken.old k 0 ≤ 1) }
    ensures { OpenedBy words.now heads.now taken.old taken.new file_numbers result
        × (length taken.new ≡ most_slots) × IfSome result (λ n. n ≤ file_numbers) }
{
    let mut more = 0;
    for j in 0..FILE_NUMBERS {
        let Some(k) = slot_held(words, j) else {
            continue;
        };
        // on none of these slots
        if heads.len() <= k {
            continue;
        }
        if Kind::of(heads[k]) != Some(Kind::File) {
            return None;
        }
        if taken[k] == 0 {
            taken[k] = 1;
            more += 1;
        }
    }
    Some(more)
}

// How many words are not 0. (Ones are added up: a filter that is counted takes three times as long.)
pub fn in_use(heads: &[u64]) -> usize
    ensures { result ≡ filled heads.now }
{
    heads.iter().map(|h| usize::from(*h != 0)).sum()
}
