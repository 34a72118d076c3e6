// Who uses a slot. Marks: for each slot 1 for the record that names it, and 2 more where a file number stands on it.
// kept: numbers and not bools, since mark_records and mark_numbers promise which of the two a mark tells
// kept: slices with their facts one by one, since a struct of them would be built anew for each of three callers
ghost use Rattle.std.specs.Prelude.{cond, [], ◌≡◌, ℕ, ◌+◌, ◌-◌, ◌≤◌, ◌<◌, length, take, get_or};
ghost use Rattle.layout.specs.Numbers.{extent_at, file_numbers, most_slots, word_count};
ghost use Rattle.layout.specs.Store.{lent};
ghost use Rattle.layout.specs.Lawful.{held_from};
ghost use Rattle.slots.specs.Uses.{stands_from, Within, Standing, MarkedBy, is_used};

use layout::{FILE_NUMBERS, HOLDER_AT, MOST_SLOTS, NUMBER_WORDS, slot_held, slot_of};

// Marks the slot of each record; false where one is marked already.
pub fn mark_records(recs: &[u64], marks: &mut [u8; MOST_SLOTS]) -> bool
    requires { Within most_slots recs.now × (length marks.old ≡ most_slots) × ((k : ℕ) → get_or marks.old k 0 ≡ 0) }
    ensures { MarkedBy recs.now marks.new result × (length marks.new ≡ most_slots) }
{
    for w in recs {
        let s = slot_of(*w);
        if marks[s] != 0 {
            return false;
        }
        marks[s] = 1;
    }
    true
}

// Adds 2 to the mark of each slot that a file number stands on, once.
pub fn mark_numbers(words: &[u64], marks: &mut [u8; MOST_SLOTS])
    requires { (extent_at ≤ length words.now) × Standing words.now × (length marks.old ≡ most_slots)
        × ((k : ℕ) → get_or marks.old k 0 ≤ 1) }
    ensures { ((k : ℕ) → get_or marks.new k 0
        ≡ get_or marks.old k 0 + cond (stands_from words.now file_numbers 0 k) 2 0)
        × (length marks.new ≡ most_slots) }
{
    for j in 0..FILE_NUMBERS {
        let Some(s) = slot_held(words, j) else {
            continue;
        };
        let m = marks[s];
        if 2 <= m {
            continue;
        }
        marks[s] = m + 2;
    }
}

// Whether a number has the word h: one more than the slot that it stands on.
pub fn is_held(words: &[u64], h: u64) -> bool
    requires { (length words.now ≡ word_count) × (0 < h) }
    ensures { result ≡ held_from (lent words.now [] [] [] [] []) file_numbers 0 (h - 1) }
{
    (0..FILE_NUMBERS).any(|n| words[HOLDER_AT + NUMBER_WORDS * n] == h)
}

// Whether one of the records has the slot.
pub fn is_used(records: &[u64], slot: usize) -> bool
    ensures { result ≡ is_used slot records.now }
{
    records.iter().any(|w| slot_of(*w) == slot)
}
