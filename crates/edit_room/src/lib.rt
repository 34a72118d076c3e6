#![tactic(auto)]
// How many slots a store has so far. Slots behind them are not looked at, so a test of the store costs what is in use, whatever the
// limits are.
ghost use Rattle.std.specs.Prelude.{◌≡◌, ℕ, ◌-◌, ◌≤◌, ◌<◌, length, get_or};
ghost use Rattle.edit_room.specs.Extents.{Reserved, Released, SomeRoomy, OnSlots};

use layout::{BEYOND, EXTENT_AT, MOST_AT};

// One slot more, where the limits allow it: it is free. Where they do not, a slot before it is free while an entry may be added.
pub fn reserve(words: &mut [u64], heads: &mut [u64])
    requires { SomeRoomy words.old heads.old }
    ensures { OnSlots words.old words.new heads.old heads.new Reserved }
{
    let n = words[EXTENT_AT];
    if words[MOST_AT] + BEYOND <= n {
        return;
    }
    heads[n as usize] = 0;
    words[EXTENT_AT] = n + 1;
}

// The index behind the last word that is not 0.
fn used_end(heads: &[u64]) -> usize
    ensures { (result ≤ length heads.now) × ((k : ℕ) → result ≤ k → get_or heads.now k 0 ≡ 0)
        × (0 < result → get_or heads.now (result - 1) 0 ≡ 0 → ⊥) }
{
    match heads.iter().rposition(|w| *w != 0) {
        Some(last) => last + 1,
        None => 0,
    }
}

// The free slots at the end are given up.
pub fn release(words: &mut [u64], heads: &[u64])
    requires { SomeRoomy words.old heads.now }
    ensures { OnSlots words.old words.new heads.now heads.now Released }
{
    let n = words[EXTENT_AT] as usize;
    words[EXTENT_AT] = used_end(&heads[..n]) as u64;
}
