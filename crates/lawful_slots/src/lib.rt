#![tactic(auto)]
// The slots of a store against who uses them.
ghost use Rattle.std.specs.Prelude.{◌≤◌, length};
ghost use Rattle.layout.specs.Numbers.{extent_at, most_slots};
ghost use Rattle.lawful_limits.specs.Settles.{Settles};
ghost use Rattle.slots.specs.Uses.{Within, Standing};
ghost use Rattle.lawful_slots.specs.Uses.{SlotsRight};

use crate::taken::{in_use, take_named, take_open};
use layout::MOST_SLOTS;

mod taken;

// Whether every slot is right but for the bytes of links. What has a slot says what its word may be. Where then as many words are
// not 0 as slots are taken, the words of all others are 0. (Not inlined, so that what its loops read stays in registers.)
#[inline(never)]
pub fn slots_ok(words: &[u64], recs: &[u64], heads: &[u64]) -> bool
    requires { (extent_at ≤ length words.now) × (length heads.now ≤ most_slots)
        × Within (length heads.now) recs.now × Standing words.now }
    ensures { Settles result (SlotsRight words.now recs.now heads.now) }
{
    let mut taken = [0u8; MOST_SLOTS];
    if !take_named(recs, heads, &mut taken) {
        return false;
    }
    let Some(more) = take_open(words, heads, &mut taken) else {
        return false;
    };
    in_use(heads) == recs.len() + more
}
