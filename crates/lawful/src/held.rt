// Slots, and the bytes that stand in them.
ghost use Rattle.std.specs.Prelude.{◌≡◌, ◌-◌, ◌≤◌, length};
ghost use Rattle.layout.specs.Numbers.{extent_at, most_entries, most_bytes, most_slots};
ghost use Rattle.model.specs.Rules.{target_ok};
ghost use Rattle.layout.specs.Rows.{name_total};
ghost use Rattle.layout.specs.Slots.{total};
ghost use Rattle.lawful_limits.specs.Settles.{Settles};
ghost use Rattle.slots.specs.Uses.{Within, Standing};
ghost use Rattle.lawful.specs.Parts.{LinksRight, SlotsHeld};

use layout::kind::Kind;
use layout::len_of;
use path::lengths::lengths_ok;
use text::text_ok;

// The bytes of the names.
// kept: this and bytes_total, which add the bounds that the test needs and others do not
pub fn names_total(recs: &[u64]) -> usize
    requires { length recs.now ≤ most_entries }
    ensures { (result ≡ name_total recs.now) × (result ≤ most_bytes) }
{
    layout::names_of(recs)
}

// The bytes of the slots.
pub fn bytes_total(heads: &[u64]) -> usize
    requires { length heads.now ≤ most_slots }
    ensures { (result ≡ total heads.now) × (result ≤ 69256347648) }
{
    slots::total_of(heads)
}

// Whether the bytes are a link's target.
pub fn target_ok(s: &[u8]) -> bool
    ensures { result ≡ target_ok s.now }
{
    text_ok(s) && lengths_ok(s)
}

// Whether the bytes of every link are a target, where those of the slots stand one behind the other.
fn links_ok(heads: &[u64], contents: &[u8]) -> bool
    requires { total heads.now ≤ length contents.now }
    ensures { Settles result (LinksRight heads.now contents.now) }
{
    let mut rest = contents;
    for h in heads {
        let (target, behind) = rest.split_at(len_of(*h));
        if Kind::of(*h) == Some(Kind::Link) && !target_ok(target) {
            return false;
        }
        rest = behind;
    }
    true
}

// Whether every slot is right.
pub fn slots_held(words: &[u64], recs: &[u64], heads: &[u64], bytes: &[u8], from: usize) -> bool
    requires { (extent_at ≤ length words.now) × (length heads.now ≤ most_slots) × Within (length heads.now) recs.now
        × Standing words.now × (total heads.now ≤ length bytes.now) × (from ≡ length bytes.now - total heads.now) }
    ensures { Settles result (SlotsHeld words.now recs.now heads.now bytes.now) }
{
    lawful_slots::slots_ok(words, recs, heads) && links_ok(heads, &bytes[from..])
}
