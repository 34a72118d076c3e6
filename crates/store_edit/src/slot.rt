// What stands at a spot is changed: its mode, its times, the bytes of a file.
ghost use Rattle.model.specs.Prog.{change};
ghost use Rattle.model.specs.Tree.{chmod as chmod-to, touch as touch-to};
ghost use Rattle.layout.specs.Lent.{◌∘◌, with_words, with_records, with_heads, with_times, with_bytes, still};
ghost use Rattle.layout.specs.Lent.{◌&◌, on_heads, on_times, on_bytes, On};
ghost use Rattle.store.specs.Shows.{SomeEntry};
ghost use Rattle.store_edit.specs.Turns.{SomeSpot, TurnsAt, MayWrite, Writes};

use ask_find::Spot;
use layout::{EXTENT_AT, slot_of};

// The mode of a directory, a file or a link.
pub fn chmod(words: &[u64], records: &[u64], heads: &mut [u64], spot: Spot, m: u32)
    requires { SomeEntry (with_words words.now ∘ with_records records.now ∘ with_heads heads.old) spot }
    ensures { On (still (with_words words.now ∘ with_records records.now)
        & on_heads heads.old heads.new) (TurnsAt spot (λ p. change p (chmod-to m))) }
{
    let i = spot.at;
    let slot = slot_of(records[i]);
    let slots = words[EXTENT_AT] as usize;
    edit_slot::set_mode(&mut heads[..slots], slot, m);
}

// The first time for accessed, changed and created, the second for modified.
pub fn touch(records: &[u64], times: &mut [i64], spot: Spot, a: i64, t: i64)
    requires { SomeEntry (with_records records.now ∘ with_times times.old) spot }
    ensures { On (still (with_records records.now) & on_times times.old times.new) (TurnsAt spot (λ p. change p (touch-to a t))) }
{
    let i = spot.at;
    edit_slot::set_times(times, slot_of(records[i]), a, t);
}

// Other bytes of a file, and the time modified.
// kept: the slices are lent one by one, since the words and the records are read alone, and Entries lends them to be written.
pub fn write(
    words: &[u64],
    records: &[u64],
    heads: &mut [u64],
    times: &mut [i64],
    bytes: &mut [u8],
    spot: Spot,
    contents: &[u8],
    t: i64,
)
    requires { SomeSpot (with_words words.now ∘ with_records records.now ∘ with_heads heads.old ∘ with_times times.old ∘ with_bytes bytes.old) spot
        (MayWrite contents.now t) }
    ensures { On (still (with_words words.now ∘ with_records records.now) & on_heads heads.old heads.new & on_times times.old times.new
        & on_bytes bytes.old bytes.new)
        (Writes spot contents.now t) }
{
    let i = spot.at;
    let slot = slot_of(records[i]);
    let slots = words[EXTENT_AT] as usize;
    edit_slot::set_contents(&mut heads[..slots], times, bytes, slot, contents, t);
}
