// An entry is moved, with all below it, or put below a new directory in its place.
ghost use Rattle.std.specs.Prelude.{T};
ghost use Rattle.model.specs.Rules.{name_ok};
ghost use Rattle.layout.specs.Lent.{◌∘◌, with_words, with_records, with_heads, with_bytes, still};
ghost use Rattle.layout.specs.Lent.{◌&◌, on_records, on_heads, on_bytes, On};
ghost use Rattle.edit_entry.specs.Lent.{with_entries, on_entries};
ghost use Rattle.store_edit.specs.Turns.{SomeSpot};
ghost use Rattle.store_edit.specs.Moves.{SomeMove, Moves, MayNestAt, Nests, SomeFree, NestsFree};

use ask_find::{Gap, Spot, block_end};
use edit_entry::lent::Entries;
use edit_entry::made::Fresh;
use layout::{EXTENT_AT, nlen_of};
use store::live;

// The entry at the spot, with all below it, becomes the entry `name` at the gap, which was found with the entry itself counted as out.
pub fn move_to(
    words: &[u64],
    records: &mut [u64],
    bytes: &mut [u8],
    spot: Spot,
    gap: Gap,
    name: &[u8],
)
    requires { SomeMove (with_words words.now ∘ with_records records.old ∘ with_bytes bytes.old) spot gap name.now × T (name_ok name.now) }
    ensures { On (still (with_words words.now) & on_records records.old records.new & on_bytes bytes.old bytes.new) (Moves spot gap name.now) }
{
    let i = spot.at;
    let end = block_end(live(words, records), i);
    edit_entry::moving::move_entry(words, records, bytes, i..end, gap, name);
}

// The entry at the spot becomes the entry `name` of a new directory, which has its old place and name. One of the slots so far is free.
fn nest_free(l: Entries, heads: &mut [u64], spot: Spot, name: &[u8], new: Fresh) -> Spot
    requires { SomeFree (with_entries l ∘ with_heads heads.old) spot name.now new × T (name_ok name.now) }
    ensures { On (on_entries l.entry l.exit & on_heads heads.old heads.new) (NestsFree spot name.now new result) }
{
    let Entries {
        words,
        records,
        times,
        bytes,
    } = l;
    let i = spot.at;
    let off = spot.off + nlen_of(records[i]);
    let end = block_end(live(words, records), i);
    let slots = words[EXTENT_AT] as usize;
    let lent = Entries {
        words,
        records,
        times,
        bytes,
    };
    edit_entry::nesting::nest_entry(lent, &mut heads[..slots], i..end, name, new);
    Spot { at: i + 1, off }
}

// The same in any store. The answer is the entry at its new place.
pub fn nest(l: Entries, heads: &mut [u64], spot: Spot, name: &[u8], new: Fresh) -> Spot
    requires { SomeSpot (with_entries l ∘ with_heads heads.old) spot (MayNestAt name.now new) × T (name_ok name.now) }
    ensures { On (on_entries l.entry l.exit & on_heads heads.old heads.new) (Nests spot name.now new result) }
{
    let Entries {
        words,
        records,
        times,
        bytes,
    } = l;
    edit_room::reserve(words, heads);
    let lent = Entries {
        words,
        records,
        times,
        bytes,
    };
    let r = nest_free(lent, heads, spot, name, new);
    edit_room::release(words, heads);
    r
}
