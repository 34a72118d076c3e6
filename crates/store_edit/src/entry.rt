// An entry put into the tree or taken out of it.
// kept: insert, make_root and moving::nest each reserve and release: of a step handed over as a closure no proof tells what it writes.
ghost use Rattle.std.specs.Prelude.{T, [], ◌∷◌, ◌++◌};
ghost use Rattle.path.specs.Path.{Name};
ghost use Rattle.model.specs.Tree.{Path};
ghost use Rattle.model.specs.Rules.{name_ok, target_ok};
ghost use Rattle.layout.specs.Lent.{◌∘◌, with_words, with_records, with_heads, with_bytes};
ghost use Rattle.layout.specs.Lent.{◌&◌, on_words, on_records, on_heads, on_bytes, On};
ghost use Rattle.edit_entry.specs.Lent.{with_entries, on_entries};
ghost use Rattle.edit_entry.specs.Made.{Holds, fresh_meta, insertion};
ghost use Rattle.store.specs.Shows.{Stands};
ghost use Rattle.store_edit.specs.Turns.{SomeState};
ghost use Rattle.store_edit.specs.Entries.{MayMake, Makes, MayMakeRoot, MakesRoot, Removes, MayReplace, Replaces};

use ask_find::{Gap, Spot};
use edit_entry::insert::{insert_entry, insert_root};
use edit_entry::lent::Entries;
use edit_entry::made::{Fresh, Made};
use layout::{EXTENT_AT, depth_of};

// The entry `name` at the gap: the model's make, create or symlink.
pub fn insert(l: Entries, heads: &mut [u64], gap: Gap, name: &[u8], made: Made, new: Fresh) -> Spot
    requires { SomeState (with_entries l ∘ with_heads heads.old) (λ st s. (d : Path) × MayMake name.now gap (insertion made new) st s d)
        × T (name_ok name.now) × Holds made }
    ensures { On (on_entries l.entry l.exit & on_heads heads.old heads.new) (Makes name.now gap (insertion made.entry new) result) }
{
    let Entries {
        words,
        records,
        times,
        bytes,
    } = l;
    let at = gap.at;
    let depth = gap.depth;
    edit_room::reserve(words, heads);
    let slots = words[EXTENT_AT] as usize;
    let lent = Entries {
        words,
        records,
        times,
        bytes,
    };
    insert_entry(lent, &mut heads[..slots], at, depth, name, made, new);
    edit_room::release(words, heads);
    Spot { at, off: gap.off }
}

// The root of an empty tree.
pub fn make_root(l: Entries, heads: &mut [u64], new: Fresh) -> Spot
    requires { SomeState (with_entries l ∘ with_heads heads.old) (λ st s. MayMakeRoot (fresh_meta new) s) }
    ensures { On (on_entries l.entry l.exit & on_heads heads.old heads.new) (MakesRoot (fresh_meta new) result) }
{
    let Entries {
        words,
        records,
        times,
        bytes,
    } = l;
    edit_room::reserve(words, heads);
    let slots = words[EXTENT_AT] as usize;
    let lent = Entries {
        words,
        records,
        times,
        bytes,
    };
    insert_root(lent, &mut heads[..slots], new);
    edit_room::release(words, heads);
    Spot { at: 0, off: 0 }
}

// The entry at the spot goes, with all below it; a file that a number stands on keeps its bytes.
// kept: the slices are lent one by one, since a removal touches no times, and Entries would ask them of the caller.
pub fn remove(
    words: &mut [u64],
    records: &mut [u64],
    heads: &mut [u64],
    bytes: &mut [u8],
    spot: Spot,
)
    requires { SomeState (with_words words.old ∘ with_records records.old ∘ with_heads heads.old ∘ with_bytes bytes.old)
        (λ st s. (d : Path) × (x : Name) × Stands st spot (d ++ (x ∷ []))) }
    ensures { On (on_words words.old words.new & on_records records.old records.new & on_heads heads.old heads.new
        & on_bytes bytes.old bytes.new) (Removes spot) }
{
    let i = spot.at;
    let e = ask_find::block_end(store::live(words, records), i);
    let slots = words[EXTENT_AT] as usize;
    edit_entry::removing::remove_entry(words, records, &mut heads[..slots], bytes, i..e);
    edit_room::release(words, heads);
}

// A link in the place of the entry `name` at the spot, which is a file or a link.
pub fn relink(
    l: Entries,
    heads: &mut [u64],
    spot: Spot,
    name: &[u8],
    target: &[u8],
    new: Fresh,
) -> Spot
    requires { SomeState (with_entries l ∘ with_heads heads.old)
        (λ st s. (d : Path) × Stands st spot (d ++ (name.now ∷ [])) × MayReplace (fresh_meta new) target.now s (d ++ (name.now ∷ [])))
        × T (name_ok name.now) × T (target_ok target.now) }
    ensures { On (on_entries l.entry l.exit & on_heads heads.old heads.new) (Replaces spot name.now (fresh_meta new) target.now result) }
{
    let Entries {
        words,
        records,
        times,
        bytes,
    } = l;
    let at = spot.at;
    let off = spot.off;
    let depth = depth_of(records[at]);
    remove(words, records, heads, bytes, spot);
    let left = Entries {
        words,
        records,
        times,
        bytes,
    };
    let link = insert(
        left,
        heads,
        Gap { at, off, depth },
        name,
        Made::Link(target),
        new,
    );
    link
}
