// A new entry.
ghost use Rattle.model.specs.Tree.{Path};
ghost use Rattle.layout.specs.Lent.{◌∘◌, ◌&◌, with_heads, on_heads, SomeLawful, OnLawful};
ghost use Rattle.edit_entry.specs.Lent.{with_entries, on_entries};
ghost use Rattle.edit_entry.specs.Insertion.{MayPut, Put, MayInsert, MayRoot, Inserted, Rooted};

use crate::fill::{fill_slot, vacant_slot};
use crate::lent::Entries;
use crate::made::{Fresh, Made};
use layout::COUNT_AT;

// An entry of that depth and name before record k, in the lowest free slot.
fn put_in(
    l: Entries,
    heads: &mut [u64],
    k: usize,
    depth: usize,
    name: &[u8],
    made: Made,
    new: Fresh,
)
    requires { SomeLawful (with_entries l ∘ with_heads heads.old) (λ st. MayPut st k depth name.now made) }
    ensures { OnLawful (on_entries l.entry l.exit & on_heads heads.old heads.new) (λ st u. Put st u k depth name.now made.entry new) }
{
    let Entries {
        words,
        records,
        times,
        bytes,
    } = l;
    let count = words[COUNT_AT] as usize;
    let s = vacant_slot(heads);
    let word = layout::record_word(depth, name.len(), s);
    records::open_entry(records, bytes, count, k, word, name);
    words[COUNT_AT] = count as u64 + 1;
    fill_slot(heads, times, bytes, s, made, new);
}

// The entry `name` of a directory, at its place before record k.
pub fn insert_entry(
    l: Entries,
    heads: &mut [u64],
    k: usize,
    depth: usize,
    name: &[u8],
    made: Made,
    new: Fresh,
)
    requires { SomeLawful (with_entries l ∘ with_heads heads.old) (λ st. (q : Path) × MayInsert st k depth q name.now made) }
    ensures { OnLawful (on_entries l.entry l.exit & on_heads heads.old heads.new) (λ st u. Inserted st u k depth name.now made.entry new) }
{
    let Entries {
        words,
        records,
        times,
        bytes,
    } = l;
    let lent = Entries {
        words,
        records,
        times,
        bytes,
    };
    put_in(lent, heads, k, depth, name, made, new);
}

// The root of an empty tree.
pub fn insert_root(l: Entries, heads: &mut [u64], new: Fresh)
    requires { SomeLawful (with_entries l ∘ with_heads heads.old) MayRoot }
    ensures { OnLawful (on_entries l.entry l.exit & on_heads heads.old heads.new) (λ st u. Rooted st u new) }
{
    let Entries {
        words,
        records,
        times,
        bytes,
    } = l;
    let lent = Entries {
        words,
        records,
        times,
        bytes,
    };
    put_in(lent, heads, 0, 0, &[], Made::Directory, new);
}
