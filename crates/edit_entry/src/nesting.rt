// An entry below a new directory in its place.
ghost use Rattle.layout.specs.Lent.{◌∘◌, ◌&◌, with_heads, on_heads, SomeLawful, OnLawful};
ghost use Rattle.edit_entry.specs.Lent.{with_entries, on_entries};
ghost use Rattle.edit_entry.specs.Nesting.{MayNest, Nested};

use crate::fill::{fill_slot, vacant_slot};
use crate::lent::Entries;
use crate::made::{Fresh, Made};
use layout::COUNT_AT;
use std::ops::Range;

// The records of the block, an entry with all below it, become the entry `name` of a new directory, which has its old place and name.
pub fn nest_entry(l: Entries, heads: &mut [u64], block: Range<usize>, name: &[u8], new: Fresh)
    requires { SomeLawful (with_entries l ∘ with_heads heads.old) (λ st. MayNest st block.start block.end name.now) }
    ensures { OnLawful (on_entries l.entry l.exit & on_heads heads.old heads.new) (λ st u. Nested st u block.start block.end name.now new) }
{
    let Entries {
        words,
        records,
        times,
        bytes,
    } = l;
    let count = words[COUNT_AT] as usize;
    let s = vacant_slot(heads);
    records::lower_block(records, bytes, count, block, s, name);
    words[COUNT_AT] = count as u64 + 1;
    fill_slot(heads, times, bytes, s, Made::Directory, new);
}
