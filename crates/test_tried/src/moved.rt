// An entry moved, with all below it.
// kept: the slices are lent one by one, since each edit writes others of them; one struct of six `&mut` would ask to write them all.
ghost use Rattle.std.specs.Prelude.{IfSome, true, ◌≡◌};
ghost use Rattle.layout.specs.Lent.{lent_by};
ghost use Rattle.layout.specs.Lawful.{Lawful};
ghost use Rattle.edit_entry.specs.Movement.{Movable};
ghost use Rattle.test_tried.specs.Tried.{Renamable};

use crate::asked::{ready, room_for};
use crate::place::spot_in;
use ask_find::{Gap, block_end};
use layout::slices::Slices;
use layout::{COUNT_AT, EXTENT_AT, nlen_of};

// Whether record i is there, is not the root's, and may have a name of n bytes within the byte limit.
fn may_rename(lent: Slices, i: usize, n: usize) -> bool
    requires { Lawful (lent_by lent) }
    ensures { result ≡ true → Renamable (lent_by lent.entry) i n }
{
    if i == 0 {
        return false;
    }
    if lent.words[COUNT_AT] as usize <= i {
        return false;
    }
    room_for(lent, nlen_of(lent.records[i]), n)
}

// The end of an entry's records, and where they may go.
#[derive(Drop)]
struct Way {
    end: usize,
    gap: Gap,
}

// Where the entry at record i may go, to be the entry `name` of the directory at record dir: not into itself, nor below itself.
fn way_to(lent: Slices, i: usize, dir: usize, name: &[u8]) -> Option<Way>
    requires { Lawful (lent_by lent) }
    ensures { IfSome result (λ w. Movable (lent_by lent.entry) i w.end w.gap.at w.gap.depth name.now) }
{
    if !may_rename(lent, i, name.len()) {
        return None;
    }
    let end = block_end(&lent.records[..lent.words[COUNT_AT] as usize], i);
    if (i..end).contains(&dir) {
        return None;
    }
    let gap = spot_in(lent, dir, name)?;
    Some(Way { end, gap })
}

// The entry at record i becomes the entry `name` of the directory at record dir, which has none of that name.
pub fn try_move(
    words: &[u64],
    records: &mut [u64],
    heads: &[u64],
    times: &[i64],
    paths: &[u8],
    bytes: &mut [u8],
    i: usize,
    dir: usize,
    name: &[u8],
) -> bool {
    if !ready(words, records, heads, times, paths, bytes) {
        return false;
    }
    let slots = words[EXTENT_AT] as usize;
    let lent = Slices {
        words,
        records,
        heads: &heads[..slots],
        times,
        paths,
        bytes,
    };
    let Some(Way { end, gap }) = way_to(lent, i, dir, name) else {
        return false;
    };
    edit_entry::moving::move_entry(words, records, bytes, i..end, gap, name);
    true
}
