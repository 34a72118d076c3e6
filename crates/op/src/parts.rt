// The parts of lent slices that the limits ask.
ghost use Rattle.std.specs.Prelude.{◌≡◌};
ghost use Rattle.layout.specs.Lawful.{Passes};
ghost use Rattle.layout.specs.Lent.{lent_by};
ghost use Rattle.op.specs.Parts.{cut, tree_of, SizesOf};

use layout::slices::{Slices, Tree};
use layout::{FILE_NUMBERS, MOST_AT, PATHS_BYTES, ROOM_AT, TIMES, WORD_COUNT};

// How long they are. The words of the state and the cells of the kept paths are as long in every store.
// kept: lengths and no slices, since parts that are written can only be cut in the call that lends them.
#[derive(Clone, Copy)]
pub struct Sizes {
    pub records: usize,
    pub heads: usize,
    pub times: usize,
    pub bytes: usize,
}

impl Sizes {
    pub fn of(lent: Slices) -> Sizes
        requires { Passes (lent_by lent) }
        ensures { SizesOf (lent_by lent.entry) result }
    {
        let records = lent.words[MOST_AT] as usize;
        let heads = records + FILE_NUMBERS;
        Sizes {
            records,
            heads,
            times: TIMES * heads,
            bytes: lent.words[ROOM_AT] as usize,
        }
    }
}

// So much of each.
pub fn used<'a>(lent: Slices<'a>) -> Slices<'a>
    requires { Passes (lent_by lent) }
    ensures { lent_by result ≡ cut (lent_by lent.entry) }
{
    let n = Sizes::of(lent);
    Slices {
        words: &lent.words[..WORD_COUNT],
        records: &lent.records[..n.records],
        heads: &lent.heads[..n.heads],
        times: &lent.times[..n.times],
        paths: &lent.paths[..PATHS_BYTES],
        bytes: &lent.bytes[..n.bytes],
    }
}

// Those that hold the tree.
pub fn tree_of<'a>(lent: Slices<'a>) -> Tree<'a>
    ensures { result ≡ tree_of lent.entry }
{
    Tree {
        words: lent.words,
        records: lent.records,
        heads: lent.heads,
        bytes: lent.bytes,
    }
}
