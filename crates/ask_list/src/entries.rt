// The entries of a directory, one after the other: of the records behind one, those of a depth, up to the first that is less deep.
// What lies deeper is passed.
ghost use Rattle.std.specs.Prelude.{◌≡◌, ◌+◌, ◌<◌, length};
ghost use Rattle.std.specs.Iterator.{YieldsFirst, item_count};
ghost use Rattle.layout.specs.Rows.{name_total};
ghost use Rattle.ask_list.specs.Listed.{Placed};
ghost use Rattle.ask_list.specs.Entries.{entries_at, entries_behind};

use ask_find::Spot;
use layout::{depth_of, nlen_of};

// An entry, and the length of its name.
#[derive(Clone, Copy)]
pub struct Entry {
    pub spot: Spot,
    pub size: u8,
}

// The records that are left, the spot of the first of them, and the depth of the entries.
#[derive(Drop)]
pub struct Entries<'a> {
    pub left: &'a [u64],
    pub spot: Spot,
    pub depth: usize,
    ghost fits: { (spot.at + length left.now < 4294967296) × (spot.off + name_total left.now < 4294967296) },
}

impl<'a> Entries<'a> {
    // The entries of a depth behind the one at the spot.
    pub fn behind(records: &'a [u64], spot: Spot, depth: usize) -> Entries<'a>
        requires { Placed records.now spot }
        ensures { entries_at result.depth result.left.now result.spot ≡ entries_behind records.now spot depth }
    {
        Entries {
            left: &records[spot.at + 1..],
            spot: spot.behind(records[spot.at]),
            depth,
        }
    }
}

impl<'a> Iterator for Entries<'a> {
    type Item = Entry;

    ghost next_gives = { YieldsFirst (λ s. entries_at s.depth s.left.now s.spot) };

    ghost remaining = { item_count (λ s. entries_at s.depth s.left.now s.spot) };

    fn next(&mut self) -> Option<Entry> {
        while let Some((w, left)) = self.left.split_first() {
            let t = depth_of(*w);
            if t < self.depth {
                return None;
            }
            let entry = Entry {
                spot: self.spot,
                size: nlen_of(*w) as u8,
            };
            self.left = left;
            self.spot = entry.spot.behind(*w);
            if t == self.depth {
                return Some(entry);
            }
        }
        None
    }
}
