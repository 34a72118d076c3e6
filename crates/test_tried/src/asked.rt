// What the edits ask of a store.
ghost use Rattle.std.specs.Prelude.{true, ◌≡◌, ◌<◌, length};
ghost use Rattle.layout.specs.Numbers.{lengths};
ghost use Rattle.layout.specs.Lent.{lends, lent_by};
ghost use Rattle.layout.specs.Lawful.{Lawful};
ghost use Rattle.edit_room.specs.Extents.{Roomy};
ghost use Rattle.test_tried.specs.Tried.{Whole, Fits};

use layout::slices::Slices;
use layout::{
    FILE_NUMBERS, LENGTHS, MOST_AT, MOST_ENTRIES, PATHS_BYTES, ROOM_AT, TIMES, WORD_COUNT,
};

// kept: a cast with a name
const MOST: usize = MOST_ENTRIES as usize;

// kept: a cast with a name
const LENGTH: usize = LENGTHS as usize;

// Whether the slices are as long as the limits ask, and no longer.
fn whole(lent: Slices) -> bool
    ensures { result ≡ true → Whole (lent_by lent.entry) }
{
    if lent.words.len() != WORD_COUNT {
        return false;
    }
    let most = lent.words[MOST_AT] as usize;
    let slots = lent.heads.len();
    most <= MOST
        && lent.records.len() == most
        && slots == most + FILE_NUMBERS
        && lent.times.len() == TIMES * slots
        && lent.paths.len() == PATHS_BYTES
        && lent.bytes.len() == lent.words[ROOM_AT] as usize
}

// Whether the slices are a store that an edit may be made in.
// kept: the slices are lent one by one, as callers have them: a `Slices` at each of the 18 calls is eight lines, and tells no more.
pub fn ready(
    words: &[u64],
    records: &[u64],
    heads: &[u64],
    times: &[i64],
    paths: &[u8],
    bytes: &[u8],
) -> bool
    ensures { result ≡ true → Roomy (lends words.now records.now heads.now times.now paths.now bytes.now) }
{
    let lent = Slices {
        words,
        records,
        heads,
        times,
        paths,
        bytes,
    };
    whole(lent) && lawful::store_ok(lent)
}

// Whether n more bytes are within the byte limit where `free` bytes go: by the bytes used, worked out from the tree.
pub fn room_for(lent: Slices, free: usize, n: usize) -> bool
    requires { Lawful (lent_by lent) × (free < lengths) }
    ensures { result ≡ true → Fits (lent_by lent.entry) free n }
{
    if LENGTH < n {
        return false;
    }
    let used = ask_used::bytes_used(lent.words, lent.records, lent.heads);
    used + n <= lent.bytes.len() + free
}
