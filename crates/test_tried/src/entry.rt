// Entries put in and taken out.
// kept: the slices are lent one by one, since each edit writes others of them; one struct of six `&mut` would ask to write them all.
ghost use Rattle.std.specs.Prelude.{◌<◌};
ghost use Rattle.layout.specs.Store.{most, count};
ghost use Rattle.layout.specs.Lent.{lends};
ghost use Rattle.layout.specs.Lawful.{Lawful};
ghost use Rattle.slots.specs.Free.{HasFree};
ghost use Rattle.edit_room.specs.Extents.{Roomy};

use crate::asked::ready;
use crate::place::{made_of, may_insert, spot_in};
use edit_entry::insert::{insert_entry, insert_root};
use edit_entry::lent::Entries;
use edit_entry::made::{Fresh, Made};
use layout::slices::Slices;
use layout::{COUNT_AT, EXTENT_AT};

pub fn try_root(
    words: &mut [u64],
    records: &mut [u64],
    heads: &mut [u64],
    times: &mut [i64],
    paths: &[u8],
    bytes: &mut [u8],
    mode: u32,
    time: i64,
) -> bool {
    if !ready(words, records, heads, times, paths, bytes) {
        return false;
    }
    if words[COUNT_AT] != 0 {
        return false;
    }
    edit_room::reserve(words, heads);
    let slots = words[EXTENT_AT] as usize;
    let lent = Entries {
        words,
        records,
        times,
        bytes,
    };
    insert_root(lent, &mut heads[..slots], Fresh { mode, time });
    edit_room::release(words, heads);
    true
}

// The entry `name` of the directory at record dir, in a store that obeys the rules and has a free slot below the entry limit.
fn insert_exact(
    l: Entries,
    heads: &mut [u64],
    paths: &[u8],
    dir: usize,
    name: &[u8],
    made: Made,
    new: Fresh,
) -> bool
    requires { let st = lends l.words.now l.records.now heads.old l.times.now paths.now l.bytes.now in
        Lawful st × (count st < most st → HasFree st.heads) }
    ensures { Lawful (lends l.exit.0.now l.exit.1.0.now heads.new l.exit.1.1.0.now paths.now l.exit.1.1.1.0.now) }
{
    let Entries {
        words,
        records,
        times,
        bytes,
    } = l;
    let lent = Slices {
        words,
        records,
        heads,
        times,
        paths,
        bytes,
    };
    let Some(gap) = spot_in(lent, dir, name) else {
        return false;
    };
    if !may_insert(lent, name, made) {
        return false;
    }
    let left = Entries {
        words,
        records,
        times,
        bytes,
    };
    insert_entry(left, heads, gap.at, gap.depth, name, made, new);
    true
}

// The same, with room behind the words of the slots so far.
pub fn insert_made(
    l: Entries,
    heads: &mut [u64],
    paths: &[u8],
    dir: usize,
    name: &[u8],
    made: Made,
    new: Fresh,
) -> bool
    requires { Roomy (lends l.words.now l.records.now heads.old l.times.now paths.now l.bytes.now) }
    ensures { Roomy (lends l.exit.0.now l.exit.1.0.now heads.new l.exit.1.1.0.now paths.now l.exit.1.1.1.0.now) }
{
    let Entries {
        words,
        records,
        times,
        bytes,
    } = l;
    edit_room::reserve(words, heads);
    let slots = words[EXTENT_AT] as usize;
    let left = Entries {
        words,
        records,
        times,
        bytes,
    };
    let done = insert_exact(left, &mut heads[..slots], paths, dir, name, made, new);
    edit_room::release(words, heads);
    done
}

// The same, of an entry of that kind with those bytes; one of a kind that is none is not made.
// kept: the kind is a number, as in `made_of`.
pub fn insert_in(
    l: Entries,
    heads: &mut [u64],
    paths: &[u8],
    dir: usize,
    name: &[u8],
    kind: u64,
    mode: u32,
    time: i64,
    text: &[u8],
) -> bool
    requires { Roomy (lends l.words.now l.records.now heads.old l.times.now paths.now l.bytes.now) }
    ensures { Roomy (lends l.exit.0.now l.exit.1.0.now heads.new l.exit.1.1.0.now paths.now l.exit.1.1.1.0.now) }
{
    let Entries {
        words,
        records,
        times,
        bytes,
    } = l;
    let Some(made) = made_of(kind, text) else {
        return false;
    };
    let new = Fresh { mode, time };
    let left = Entries {
        words,
        records,
        times,
        bytes,
    };
    let done = insert_made(left, heads, paths, dir, name, made, new);
    done
}

pub fn try_insert(
    words: &mut [u64],
    records: &mut [u64],
    heads: &mut [u64],
    times: &mut [i64],
    paths: &[u8],
    bytes: &mut [u8],
    dir: usize,
    name: &[u8],
    kind: u64,
    mode: u32,
    time: i64,
    text: &[u8],
) -> bool {
    if !ready(words, records, heads, times, paths, bytes) {
        return false;
    }
    let l = Entries {
        words,
        records,
        times,
        bytes,
    };
    let done = insert_in(l, heads, paths, dir, name, kind, mode, time, text);
    done
}

// The entry at record i, with all below it, in a store that obeys the rules.
fn remove_exact(
    words: &mut [u64],
    records: &mut [u64],
    heads: &mut [u64],
    times: &[i64],
    paths: &[u8],
    bytes: &mut [u8],
    i: usize,
) -> bool
    requires { Lawful (lends words.old records.old heads.old times.now paths.now bytes.old) }
    ensures { Lawful (lends words.new records.new heads.new times.now paths.now bytes.new) }
{
    if i == 0 {
        return false;
    }
    let count = words[COUNT_AT] as usize;
    if count <= i {
        return false;
    }
    let e = ask_find::block_end(&records[..count], i);
    edit_entry::removing::remove_entry(words, records, heads, bytes, i..e);
    true
}

// The same, with room behind the words of the slots so far.
pub fn remove_in(
    words: &mut [u64],
    records: &mut [u64],
    heads: &mut [u64],
    times: &[i64],
    paths: &[u8],
    bytes: &mut [u8],
    i: usize,
) -> bool
    requires { Roomy (lends words.old records.old heads.old times.now paths.now bytes.old) }
    ensures { Roomy (lends words.new records.new heads.new times.now paths.now bytes.new) }
{
    let slots = words[EXTENT_AT] as usize;
    let gone = remove_exact(words, records, &mut heads[..slots], times, paths, bytes, i);
    edit_room::release(words, heads);
    gone
}

pub fn try_remove(
    words: &mut [u64],
    records: &mut [u64],
    heads: &mut [u64],
    times: &[i64],
    paths: &[u8],
    bytes: &mut [u8],
    i: usize,
) -> bool {
    if !ready(words, records, heads, times, paths, bytes) {
        return false;
    }
    remove_in(words, records, heads, times, paths, bytes, i)
}
