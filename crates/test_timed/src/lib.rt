#![tactic(auto)]
// Only for timing: an edit made many times in one store, for a C program. The store is tested once, since each edit leaves a store
// that obeys the rules.
// kept: each exported function has the six slices one by one, as C calls it; n is how many times an edit is made, and no length.
use edit_entry::lent::Entries;
use edit_entry::made::{Fresh, Made};
use layout::EXTENT_AT;
use layout::slices::Slices;
use test_tried::asked::ready;
use test_tried::entry::{insert_made, remove_in};
use test_tried::place::{may_insert, spot_in};
use test_tried::slot::contents_in;

// What comes before an insertion: the place of each name, of which each has 10 bytes, in the directory at record dir, and whether
// there is room, up to one that is refused; how many may be made.
#[unsafe(no_mangle)]
pub extern "C" fn timed_place(
    words: &[u64],
    records: &[u64],
    heads: &[u64],
    times: &[i64],
    paths: &[u8],
    bytes: &[u8],
    dir: usize,
    names: &[u8],
    text: &[u8],
) -> usize {
    if !ready(words, records, heads, times, paths, bytes) {
        return 0;
    }
    let slots = words[EXTENT_AT] as usize;
    let lent = Slices {
        words,
        records,
        heads: &heads[..slots],
        times,
        paths,
        bytes,
    };
    let made = Made::File(text);
    for (i, name) in names.chunks_exact(10).enumerate() {
        if spot_in(lent, dir, name).is_none() || !may_insert(lent, name, made) {
            return i;
        }
    }
    names.len() / 10
}

// A file for each name, of which each has 10 bytes, in the directory at record dir, up to one that is refused; how many were made.
#[unsafe(no_mangle)]
pub extern "C" fn timed_insert(
    words: &mut [u64],
    records: &mut [u64],
    heads: &mut [u64],
    times: &mut [i64],
    paths: &[u8],
    bytes: &mut [u8],
    dir: usize,
    names: &[u8],
    text: &[u8],
) -> usize {
    if !ready(words, records, heads, times, paths, bytes) {
        return 0;
    }
    let made = Made::File(text);
    let new = Fresh { mode: 420, time: 1 };
    for (i, name) in names.chunks_exact(10).enumerate() {
        let lent = Entries {
            words,
            records,
            times,
            bytes,
        };
        if !insert_made(lent, heads, paths, dir, name, made, new) {
            return i;
        }
    }
    names.len() / 10
}

// The entry that stands at record i, n times, up to one that is refused; how many were removed.
#[unsafe(no_mangle)]
pub extern "C" fn timed_remove(
    words: &mut [u64],
    records: &mut [u64],
    heads: &mut [u64],
    times: &[i64],
    paths: &[u8],
    bytes: &mut [u8],
    i: usize,
    n: usize,
) -> usize {
    if !ready(words, records, heads, times, paths, bytes) {
        return 0;
    }
    for k in 0..n {
        if !remove_in(words, records, heads, times, paths, bytes, i) {
            return k;
        }
    }
    n
}

// The contents of the file at record i, a and then b, n times, up to a refusal; how many times both were stored.
#[unsafe(no_mangle)]
pub extern "C" fn timed_contents(
    words: &[u64],
    records: &[u64],
    heads: &mut [u64],
    times: &mut [i64],
    paths: &[u8],
    bytes: &mut [u8],
    i: usize,
    a: &[u8],
    b: &[u8],
    n: usize,
) -> usize {
    if !ready(words, records, heads, times, paths, bytes) {
        return 0;
    }
    for k in 0..n {
        if !contents_in(words, records, heads, times, paths, bytes, i, a, 1) {
            return k;
        }
        if !contents_in(words, records, heads, times, paths, bytes, i, b, 2) {
            return k;
        }
    }
    n
}
