// The umask, the current directory and the file numbers.
// kept: the slices are lent one by one, since each edit writes others of them; one struct of six `&mut` would ask to write them all.
use crate::asked::ready;
use layout::{CELL_BYTES, EXTENT_AT, FILE_NUMBERS, HOLDER_AT, NUMBER_WORDS};

pub fn try_umask(
    words: &mut [u64],
    records: &[u64],
    heads: &[u64],
    times: &[i64],
    paths: &[u8],
    bytes: &[u8],
    mask: u32,
) -> bool {
    if !ready(words, records, heads, times, paths, bytes) {
        return false;
    }
    edit_state::set_umask(words, mask);
    true
}

pub fn try_seek(
    words: &mut [u64],
    records: &[u64],
    heads: &[u64],
    times: &[i64],
    paths: &[u8],
    bytes: &[u8],
    number: usize,
    position: u64,
) -> bool {
    if !ready(words, records, heads, times, paths, bytes) {
        return false;
    }
    if FILE_NUMBERS <= number {
        return false;
    }
    edit_state::set_position(words, number, position);
    true
}

pub fn try_current(
    words: &mut [u64],
    records: &[u64],
    heads: &[u64],
    times: &[i64],
    paths: &mut [u8],
    bytes: &[u8],
    path: &[u8],
) -> bool {
    if !ready(words, records, heads, times, paths, bytes) {
        return false;
    }
    if CELL_BYTES < path.len() {
        return false;
    }
    if !lawful::cells::path_ok(path) {
        return false;
    }
    edit_state::set_current(words, paths, path);
    true
}

pub fn try_close(
    words: &mut [u64],
    records: &[u64],
    heads: &mut [u64],
    times: &[i64],
    paths: &[u8],
    bytes: &mut [u8],
    number: usize,
) -> bool {
    if !ready(words, records, heads, times, paths, bytes) {
        return false;
    }
    if FILE_NUMBERS <= number {
        return false;
    }
    if words[HOLDER_AT + NUMBER_WORDS * number] == 0 {
        return false;
    }
    let slots = words[EXTENT_AT] as usize;
    edit_state::close_number(words, records, &mut heads[..slots], bytes, number);
    edit_room::release(words, heads);
    true
}
