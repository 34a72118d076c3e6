// A file number opened, by a path.
// kept: the slices are lent one by one, since each edit writes others of them; one struct of six `&mut` would ask to write them all.
ghost use Rattle.std.specs.Prelude.{IfSome, ◌≡◌, ◌<◌, T, length};
ghost use Rattle.std.proofs.Math.Option.{some};
ghost use Rattle.path.specs.Path.{names};
ghost use Rattle.model.specs.Tree.{file, look};
ghost use Rattle.layout.specs.Store.{state};
ghost use Rattle.layout.specs.Lent.{lent_by};
ghost use Rattle.layout.specs.Lawful.{Lawful, cell_ok};
ghost use Rattle.test_tried.specs.Tried.{ChildOf, LedTo};

use crate::asked::ready;
use crate::place::{is_dir, look};
use layout::kind::Kind;
use layout::slices::Slices;
use layout::{CELL_BYTES, COUNT_AT, EXTENT_AT, FILE_NUMBERS, HOLDER_AT, NUMBER_WORDS, slot_of};

// The record of the entry `name` of the directory at record dir.
fn child(lent: Slices, dir: usize, name: &[u8]) -> Option<usize>
    requires { Lawful (lent_by lent) }
    ensures { IfSome result (λ i. ChildOf (lent_by lent.entry) dir name.now i) }
{
    if !is_dir(lent, dir) {
        return None;
    }
    Some(look(lent, dir, name).ok()?.at)
}

// The record of the entry at the path: an empty path is the root's, any other begins with a slash.
fn walk(lent: Slices, path: &[u8]) -> Option<usize>
    requires { Lawful (lent_by lent) }
    ensures { IfSome result (λ i. LedTo (lent_by lent.entry) path.now i) }
{
    if lent.words[COUNT_AT] == 0 {
        return None;
    }
    let Some((first, names)) = path.split_first() else {
        return Some(0);
    };
    if *first != b'/' {
        return None;
    }
    let mut i = 0;
    for name in names.split(|b| *b == b'/') {
        i = child(lent, i, name)?;
    }
    Some(i)
}

// The slot of the file at the path.
fn file_slot(lent: Slices, path: &[u8]) -> Option<usize>
    requires { Lawful (lent_by lent) × T (cell_ok path.now) }
    ensures { IfSome result (λ k. (k < length lent.entry.heads.now) × (look (state (lent_by lent.entry)).tree (names path.now) ≡ some (file k))) }
{
    let i = walk(lent, path)?;
    let slot = slot_of(lent.records[i]);
    (Kind::of(lent.heads[slot]) == Some(Kind::File)).then_some(slot)
}

pub fn try_open(
    words: &mut [u64],
    records: &[u64],
    heads: &[u64],
    times: &[i64],
    paths: &mut [u8],
    bytes: &[u8],
    number: usize,
    position: u64,
    path: &[u8],
) -> bool {
    if !ready(words, records, heads, times, paths, bytes) {
        return false;
    }
    if FILE_NUMBERS <= number {
        return false;
    }
    if words[HOLDER_AT + NUMBER_WORDS * number] != 0 {
        return false;
    }
    if CELL_BYTES < path.len() {
        return false;
    }
    if !lawful::cells::path_ok(path) {
        return false;
    }
    let slots = words[EXTENT_AT] as usize;
    let lent = Slices {
        words,
        records,
        heads: &heads[..slots],
        times,
        paths,
        bytes,
    };
    let Some(slot) = file_slot(lent, path) else {
        return false;
    };
    edit_state::open_number(words, paths, number, slot, position, path);
    true
}
