// A store that is made anew and changed word by word. A change that stands behind the end of its slice changes nothing.
use crate::place::{Holds, Place};
use layout::slices::Slices;
use std::alloc::{AllocError, Global};
use test_shown::tree::{CELL_BYTES, COUNT_AT, EXTENT_AT, HERE_AT, Store, part};

// The records of tree K, as docs/LAYOUT.md has them under "An example".
const ENTRIES: [u64; 9] = [
    0x0000000000,
    0x0003040001,
    0x0008020002,
    0x0007040001,
    0x0006040001,
    0x0001030001,
    0x0002040002,
    0x0004070003,
    0x0005040001,
];

// Its slots.
const SLOTS: [u64; 9] = [
    0x000001ed01000000,
    0x000001ed01000000,
    0x000001ed01000000,
    0x000001ed01000000,
    0x000001b602000005,
    0x000001ff03000003,
    0x000001ff03000004,
    0x000001ff03000004,
    0x000001ff03000006,
];

fn put<T: Drop>(slice: &mut [T], at: usize, value: T) {
    if let Some(place) = slice.get_mut(at) {
        *place = value;
    }
}

// As many of the values as there is room for, from `from` on.
fn put_all<T: Copy>(slice: &mut [T], from: usize, values: &[T]) {
    if let Some(rest) = slice.get_mut(from..) {
        for (place, value) in rest.iter_mut().zip(values) {
            *place = *value;
        }
    }
}

// n letters, at most 1,100.
fn put_letters(slice: &mut [u8], from: usize, n: usize) {
    if let Some(rest) = slice.get_mut(from..) {
        for place in rest.iter_mut().take(n.min(1100)) {
            *place = b'a';
        }
    }
}

// How long the slices of 16 entries and 256 bytes are: words, records, heads, times, paths, bytes.
const LENGTHS: [usize; 6] = [102, 16, 48, 192, 33792, 256];

// A store, and how much of each slice is handed over.
#[derive(Drop)]
pub struct Case {
    pub store: Store,
    lengths: [usize; 6],
    // Whether a time may be another than it was made with.
    times_changed: bool,
}

impl Case {
    // In slices of those lengths. Set up writes no slot: each has the word `head`, and times of 0.
    fn new(alloc: Global, lengths: [usize; 6], head: u64) -> Result<Case, AllocError> {
        let mut case = Case {
            store: Store::new(alloc, lengths, head, 0)?,
            lengths: LENGTHS,
            times_changed: false,
        };
        case.set_up();
        Ok(case)
    }

    // For 16 entries and 256 bytes.
    fn set_up(&mut self) {
        let Store {
            words,
            records,
            heads,
            times,
            paths,
            bytes,
        } = &mut self.store;
        let _ = setup::set_up(words, records, heads, times, paths, bytes, 16, 256);
    }

    // No longer than it has to be.
    pub fn exact(alloc: Global) -> Result<Case, AllocError> {
        Case::new(alloc, LENGTHS, 77)
    }

    // Longer than it has to be, with slots of 0.
    pub fn longer(alloc: Global) -> Result<Case, AllocError> {
        Case::new(alloc, [103, 4097, 4129, 16516, 33793, 4096], 0)
    }

    // As `longer` made it: the changes of one case are not those of the next, and none asks for memory. The times are more than half of
    // the bytes, and few cases change one.
    pub fn renew(&mut self) {
        self.store.words.fill(77);
        self.store.records.fill(77);
        self.store.heads.fill(0);
        if self.times_changed {
            self.store.times.fill(0);
            self.times_changed = false;
        }
        self.store.paths.fill(b'?');
        self.store.bytes.fill(b'?');
        self.lengths = LENGTHS;
        self.set_up();
    }

    // What it holds before the changes, in what set up has left.
    pub fn hold(&mut self, holds: Holds) {
        match holds {
            Holds::Empty => {}
            Holds::Root => self.put_root(),
            Holds::K => {
                self.put_tree_k();
                self.put_open();
            }
        }
    }

    // A root alone, in slot 0; slot 1 is free.
    fn put_root(&mut self) {
        put(&mut self.store.words, COUNT_AT, 1);
        put(&mut self.store.words, EXTENT_AT, 2);
        put(&mut self.store.records, 0, 0);
        put_all(&mut self.store.heads, 0, &[SLOTS[0], 0]);
    }

    // Tree K: the names from the left, the contents and targets at the right.
    pub fn put_tree_k(&mut self) {
        put(&mut self.store.words, COUNT_AT, 9);
        put(&mut self.store.words, EXTENT_AT, 9);
        put_all(&mut self.store.records, 0, &ENTRIES);
        put_all(&mut self.store.heads, 0, &SLOTS);
        put_all(
            &mut self.store.bytes,
            0,
            b"deepupgoneselfy26moonjan.txtyear",
        );
        put_all(&mut self.store.bytes, 234, b"full3y26selfnone../y26");
    }

    // The current directory is /y26/moon; file number 0 is open on /y26/moon/jan.txt, at position 5; number 1 on an empty file that
    // has no name any more, in slot 9, which was /old. Slots 10 and 11 are free.
    fn put_open(&mut self) {
        put_all(&mut self.store.words, HERE_AT, &[9, 5, 5, 17, 10, 0, 4]);
        put(&mut self.store.words, EXTENT_AT, 12);
        put_all(&mut self.store.heads, 9, &[0x000001b602000000, 0, 0]);
        put_all(&mut self.store.paths, 0, b"/y26/moon");
        put_all(&mut self.store.paths, CELL_BYTES, b"/y26/moon/jan.txt");
        put_all(&mut self.store.paths, 2 * CELL_BYTES, b"/old");
    }

    pub fn change(&mut self, place: Place, at: usize, value: u64) {
        match place {
            Place::Words => put(&mut self.store.words, at, value),
            Place::Records => put(&mut self.store.records, at, value),
            Place::Heads => put(&mut self.store.heads, at, value),
            Place::Times => {
                self.times_changed = true;
                put(&mut self.store.times, at, (value % (1 << 63)) as i64);
            }
            Place::Paths => put(&mut self.store.paths, at, (value % 256) as u8),
            Place::Bytes => put(&mut self.store.bytes, at, (value % 256) as u8),
            Place::Length => put(&mut self.lengths, at, value as usize),
            Place::LettersInPaths => put_letters(&mut self.store.paths, at, value as usize),
            Place::LettersInBytes => put_letters(&mut self.store.bytes, at, value as usize),
        }
    }

    // What the test of refusal 1 says of the slices that are handed over.
    pub fn is_accepted(&self) -> bool {
        let [words, records, heads, times, paths, bytes] = self.lengths;
        lawful::store_ok(Slices {
            words: part(&self.store.words, 0, words),
            records: part(&self.store.records, 0, records),
            heads: part(&self.store.heads, 0, heads),
            times: part(&self.store.times, 0, times),
            paths: part(&self.store.paths, 0, paths),
            bytes: part(&self.store.bytes, 0, bytes),
        })
    }
}
