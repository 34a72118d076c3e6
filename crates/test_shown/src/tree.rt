// The entries of a store, read back from its slices as docs/LAYOUT.md says. `layout` has no part in it: this is a second reading of that
// page.
ghost use Rattle.std.specs.Prelude.{◌≡◌, drop, slice_index, take};

use crate::text::{Mode, Short};
use std::alloc::{AllocError, Global};
use std::fmt;

// The words of the state: the number of entries, the umask, the length of the current directory's path, the three words of each file
// number from the first on, and the number of slots so far.
pub const COUNT_AT: usize = 2;

pub const MASK_AT: usize = 3;

pub const HERE_AT: usize = 4;

pub const NUMBERS_AT: usize = 5;

pub const EXTENT_AT: usize = 101;

// The bytes for one path.
pub const CELL_BYTES: usize = 1024;

// The n elements from `from` on, or as many as there are.
pub fn part<T>(s: &[T], from: usize, n: usize) -> &[T]
    ensures { result.now ≡ take n (drop from s.now) }
{
    let rest = s.get(from..).unwrap_or_default();
    rest.get(..n).unwrap_or(rest)
}

// The word at i, or 0 behind the end.
// kept: the library's `get`, and its 0 said once for all that read words
pub fn word(s: &[u64], i: usize) -> u64
    ensures { result ≡ slice_index s.now i }
{
    s.get(i).copied().unwrap_or(0)
}

// The word of a record, taken apart.
#[derive(Clone, Copy)]
pub struct Record {
    // Bits 0 to 15.
    pub depth: u64,
    // Bits 16 to 23.
    pub name_length: usize,
    // The bits from 24 on.
    pub slot: usize,
}

impl From<u64> for Record {
    fn from(word: u64) -> Record {
        Record {
            depth: word % 65536,
            name_length: (word / 65536 % 256) as usize,
            slot: (word / 16777216) as usize,
        }
    }
}

// What a slot holds; nothing that is known, where it has another number.
#[derive(Clone, Copy, Debug, PartialEq, Eq)]
pub enum Kind {
    Directory,
    File,
    Link,
    Unknown,
}

impl From<u64> for Kind {
    fn from(number: u64) -> Kind {
        match number {
            1 => Kind::Directory,
            2 => Kind::File,
            3 => Kind::Link,
            _ => Kind::Unknown,
        }
    }
}

impl fmt::Display for Kind {
    fn fmt<W: fmt::Write>(&self, f: &mut fmt::Formatter<W>) -> fmt::Result {
        f.write_str(match self {
            Kind::Directory => "directory",
            Kind::File => "file",
            Kind::Link => "link",
            Kind::Unknown => "?",
        })
    }
}

// The word of a slot, taken apart.
#[derive(Clone, Copy)]
pub struct Head {
    // Bits 0 to 23.
    pub length: usize,
    // Bits 24 to 31.
    pub kind: Kind,
    // The bits from 32 on.
    pub mode: u64,
}

impl From<u64> for Head {
    fn from(word: u64) -> Head {
        Head {
            length: (word % 16777216) as usize,
            kind: Kind::from(word / 16777216 % 256),
            mode: word / 4294967296,
        }
    }
}

// The sum of what the words say of lengths.
fn total<F: Fn(u64) -> usize + Drop>(words: &[u64], length_of: F) -> usize
    requires { F.IsAlwaysCallable length_of }
{
    words
        .iter()
        .fold(0usize, |sum, word| sum.saturating_add(length_of(*word)))
}

// The six slices of a store, as a program lends them.
#[derive(Drop)]
pub struct Store {
    pub words: Vec<u64>,
    pub records: Vec<u64>,
    pub heads: Vec<u64>,
    pub times: Vec<i64>,
    pub paths: Vec<u8>,
    pub bytes: Vec<u8>,
}

impl Store {
    // Slices of those lengths, before set up. They hold no zeros, but for the words of slots and the times, which hold what they are given.
    pub fn new(
        alloc: Global,
        lengths: [usize; 6],
        head: u64,
        time: i64,
    ) -> Result<Store, AllocError> {
        let [words, records, heads, times, paths, bytes] = lengths;
        Ok(Store {
            words: vec![in alloc; 77; words]?,
            records: vec![in alloc; 77; records]?,
            heads: vec![in alloc; head; heads]?,
            times: vec![in alloc; time; times]?,
            paths: vec![in alloc; b'?'; paths]?,
            bytes: vec![in alloc; b'?'; bytes]?,
        })
    }

    pub fn entries(&self) -> usize {
        word(&self.words, COUNT_AT) as usize
    }

    // The tree in it, with the slots so far.
    pub fn tree(&self) -> Tree<'_> {
        Tree {
            records: &self.records,
            heads: part(&self.heads, 0, word(&self.words, EXTENT_AT) as usize),
            bytes: &self.bytes,
        }
    }
}

// The slices that hold a tree.
#[derive(Clone, Copy)]
pub struct Tree<'a> {
    pub records: &'a [u64],
    pub heads: &'a [u64],
    pub bytes: &'a [u8],
}

impl<'a> Tree<'a> {
    pub fn record(self, i: usize) -> Record {
        Record::from(word(self.records, i))
    }

    pub fn head(self, slot: usize) -> Head {
        Head::from(word(self.heads, slot))
    }

    // The lengths of the names before that of record i.
    pub fn names_before(self, i: usize) -> usize {
        total(part(self.records, 0, i), |word| {
            Record::from(word).name_length
        })
    }

    // The lengths of the bytes of that slot and of all behind it.
    pub fn bytes_from(self, slot: usize) -> usize {
        total(part(self.heads, slot, usize::MAX), |word| {
            Head::from(word).length
        })
    }

    fn name(self, i: usize) -> Short<'a> {
        Short(part(self.bytes, self.names_before(i), self.record(i).name_length))
    }

    fn contents(self, slot: usize) -> Short<'a> {
        let behind = self.bytes.len().saturating_sub(self.bytes_from(slot));
        Short(part(self.bytes, behind, self.head(slot).length))
    }

    // The last record up to i that has that depth: it is i, or a directory above it.
    fn above(self, i: usize, depth: u64) -> usize {
        (1..=i)
            .rev()
            .find(|j| self.record(*j).depth == depth)
            .unwrap_or(0)
    }

    pub fn path(self, record: usize) -> Path<'a> {
        Path { tree: self, record }
    }

    pub fn slot(self, slot: usize) -> Slot<'a> {
        Slot { tree: self, slot }
    }
}

// The path of an entry: a slash before each name; the root's is one slash.
#[derive(Clone, Copy)]
pub struct Path<'a> {
    tree: Tree<'a>,
    record: usize,
}

impl fmt::Display for Path<'_> {
    fn fmt<W: fmt::Write>(&self, f: &mut fmt::Formatter<W>) -> fmt::Result {
        let depth = self.tree.record(self.record).depth;
        if depth == 0 {
            return f.write_str("/");
        }
        for d in 1..=depth {
            let name = self.tree.name(self.tree.above(self.record, d));
            write!(f, "/{name}")?;
        }
        Ok(())
    }
}

// What stands in a slot: kind, mode, length and bytes.
#[derive(Clone, Copy)]
pub struct Slot<'a> {
    tree: Tree<'a>,
    slot: usize,
}

impl fmt::Display for Slot<'_> {
    fn fmt<W: fmt::Write>(&self, f: &mut fmt::Formatter<W>) -> fmt::Result {
        let Head { length, kind, mode } = self.tree.head(self.slot);
        let mode = Mode(mode);
        write!(f, " {kind}, mode {mode}, bytes {length}")?;
        if length > 0 {
            let contents = self.tree.contents(self.slot);
            write!(f, ": {contents}")?;
        }
        Ok(())
    }
}
