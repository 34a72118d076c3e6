// A store, read back from its slices as docs/LAYOUT.md says.
use std::fmt;
use test_shown::text::{Mode, Short};
use test_shown::tree::{CELL_BYTES, EXTENT_AT, HERE_AT, MASK_AT, NUMBERS_AT, Store, part, word};

// A slot's number, and its four times.
#[derive(Clone, Copy)]
struct Times<'a> {
    store: &'a Store,
    slot: usize,
}

impl fmt::Display for Times<'_> {
    fn fmt<W: fmt::Write>(&self, f: &mut fmt::Formatter<W>) -> fmt::Result {
        let slot = self.slot;
        write!(f, " [{slot}:")?;
        for time in part(&self.store.times, slot.saturating_mul(4), 4) {
            write!(f, " {time}")?;
        }
        write!(f, "]")
    }
}

// The path of so many bytes in a cell; the root's is one slash.
#[derive(Clone, Copy)]
struct Cell<'a> {
    store: &'a Store,
    cell: usize,
    length: u64,
}

impl fmt::Display for Cell<'_> {
    fn fmt<W: fmt::Write>(&self, f: &mut fmt::Formatter<W>) -> fmt::Result {
        if self.length == 0 {
            return f.write_str("/");
        }
        let from = self.cell.saturating_mul(CELL_BYTES);
        let cell = part(&self.store.paths, from, CELL_BYTES);
        let path = Short(part(cell, 0, self.length as usize));
        write!(f, "{path}")
    }
}

// The entries.
#[derive(Clone, Copy)]
struct Entries<'a>(&'a Store);

impl fmt::Display for Entries<'_> {
    fn fmt<W: fmt::Write>(&self, f: &mut fmt::Formatter<W>) -> fmt::Result {
        let store = self.0;
        let tree = store.tree();
        for i in 0..store.entries() {
            let slot = tree.record(i).slot;
            let times = Times { store, slot };
            writeln!(f, "{i} {}{times}{}", tree.path(i), tree.slot(slot))?;
        }
        Ok(())
    }
}

// The open file numbers.
#[derive(Clone, Copy)]
struct Numbers<'a>(&'a Store);

impl fmt::Display for Numbers<'_> {
    fn fmt<W: fmt::Write>(&self, f: &mut fmt::Formatter<W>) -> fmt::Result {
        let store = self.0;
        let numbers = part(&store.words, NUMBERS_AT, EXTENT_AT - NUMBERS_AT);
        for (n, number) in numbers.chunks_exact(3).enumerate() {
            let Some(slot) = word(number, 0).checked_sub(1) else {
                continue;
            };
            let slot = slot as usize;
            let position = word(number, 1);
            let path = Cell {
                store,
                cell: n + 1,
                length: word(number, 2),
            };
            let times = Times { store, slot };
            writeln!(
                f,
                "number {n} at {position} on {path}{times}{}",
                store.tree().slot(slot)
            )?;
        }
        Ok(())
    }
}

// All of it.
#[derive(Clone, Copy)]
pub struct Shown<'a>(pub &'a Store);

impl fmt::Display for Shown<'_> {
    fn fmt<W: fmt::Write>(&self, f: &mut fmt::Formatter<W>) -> fmt::Result {
        let store = self.0;
        let tree = store.tree();
        let current = Cell {
            store,
            cell: 0,
            length: word(&store.words, HERE_AT),
        };
        let umask = Mode(word(&store.words, MASK_AT));
        let entries = store.entries();
        let names = tree.names_before(entries);
        let contents = tree.bytes_from(0);
        let slots = word(&store.words, EXTENT_AT);
        write!(f, "{}{}", Entries(store), Numbers(store))?;
        writeln!(f, "umask {umask}, current {current}")?;
        writeln!(
            f,
            "entries {entries}, bytes {names} + {contents}, slots {slots}"
        )
    }
}
