#![tactic(auto)]
// Reading the entries of a store that obeys the rules.
ghost use Rattle.std.specs.Prelude.{true, ◌≡◌, ◌+◌, ◌<◌, ◌≤◌, length, take, drop, get_or};
ghost use Rattle.layout.specs.Fields.{depth_of, nlen_of};
ghost use Rattle.name_order.specs.Order.{number};
ghost use Rattle.ask_find.specs.Finds.{Within, scan, Passed};
ghost use Rattle.ask_find.specs.Spots.{Held, hidden_at, ChildIs, RootIs};
ghost use Rattle.ask_find.specs.Spans.{span};

use layout::{depth_of, nlen_of};
use name_order::{compare, key, word};
use std::cmp::Ordering;

// An entry: its record, and the offset of its name.
#[derive(Clone, Copy)]
pub struct Spot {
    pub at: usize,
    pub off: usize,
}

impl Spot {
    // The record behind this one, the word of which is w.
    pub fn behind(self, w: u64) -> Spot
        requires { (self.at < usize.MAX) × (self.off + nlen_of w ≤ usize.MAX) }
        ensures { result ≡ record { at = self.at + 1; off = self.off + nlen_of w } }
    {
        Spot {
            at: self.at + 1,
            off: self.off + nlen_of(w),
        }
    }

    // An entry of that depth may stand before the record.
    fn gap(self, depth: usize) -> Gap
        ensures { result ≡ record { at = self.at; off = self.off; depth = depth } }
    {
        Gap {
            at: self.at,
            off: self.off,
            depth,
        }
    }
}

// Where a missing entry would stand: before that record, with its name at that offset, at that depth.
// kept: `at` and `off` and no Spot: who takes a gap reads one field at a time, and would write `gap.spot.at` for `gap.at`.
#[derive(Clone, Copy)]
pub struct Gap {
    pub at: usize,
    pub off: usize,
    pub depth: usize,
}

// Whether the eight bytes at o are there, and less than those of the key.
fn starts_less(bytes: &[u8], o: usize, key: u64) -> bool
    requires { o ≤ length bytes.now }
    ensures { result ≡ true → number 8 o bytes.now < key }
{
    if bytes.len() - o < 8 {
        return false;
    }
    word(bytes, o) < key
}

// Passes what stands before an entry: what lies deeper than the entries of a directory of depth d, and entries whose first bytes
// are less than those of the entry's name, the first eight of which are the key. One comparison settles most of a large directory.
fn pass(records: &[u64], bytes: &[u8], d: usize, start: Spot, key: u64) -> Spot
    requires { Within records.now bytes.now start }
    ensures { Passed records.now bytes.now d key start result }
{
    let mut spot = start;
    for w in &records[start.at..] {
        let t = depth_of(*w);
        if t <= d {
            return spot;
        }
        let less = starts_less(bytes, spot.off, key);
        if !((t - d != 1) | less) {
            return spot;
        }
        spot = spot.behind(*w);
    }
    spot
}

// Where the entry `name` of a directory of depth d stands, from a record on. What lies deeper than an entry of the directory is passed
// without a comparison.
fn find_from(
    records: &[u64],
    bytes: &[u8],
    d: usize,
    start: Spot,
    name: &[u8],
) -> Result<Spot, Spot>
    requires { Within records.now bytes.now start }
    ensures { result ≡ scan records.now bytes.now d name.now start }
{
    let mut spot = start;
    for w in &records[start.at..] {
        let t = depth_of(*w);
        if t <= d {
            return Err(spot);
        }
        let next = spot.behind(*w);
        if t - d == 1 {
            match compare(&bytes[spot.off..next.off], name) {
                Ordering::Less => {}
                Ordering::Equal => return Ok(spot),
                Ordering::Greater => return Err(spot),
            }
        }
        spot = next;
    }
    Err(spot)
}

// Where the entry `name` of a directory of depth d stands, from the record behind the directory on.
fn find_child(
    records: &[u64],
    bytes: &[u8],
    d: usize,
    start: Spot,
    name: &[u8],
) -> Result<Spot, Spot>
    requires { Within records.now bytes.now start }
    ensures { result ≡ scan records.now bytes.now d name.now start }
{
    let spot = pass(records, bytes, d, start, key(name));
    find_from(records, bytes, d, spot, name)
}

// The entry `name` of the directory at the spot. The record `hidden`, if one is given, counts as not there, with all below it: an entry
// that stands there is missing, and its place is free.
pub fn child(
    records: &[u64],
    bytes: &[u8],
    dir: Spot,
    name: &[u8],
    hidden: Option<usize>,
) -> Result<Spot, Gap>
    requires { Held records.now bytes.now dir }
    ensures { ChildIs records.now bytes.now dir name.now (hidden_at hidden) result }
{
    let w = records[dir.at];
    let d = depth_of(w);
    let depth = d + 1;
    match find_child(records, bytes, d, dir.behind(w), name) {
        Ok(spot) if Some(spot.at) != hidden => Ok(spot),
        Ok(spot) | Err(spot) => Err(spot.gap(depth)),
    }
}

// The root.
pub fn root(count: usize) -> Result<Spot, Gap>
    ensures { RootIs count result }
{
    if count == 0 {
        return Err(Gap {
            at: 0,
            off: 0,
            depth: 0,
        });
    }
    Ok(Spot { at: 0, off: 0 })
}

// The record behind all that lies below record i.
pub fn block_end(records: &[u64], i: usize) -> usize
    requires { i < length records.now }
    ensures { result ≡ i + 1 + span (depth_of (get_or records.now i 0)) (drop (i + 1) records.now) }
{
    let d = depth_of(records[i]);
    let behind = &records[i + 1..];
    let below = behind.iter().position(|w| depth_of(*w) <= d);
    i + 1 + below.unwrap_or(behind.len())
}
