#![tactic(auto)]
// Bytes used and the number of links, worked out from the tree (01, "Limits").
ghost use Rattle.std.specs.Prelude.{true, ◌≡◌, ℕ, ◌≤◌, ◌<◌, length, take};
ghost use Rattle.layout.specs.Numbers.{extent_at, most_entries, most_slots};
ghost use Rattle.layout.specs.Fields.{slot_of};
ghost use Rattle.slots.specs.Uses.{Within, uses_in};
ghost use Rattle.ask_used.specs.Totals.{entry_bytes, Slotted, Upto, Among, tree_bytes, TotalIs, WholeIs};
ghost use Rattle.ask_used.specs.Unnamed.{AllClosed, unnamed, unmarked_bytes};
ghost use Rattle.ask_used.specs.Answers.{Counted, Linked, Weighed, held_in, TellsUsed, TellsLinks, TellsWeight};

use ask_find::Spot;
use layout::kind::Kind;
use layout::{COUNT_AT, FILE_NUMBERS, MOST_SLOTS, depth_of, len_of, nlen_of, slot_held, slot_of};
use slots::marks::is_held;

// The bytes of some entries, and the record behind them.
#[derive(Drop)]
pub struct Sum {
    pub bytes: usize,
    pub next: usize,
}

// The bytes of one entry: its name, and what its slot holds.
fn entry_bytes(heads: &[u64], w: u64) -> usize
    requires { slot_of w < length heads.now }
    ensures { result ≡ entry_bytes heads.now w }
{
    let s = slot_of(w);
    nlen_of(w) + len_of(heads[s])
}

// Whether nothing lies below record j, whose depth is t.
fn is_leaf(records: &[u64], j: usize, t: usize) -> bool
    requires { j < length records.now }
{
    records.get(j + 1).is_none_or(|w| depth_of(*w) <= t)
}

// The bytes of a directory of depth d whose entries start at record i: the sum over its entries. next is the record behind them.
// An entry with nothing below it is added up here, which saves a call for most.
#[cycle(dir_total_entry_total)]
fn dir_total(records: &[u64], heads: &[u64], i: usize, d: usize) -> Sum
    requires { Upto records.now heads.now i }
    ensures { TotalIs records.now heads.now i d result }
{
    let mut j = i;
    let mut s = 0;
    // kept: a turn passes an entry with all below it, so no counter, range or iterator over the records gives its step.
    while j < records.len() {
        let w = records[j];
        let t = depth_of(w);
        if t <= d {
            return Sum { bytes: s, next: j };
        }
        if is_leaf(records, j, t) {
            s += entry_bytes(heads, w);
            j += 1;
            continue;
        }
        let e = entry_total(records, heads, j);
        s += e.bytes;
        j = e.next;
    }
    Sum { bytes: s, next: j }
}

// The bytes of the entry at record i with all below it: its own and those of its directory.
#[cycle(dir_total_entry_total)]
pub fn entry_total(records: &[u64], heads: &[u64], i: usize) -> Sum
    requires { Among records.now heads.now i }
    ensures { WholeIs records.now heads.now i result }
{
    let w = records[i];
    let own = entry_bytes(heads, w);
    let r = dir_total(records, heads, i + 1, depth_of(w));
    Sum {
        bytes: own + r.bytes,
        next: r.next,
    }
}

// The bytes of all entries, one after the other with all below it.
fn tree_bytes(records: &[u64], heads: &[u64]) -> usize
    requires { (length records.now ≤ most_entries) × Slotted heads.now records.now }
    ensures { result ≡ tree_bytes records.now heads.now }
{
    let mut k = 0;
    let mut s = 0;
    // kept: as in `dir_total`, a turn passes an entry with all below it.
    while k < records.len() {
        let e = entry_total(records, heads, k);
        s += e.bytes;
        k = e.next;
    }
    s
}

// The bytes of the slots that no record has marked: removed files that are still open.
fn unmarked(heads: &[u64], marks: &[u8; MOST_SLOTS]) -> usize
    requires { length heads.now ≤ most_slots }
    ensures { result ≡ unmarked_bytes marks.now heads.now }
{
    heads
        .iter()
        .zip(marks)
        .map(|(h, m)| if *m == 0 { len_of(*h) } else { 0 })
        .sum()
}

// "plus contents of removed files still open"
fn removed_bytes(recs: &[u64], heads: &[u64]) -> usize
    requires { (length heads.now ≤ most_slots) × Within (length heads.now) recs.now × ((k : ℕ) → uses_in k recs.now ≤ 1) }
    ensures { result ≡ unnamed recs.now heads.now }
{
    let mut marks = [0u8; MOST_SLOTS];
    slots::marks::mark_records(recs, &mut marks);
    unmarked(heads, &marks)
}

// Whether every file number is closed.
fn none_open(words: &[u64]) -> bool
    requires { extent_at ≤ length words.now }
    ensures { result ≡ true → AllClosed words.now }
{
    (0..FILE_NUMBERS).all(|n| slot_held(words, n).is_none())
}

// "Bytes used are names, targets and contents in the tree, plus contents of removed files still open."
pub fn bytes_used(words: &[u64], records: &[u64], heads: &[u64]) -> usize
    requires { Counted words.now records.now heads.now }
    ensures { TellsUsed words.now records.now heads.now result }
{
    let live = &records[..words[COUNT_AT] as usize];
    let tree = tree_bytes(live, heads);
    if none_open(words) {
        return tree;
    }
    tree + removed_bytes(live, heads)
}

// The number of links in the tree.
pub fn links_in(records: &[u64], heads: &[u64]) -> usize
    requires { Linked records.now heads.now }
    ensures { TellsLinks records.now heads.now result }
{
    records
        .iter()
        .filter(|w| Kind::of(heads[slot_of(**w)]) == Some(Kind::Link))
        .count()
}

// What an entry takes up: the length of its name, that of a file's contents or a link's target, and whether a file number stands on
// it. A file that loses its name gives back the name, and the contents where no number stands on it.
// kept: size and held have each a promise (WeightIs), also of a file that is open, beside what they free together
#[derive(Drop)]
pub struct Weight {
    pub name: usize,
    pub size: usize,
    pub held: bool,
}

// What the entry at the spot takes up.
pub fn weigh(words: &[u64], records: &[u64], heads: &[u64], spot: Spot) -> Weight
    requires { Weighed words.now records.now heads.now spot }
    ensures { TellsWeight words.now records.now heads.now spot result }
{
    let i = spot.at;
    let w = records[i];
    let k = slot_of(w);
    Weight {
        name: nlen_of(w),
        size: len_of(heads[k]),
        held: is_held(words, k as u64 + 1),
    }
}
