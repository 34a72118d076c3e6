#![tactic(auto)]
// The records of the entries, and their names: put in, taken out, moved.
ghost use Rattle.std.specs.Prelude.{◌≡◌, suc, ◌+◌, ◌-◌, ◌<◌, ◌≤◌, length, take, drop, get_or};
ghost use Rattle.layout.specs.Numbers.{most_entries, depths, name_lengths, slot_numbers};
ghost use Rattle.layout.specs.Fields.{depth_of, nlen_of, slot_of};
ghost use Rattle.layout.specs.Rows.{name_total};
ghost use Rattle.blocks.specs.Turn.{turned};
ghost use Rattle.records.specs.Blocks.{changed, lift, Liftables, Opened, Closed, Moved, Lowered};

use layout::{DEPTHS, depth_of, names_of, nlen_of, record_word, slot_of};
use std::ops::Range;

// Puts an entry, its word and its name, before the k-th of the first count.
// kept: the count beside the records, since the memory is lent: the entry takes of the room behind them. So in lower_block.
#[tactic(auto, using(crate::proofs::Entries::total_on))]
pub fn open_entry(
    records: &mut [u64],
    bytes: &mut [u8],
    count: usize,
    k: usize,
    word: u64,
    name: &[u8],
)
    requires { (k ≤ count) × (count < length records.old) × (count ≤ most_entries) × (nlen_of word ≡ length name.now)
        × (name_total (take count records.old) + length name.now ≤ length bytes.old) }
    ensures { Opened records.old bytes.old records.new bytes.new count k word name.now }
{
    let o = names_of(&records[..k]);
    let u = o + names_of(&records[k..count]);
    let n = name.len();
    blocks::open_gap(bytes, u, o, n);
    blocks::copy_into(bytes, o, name);
    blocks::open_gap(records, count, k, 1);
    records[k] = word;
}

// Takes the entries of the block out.
#[tactic(auto, using(crate::proofs::Entries::total_on, crate::proofs::Entries::total_end))]
pub fn close_entries(records: &mut [u64], bytes: &mut [u8], block: Range<usize>)
    requires { (block.start ≤ block.end) × (block.end ≤ length records.old) × (length records.old ≤ most_entries)
        × (name_total records.old ≤ length bytes.old) }
    ensures { Closed records.old bytes.old records.new bytes.new (length records.old) block.start block.end }
{
    let Range { start: a, end: b } = block;
    let o = names_of(&records[..a]);
    let n = names_of(&records[a..b]);
    let u = o + n + names_of(&records[b..]);
    blocks::close_gap(bytes, u, o, n);
    let count = records.len();
    blocks::close_gap(records, count, a, b - a);
}

// Adds up to the depth of the entries of the block, and takes down off it. (The depth alone is changed, so that no word can overflow.)
// kept: the depth as a part of the word, and not by depth_of, since it is not read alone: the same part is taken off and put back.
fn lift_words(records: &mut [u64], block: Range<usize>, up: u64, down: u64)
    requires { (block.start ≤ block.end) × (block.end ≤ length records.old) × (up ≤ depths)
        × Liftables records.old block.start block.end up down }
    ensures { records.new ≡ changed (lift up down) records.old block.start block.end }
{
    for w in records[block].iter_mut() {
        let d = *w % DEPTHS;
        *w = *w - d + (d + up - down);
    }
}

// Exchanges the entries from a to m with those from m to e.
#[tactic(auto, using(crate::proofs::Entries::total_on))]
fn swing(records: &mut [u64], bytes: &mut [u8], a: usize, m: usize, e: usize)
    requires { (a ≤ m) × (m ≤ e) × (e ≤ length records.old) × (e ≤ most_entries)
        × (name_total (take e records.old) ≤ length bytes.old) }
    ensures { (records.new ≡ turned records.old a m e)
        × (bytes.new ≡ turned bytes.old (name_total (take a records.old))
        (name_total (take m records.old)) (name_total (take e records.old))) }
{
    let x = names_of(&records[..a]);
    let y = x + names_of(&records[a..m]);
    let z = y + names_of(&records[m..e]);
    blocks::turn(records, a, m, e);
    blocks::turn(bytes, x, y, z);
}

// Moves the entries of the block before the p-th, and changes their depth by up - down.
pub fn move_block(
    records: &mut [u64],
    bytes: &mut [u8],
    block: Range<usize>,
    p: usize,
    up: u64,
    down: u64,
)
    requires { (block.start ≤ block.end) × (block.end ≤ length records.old) × (p ≤ length records.old)
        × ((block.start < p) → block.end ≤ p) × (length records.old ≤ most_entries)
        × (name_total records.old ≤ length bytes.old) × (up ≤ depths) × Liftables records.old block.start block.end up down }
    ensures { Moved records.old bytes.old records.new bytes.new (length records.old) block.start block.end p up down }
{
    let Range { start: a, end: b } = block;
    lift_words(records, a..b, up, down);
    if p <= a {
        swing(records, bytes, p, a, b);
        return;
    }
    swing(records, bytes, a, b, p);
}

// The word of an entry with another slot.
fn with_slot(w: u64, s: usize) -> u64
    requires { s < slot_numbers }
    ensures { (depth_of result ≡ depth_of w) × (nlen_of result ≡ nlen_of w) × (slot_of result ≡ s) }
{
    record_word(depth_of(w), nlen_of(w), s)
}

// The word of the same entry one deeper, with a name of n bytes.
fn word_below(w: u64, n: usize) -> u64
    requires { (depth_of w + 1 < depths) × (n < name_lengths) × (slot_of w < slot_numbers) }
    ensures { (depth_of result ≡ suc (depth_of w)) × (nlen_of result ≡ n) × (slot_of result ≡ slot_of w) }
{
    record_word(depth_of(w) + 1, n, slot_of(w))
}

// The first entry of the block, with those below it, goes one deeper under the name; an entry of its old name and of slot s stands in its
// place.
pub fn lower_block(
    records: &mut [u64],
    bytes: &mut [u8],
    count: usize,
    block: Range<usize>,
    s: usize,
    name: &[u8],
)
    requires { (block.start < block.end) × (block.end ≤ count) × (count < length records.old) × (count ≤ most_entries) × (s < slot_numbers)
        × (length name.now < name_lengths) × (slot_of (get_or records.old block.start 0) < slot_numbers)
        × Liftables records.old block.start block.end 1 0 × (name_total (take count records.old) + length name.now ≤ length bytes.old) }
    ensures { Lowered records.old bytes.old records.new bytes.new count block.start block.end s name.now }
{
    let Range { start: i, end: e } = block;
    let w = records[i];
    let below = word_below(w, name.len());
    records[i] = with_slot(w, s);
    lift_words(records, i + 1..e, 1, 0);
    open_entry(records, bytes, count, i + 1, below, name);
}
