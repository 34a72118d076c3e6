#![tactic(auto)]
// The entries of a directory of a store that obeys the rules: whether it has any, how many, their names (01, "List"), and one after
// the other.
// kept: `Placed` stands in each contract: it is one word, and a struct of records and spot would be made anew for each call.
ghost use Rattle.std.specs.Prelude.{◌≡◌, ◌+◌, ◌<◌, length, get_or};
ghost use Rattle.layout.specs.Fields.{depth_of};
ghost use Rattle.ask_list.specs.Entries.{entries_at, entries_behind};
ghost use Rattle.ask_list.specs.Listed.{named, Placed, Roomy};
ghost use Rattle.ask_list.specs.Listed.{TellsBare, TellsCount, TellsLength, TellsNames, FirstIs, NextIs};

mod entries;

use ask_find::Spot;
use blocks::copy_into;
use entries::Entries;
use layout::depth_of;

// The entries of the directory at the spot: they are one deeper.
fn below(records: &[u64], spot: Spot) -> Entries<'_>
    requires { Placed records.now spot }
    ensures { entries_at result.depth result.left.now result.spot
        ≡ entries_behind records.now spot (depth_of (get_or records.now spot.at 0) + 1) }
{
    Entries::behind(records, spot, depth_of(records[spot.at]) + 1)
}

// Whether the directory at the spot has none.
pub fn is_bare(records: &[u64], spot: Spot) -> bool
    requires { Placed records.now spot }
    ensures { TellsBare records.now spot result }
{
    first(records, spot).is_none()
}

// The first entry of the directory at the spot.
pub fn first(records: &[u64], spot: Spot) -> Option<Spot>
    requires { Placed records.now spot }
    ensures { FirstIs records.now spot result }
{
    below(records, spot).next().map(|e| e.spot)
}

// The entry behind the one at the spot, in the same directory. What lies below it is passed.
pub fn next(records: &[u64], spot: Spot) -> Option<Spot>
    requires { Placed records.now spot }
    ensures { NextIs records.now spot result }
{
    let d = depth_of(records[spot.at]);
    Entries::behind(records, spot, d).next().map(|e| e.spot)
}

// How many entries the directory at the spot has.
pub fn entry_count(records: &[u64], spot: Spot) -> usize
    requires { Placed records.now spot }
    ensures { TellsCount records.now spot result }
{
    below(records, spot).count()
}

// The bytes of the names of the entries of the directory at the spot, with a zero byte behind each.
pub fn names_length(records: &[u64], spot: Spot) -> usize
    requires { Placed records.now spot }
    ensures { TellsLength records.now spot result }
{
    below(records, spot).map(|e| usize::from(e.size) + 1).sum()
}

// Writes a name and a zero byte from index at on.
fn put_name(out: &mut [u8], at: usize, name: &[u8])
    requires { at + length name.now < length out.old }
    ensures { out.new ≡ named out.old at name.now }
{
    copy_into(out, at, name);
    out[at + name.len()] = 0;
}

// Writes the names of the entries of the directory at the spot to out, in order, with a zero byte behind each.
pub fn put_names(out: &mut [u8], records: &[u64], bytes: &[u8], spot: Spot)
    requires { Roomy records.now bytes.now spot out.old }
    ensures { TellsNames records.now bytes.now spot out.old out.new }
{
    // kept: k goes on by the length of a name and its zero byte: it is where the next one is written.
    let mut k = 0;
    for entry in below(records, spot) {
        let o = entry.spot.off;
        let n = usize::from(entry.size);
        put_name(out, k, &bytes[o..o + n]);
        k += n + 1;
    }
}
