#![tactic(auto)]
// Reading a store: each function takes the slices that it reads, and tells what the model answers of every store that has them and
// obeys the rules.
ghost use Rattle.std.specs.Prelude.{cond, [], ◌≡◌, ◌+◌, ◌*◌, ◌≤◌, ◌<◌, eqb, ltb, length, take, drop, get_or};
ghost use Rattle.layout.specs.Numbers.{file_numbers};
ghost use Rattle.layout.specs.Fields.{kind_of, len_of};
ghost use Rattle.layout.specs.Kinds.{kind_from};
ghost use Rattle.layout.specs.Slots.{total, contents};
ghost use Rattle.layout.specs.Store.{lent};
ghost use Rattle.ask_entry.specs.Reads.{stat_from, kind_by, stat_at, Stored};
ghost use Rattle.ask_entry.specs.Reads.{TellsKind, TellsStat, TellsContents, TellsHere, TellsNumber, TellsHeld, TellsKept};

use ask_find::Spot;
use layout::kind::Kind;
use layout::{
    ACCESSED_AT, CELL_BYTES, CHANGED_AT, CREATED_AT, FILE_NUMBERS, HERE_AT, HOLDER_AT, KEPT_AT,
    MODIFIED_AT, NUMBER_WORDS, POSITION_AT, TIMES, len_of, mode_of, slot_of,
};

// What the metadata of an entry shows.
#[derive(Clone, Copy)]
pub struct Stat {
    pub kind: Kind,
    pub size: usize,
    pub mode: u32,
    pub accessed: i64,
    pub changed: i64,
    pub created: i64,
    pub modified: i64,
}

// An open file number: the slot that it stands on, and its position.
#[derive(Clone, Copy)]
pub struct Opened {
    pub slot: usize,
    pub pos: u64,
}

// The element at i; the other value behind the end.
// kept: the library's `get`, and what stands behind the end said once for all that read words and times.
fn at<T: Copy>(s: &[T], i: usize, other: T) -> T
    ensures { result ≡ get_or s.now i other }
{
    s.get(i).copied().unwrap_or(other)
}

// The n bytes from a on; fewer where there are not as many.
fn part(s: &[u8], a: usize, n: usize) -> &[u8]
    ensures { result.now ≡ take n (drop a s.now) }
{
    let rest = s.get(a..).unwrap_or(&[]);
    rest.get(..n).unwrap_or(rest)
}

// The kind in a slot's word.
fn kind_in(h: u64) -> Kind
    ensures { kind_from result ≡ kind_by (kind_of h) }
{
    Kind::of(h).unwrap_or(Kind::Link)
}

// A link's length is 0, a directory's too.
fn file_size(h: u64) -> usize
    ensures { result ≡ cond (eqb (kind_of h) 2) (len_of h) 0 }
{
    if Kind::of(h) == Some(Kind::File) {
        len_of(h)
    } else {
        0
    }
}

// What the metadata of an entry with the slot k shows.
fn slot_stat(heads: &[u64], times: &[i64], k: usize) -> Stat
    requires { k < 1099511627776 }
    ensures { stat_from result ≡ stat_at (lent [] [] heads.now times.now [] []) k }
{
    let h = at(heads, k, 0);
    let t = TIMES * k;
    Stat {
        kind: kind_in(h),
        size: file_size(h),
        mode: mode_of(h),
        accessed: at(times, t + ACCESSED_AT, 0),
        changed: at(times, t + CHANGED_AT, 0),
        created: at(times, t + CREATED_AT, 0),
        modified: at(times, t + MODIFIED_AT, 0),
    }
}

// The metadata of the entry at the spot.
pub fn entry_stat(records: &[u64], heads: &[u64], times: &[i64], spot: Spot) -> Stat
    ensures { TellsStat records.now heads.now times.now spot result }
{
    slot_stat(heads, times, slot_of(at(records, spot.at, 0)))
}

// Its kind, as in its metadata.
pub fn entry_kind(records: &[u64], heads: &[u64], spot: Spot) -> Kind
    ensures { TellsKind records.now heads.now spot result }
{
    let k = slot_of(at(records, spot.at, 0));
    kind_in(at(heads, k, 0))
}

// The bytes of slot k, a part of the byte storage, which ends with them and those of all slots behind it.
fn slot_bytes<'a>(heads: &[u64], bytes: &'a [u8], k: usize) -> &'a [u8]
    requires { total heads.now ≤ length bytes.now }
    ensures { result.now ≡ get_or (contents heads.now bytes.now) k [] }
{
    if heads.len() <= k {
        return &[];
    }
    let rest = &heads[k..];
    let a = bytes.len() - slots::sum_to(rest, rest.len());
    part(bytes, a, len_of(heads[k]))
}

// The contents of the file, or the target of the link, at the spot.
pub fn entry_contents<'a>(records: &[u64], heads: &[u64], bytes: &'a [u8], spot: Spot) -> &'a [u8]
    requires { Stored heads.now bytes.now }
    ensures { TellsContents records.now heads.now bytes.now spot result.now }
{
    slot_bytes(heads, bytes, slot_of(at(records, spot.at, 0)))
}

// The word at i of the three of number n; 0 where there is no such number.
// kept: 0 is the layout's word of a closed number, so an Option would be taken apart to be put together again
fn number_word(words: &[u64], n: usize, i: usize) -> u64
    requires { i < 8 }
    ensures { result ≡ cond (ltb n file_numbers) (get_or words.now (i + 3 * n) 0) 0 }
{
    if n < FILE_NUMBERS {
        at(words, i + NUMBER_WORDS * n, 0)
    } else {
        0
    }
}

// The number n, if it is open.
pub fn number_at(words: &[u64], n: usize) -> Option<Opened>
    ensures { TellsNumber words.now n result }
{
    // kept: no slot_held, which asks its callers that the number and its words are there
    let slot = number_word(words, n, HOLDER_AT).checked_sub(1)?;
    Some(Opened {
        slot: slot as usize,
        pos: number_word(words, n, POSITION_AT),
    })
}

// The bytes of the file that the open number n stands on.
pub fn held_bytes<'a>(words: &[u64], heads: &[u64], bytes: &'a [u8], n: usize) -> &'a [u8]
    requires { Stored heads.now bytes.now }
    ensures { TellsHeld words.now heads.now bytes.now n result.now }
{
    match number_at(words, n) {
        Some(o) => slot_bytes(heads, bytes, o.slot),
        None => &[],
    }
}

// The path that the open number n keeps. The first cell is the current directory's.
pub fn kept_path<'a>(words: &[u64], paths: &'a [u8], n: usize) -> &'a [u8]
    ensures { TellsKept words.now paths.now n result.now }
{
    if FILE_NUMBERS <= n {
        return &[];
    }
    part(
        paths,
        CELL_BYTES * (n + 1),
        number_word(words, n, KEPT_AT) as usize,
    )
}

// The path of the current directory.
pub fn current<'a>(words: &[u64], paths: &'a [u8]) -> &'a [u8]
    ensures { TellsHere words.now paths.now result.now }
{
    part(paths, 0, at(words, HERE_AT, 0) as usize)
}
