#![tactic(auto)]
// Limits of a store, and the lengths that they ask.
ghost use Rattle.std.specs.Prelude.{◌≡◌, ◌≤◌};
ghost use Rattle.layout.specs.Numbers.{most_entries};
ghost use Rattle.layout.specs.Lawful.{Long};
ghost use Rattle.layout.specs.Lent.{lent_by};
ghost use Rattle.lawful_limits.specs.Settles.{Settles};
ghost use Rattle.lawful_limits.specs.Limits.{Limits, Lengths, fits, lengths_fit};

use layout::slices::Slices;
use layout::{
    BEYOND, COUNT_AT, EXTENT_AT, FILE_NUMBERS, LEAST_BYTES, MASK_AT, MODE_UNIT, MOST_AT,
    MOST_BYTES, MOST_ENTRIES, PATHS_BYTES, ROOM_AT, TIMES, WORD_COUNT,
};

// Whether the entry limit, the byte limit, the number of entries, the umask and the number of slots are in range.
pub fn limits_ok(words: &[u64]) -> bool
    ensures { Settles result (Limits words.now) }
{
    if words.len() < WORD_COUNT {
        return false;
    }
    let most = words[MOST_AT];
    (1..=MOST_ENTRIES).contains(&most)
        && (LEAST_BYTES..=MOST_BYTES).contains(&words[ROOM_AT])
        && words[COUNT_AT] <= most
        && words[MASK_AT] < MODE_UNIT
        && words[EXTENT_AT] <= most + BEYOND
}

// Whether slices of those lengths hold the records, the slots' words and times and the cells of an entry limit.
fn fits(most: usize, records: usize, heads: usize, times: usize, paths: usize) -> bool
    requires { most ≤ most_entries }
    ensures { result ≡ fits most records heads times paths }
{
    most <= records
        && most + FILE_NUMBERS <= heads
        && TIMES * (most + FILE_NUMBERS) <= times
        && PATHS_BYTES <= paths
}

// The same of slices.
pub fn lengths_fit(s: Slices, most: usize) -> bool
    requires { most ≤ most_entries }
    ensures { result ≡ lengths_fit (lent_by s.entry) most }
{
    fits(
        most,
        s.records.len(),
        s.heads.len(),
        s.times.len(),
        s.paths.len(),
    )
}

// Whether slices of those lengths are as long as the limits ask, or longer. Any lengths may be asked for, of memory that is not there too.
pub fn lengths_ok(
    words: &[u64],
    records: usize,
    heads: usize,
    times: usize,
    paths: usize,
    bytes: usize,
) -> bool
    requires { Limits words.now }
    ensures { Settles result (Lengths words.now records heads times paths bytes) }
{
    fits(words[MOST_AT] as usize, records, heads, times, paths) && words[ROOM_AT] as usize <= bytes
}

// Whether the slices are.
pub fn is_long(s: Slices) -> bool
    requires { Limits s.words.now }
    ensures { Settles result (Long (lent_by s.entry)) }
{
    lengths_ok(
        s.words,
        s.records.len(),
        s.heads.len(),
        s.times.len(),
        s.paths.len(),
        s.bytes.len(),
    )
}
