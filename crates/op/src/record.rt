// A record of metadata as numbers: kind, size, mode, then the times accessed, changed, created and modified.
ghost use Rattle.std.specs.Prelude.{◌++◌, ◌≡◌, ◌+◌, ◌≤◌, ◌<◌, ◌^◌, length, take, drop};
ghost use Rattle.model.specs.Buffers.{stat_numbers};
ghost use Rattle.ask_entry.specs.Reads.{stat_from};

use ask_entry::Stat;

// How many numbers a record has.
pub const NUMBERS: usize = 7;

// A directory is 0, a file 1, a link 2.
// kept: no From is allowed here, since Stat and the array are types of other crates.
fn numbers_of(s: Stat) -> [i64; NUMBERS]
    requires { s.size < 2 ^ 63 }
    ensures { result ≡ stat_numbers (stat_from s) }
{
    [
        s.kind.code() as i64 - 1,
        s.size as i64,
        s.mode as i64,
        s.accessed,
        s.changed,
        s.created,
        s.modified,
    ]
}

// Writes the record from the place `at` on.
pub fn put_record(rows: &mut [i64], at: usize, s: Stat)
    requires { (at + 7 ≤ length rows.old) × (s.size < 2 ^ 63) }
    ensures { rows.new ≡ take at rows.old ++ (stat_numbers (stat_from s) ++ drop (at + 7) rows.old) }
{
    rows[at..at + NUMBERS].copy_from_slice(&numbers_of(s));
}
