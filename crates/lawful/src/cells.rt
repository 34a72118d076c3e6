// Kept paths: the current directory's, and one for each open file number.
ghost use Rattle.std.specs.Prelude.{◌≡◌, ℕ, ◌≤◌, ◌<◌, T, length};
ghost use Rattle.layout.specs.Numbers.{extent_at, file_numbers, cell_bytes, paths_bytes};
ghost use Rattle.layout.specs.Lawful.{cell_ok};
ghost use Rattle.lawful_limits.specs.Settles.{Settles};
ghost use Rattle.lawful.specs.Parts.{piece_ok, kept_in, number_in, Kept};

use layout::{CELL_BYTES, FILE_NUMBERS, HERE_AT, KEPT_AT, NUMBER_WORDS, slot_held};
use path::lengths::LONGEST_NAME;
use path::pieces::{Piece, kind_of};
use text::text_ok;

// The greatest length of a kept path.
// kept: a cast with a name
const LONGEST: u64 = CELL_BYTES as u64;

// Whether what stands between two slashes is a name.
pub fn piece_ok(n: &[u8]) -> bool
    ensures { result ≡ piece_ok n.now }
{
    kind_of(n, true) == Piece::Name && n.len() <= LONGEST_NAME && text_ok(n)
}

// Whether a text is a path as it is kept: nothing, or names with a slash before each.
pub fn path_ok(s: &[u8]) -> bool
    requires { length s.now ≤ cell_bytes }
    ensures { result ≡ cell_ok s.now }
{
    match s.split_first() {
        Some((first, names)) => *first == b'/' && names.split(|b| *b == b'/').all(piece_ok),
        None => true,
    }
}

// Whether the n bytes of cell i that are used are a path as it is kept. (Not inlined, so that the loop over closed numbers is short.)
#[inline(never)]
fn cell_ok(paths: &[u8], i: usize, n: u64) -> bool
    requires { (i ≤ file_numbers) × (paths_bytes ≤ length paths.now) }
    ensures { result ≡ kept_in paths.now i n }
{
    if LONGEST < n {
        return false;
    }
    let a = CELL_BYTES * i;
    path_ok(&paths[a..a + n as usize])
}

// Whether each file number is closed, or stands on one of n slots and has its path.
fn numbers_ok(words: &[u64], paths: &[u8], n: usize) -> bool
    requires { (extent_at ≤ length words.now) × (paths_bytes ≤ length paths.now) }
    ensures { Settles result ((j : ℕ) → j < file_numbers → T (number_in words.now paths.now n j)) }
{
    for j in 0..FILE_NUMBERS {
        let Some(slot) = slot_held(words, j) else {
            continue;
        };
        let used = words[KEPT_AT + NUMBER_WORDS * j];
        if n <= slot || !cell_ok(paths, j + 1, used) {
            return false;
        }
    }
    true
}

// Whether all kept paths are right.
pub fn kept_ok(words: &[u64], paths: &[u8], n: usize) -> bool
    requires { (extent_at ≤ length words.now) × (paths_bytes ≤ length paths.now) }
    ensures { Settles result (Kept words.now paths.now n) }
{
    numbers_ok(words, paths, n) && cell_ok(paths, 0, words[HERE_AT])
}
