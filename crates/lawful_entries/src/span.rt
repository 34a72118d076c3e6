// Where a name stands.
ghost use Rattle.std.specs.Prelude.{◌≡◌, ◌+◌, ◌*◌, ◌≤◌, ◌<◌, length};
ghost use Rattle.layout.specs.Numbers.{most_bytes, name_lengths};
ghost use Rattle.lawful_entries.specs.Fits.{name_at, Within};

use layout::NAME_LENGTHS;

// kept: a cast with a name
const LENGTHS: usize = NAME_LENGTHS as usize;

// 256 times where the name begins, and its length.
// kept: one number; two fields are twice as long to clear, and the test of 511 entries, 8.4 ns of its goal of 10 (bench/RESULTS.md), is a fifth slower.
#[derive(Clone, Copy)]
pub struct Span(u32);

impl Span {
    pub const EMPTY: Self = Span(0);

    pub fn new(at: usize, n: usize) -> Self
        requires { (at ≤ most_bytes) × (n < name_lengths) }
        ensures { result.0 ≡ at * name_lengths + n }
    {
        Span((at * LENGTHS + n) as u32)
    }

    // The name.
    pub fn of(self, bytes: &[u8]) -> &[u8]
        requires { Within (length bytes.now) self }
        ensures { result.now ≡ name_at bytes.now self }
    {
        let v = self.0 as usize;
        let at = v / LENGTHS;
        &bytes[at..at + v % LENGTHS]
    }
}
