// Refusal 3.
ghost use Rattle.std.specs.Prelude.{◌≡◌};
ghost use Rattle.path.specs.Path.{lengths_ok};

// The most bytes of a path or a target.
pub const LONGEST_PATH: usize = 1024;

// The most bytes of a name.
pub const LONGEST_NAME: usize = 255;

// At most 1,024 bytes, and at most 255 between slashes. A piece is 256 bytes or more if no slash stands in its first 256:
// they are read from their end, so that most bytes are never read.
// kept: by `split` and `all` a target of 28 bytes takes 25 ns, not 2, and the test of a store has 10 for an entry with all of it (docs/BENCH.md).
pub fn lengths_ok(s: &[u8]) -> bool
    ensures { result ≡ lengths_ok s.now }
{
    if s.len() > LONGEST_PATH {
        return false;
    }
    let mut rest = s;
    while let Some(head) = rest.get(..=LONGEST_NAME) {
        match head.iter().rposition(|b| *b == b'/') {
            Some(slash) => rest = &rest[slash + 1..],
            None => return false,
        }
    }
    true
}
