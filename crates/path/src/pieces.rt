// The pieces of a path: what stands between its slashes.
ghost use Rattle.std.specs.Prelude.{◌≡◌, ◌-◌, ◌<◌, ◌≤◌, length, get_or};
ghost use Rattle.path.specs.Answer.{PieceIs, WholeIs};
ghost use Rattle.path.specs.Backward.{kind_of};

// The kind of a piece: it vanishes, as the empty one and `.` do; it is a `..` that drops a name; it is a name.
#[derive(Clone, Copy, PartialEq, Eq)]
pub enum Piece {
    Vanishes,
    Drops,
    Name,
}

// `strike`: whether `..` drops a name or is one.
// kept: it is one guard of one match; two functions would be the same but for that arm.
#[tactic(auto, using(crate::proofs::Dots::kinds))]
pub fn kind_of(n: &[u8], strike: bool) -> Piece
    ensures { result ≡ kind_of strike n.now }
{
    match n {
        [] | [b'.'] => Piece::Vanishes,
        [b'.', b'.'] if strike => Piece::Drops,
        _ => Piece::Name,
    }
}

// Where the piece that ends at e begins.
pub fn piece_start(s: &[u8], e: usize) -> usize
    requires { e ≤ length s.now }
    ensures { PieceIs s.now result e }
{
    match s[..e].iter().rposition(|b| *b == b'/') {
        Some(slash) => slash + 1,
        None => 0,
    }
}

// Where the piece that begins at a ends.
pub fn piece_end(s: &[u8], a: usize) -> usize
    requires { (a ≤ length s.now) × (0 < a → get_or s.now (a - 1) 0 ≡ 47) }
    ensures { WholeIs s.now a result }
{
    match s[a..].iter().position(|b| *b == b'/') {
        Some(slash) => a + slash,
        None => s.len(),
    }
}
