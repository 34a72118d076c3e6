#![tactic(auto)]
// Moves of a part of a slice inside it, and rotations: two parts that stand one behind the other are exchanged.
ghost use Rattle.std.specs.Prelude.{◌≡◌, ◌+◌, ◌-◌, ◌≤◌, length};
ghost use Rattle.std.proofs.Math.Seq.{paste};
ghost use Rattle.blocks.specs.Moved.{moved};
ghost use Rattle.blocks.specs.Turn.{turned};

// Moves s[at..used] up by n.
// kept: `used` beside s, as in close_gap: without it six of the seven calls would first cut `&mut s[..used + n]` or `&mut s[..used]` themselves.
pub fn open_gap<T: Copy>(s: &mut [T], used: usize, at: usize, n: usize)
    requires { (at ≤ used) × (used + n ≤ length s.old) }
    ensures { s.new ≡ moved s.old at (at + n) (used - at) }
{
    shift(s, at, at + n, used - at)
}

// Moves s[at + n..used] down by n.
pub fn close_gap<T: Copy>(s: &mut [T], used: usize, at: usize, n: usize)
    requires { (at + n ≤ used) × (used ≤ length s.old) }
    ensures { s.new ≡ moved s.old (at + n) at (used - (at + n)) }
{
    shift(s, at + n, at, used - (at + n))
}

// Moves s[from..from + k] to s[to..to + k], whichever way that is. (A move by 0 would make the compiler's vectorised loop fall back to
// single elements.)
#[tactic(auto, using(crate::proofs::Laws::moved_same), unfolding(crate::specs::Moved::moved))]
pub fn shift<T: Copy>(s: &mut [T], from: usize, to: usize, k: usize)
    requires { (from + k ≤ length s.old) × (to + k ≤ length s.old) }
    ensures { s.new ≡ moved s.old from to k }
{
    if from != to {
        s.copy_within(from..from + k, to);
    }
}

// Copies all of src over dst from index at. (Element by element: the library's copy_from_slice becomes a call of memmove, which a short
// name pays for and which an archive for C would ask its surroundings for.)
pub fn copy_into<T: Copy>(dst: &mut [T], at: usize, src: &[T])
    requires { at + length src.now ≤ length dst.old }
    ensures { dst.new ≡ paste dst.old at src.now (length src.now) }
{
    for j in 0..src.len() {
        dst[at + j] = src[j];
    }
}

// Exchanges the parts of s from a to m and from m to e.
#[tactic(auto, using(crate::proofs::Turns::turned_by))]
pub fn turn<T>(s: &mut [T], a: usize, m: usize, e: usize)
    requires { (a ≤ m) × (m ≤ e) × (e ≤ length s.old) }
    ensures { s.new ≡ turned s.old a m e }
{
    s[a..e].rotate_left(m - a);
}
