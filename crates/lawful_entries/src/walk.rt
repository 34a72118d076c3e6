// The walk over the records.
ghost use Rattle.std.specs.Prelude.{true, ◌&&◌, [], ◌≡◌, ◌+◌, ◌≤◌, ◌<◌, length, eqb, ltb};
ghost use Rattle.layout.specs.Numbers.{most_entries, most_bytes};
ghost use Rattle.layout.specs.Fields.{depth_of, nlen_of, slot_of};
ghost use Rattle.layout.specs.Rows.{rows, name_total};
ghost use Rattle.layout.specs.Lawful.{follows};
ghost use Rattle.lawful_entries.specs.Fits.{kind_in, entry_fits, walk_fits, rows_fit, row_at, spell, Spelt};

use crate::rising::rises;
use crate::span::Span;
use layout::kind::Kind;
use layout::{MOST_ENTRIES, depth_of, nlen_of, slot_of};
use path::pieces::{self, Piece};

// A path has fewer names than there are entries.
// kept: a cast with a name
const MOST_NAMES: usize = MOST_ENTRIES as usize;

// Whether a name stands right behind an entry of that path, which is or is not a directory.
fn follows_ok(path: &[Span], dir: bool, bytes: &[u8], name: &[u8], depth: usize) -> bool
    requires { Spelt (length bytes.now) path.now }
    ensures { result ≡ follows (spell bytes.now path.now) dir depth name.now }
{
    if depth == 0 {
        return false;
    }
    match path.get(depth - 1) {
        Some(beside) => rises(beside.of(bytes), name),
        None => depth - 1 == path.len() && dir,
    }
}

// Whether a record, whose name stands at `off`, can stand behind an entry of that path; n is the number of slots.
fn entry_ok(path: &[Span], dir: bool, bytes: &[u8], w: u64, off: usize, n: usize) -> bool
    requires { Spelt (length bytes.now) path.now × (off + nlen_of w ≤ length bytes.now) }
    ensures { result ≡ entry_fits n (spell bytes.now path.now) dir (row_at bytes.now w off) }
{
    let name = &bytes[off..off + nlen_of(w)];
    slot_of(w) < n
        && pieces::kind_of(name, true) == Piece::Name
        && follows_ok(path, dir, bytes, name, depth_of(w))
}

// Whether records are the entries below the root. (Not inlined, so that what the loop reads stays in registers.)
#[inline(never)]
fn walk_below(recs: &[u64], heads: &[u64], bytes: &[u8]) -> bool
    requires { (length recs.now < most_entries) × (name_total recs.now ≤ length bytes.now) × (length bytes.now ≤ most_bytes) }
    ensures { result ≡ walk_fits (kind_in heads.now) (length heads.now) [] true (rows recs.now bytes.now) }
{
    // kept: an array with the depth beside it, since there is no heap for a Vec
    let mut last = [Span::EMPTY; MOST_NAMES];
    let mut d = 0;
    let mut dir = true;
    // kept: off goes on by the length of a name, since a Span says where its name stands.
    let mut off = 0;
    for w in recs {
        if !entry_ok(&last[..d], dir, bytes, *w, off, heads.len()) {
            return false;
        }
        let n = nlen_of(*w);
        d = depth_of(*w);
        last[d - 1] = Span::new(off, n);
        dir = Kind::of(heads[slot_of(*w)]) == Some(Kind::Directory);
        off += n;
    }
    true
}

// Whether a record is the root's.
fn root_ok(w: u64, heads: &[u64]) -> bool
    ensures { result ≡ (eqb (depth_of w) 0 && (eqb (nlen_of w) 0
        && (ltb (slot_of w) (length heads.now) && eqb (kind_in heads.now (slot_of w)) 1))) }
{
    depth_of(w) == 0
        && nlen_of(w) == 0
        && slot_of(w) < heads.len()
        && Kind::of(heads[slot_of(w)]) == Some(Kind::Directory)
}

// Whether the records are the entries of a tree, apart from the bytes of their names.
pub fn walk_ok(recs: &[u64], heads: &[u64], bytes: &[u8]) -> bool
    requires { (name_total recs.now ≤ length bytes.now) × (length recs.now ≤ most_entries) × (length bytes.now ≤ most_bytes) }
    ensures { result ≡ rows_fit (kind_in heads.now) (length heads.now) (rows recs.now bytes.now) }
{
    match recs.split_first() {
        Some((root, below)) => root_ok(*root, heads) && walk_below(below, heads, bytes),
        None => true,
    }
}
