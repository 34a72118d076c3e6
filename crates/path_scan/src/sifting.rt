// The names that a text keeps once its `..` have dropped the names before them, read from the end.
ghost use Rattle.std.specs.Prelude.{◌≡◌, ◌+◌, ◌≤◌, length, take, Some};
ghost use Rattle.std.specs.Iterator.{at_most};
ghost use Rattle.path.specs.Answer.{LastIs};
ghost use Rattle.path.specs.Backward.{drop_n};
ghost use Rattle.path.specs.Path.{body, names};
ghost use Rattle.path_scan.specs.Left.{rest, FrontOf, ReadsOn};

use path::pieces::{Piece, kind_of, piece_start};

// What stands in front of a piece that begins at `start` and of the slash before it; None: the piece is the first.
fn before(text: &[u8], start: usize) -> Option<&[u8]>
    requires { start ≤ length text.now }
    ensures { (rest result ≡ start) × FrontOf text.now result }
{
    text[..start].split_last().map(|(_, front)| front)
}

// The names that a text keeps, the last first: where each begins and ends.
#[derive(Drop)]
pub struct KeptNames<'a> {
    // The front of the text that is left to read; None: nothing is, not even an empty piece.
    left: Option<&'a [u8]>,
    // Whether `..` drops a name.
    strike: bool,
    // How many names are still to drop.
    pub skip: usize,
    ghost few: { skip + rest left ≤ 18446744073709551616 },
}

impl<'a> KeptNames<'a> {
    // What stands behind the text drops `behind` names.
    pub fn new(text: &'a [u8], strike: bool, behind: usize) -> Self
        requires { behind ≤ 9223372036854775808 }
        ensures { (result.left ≡ Some text.entry) × (result.strike ≡ strike) × (result.skip ≡ behind) }
    {
        Self {
            left: Some(text),
            strike,
            skip: behind,
        }
    }
}

impl<'a> Iterator for KeptNames<'a> {
    type Item = (usize, usize);

    ghost next_gives = { λ s r t. (t.strike ≡ s.strike) × ReadsOn s.strike s.left s.skip r t.left t.skip };

    ghost remaining = { λ s. at_most (rest s.left) };

    #[inline(always)]
    fn next(&mut self) -> Option<(usize, usize)> {
        while let Some(left) = self.left {
            let start = piece_start(left, left.len());
            let kind = kind_of(&left[start..], self.strike);
            self.left = before(left, start);
            match kind {
                Piece::Vanishes => {}
                Piece::Drops => self.skip += 1,
                Piece::Name if self.skip > 0 => self.skip -= 1,
                Piece::Name => return Some((start, left.len())),
            }
        }
        None
    }
}

// Where the last name that is kept stands, or else how many names in front of the text are dropped.
pub fn last_kept(s: &[u8], behind: usize) -> Result<(usize, usize), usize>
    requires { behind ≤ 9223372036854775808 }
    ensures { LastIs result s.now behind }
{
    let mut names = KeptNames::new(s, true, behind);
    names.next().ok_or(names.skip)
}

// The length of a path of the working buffers without its last k names.
pub fn drop_names(path: &[u8], k: usize) -> usize
    requires { body (names path.now) ≡ path.now }
    ensures { (result ≤ length path.now) × (take result path.now ≡ body (drop_n k (names path.now))) }
{
    let mut h = path.len();
    for _ in 0..k {
        if h == 0 {
            return 0;
        }
        h = piece_start(path, h) - 1;
    }
    h
}
