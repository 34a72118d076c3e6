// What a text keeps: how much, and its names stored. A plain text, as most are, needs no reading from the end.
ghost use Rattle.std.specs.Prelude.{◌≡◌, ◌+◌, ◌≤◌, length, IfSome};
ghost use Rattle.std.proofs.Props.{props};
ghost use Rattle.path.specs.Answer.{ends_at};
ghost use Rattle.path.specs.Backward.{sifted};
ghost use Rattle.path.specs.Path.{body};
ghost use Rattle.path_scan.specs.Measure.{Measured};
ghost use Rattle.path_scan.specs.Plain.{PlainPart};

use crate::plain::find_plain;
use crate::sifting::KeptNames;
use path::bytes::put_name;

// A text, and what it keeps where what stands behind it drops `behind` names.
#[derive(Drop)]
pub struct Kept<'a> {
    pub text: &'a [u8],
    // Whether `..` drops a name or is one.
    pub strike: bool,
    pub behind: usize,
    // The length of the kept names, a slash before each.
    pub len: usize,
    // How many names before the text are dropped.
    pub skip: usize,
    // Of a plain text the part whose pieces are all names: beside it stand at most a slash in front and one at the end.
    pub plain: Option<&'a [u8]>,
    ghost small: { behind ≤ 9223372036854775808 },
    ghost long: { len ≡ length (body (sifted strike behind text.now).kept) },
    ghost drops: { skip ≡ (sifted strike behind text.now).skip },
    ghost few: { skip ≤ behind + length text.now + 1 },
    ghost stands: { IfSome plain (λ names. PlainPart names.now strike behind text.now) } by { Prim.hlevel props },
}

impl<'a> Kept<'a> {
    pub fn measure(text: &'a [u8], strike: bool, behind: usize) -> Self
        requires { behind ≤ 9223372036854775808 }
        ensures given { (result.text.now ≡ text.now) × (result.strike ≡ strike) × (result.behind ≡ behind) }
        ensures measured { Measured strike behind text.now result.len result.skip }
    {
        if text.is_empty() {
            return Self {
                text,
                strike,
                behind,
                len: 0,
                skip: behind,
                plain: None,
            };
        }
        if behind == 0 {
            if let Some(names) = find_plain(text) {
                return Self {
                    text,
                    strike,
                    behind,
                    len: names.len() + 1,
                    skip: 0,
                    plain: Some(names),
                };
            }
        }
        Self::read_back(text, strike, behind)
    }

    // The same of any text, read from its end.
    pub fn read_back(text: &'a [u8], strike: bool, behind: usize) -> Self
        requires { behind ≤ 9223372036854775808 }
        ensures given { (result.text.now ≡ text.now) × (result.strike ≡ strike) × (result.behind ≡ behind) }
        ensures measured { Measured strike behind text.now result.len result.skip }
    {
        let mut names = KeptNames::new(text, strike, behind);
        let mut len = 0;
        // kept: what a `for` over `&mut names` leaves in them, `skip` too, no proof knows behind it (tried).
        while let Some((start, end)) = names.next() {
            len += end - start + 1;
        }
        Self {
            text,
            strike,
            behind,
            len,
            skip: names.skip,
            plain: None,
        }
    }

    // The kept names, stored in front of `end`.
    pub fn put(&self, out: &mut [u8], end: usize)
        requires { (end ≤ length out.old) × (self.now.len ≤ end) }
        ensures { out.new ≡ ends_at end (body (sifted self.now.strike self.now.behind self.now.text.now).kept) out.old }
    {
        if self.text.is_empty() {
            return;
        }
        if let Some(names) = self.plain {
            put_name(out, end - self.len, names);
            return;
        }
        self.put_back(out, end);
    }

    // The same of any text, read from its end.
    fn put_back(&self, out: &mut [u8], end: usize)
        requires { (end ≤ length out.old) × (self.now.len ≤ end) }
        ensures { out.new ≡ ends_at end (body (sifted self.now.strike self.now.behind self.now.text.now).kept) out.old }
    {
        let mut at = end;
        for (start, stop) in KeptNames::new(self.text, self.strike, self.behind) {
            at -= stop - start + 1;
            put_name(out, at, &self.text[start..stop]);
        }
    }
}
