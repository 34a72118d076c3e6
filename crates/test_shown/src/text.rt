// Texts and numbers, written.
ghost use Rattle.std.specs.Prelude.{◌≤◌};

use std::fmt;

// A mode or a umask, in decimal and octal.
#[derive(Clone, Copy)]
pub struct Mode(pub u64);

impl fmt::Display for Mode {
    fn fmt<W: fmt::Write>(&self, f: &mut fmt::Formatter<W>) -> fmt::Result {
        let mode = self.0;
        write!(f, "{mode} (octal {mode:o})")
    }
}

// A number that every byte of s enters.
pub fn sum_of(s: &[u8]) -> u64
    ensures { result ≤ 4294967290 }
{
    let mut sum = 0;
    for byte in s {
        sum = (sum * 257 + u64::from(*byte) + 1) % 4294967291;
    }
    sum
}

// A text, but a byte that is no letter, digit or sign of ASCII is \HH.
#[derive(Clone, Copy)]
struct Plain<'a>(&'a [u8]);

impl fmt::Display for Plain<'_> {
    fn fmt<W: fmt::Write>(&self, f: &mut fmt::Formatter<W>) -> fmt::Result {
        for byte in self.0 {
            if byte.is_ascii_graphic() {
                f.write_char(char::from(*byte))?;
            } else {
                write!(f, "\\{byte:02x}")?;
            }
        }
        Ok(())
    }
}

// The same; of a text of more than 40 bytes the first and last 8, and a sum of all.
#[derive(Clone, Copy)]
pub struct Short<'a>(pub &'a [u8]);

impl fmt::Display for Short<'_> {
    fn fmt<W: fmt::Write>(&self, f: &mut fmt::Formatter<W>) -> fmt::Result {
        let text = self.0;
        if text.len() <= 40 {
            return write!(f, "{}", Plain(text));
        }
        let first = Plain(&text[..8]);
        let last = Plain(&text[text.len() - 8..]);
        let sum = sum_of(text);
        write!(f, "{first}..{last}~{sum:08x}")
    }
}
