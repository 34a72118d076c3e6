// What is read, and the numbers of a line.
ghost use Rattle.std.specs.Prelude.{◌≡◌, ◌≤◌, IfOk, IfSome, length, take};

use std::alloc::Global;
use std::io::{Read, Result};

// So many bytes of the input are read at most.
pub const MOST: u64 = 65536;

// Reads until the slice is full or there is no more, and tells how many bytes.
pub fn input<R: Read>(from: &mut R, into: &mut [u8]) -> Result<usize>
    ensures { IfOk result (λ n. n ≤ length into.new) }
{
    let mut n = 0;
    while n < into.len() {
        let k = from.read(&mut into[n..])?;
        if k == 0 {
            break;
        }
        n += k;
    }
    Ok(n)
}

// The first bytes of what there is to read, in memory of their own.
pub fn whole_input<R: Read>(alloc: Global, from: &mut R) -> Result<Vec<u8>>
    ensures bytes { IfSome (R.remaining from.old) (λ all. IfOk result (λ text. text.items ≡ take MOST all)) }
    ensures bound { IfOk result (λ text. length text.items ≤ MOST) }
{
    let mut text = Vec::new(alloc);
    from.take(MOST).read_to_end(&mut text)?;
    // No reader gives more: said here, where a reader whose bytes are not known has no clause that says so.
    text.truncate(MOST as usize);
    Ok(text)
}

// The value of a digit. Other bytes have one too: letters in sixes, all else 0.
// kept: the library's `to_digit` has none for these
fn digit(byte: u8) -> u64 {
    match byte {
        b'0'..=b'9' => u64::from(byte - b'0'),
        b'a'.. => u64::from((byte - b'a') % 6 + 10),
        _ => 0,
    }
}

// A decimal number below 10 * 2^60, or with 0x before it a hexadecimal one of 64 bits: before a further digit the low 60 bits are kept.
// kept: the library's parse would refuse what is no digit and what is too long, and every field has a value here
pub fn number(field: &[u8]) -> u64 {
    let base = if field.get(1) == Some(&b'x') { 16 } else { 10 };
    let mut number = 0u64;
    for byte in field {
        number = match byte {
            b'x' => 0,
            _ => number % (1 << 60) * base + digit(*byte) % base,
        };
    }
    number
}
