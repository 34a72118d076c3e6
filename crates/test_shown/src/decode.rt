// The bytes of an argument.
ghost use Rattle.std.specs.Prelude.{◌<◌, IfSome};

use arrayvec::{ArrayVec, CapacityError};

// As many bytes as an argument stands for at most.
const MOST: usize = 4096;

// What an argument stands for.
pub type Bytes = ArrayVec<u8, MOST>;

// An argument of another form than the programs say, or one that stands for too many bytes.
#[derive(Clone, Copy, Debug, PartialEq, Eq)]
pub struct Malformed;

impl From<CapacityError<u8>> for Malformed {
    fn from(_: CapacityError<u8>) -> Malformed {
        Malformed
    }
}

impl From<CapacityError> for Malformed {
    fn from(_: CapacityError) -> Malformed {
        Malformed
    }
}

// The value of a hexadecimal digit in small letters.
// kept: the library's `to_digit` takes capital letters as well
fn hexadecimal(digit: u8) -> Option<u8>
    ensures { IfSome result (λ value. value < 16) }
{
    match digit {
        b'0'..=b'9' => Some(digit - b'0'),
        b'a'..=b'f' => Some(digit - b'a' + 10),
        _ => None,
    }
}

// The number of four decimal digits.
// kept: the library's parse would take a sign before three digits as well
fn times(a: u8, b: u8, c: u8, d: u8) -> Option<u32> {
    let value = |digit: u8| char::from(digit).to_digit(10);
    Some(value(a)? * 1000 + value(b)? * 100 + value(c)? * 10 + value(d)?)
}

// The byte of two hexadecimal digits.
fn byte(high: u8, low: u8) -> Option<u8> {
    Some(hexadecimal(high)? * 16 + hexadecimal(low)?)
}

// The last byte once more, until it stands `count` times: all at once, since a program may be given many long runs.
fn repeat(bytes: &mut Bytes, count: u32) -> Result<(), Malformed> {
    let run = [*bytes.last().ok_or(Malformed)?; MOST];
    let more = count.checked_sub(1).ok_or(Malformed)? as usize;
    bytes.try_extend_from_slice(run.get(..more).ok_or(Malformed)?)?;
    Ok(())
}

// Behind the bytes, those of an argument: a byte as it stands, \HH the byte of that number, \*NNNN the byte before it NNNN times.
pub fn decode_behind(bytes: &mut Bytes, argument: &[u8]) -> Result<(), Malformed> {
    let mut rest = argument;
    loop {
        rest = match rest {
            [] => return Ok(()),
            [b'\\', b'*', a, b, c, d, rest @ ..] => {
                repeat(bytes, times(*a, *b, *c, *d).ok_or(Malformed)?)?;
                rest
            }
            [b'\\', high, low, rest @ ..] => {
                bytes.try_push(byte(*high, *low).ok_or(Malformed)?)?;
                rest
            }
            [b'\\', ..] => return Err(Malformed),
            [byte, rest @ ..] => {
                bytes.try_push(*byte)?;
                rest
            }
        };
    }
}

// The bytes of an argument.
pub fn decode(argument: &[u8]) -> Result<Bytes, Malformed> {
    let mut bytes = Bytes::new();
    decode_behind(&mut bytes, argument)?;
    Ok(bytes)
}
