// A number's position: read from there on, and set.
ghost use Rattle.std.specs.Prelude.{◌≡◌, ◌^◌, ◌<◌, length, take, drop};
ghost use Rattle.model.specs.Operations.Numbers.{read_on, seek_on};
ghost use Rattle.layout.specs.Lent.{◌∘◌, with_words, with_heads, with_bytes, still};
ghost use Rattle.layout.specs.Lent.{◌&◌, on_words};
ghost use Rattle.refusal.specs.Numbers.{answered};
ghost use Rattle.store.specs.Shows.{Of};
ghost use Rattle.op.specs.Lending.{in_bytes, in_number};
ghost use Rattle.op_number.specs.Opened.{SomeOpen, OpenAnswered, PositionIs, origin_from, number_from, SeekIs};

use blocks::copy_into;
use refusal::Refusal;

// From where a seek goes.
#[derive(Clone, Copy, PartialEq, Eq)]
pub enum Origin {
    Start,
    Position,
    End,
}

// 0 the start, 1 the position, any other number the end.
impl From<u32> for Origin {
    ghost from_gives = { λ n o. o ≡ origin_from n };

    fn from(n: u32) -> Origin {
        match n {
            0 => Origin::Start,
            1 => Origin::Position,
            _ => Origin::End,
        }
    }
}

// 2^63: a seek from the end leads to a place below it.
const HALF: u64 = 9223372036854775808;

// The position of the number n, which is open.
fn position(words: &[u64], n: usize) -> u64
    ensures { Of (still (with_words words.now)) (λ _ s. PositionIs s n result) }
{
    store::open(words, n).unwrap_or(0)
}

// At most so many bytes of s, from the position on.
fn behind<'a>(s: &'a [u8], pos: u64, most: usize) -> &'a [u8]
    ensures { result.now ≡ take most (drop pos s.now) }
{
    let rest = &s[s.len().min(pos as usize)..];
    &rest[..rest.len().min(most)]
}

// As many bytes as the buffer holds or the file has from the position on, which moves behind them.
pub fn read_on(
    words: &mut [u64],
    heads: &[u64],
    bytes: &[u8],
    n: usize,
    out: &mut [u8],
    number: &mut u64,
) -> Result<(), Refusal>
    requires { SomeOpen (with_words words.old ∘ with_heads heads.now ∘ with_bytes bytes.now) n }
    ensures { OpenAnswered (on_words words.old words.new & still (with_heads heads.now ∘ with_bytes bytes.now)) n (λ _. read_on n (length out.old))
        (in_bytes out.old number.old 0) (in_bytes out.new number.new 0) (answered result) }
{
    let pos = position(words, n);
    let held = store::held(words, heads, bytes, n);
    let part = behind(held, pos, out.len());
    let k = part.len() as u64;
    copy_into(out, 0, part);
    store_edit::state::seek(words, n, pos + k);
    *number = k;
    Ok(())
}

// The exact sum of a length and an offset, which may stand for a number below 0: 13 where it is below 0 or above 2^63 - 1.
fn from_end(size: u64, offset: u64) -> Result<u64, Refusal>
    requires { size < 2 ^ 63 }
    ensures { SeekIs Origin.End offset 0 size result }
{
    match size.checked_add_signed(offset.cast_signed()) {
        Some(place) if place < HALF => Ok(place),
        _ => Err(Refusal::BadSeek),
    }
}

// Where a seek leads.
fn seek_from(origin: Origin, offset: u64, pos: u64, size: u64) -> Result<u64, Refusal>
    requires { size < 2 ^ 63 }
    ensures { SeekIs origin offset pos size result }
{
    match origin {
        Origin::Start => Ok(offset),
        Origin::Position => Ok(std::num::wrapping_add_u64(pos, offset)),
        Origin::End => from_end(size, offset),
    }
}

// The position is set, and answered.
pub fn seek_by(
    words: &mut [u64],
    heads: &[u64],
    bytes: &[u8],
    n: usize,
    origin: Origin,
    offset: u64,
    number: &mut u64,
) -> Result<(), Refusal>
    requires { SomeOpen (with_words words.old ∘ with_heads heads.now ∘ with_bytes bytes.now) n }
    ensures { OpenAnswered (on_words words.old words.new & still (with_heads heads.now ∘ with_bytes bytes.now)) n
        (λ _. seek_on n (number_from origin) offset)
        (in_number number.old) (in_number number.new) (answered result) }
{
    let size = store::held(words, heads, bytes, n).len() as u64;
    let place = seek_from(origin, offset, position(words, n), size)?;
    store_edit::state::seek(words, n, place);
    *number = place;
    Ok(())
}

// The same, by the origin's number, of which any may be given.
pub fn seek_on(
    words: &mut [u64],
    heads: &[u64],
    bytes: &[u8],
    n: usize,
    origin: u32,
    offset: u64,
    number: &mut u64,
) -> Result<(), Refusal>
    requires { SomeOpen (with_words words.old ∘ with_heads heads.now ∘ with_bytes bytes.now) n }
    ensures { OpenAnswered (on_words words.old words.new & still (with_heads heads.now ∘ with_bytes bytes.now)) n (λ _. seek_on n origin offset)
        (in_number number.old) (in_number number.new) (answered result) }
{
    seek_by(words, heads, bytes, n, Origin::from(origin), offset, number)
}
