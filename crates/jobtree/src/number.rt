// The calls by file number. But for metadata they walk no path, and are lent no working buffers.
// kept: each exported function has the six slices, an origin and flags one by one and as numbers, as C calls it.
ghost use Rattle.std.specs.Prelude.{[], ◌/◌, length};
ghost use Rattle.model.specs.Calls.Calling as op;
ghost use Rattle.refusal.specs.Numbers.{answered};
ghost use Rattle.layout.specs.Lent.{lends, lent_by};
ghost use Rattle.layout.specs.Answers.{Answers};
ghost use Rattle.op.specs.Lending.{call_with, in_bytes, in_rows, in_number, in_nothing};
ghost use Rattle.op.specs.Doing.{Done};

use edit_slot::Given;
use lawful::sizes::known;
use layout::WORD_COUNT;
use layout::slices::Slices;
use op::clear::finish;
use op::parts::{Sizes, used};
use op::ready::{Number, ready};
use op_number::attributes::{close_on, set_length_on, set_mode_on, set_times_on};
use op_number::metadata::metadata_on;
use op_number::position::{read_on, seek_on};
use refusal::{Refusal, answer};

// The number is open no more.
#[unsafe(no_mangle)]
pub extern "C" fn jobtree_close(
    words: &mut [u64],
    records: &[u64],
    heads: &mut [u64],
    times: &[i64],
    paths: &[u8],
    bytes: &mut [u8],
    n: u32,
) -> u32
    ensures { Answers
        (call_with (op.close_number n)
        (in_nothing) [] [])
        (lends words.old records.now heads.old times.now paths.now bytes.old) (lends words.new records.now heads.new times.now paths.now bytes.new)
        (in_nothing) [] [] result }
{
    let lent = Slices {
        words,
        records,
        heads,
        times,
        paths,
        bytes,
    };
    match ready(lent, None, &[], Number::Opened(n)) {
        Err(e) => e.number(),
        Ok(()) => {
            let used = Sizes::of(lent);
            answer(close_on(
                &mut words[..WORD_COUNT],
                &records[..used.records],
                &mut heads[..used.heads],
                &mut bytes[..used.bytes],
                n as usize,
            ))
        }
    }
}

// From the position on, as much as there is or fits.
#[unsafe(no_mangle)]
pub extern "C" fn jobtree_read_number(
    words: &mut [u64],
    records: &[u64],
    heads: &[u64],
    times: &[i64],
    paths: &[u8],
    bytes: &[u8],
    n: u32,
    out: &mut [u8],
    number: &mut u64,
) -> u32
    ensures { Answers
        (call_with (op.read_number n (length out.old))
        (in_bytes out.old number.old 0) [] [])
        (lends words.old records.now heads.now times.now paths.now bytes.now) (lends words.new records.now heads.now times.now paths.now bytes.now)
        (in_bytes out.new number.new 0) [] [] result }
{
    let lent = Slices {
        words,
        records,
        heads,
        times,
        paths,
        bytes,
    };
    match ready(lent, None, &[], Number::Opened(n)) {
        Err(e) => e.number(),
        Ok(()) => {
            let used = Sizes::of(lent);
            answer(read_on(
                &mut words[..WORD_COUNT],
                &heads[..used.heads],
                &bytes[..used.bytes],
                n as usize,
                out,
                number,
            ))
        }
    }
}

// The position, from the start (origin 0), the position (1) or the end.
#[unsafe(no_mangle)]
pub extern "C" fn jobtree_seek(
    words: &mut [u64],
    records: &[u64],
    heads: &[u64],
    times: &[i64],
    paths: &[u8],
    bytes: &[u8],
    n: u32,
    origin: u32,
    offset: u64,
    number: &mut u64,
) -> u32
    ensures { Answers
        (call_with (op.seek_number n origin offset)
        (in_number number.old) [] [])
        (lends words.old records.now heads.now times.now paths.now bytes.now) (lends words.new records.now heads.now times.now paths.now bytes.now)
        (in_number number.new) [] [] result }
{
    let lent = Slices {
        words,
        records,
        heads,
        times,
        paths,
        bytes,
    };
    match ready(lent, None, &[], Number::Opened(n)) {
        Err(e) => e.number(),
        Ok(()) => {
            let used = Sizes::of(lent);
            answer(seek_on(
                &mut words[..WORD_COUNT],
                &heads[..used.heads],
                &bytes[..used.bytes],
                n as usize,
                origin,
                offset,
                number,
            ))
        }
    }
}

// The length of its file.
#[unsafe(no_mangle)]
pub extern "C" fn jobtree_set_length(
    words: &[u64],
    records: &[u64],
    heads: &mut [u64],
    times: &[i64],
    paths: &[u8],
    bytes: &mut [u8],
    n: u32,
    size: u64,
) -> u32
    ensures { Answers
        (call_with (op.set_length n size)
        (in_nothing) [] [])
        (lends words.now records.now heads.old times.now paths.now bytes.old) (lends words.now records.now heads.new times.now paths.now bytes.new)
        (in_nothing) [] [] result }
{
    let lent = Slices {
        words,
        records,
        heads,
        times,
        paths,
        bytes,
    };
    match ready(lent, None, &[], Number::Opened(n)) {
        Err(e) => e.number(),
        Ok(()) => {
            let used = Sizes::of(lent);
            answer(set_length_on(
                &words[..WORD_COUNT],
                &records[..used.records],
                &mut heads[..used.heads],
                &mut bytes[..used.bytes],
                n as usize,
                size,
            ))
        }
    }
}

// The mode of its file.
#[unsafe(no_mangle)]
pub extern "C" fn jobtree_set_mode_number(
    words: &[u64],
    records: &[u64],
    heads: &mut [u64],
    times: &[i64],
    paths: &[u8],
    bytes: &[u8],
    n: u32,
    mode: u32,
) -> u32
    ensures { Answers
        (call_with (op.set_mode_number n mode)
        (in_nothing) [] [])
        (lends words.now records.now heads.old times.now paths.now bytes.now) (lends words.now records.now heads.new times.now paths.now bytes.now)
        (in_nothing) [] [] result }
{
    let lent = Slices {
        words,
        records,
        heads,
        times,
        paths,
        bytes,
    };
    match ready(lent, None, &[], Number::Opened(n)) {
        Err(e) => e.number(),
        Ok(()) => {
            let used = Sizes::of(lent);
            answer(set_mode_on(
                &words[..WORD_COUNT],
                &mut heads[..used.heads],
                n as usize,
                mode,
            ))
        }
    }
}

// The times of its file: accessed (flag 1) and modified (2).
#[unsafe(no_mangle)]
pub extern "C" fn jobtree_set_times_number(
    words: &[u64],
    records: &[u64],
    heads: &[u64],
    times: &mut [i64],
    paths: &[u8],
    bytes: &[u8],
    n: u32,
    flags: u32,
    accessed: i64,
    modified: i64,
) -> u32
    ensures { Answers
        (call_with (op.set_times_number n flags accessed modified)
        (in_nothing) [] [])
        (lends words.now records.now heads.now times.old paths.now bytes.now) (lends words.now records.now heads.now times.new paths.now bytes.now)
        (in_nothing) [] [] result }
{
    let lent = Slices {
        words,
        records,
        heads,
        times,
        paths,
        bytes,
    };
    match ready(lent, None, &[], Number::Opened(n)) {
        Err(e) => e.number(),
        Ok(()) => {
            let used = Sizes::of(lent);
            let accessed = (flags % 2 == 1).then_some(accessed);
            let modified = (flags / 2 % 2 == 1).then_some(modified);
            let r = set_times_on(
                &words[..WORD_COUNT],
                &mut times[..used.times],
                n as usize,
                Given { accessed, modified },
            );
            known(times);
            answer(r)
        }
    }
}

// The record of the entry that the path kept at open leads to now.
fn metadata_number(
    lent: Slices,
    first: &mut [u8],
    second: &[u8],
    n: u32,
    rows: &mut [i64],
    links: &mut u64,
) -> Result<(), Refusal>
    ensures { Done (call_with (op.metadata_number n (length rows.old / 7)) (in_rows rows.old links.old) first.old second.now)
        (lent_by lent.entry) (lent_by lent.entry) (in_rows rows.new links.new) (answered result) }
{
    let work = (first.len(), second.len());
    ready(lent, Some(work), &[], Number::Opened(n))?;
    metadata_on(used(lent), n as usize, first, rows, links)
}

#[unsafe(no_mangle)]
pub extern "C" fn jobtree_metadata_number(
    words: &[u64],
    records: &[u64],
    heads: &[u64],
    times: &[i64],
    paths: &[u8],
    bytes: &[u8],
    first: &mut [u8],
    second: &mut [u8],
    n: u32,
    rows: &mut [i64],
    links: &mut u64,
) -> u32
    ensures { Answers
        (call_with (op.metadata_number n (length rows.old / 7))
        (in_rows rows.old links.old) first.old second.old)
        (lends words.now records.now heads.now times.now paths.now bytes.now) (lends words.now records.now heads.now times.now paths.now bytes.now)
        (in_rows rows.new links.new)
        first.new second.new result }
{
    let lent = Slices {
        words,
        records,
        heads,
        times,
        paths,
        bytes,
    };
    finish(
        metadata_number(lent, first, second, n, rows, links),
        first,
        second,
    )
}
