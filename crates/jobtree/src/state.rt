// The calls that set the umask and the current directory.
// kept: each exported function has the six slices one by one, as C calls it.
ghost use Rattle.std.specs.Prelude.{[]};
ghost use Rattle.model.specs.Calls.Calling as op;
ghost use Rattle.refusal.specs.Numbers.{answered};
ghost use Rattle.layout.specs.Lent.{lends};
ghost use Rattle.layout.specs.Answers.{Answers};
ghost use Rattle.op.specs.Lending.{call_with, in_links, in_number};
ghost use Rattle.op.specs.Doing.{Done};

use layout::slices::Slices;
use layout::{PATHS_BYTES, WORD_COUNT};
use op::begin::{Sort, begin};
use op::clear::finish;
use op::parts::Sizes;
use op::ready::{Number, ready};
use op_state::{set_current_at, set_umask_to};
use refusal::{Refusal, answer};

// Answers the old umask.
#[unsafe(no_mangle)]
pub extern "C" fn jobtree_set_umask(
    words: &mut [u64],
    records: &[u64],
    heads: &[u64],
    times: &[i64],
    paths: &[u8],
    bytes: &[u8],
    mask: u32,
    number: &mut u64,
) -> u32
    ensures { Answers
        (call_with (op.set_umask mask)
        (in_number number.old) [] [])
        (lends words.old records.now heads.now times.now paths.now bytes.now) (lends words.new records.now heads.now times.now paths.now bytes.now)
        (in_number number.new) [] [] result }
{
    let lent = Slices {
        words,
        records,
        heads,
        times,
        paths,
        bytes,
    };
    match ready(lent, None, &[], Number::NotGiven) {
        Err(e) => e.number(),
        Ok(()) => answer(set_umask_to(&mut words[..WORD_COUNT], mask, number)),
    }
}

// What the path leads to is the current directory.
// kept: the slices are lent one by one, since words and paths are written.
fn set_current_dir(
    words: &mut [u64],
    records: &[u64],
    heads: &[u64],
    times: &[i64],
    paths: &mut [u8],
    bytes: &[u8],
    first: &mut [u8],
    second: &[u8],
    path: &[u8],
    links: &mut u64,
) -> Result<(), Refusal>
    ensures { Done
        (call_with (op.set_current_dir path.now)
        (in_links links.old) first.old second.now)
        (lends words.old records.now heads.now times.now paths.old bytes.now) (lends words.new records.now heads.now times.now paths.new bytes.now)
        (in_links links.new) (answered result) }
{
    let lent = Slices {
        words,
        records,
        heads,
        times,
        paths,
        bytes,
    };
    let n = begin(lent, first, second, path, Sort::Named)?;
    let used = Sizes::of(lent);
    set_current_at(
        &mut words[..WORD_COUNT],
        &records[..used.records],
        &heads[..used.heads],
        &mut paths[..PATHS_BYTES],
        &bytes[..used.bytes],
        first,
        n,
        links,
    )
}

#[unsafe(no_mangle)]
pub extern "C" fn jobtree_set_current_dir(
    words: &mut [u64],
    records: &[u64],
    heads: &[u64],
    times: &[i64],
    paths: &mut [u8],
    bytes: &[u8],
    first: &mut [u8],
    second: &mut [u8],
    path: &[u8],
    links: &mut u64,
) -> u32
    ensures { Answers
        (call_with (op.set_current_dir path.now)
        (in_links links.old) first.old second.old)
        (lends words.old records.now heads.now times.now paths.old bytes.now) (lends words.new records.now heads.now times.now paths.new bytes.now)
        (in_links links.new)
        first.new second.new result }
{
    let r = set_current_dir(
        words, records, heads, times, paths, bytes, first, second, path, links,
    );
    finish(r, first, second)
}
