// Set up, and what is read back beside the calls of a job.
// kept: each exported function has the six slices one by one, as C calls it.
ghost use Rattle.std.specs.Prelude.{◌≡◌};
ghost use Rattle.layout.specs.Lent.{lends};
ghost use Rattle.setup.specs.SetUp.{IsSetUp};
ghost use Rattle.op.specs.Telling.{Told, HereIs, UsageIs, in_slot, NumberIs};

use layout::slices::Slices;
use op::parts::used;
use op_back::{tell_here, tell_number, tell_usage};
use refusal::{Refusal, answer};
use setup::set_up;

// A fresh store of those limits; or 15 or 16. Only the state's words are written; the other slices are lent to be written later, and C
// compilers warn where memory that nobody has written is lent to be read alone.
#[unsafe(no_mangle)]
pub extern "C" fn jobtree_set_up(
    words: &mut [u64],
    records: &mut [u64],
    heads: &mut [u64],
    times: &mut [i64],
    paths: &mut [u8],
    bytes: &mut [u8],
    most: u64,
    room: u64,
) -> u32
    ensures { IsSetUp most room (lends words.old records.old heads.old times.old paths.old bytes.old)
        (lends words.new records.new heads.new times.new paths.new bytes.new) result }
{
    answer(set_up(words, records, heads, times, paths, bytes, most, room))
}

// The path of the current directory.
#[unsafe(no_mangle)]
pub extern "C" fn jobtree_current_dir(
    words: &[u64],
    records: &[u64],
    heads: &[u64],
    times: &[i64],
    paths: &[u8],
    bytes: &[u8],
    out: &mut [u8],
    number: &mut u64,
) -> u32
    ensures { Told (lends words.now records.now heads.now times.now paths.now bytes.now)
        (HereIs out.old number.old out.new number.new result)
        ((out.new ≡ out.old) × (number.new ≡ number.old)) result }
{
    let lent = Slices {
        words,
        records,
        heads,
        times,
        paths,
        bytes,
    };
    if !lawful::store_ok(lent) {
        return Refusal::BadStore.number();
    }
    let used = used(lent);
    answer(tell_here(used.words, used.paths, out, number))
}

// Umask, entry limit, byte limit, entries used and bytes used.
#[unsafe(no_mangle)]
pub extern "C" fn jobtree_usage(
    words: &[u64],
    records: &[u64],
    heads: &[u64],
    times: &[i64],
    paths: &[u8],
    bytes: &[u8],
    numbers: &mut [u64],
) -> u32
    ensures { Told (lends words.now records.now heads.now times.now paths.now bytes.now) (UsageIs numbers.old numbers.new result)
        (numbers.new ≡ numbers.old) result }
{
    let lent = Slices {
        words,
        records,
        heads,
        times,
        paths,
        bytes,
    };
    if !lawful::store_ok(lent) {
        return Refusal::BadStore.number();
    }
    let used = used(lent);
    answer(tell_usage(used.words, used.records, used.heads, numbers))
}

// Whether a file number is open, its position, and the path kept at open.
#[unsafe(no_mangle)]
pub extern "C" fn jobtree_number(
    words: &[u64],
    records: &[u64],
    heads: &[u64],
    times: &[i64],
    paths: &[u8],
    bytes: &[u8],
    n: u32,
    out: &mut [u8],
    position: &mut u64,
    size: &mut u64,
) -> u32
    ensures { Told (lends words.now records.now heads.now times.now paths.now bytes.now)
        (NumberIs n (in_slot out.old position.old size.old)
        (in_slot out.new position.new size.new) result)
        (in_slot out.new position.new size.new
        ≡ in_slot out.old position.old size.old) result }
{
    let lent = Slices {
        words,
        records,
        heads,
        times,
        paths,
        bytes,
    };
    if !lawful::store_ok(lent) {
        return Refusal::BadStore.number();
    }
    let used = used(lent);
    answer(tell_number(used.words, used.paths, n as usize, out, position, size))
}
