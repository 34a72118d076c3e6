#![tactic(auto)]
// The words of the slots, their times, and their bytes: these stand at the end of the byte storage, one slot behind the other.
// kept: words and bytes are lent side by side: a struct of the two would be taken apart at each call
ghost use Rattle.std.specs.Prelude.{◌≡◌, ◌++◌, [], ◌+◌, ◌*◌, ◌-◌, ◌^◌, ◌<◌, ◌≤◌, length, take, drop, get_or, set, replicate};
ghost use Rattle.layout.specs.Numbers.{lengths};
ghost use Rattle.layout.specs.Fields.{len_of};
ghost use Rattle.layout.specs.Slots.{total, contents};
ghost use Rattle.slots.specs.Free.{free_from};
ghost use Rattle.slots.specs.Times.{times_set};
ghost use Rattle.slots.specs.Put.{fitted, swept, swept_c, Put, Freed, Step};

use layout::{TIMES, len_of};

pub mod marks;

// The lowest slot not in use.
pub fn free_slot(heads: &[u64]) -> Option<usize>
    ensures { result ≡ free_from heads.now 0 }
{
    heads.iter().position(|h| *h == 0)
}

// The bytes of the slots.
pub fn total_of(heads: &[u64]) -> usize
    requires { total heads.now < 2 ^ 64 }
    ensures { result ≡ total heads.now }
{
    heads.iter().map(|h| len_of(*h)).sum()
}

// The bytes of the first k slots.
#[tactic(auto, using(crate::proofs::Totals::take_total))]
pub fn sum_to(heads: &[u64], k: usize) -> usize
    requires { (k ≤ length heads.now) × (total heads.now < 2 ^ 64) }
    ensures { result ≡ total (take k heads.now) }
{
    total_of(&heads[..k])
}

// Cuts the bytes of slot k to n, or extends them by zeros. What stands in front of them moves; what stands behind stays.
#[tactic(auto, using(crate::proofs::Totals::total_at))]
pub fn resize(heads: &mut [u64], bytes: &mut [u8], k: usize, n: usize)
    requires { (k < length heads.old) × (n < lengths) × (total heads.old ≤ length bytes.old)
        × (total heads.old + n ≤ length bytes.old + len_of (get_or heads.old k 0)) }
    ensures { Put heads.old bytes.old heads.new bytes.new k n (fitted n (get_or (contents heads.old bytes.old) k [])) }
{
    let h = heads[k];
    let old = len_of(h);
    let all = total_of(heads);
    let before = sum_to(heads, k);
    let from = bytes.len() - all;
    heads[k] = h - old as u64 + n as u64;
    if n < old {
        blocks::open_gap(bytes, from + before + n, from, old - n);
        return;
    }
    let end = from + before + old;
    let g = n - old;
    blocks::close_gap(bytes, end, from - g, g);
    bytes[end - g..end].fill(0);
}

// Puts text as the bytes of slot k.
#[tactic(auto, using(crate::proofs::Totals::total_at))]
pub fn write(heads: &mut [u64], bytes: &mut [u8], k: usize, text: &[u8])
    requires { (k < length heads.old) × (length text.now < lengths) × (total heads.old ≤ length bytes.old)
        × (total heads.old + length text.now ≤ length bytes.old + len_of (get_or heads.old k 0)) }
    ensures { Put heads.old bytes.old heads.new bytes.new k (length text.now) text.now }
{
    let n = text.len();
    resize(heads, bytes, k, n);
    let all = total_of(heads);
    let before = sum_to(heads, k);
    let at = bytes.len() - all + before;
    blocks::copy_into(bytes, at, text);
}

// Frees slot k.
pub fn clear(heads: &mut [u64], bytes: &mut [u8], k: usize)
    requires { (k < length heads.old) × (total heads.old ≤ length bytes.old) }
    ensures { Freed heads.old bytes.old heads.new bytes.new (set heads.old k 0) (set (contents heads.old bytes.old) k []) }
{
    resize(heads, bytes, k, 0);
    heads[k] = 0;
}

// Slot i of a sweep: what stands up to src is still in its old place, and from dst on all is in its new.
// kept: `keep` is the mark as it stands, and no bool, since Step and `swept` read marks.
fn sweep_step(
    heads: &mut [u64],
    bytes: &mut [u8],
    i: usize,
    keep: u8,
    src: usize,
    dst: usize,
) -> usize
    requires { (i < length heads.old) × (len_of (get_or heads.old i 0) ≤ src) × (src ≤ dst) × (dst ≤ length bytes.old) }
    ensures { Step heads.old bytes.old heads.new bytes.new i keep src dst result }
{
    if keep == 0 {
        heads[i] = 0;
        return dst;
    }
    let len = len_of(heads[i]);
    blocks::open_gap(bytes, src, src - len, dst - src);
    dst - len
}

// Frees each slot whose mark is 0, in one pass from the last slot to the first.
pub fn sweep(heads: &mut [u64], bytes: &mut [u8], marks: &[u8])
    requires { (length marks.now ≡ length heads.old) × (total heads.old ≤ length bytes.old) }
    ensures { Freed heads.old bytes.old heads.new bytes.new (swept marks.now heads.old) (swept_c marks.now (contents heads.old bytes.old)) }
{
    let mut src = bytes.len();
    let mut dst = bytes.len();
    // kept: by index: the step is lent all of heads, since its clause (Step) says what is left of them; of one word the loop would have to say it.
    for k in (0..heads.len()).rev() {
        let len = len_of(heads[k]);
        dst = sweep_step(heads, bytes, k, marks[k], src, dst);
        src -= len;
    }
}

// All four times of a slot: the first for accessed, changed and created, the second for modified.
// kept: two times and no struct, here and in what hands them on: callers have them apart, as the model's `touch` does.
pub fn put_times(times: &mut [i64], slot: usize, a: i64, t: i64)
    requires { 4 * slot + 3 < length times.old }
    ensures { times.new ≡ times_set times.old slot a t }
{
    let i = TIMES * slot;
    let all = [a, a, a, t];
    times[i..i + TIMES].copy_from_slice(&all);
}
