#![tactic(auto)]
// The edits of what stands in one slot: its mode, its times, its bytes. Every other slice is as it was.
ghost use Rattle.std.specs.Prelude.{◌≡◌, ◌+◌, ◌*◌, ◌<◌, length, get_or, set};
ghost use Rattle.layout.specs.Store.{bytes_at};
ghost use Rattle.layout.specs.Lent.{◌∘◌, ◌&◌, with_heads, with_times, with_bytes, on_heads, on_times, on_bytes, SomeLawful, OnLawful};
ghost use Rattle.model.specs.Tree.{write, resize, chmod, touch, touch_some};
ghost use Rattle.slots.specs.Put.{fitted};
ghost use Rattle.edit_slot.specs.Changes.{Changes, HasRoom, with_mode};
ghost use Rattle.edit_slot.specs.Times.{set_if, in_model};

use layout::{MODE_UNIT, MODIFIED_AT, TIMES};

// The mode stands in the word above the kind and the length.
fn put_mode(heads: &mut [u64], slot: usize, m: u32)
    requires { slot < length heads.old }
    ensures { heads.new ≡ set heads.old slot (with_mode m (get_or heads.old slot 0)) }
{
    let h = heads[slot];
    heads[slot] = u64::from(m) * MODE_UNIT + h % MODE_UNIT;
}

// The mode of a directory, a file or a link.
pub fn set_mode(heads: &mut [u64], slot: usize, m: u32)
    requires { slot < length heads.old }
    ensures { OnLawful (on_heads heads.old heads.new) (λ st u. Changes (chmod m) st u slot) }
{
    put_mode(heads, slot, m);
}

// The first time for accessed, changed and created, the second for modified.
pub fn set_times(times: &mut [i64], slot: usize, a: i64, t: i64)
    requires { 4 * slot + 3 < length times.old }
    ensures { OnLawful (on_times times.old times.new) (λ st u. slot < length st.heads → Changes (touch a t) st u slot) }
{
    slots::put_times(times, slot, a, t);
}

// A time that is stored only if it is given.
fn put_if(times: &mut [i64], i: usize, given: Option<i64>)
    requires { i < length times.old }
    ensures { times.new ≡ set_if given times.old i }
{
    if let Some(t) = given {
        times[i] = t;
    }
}

// What may be given of the times of a file.
#[derive(Clone, Copy)]
pub struct Given {
    pub accessed: Option<i64>,
    pub modified: Option<i64>,
}

// The times accessed and modified, each if it is given.
pub fn set_some_times(times: &mut [i64], slot: usize, given: Given)
    requires { 4 * slot + 3 < length times.old }
    ensures { OnLawful (on_times times.old times.new) (λ st u. slot < length st.heads
        → Changes (touch_some (in_model given.accessed) (in_model given.modified)) st u slot) }
{
    put_if(times, TIMES * slot, given.accessed);
    put_if(times, TIMES * slot + MODIFIED_AT, given.modified);
}

// Other bytes of a file, and the time modified.
pub fn set_contents(
    heads: &mut [u64],
    times: &mut [i64],
    bytes: &mut [u8],
    slot: usize,
    text: &[u8],
    t: i64,
)
    requires { SomeLawful (with_heads heads.old ∘ with_times times.old ∘ with_bytes bytes.old) (λ st. HasRoom st slot (length text.now)) }
    ensures { OnLawful (on_heads heads.old heads.new & on_times times.old times.new
        & on_bytes bytes.old bytes.new) (λ st u. HasRoom st slot (length text.now)
        → Changes (write text.now t) st u slot) }
{
    slots::write(heads, bytes, slot, text);
    times[TIMES * slot + MODIFIED_AT] = t;
}

// A file cut to n bytes, or extended by zeros.
pub fn set_length(heads: &mut [u64], bytes: &mut [u8], slot: usize, n: usize)
    requires { SomeLawful (with_heads heads.old ∘ with_bytes bytes.old) (λ st. HasRoom st slot n) }
    ensures { OnLawful (on_heads heads.old heads.new
        & on_bytes bytes.old bytes.new) (λ st u. HasRoom st slot n → Changes (resize (fitted n (bytes_at st slot))) st u slot) }
{
    slots::resize(heads, bytes, slot, n);
}
