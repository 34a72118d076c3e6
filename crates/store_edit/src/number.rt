// A file number is opened or closed, or the file that it stands on is changed.
ghost use Rattle.std.specs.Prelude.{◌≡◌, suc, ◌<◌, T, get_or};
ghost use Rattle.model.specs.Prog.{close as close-it, change_held};
ghost use Rattle.model.specs.Tree.{chmod, touch_some};
ghost use Rattle.text.specs.Utf8.{Bytes};
ghost use Rattle.layout.specs.Numbers.{file_numbers, holder_at};
ghost use Rattle.layout.specs.Lawful.{cell_ok};
ghost use Rattle.layout.specs.Lent.{◌∘◌, with_words, with_records, with_heads, with_times, with_paths, with_bytes, still};
ghost use Rattle.layout.specs.Lent.{◌&◌, on_words, on_heads, on_times, on_paths, on_bytes, On};
ghost use Rattle.edit_slot.specs.Times.{in_model};
ghost use Rattle.store_edit.specs.Turns.{SomeState, SomeSpot, NumberOpen, TurnsHeld, MayOpenOn, Opens, MayResize, Resizes};

use ask_find::Spot;
use edit_slot::Given;
use layout::{EXTENT_AT, slot_of};

// Opens the closed number n on the file at the spot; the path, a text as it is kept, is the file's.
pub fn opens(
    words: &mut [u64],
    records: &[u64],
    paths: &mut [u8],
    spot: Spot,
    n: usize,
    pos: u64,
    path: &[u8],
)
    requires { SomeSpot (with_words words.old ∘ with_records records.now ∘ with_paths paths.old) spot (MayOpenOn n path.now)
        × T (cell_ok path.now) × (n < file_numbers) }
    ensures { On (on_words words.old words.new & still (with_records records.now) & on_paths paths.old paths.new) (Opens spot n pos path.now) }
{
    let i = spot.at;
    edit_state::open_number(words, paths, n, slot_of(records[i]), pos, path);
}

// Closes the open number n. A file without a name goes with its last number.
// kept: the slices are lent one by one: it takes those that it touches, and the records to be read alone.
pub fn close(words: &mut [u64], records: &[u64], heads: &mut [u64], bytes: &mut [u8], n: usize)
    requires { SomeState (with_words words.old ∘ with_records records.now ∘ with_heads heads.old ∘ with_bytes bytes.old) (λ st s. NumberOpen n s) }
    ensures { On (on_words words.old words.new & still (with_records records.now) & on_heads heads.old heads.new
        & on_bytes bytes.old bytes.new) (TurnsHeld n (close-it n)) }
{
    let slots = words[EXTENT_AT] as usize;
    edit_state::close_number(words, records, &mut heads[..slots], bytes, n);
    edit_room::release(words, heads);
}

// The slot of the file that the open number n stands on.
fn held_slot(words: &[u64], n: usize) -> usize
    requires { SomeState (with_words words.now) (λ st s. NumberOpen n s) }
    ensures { (n < file_numbers) × (get_or words.now (holder_at n) 0 ≡ suc result) }
{
    ask_entry::number_at(words, n).unwrap().slot
}

// The mode of its file.
pub fn chmod_held(words: &[u64], heads: &mut [u64], n: usize, m: u32)
    requires { SomeState (with_words words.now ∘ with_heads heads.old) (λ st s. NumberOpen n s) }
    ensures { On (still (with_words words.now) & on_heads heads.old heads.new) (TurnsHeld n (change_held n (chmod m))) }
{
    let slots = words[EXTENT_AT] as usize;
    edit_slot::set_mode(&mut heads[..slots], held_slot(words, n), m);
}

// The times accessed and modified of its file, each if it is given.
pub fn touch_held(words: &[u64], times: &mut [i64], n: usize, given: Given)
    requires { SomeState (with_words words.now ∘ with_times times.old) (λ st s. NumberOpen n s) }
    ensures { On (still (with_words words.now) & on_times times.old times.new)
        (TurnsHeld n (change_held n (touch_some (in_model given.accessed) (in_model given.modified)))) }
{
    edit_slot::set_some_times(times, held_slot(words, n), given);
}

// Its file is cut to so many bytes, or extended by zeros.
pub fn resize_held(words: &[u64], heads: &mut [u64], bytes: &mut [u8], n: usize, size: usize)
    requires { SomeState (with_words words.now ∘ with_heads heads.old ∘ with_bytes bytes.old) (λ st s. (b : Bytes) × MayResize n size b s) }
    ensures { On (still (with_words words.now) & on_heads heads.old heads.new & on_bytes bytes.old bytes.new) (Resizes n size) }
{
    let slots = words[EXTENT_AT] as usize;
    edit_slot::set_length(&mut heads[..slots], bytes, held_slot(words, n), size);
}
