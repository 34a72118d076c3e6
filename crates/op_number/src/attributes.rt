// What a number stands on: closed, cut or extended, its mode and times changed.
ghost use Rattle.model.specs.Operations.Numbers.{close_on, set_length_on, set_mode_on, set_times_on};
ghost use Rattle.layout.specs.Lent.{◌∘◌, with_words, with_records, with_heads, with_times, with_bytes, still};
ghost use Rattle.layout.specs.Lent.{◌&◌, on_words, on_heads, on_times, on_bytes};
ghost use Rattle.refusal.specs.Numbers.{answered};
ghost use Rattle.edit_slot.specs.Times.{in_model};
ghost use Rattle.op.specs.Lending.{in_nothing};
ghost use Rattle.op_number.specs.Opened.{SomeOpen, OpenAnswered};

use edit_slot::Given;
use refusal::Refusal;

// The number is open no more.
// kept: the slices are lent one by one, since all but the records are written.
pub fn close_on(
    words: &mut [u64],
    records: &[u64],
    heads: &mut [u64],
    bytes: &mut [u8],
    n: usize,
) -> Result<(), Refusal>
    requires { SomeOpen (with_words words.old ∘ with_records records.now ∘ with_heads heads.old ∘ with_bytes bytes.old) n }
    ensures { OpenAnswered (on_words words.old words.new & still (with_records records.now) & on_heads heads.old heads.new
        & on_bytes bytes.old bytes.new) n (λ _. close_on n) in_nothing in_nothing (answered result) }
{
    store_edit::number::close(words, records, heads, bytes, n);
    Ok(())
}

// Its file is cut to so many bytes, or extended by zeros; 16 where the byte limit would be passed.
// kept: the slices are lent one by one, since two of them are written.
pub fn set_length_on(
    words: &[u64],
    records: &[u64],
    heads: &mut [u64],
    bytes: &mut [u8],
    n: usize,
    size: u64,
) -> Result<(), Refusal>
    requires { SomeOpen (with_words words.now ∘ with_records records.now ∘ with_heads heads.old ∘ with_bytes bytes.old) n }
    ensures { OpenAnswered (still (with_words words.now ∘ with_records records.now) & on_heads heads.old heads.new & on_bytes bytes.old bytes.new) n
        (λ _. set_length_on n size) in_nothing in_nothing (answered result) }
{
    let len = store::held(words, heads, bytes, n).len();
    store::space::room_for(words, records, heads, 0, size, len as u64)?;
    store_edit::number::resize_held(words, heads, bytes, n, size as usize);
    Ok(())
}

// The mode of its file.
pub fn set_mode_on(words: &[u64], heads: &mut [u64], n: usize, mode: u32) -> Result<(), Refusal>
    requires { SomeOpen (with_words words.now ∘ with_heads heads.old) n }
    ensures { OpenAnswered (still (with_words words.now) & on_heads heads.old heads.new) n (λ _. set_mode_on n mode) in_nothing in_nothing (answered result) }
{
    store_edit::number::chmod_held(words, heads, n, mode);
    Ok(())
}

// The times accessed and modified of its file, each if it is given.
pub fn set_times_on(words: &[u64], times: &mut [i64], n: usize, given: Given) -> Result<(), Refusal>
    requires { SomeOpen (with_words words.now ∘ with_times times.old) n }
    ensures { OpenAnswered (still (with_words words.now) & on_times times.old times.new) n
        (λ _. set_times_on n (in_model given.accessed) (in_model given.modified)) in_nothing in_nothing (answered result) }
{
    store_edit::number::touch_held(words, times, n, given);
    Ok(())
}
