#![tactic(auto)]
// The file numbers, the current directory and the umask of a store.
// kept: the words as a slice of a known length: as a `&mut [u64; WORD_COUNT]` each caller would have to turn its slice into an array.
ghost use Rattle.std.specs.Prelude.{◌≡◌, ◌<◌, T, length};
ghost use Rattle.path.specs.Path.{names};
ghost use Rattle.model.specs.Prog.{umask, seek, go, opens, close};
ghost use Rattle.layout.specs.Numbers.{file_numbers, most_slots, word_count, paths_bytes};
ghost use Rattle.layout.specs.Lawful.{cell_ok};
ghost use Rattle.layout.specs.Lent.{◌∘◌, with_words, with_records, with_heads, with_bytes, SomeLawful, still};
ghost use Rattle.layout.specs.Lent.{◌&◌, on_words, on_heads, on_paths, on_bytes, OnLawful, Edits};
ghost use Rattle.edit_state.specs.Numbers.{IsOpen, MayOpen};

use layout::{
    CELL_BYTES, COUNT_AT, HERE_AT, HOLDER_AT, KEPT_AT, MASK_AT, NUMBER_WORDS, POSITION_AT,
    slot_held,
};
use slots::marks::{is_held, is_used};

// Sets the umask.
pub fn set_umask(words: &mut [u64], m: u32)
    requires { length words.old ≡ word_count }
    ensures { OnLawful (on_words words.old words.new) (Edits (umask m)) }
{
    words[MASK_AT] = u64::from(m);
}

// Puts a number at the position k.
pub fn set_position(words: &mut [u64], n: usize, k: u64)
    requires { (length words.old ≡ word_count) × (n < file_numbers) }
    ensures { OnLawful (on_words words.old words.new) (Edits (seek n k)) }
{
    words[POSITION_AT + NUMBER_WORDS * n] = k;
}

// Makes the path the current directory: its length, and its bytes in the first cell.
pub fn set_current(words: &mut [u64], paths: &mut [u8], path: &[u8])
    requires { (length words.old ≡ word_count) × (length paths.old ≡ paths_bytes) × T (cell_ok path.now) }
    ensures { OnLawful (on_words words.old words.new & on_paths paths.old paths.new) (Edits (go (names path.now))) }
{
    words[HERE_AT] = path.len() as u64;
    blocks::copy_into(paths, 0, path);
}

// Opens the closed number n on the file at the path, which has that slot.
pub fn open_number(
    words: &mut [u64],
    paths: &mut [u8],
    n: usize,
    slot: usize,
    pos: u64,
    path: &[u8],
)
    requires { (length words.old ≡ word_count) × (length paths.old ≡ paths_bytes) × T (cell_ok path.now)
        × (n < file_numbers) × (slot < most_slots) }
    ensures { OnLawful (on_words words.old words.new & on_paths paths.old paths.new) (λ st u. MayOpen st n (names path.now) slot
        → Edits (opens n (names path.now) pos) st u) }
{
    words[HOLDER_AT + NUMBER_WORDS * n] = slot as u64 + 1;
    words[POSITION_AT + NUMBER_WORDS * n] = pos;
    words[KEPT_AT + NUMBER_WORDS * n] = path.len() as u64;
    blocks::copy_into(paths, CELL_BYTES * (n + 1), path);
}

// Closes the open number n. Its file's slot is freed where no other number and no name is left.
// kept: the slices are lent one by one: it takes those that it touches, and the records to be read alone.
pub fn close_number(
    words: &mut [u64],
    records: &[u64],
    heads: &mut [u64],
    bytes: &mut [u8],
    n: usize,
)
    requires { SomeLawful (with_words words.old ∘ with_records records.now ∘ with_heads heads.old ∘ with_bytes bytes.old) (λ st. IsOpen st n) }
    ensures { OnLawful (on_words words.old words.new & still (with_records records.now) & on_heads heads.old heads.new
        & on_bytes bytes.old bytes.new) (Edits (close n)) }
{
    let Some(slot) = slot_held(words, n) else {
        return;
    };
    words[HOLDER_AT + NUMBER_WORDS * n] = 0;
    if is_held(words, slot as u64 + 1) {
        return;
    }
    let count = words[COUNT_AT] as usize;
    if is_used(&records[..count], slot) {
        return;
    }
    slots::clear(heads, bytes, slot);
}
