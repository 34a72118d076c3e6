#![tactic(auto)]
// The numbers of the layout, as specs/Numbers.antt has them, and the fields of the words of a store.
// kept: a tree as records with depths, and parallel arrays: the memory is lent and fixed, and names have no places of their own
ghost use Rattle.std.specs.Prelude.{◌≡◌, ◌<◌, ◌≤◌, length};
ghost use Rattle.layout.specs.Numbers.{most_entries, depths, name_lengths, slot_numbers, lengths, kinds, holder_at};
ghost use Rattle.layout.specs.Holders.{slot_held};
ghost use Rattle.layout.specs.Fields.{depth_of, nlen_of, slot_of, record_word, len_of, kind_of, mode_of, head_word};
ghost use Rattle.layout.specs.Rows.{name_total};

pub mod kind;
pub mod slices;

// The limits.
pub const MOST_ENTRIES: u64 = 4096;

pub const LEAST_BYTES: u64 = 256;

pub const MOST_BYTES: u64 = 1048576;

// How many file numbers there are.
pub const FILE_NUMBERS: usize = 32;

// How many slots a store may have beyond its entry limit: as many removed files may be open as there are file numbers.
pub const BEYOND: u64 = FILE_NUMBERS as u64;

// The slots of the greatest entry limit.
pub const MOST_SLOTS: usize = MOST_ENTRIES as usize + FILE_NUMBERS;

// The state's words. A file number n has three, at HOLDER_AT + NUMBER_WORDS * n and so on.
pub const MOST_AT: usize = 0;

pub const ROOM_AT: usize = 1;

pub const COUNT_AT: usize = 2;

pub const MASK_AT: usize = 3;

pub const HERE_AT: usize = 4;

pub const HOLDER_AT: usize = 5;

pub const POSITION_AT: usize = 6;

pub const KEPT_AT: usize = 7;

pub const NUMBER_WORDS: usize = 3;

pub const EXTENT_AT: usize = HOLDER_AT + NUMBER_WORDS * FILE_NUMBERS;

pub const WORD_COUNT: usize = EXTENT_AT + 1;

// The cells of the kept paths: the current directory's, and one for each file number.
pub const CELL_BYTES: usize = 1024;

pub const PATHS_BYTES: usize = CELL_BYTES * (1 + FILE_NUMBERS);

// The times of a slot, and which is which.
pub const TIMES: usize = 4;

pub const ACCESSED_AT: usize = 0;

pub const CHANGED_AT: usize = 1;

pub const CREATED_AT: usize = 2;

pub const MODIFIED_AT: usize = 3;

// The fields of a record's word.
pub const DEPTHS: u64 = 65536;

pub const NAME_LENGTHS: u64 = 256;

pub const SLOT_UNIT: u64 = DEPTHS * NAME_LENGTHS;

// The fields of a slot's word.
pub const LENGTHS: u64 = 16777216;

pub const KINDS: u64 = 256;

pub const MODE_UNIT: u64 = LENGTHS * KINDS;

pub fn depth_of(w: u64) -> usize
    ensures { result ≡ depth_of w }
{
    (w % DEPTHS) as usize
}

pub fn nlen_of(w: u64) -> usize
    ensures { result ≡ nlen_of w }
{
    (w / DEPTHS % NAME_LENGTHS) as usize
}

pub fn slot_of(w: u64) -> usize
    ensures { result ≡ slot_of w }
{
    (w / SLOT_UNIT) as usize
}

// The word of a record.
pub fn record_word(d: usize, n: usize, s: usize) -> u64
    requires { (d < depths) × (n < name_lengths) × (s < slot_numbers) }
    ensures { result ≡ record_word d n s }
{
    (s as u64 * NAME_LENGTHS + n as u64) * DEPTHS + d as u64
}

// The bytes of the names of entries.
pub fn names_of(records: &[u64]) -> usize
    requires { length records.now ≤ most_entries }
    ensures { result ≡ name_total records.now }
{
    records.iter().map(|w| nlen_of(*w)).sum()
}

pub fn len_of(h: u64) -> usize
    ensures { result ≡ len_of h }
{
    (h % LENGTHS) as usize
}

// The number of the kind, which in a damaged store may be no kind's: `Kind::of` tells which.
// kept: a public function, whose promise may not shrink; `Kind::of`, which is made of it, tells the kind itself.
pub fn kind_of(h: u64) -> u64
    ensures { result ≡ kind_of h }
{
    h / LENGTHS % KINDS
}

pub fn mode_of(h: u64) -> u32
    ensures { result ≡ mode_of h }
{
    (h / MODE_UNIT) as u32
}

// The slot that the file number n stands on; None where it is closed.
pub fn slot_held(words: &[u64], n: usize) -> Option<usize>
    requires { holder_at n < length words.now }
    ensures { result ≡ slot_held words.now n }
{
    (words[HOLDER_AT + NUMBER_WORDS * n] as usize).checked_sub(1)
}

// The word of a slot.
// kept: the kind as a number, since a Kind would be a narrower type of a public function
pub fn head_word(n: usize, k: u64, m: u32) -> u64
    requires { (n < lengths) × (k < kinds) }
    ensures { result ≡ head_word n k m }
{
    ((m as u64) * KINDS + k) * LENGTHS + n as u64
}
