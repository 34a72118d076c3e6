// A free slot is filled.
ghost use Rattle.std.specs.Prelude.{◌≡◌, ◌+◌, ◌*◌, ◌<◌, ◌≤◌, length, get_or};
ghost use Rattle.layout.specs.Numbers.{most_bytes, most_slots};
ghost use Rattle.layout.specs.Slots.{total};
ghost use Rattle.slots.specs.Free.{HasFree};
ghost use Rattle.edit_entry.specs.Made.{bytes_made};
ghost use Rattle.edit_entry.specs.Filling.{Filled};

use crate::made::{Fresh, Made};

// The lowest free slot.
pub fn vacant_slot(heads: &[u64]) -> usize
    requires { HasFree heads.now }
    ensures { (result < length heads.now) × (get_or heads.now result 0 ≡ 0) }
{
    slots::free_slot(heads).unwrap()
}

// A free slot becomes a new entry's.
pub fn fill_slot(
    heads: &mut [u64],
    times: &mut [i64],
    bytes: &mut [u8],
    s: usize,
    made: Made,
    new: Fresh,
)
    requires { (s < length heads.old) × (length heads.old ≤ most_slots) × (get_or heads.old s 0 ≡ 0)
        × (4 * s + 4 ≤ length times.old) × (length (bytes_made made) ≤ most_bytes)
        × (total heads.old + length (bytes_made made) ≤ length bytes.old) }
    ensures { Filled heads.old times.old bytes.old heads.new times.new bytes.new s made.entry new }
{
    heads[s] = layout::head_word(0, made.kind().code(), new.mode);
    slots::put_times(times, s, new.time, new.time);
    slots::write(heads, bytes, s, made.bytes());
}
