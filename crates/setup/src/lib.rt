#![tactic(auto)]
// Set up: a fresh store in what the caller lends.
ghost use Rattle.std.specs.Prelude.{◌≡◌, ◌≤◌, length};
ghost use Rattle.layout.specs.Numbers.{word_count};
ghost use Rattle.layout.specs.Lent.{lends};
ghost use Rattle.refusal.specs.Numbers.{answered};
ghost use Rattle.setup.specs.SetUp.{entries_fit, bytes_fit, fresh_words, IsSetUp};

use lawful_limits::lengths_fit;
use layout::slices::Slices;
use layout::{LEAST_BYTES, MASK_AT, MOST_AT, MOST_BYTES, MOST_ENTRIES, ROOM_AT, WORD_COUNT};
use refusal::Refusal;

// The limits, no entry, the umask octal 666, the root as current directory, every file number closed, no slot.
fn fresh_words(words: &mut [u64], entries: u64, bytes: u64)
    requires { word_count ≤ length words.old }
    ensures { words.new ≡ fresh_words entries bytes words.old }
{
    words[..WORD_COUNT].fill(0);
    words[MOST_AT] = entries;
    words[ROOM_AT] = bytes;
    words[MASK_AT] = 0o666;
}

// Whether the limit is one of 1 to 4,096, and the entry storage long enough for it.
fn entries_fit(s: Slices, limit: u64) -> bool
    ensures { result ≡ entries_fit (length s.entry.words.now) (length s.entry.records.now) (length s.entry.heads.now)
        (length s.entry.times.now) (length s.entry.paths.now) limit }
{
    (1..=MOST_ENTRIES).contains(&limit)
        && WORD_COUNT <= s.words.len()
        && lengths_fit(s, limit as usize)
}

// Whether the limit is one of 256 to 1,048,576, and the byte storage long enough for it.
fn bytes_fit(bytes: usize, limit: u64) -> bool
    ensures { result ≡ bytes_fit bytes limit }
{
    (LEAST_BYTES..=MOST_BYTES).contains(&limit) && limit as usize <= bytes
}

// Refusal 15 or 16, or a fresh store. Only the state's words are written: a fresh store has no slot.
// kept: the slices are lent one by one, since the words are written and the others only measured.
pub fn set_up(
    words: &mut [u64],
    records: &[u64],
    heads: &[u64],
    times: &[i64],
    paths: &[u8],
    bytes: &[u8],
    limit: u64,
    room: u64,
) -> Result<(), Refusal>
    ensures { IsSetUp limit room (lends words.old records.now heads.now times.now paths.now bytes.now)
        (lends words.new records.now heads.now times.now paths.now bytes.now) (answered result) }
{
    let lent = Slices {
        words,
        records,
        heads,
        times,
        paths,
        bytes,
    };
    if !entries_fit(lent, limit) {
        return Err(Refusal::NoEntries);
    }
    if !bytes_fit(bytes.len(), room) {
        return Err(Refusal::NoBytes);
    }
    fresh_words(words, limit, room);
    Ok(())
}
