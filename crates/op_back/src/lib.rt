#![tactic(auto)]
// What is read back beside the calls of a job: the current directory, what is used and allowed, the file numbers.
// kept: outputs are written where they are lent, for the reason at the head of op.
ghost use Rattle.refusal.specs.Numbers.{answered};
ghost use Rattle.layout.specs.Lent.{◌∘◌, with_words, with_records, with_heads, with_paths, still};
ghost use Rattle.store.specs.Shows.{Of, Some};
ghost use Rattle.op.specs.Telling.{HereIs, UsageIs, in_slot, NumberIs};

use layout::{MOST_AT, ROOM_AT};
use op_look::contents::put_path;
use refusal::Refusal;

// The path of the current directory.
pub fn tell_here(
    words: &[u64],
    paths: &[u8],
    out: &mut [u8],
    number: &mut u64,
) -> Result<(), Refusal>
    requires { Some (with_words words.now ∘ with_paths paths.now) }
    ensures { Of (still (with_words words.now ∘ with_paths paths.now))
        (λ _ s. HereIs out.old number.old out.new number.new (answered result) s) }
{
    put_path(out, number, store::here(words, paths))
}

// How many numbers tell what is used and allowed.
const USAGE: usize = 5;

// Umask, limits, and what is used of them.
pub fn tell_usage(
    words: &[u64],
    records: &[u64],
    heads: &[u64],
    numbers: &mut [u64],
) -> Result<(), Refusal>
    requires { Some (with_words words.now ∘ with_records records.now ∘ with_heads heads.now) }
    ensures { Of (still (with_words words.now ∘ with_records records.now ∘ with_heads heads.now)) (λ _ s. UsageIs numbers.old numbers.new (answered result) s) }
{
    if numbers.len() < USAGE {
        return Err(Refusal::ShortBuffer);
    }
    numbers[..USAGE].copy_from_slice(&[
        store::mask(words) as u64,
        words[MOST_AT],
        words[ROOM_AT],
        store::space::entries(words) as u64,
        store::space::used(words, records, heads) as u64,
    ]);
    Ok(())
}

// The position of the file number n, and the path that it keeps.
pub fn tell_number(
    words: &[u64],
    paths: &[u8],
    n: usize,
    out: &mut [u8],
    position: &mut u64,
    size: &mut u64,
) -> Result<(), Refusal>
    requires { Some (with_words words.now ∘ with_paths paths.now) }
    ensures { Of (still (with_words words.now ∘ with_paths paths.now))
        (λ _ s. NumberIs n (in_slot out.old position.old size.old)
        (in_slot out.new position.new size.new) (answered result) s) }
{
    let place = store::open(words, n).ok_or(Refusal::BadNumber)?;
    put_path(out, size, store::kept(words, paths, n))?;
    *position = place;
    Ok(())
}
