// What is tested before a call does anything.
ghost use Rattle.std.specs.Prelude.{◌≡◌};
ghost use Rattle.text.specs.Utf8.{text};
ghost use Rattle.path.specs.Path.{lengths_ok};
ghost use Rattle.model.specs.Tree.{open_of};
ghost use Rattle.model.specs.Operations.Steps.{is_some};
ghost use Rattle.model.specs.Calls.Calling.{all, number_fits, work_fits};
ghost use Rattle.refusal.specs.Numbers.{answered};
ghost use Rattle.layout.specs.Lent.{lent_by, still, with_words};
ghost use Rattle.store.specs.Shows.{Of};
ghost use Rattle.op.specs.Testing.{texts_of, walks, work_of, number_of, screen_of, Tested};

use layout::slices::Slices;
use layout::{FILE_NUMBERS, WORD_COUNT};
use path::lengths::{LONGEST_PATH, lengths_ok};
use refusal::Refusal;
use text::text_ok;

// The file number that a call is given, which is to be free or open.
// kept: three ways of one kind, as the model's; an Option of the other two would be two words where a call now says one.
#[derive(Clone, Copy)]
pub enum Number {
    NotGiven,
    Free(u32),
    Opened(u32),
}

// 14 of the working buffers, by their lengths where the call is lent them: both have 1,024 bytes or more.
fn work_fits(work: Option<(usize, usize)>) -> bool
    ensures { result ≡ work_fits (walks work) (work_of work) }
{
    match work {
        None => true,
        Some((first, second)) => LONGEST_PATH <= first && LONGEST_PATH <= second,
    }
}

// Whether the file number n is open.
fn is_open(words: &[u64], n: u32) -> bool
    ensures { Of (still (with_words words.now)) (λ _ s. result ≡ is_some (open_of s.opens n)) }
{
    store::open(words, n as usize).is_some()
}

// 4: a number above 31, in use at open, or not open elsewhere.
#[tactic(auto, unfolding(model::specs::Calls::Calling::number_fits))]
fn number_fits(words: &[u64], number: Number) -> bool
    ensures { Of (still (with_words words.now)) (λ _ s. result ≡ number_fits (number_of number) s.opens) }
{
    match number {
        Number::NotGiven => true,
        Number::Free(n) => n < FILE_NUMBERS as u32 && !is_open(words, n),
        Number::Opened(n) => n < FILE_NUMBERS as u32 && is_open(words, n),
    }
}

// 2: whether each of the texts is one.
fn all_text(texts: &[&[u8]]) -> bool
    ensures { result ≡ all text (texts_of texts.now) }
{
    texts.iter().all(|t| text_ok(t))
}

// 3: whether each of them, and each name in it, is short enough.
fn all_short(texts: &[&[u8]]) -> bool
    ensures { result ≡ all lengths_ok (texts_of texts.now) }
{
    texts.iter().all(|t| lengths_ok(t))
}

// The first of 14, 2, 3 and 4 that applies.
#[tactic(auto, unfolding(model::specs::Calls::Calling::screen))]
fn screened(
    words: &[u64],
    work: Option<(usize, usize)>,
    texts: &[&[u8]],
    number: Number,
) -> Result<(), Refusal>
    ensures { Of (still (with_words words.now)) (λ _ s. answered result ≡ screen_of work (texts_of texts.now) number s) }
{
    if !work_fits(work) {
        return Err(Refusal::ShortBuffer);
    }
    if !all_text(texts) {
        return Err(Refusal::BadText);
    }
    if !all_short(texts) {
        return Err(Refusal::TextTooLong);
    }
    if !number_fits(words, number) {
        return Err(Refusal::BadNumber);
    }
    Ok(())
}

// 1, or the first of 14, 2, 3 and 4 that applies, or nothing where the call goes on.
pub fn ready(
    lent: Slices,
    work: Option<(usize, usize)>,
    texts: &[&[u8]],
    number: Number,
) -> Result<(), Refusal>
    ensures { Tested (lent_by lent.entry) work (texts_of texts.now) number result }
{
    if !lawful::store_ok(lent) {
        return Err(Refusal::BadStore);
    }
    screened(&lent.words[..WORD_COUNT], work, texts, number)
}
