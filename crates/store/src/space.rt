// The use of space in the model's words: what is used, what goes with an entry, and whether a call has room.
ghost use Rattle.std.specs.Prelude.{◌≡◌};
ghost use Rattle.layout.specs.Lent.{◌∘◌, with_words, with_records, with_heads, still};
ghost use Rattle.layout.specs.Lent.{◌&◌};
ghost use Rattle.model.specs.Tree.{links_in};
ghost use Rattle.model.specs.Calls.States.{entries_used, bytes_used};
ghost use Rattle.model.specs.Space.{room_for};
ghost use Rattle.refusal.specs.Numbers.{answered};
ghost use Rattle.store.specs.Shows.{Of, OfEntry, Some, SomeEntry};
ghost use Rattle.store.specs.Space.{WeightIs};

use crate::{in_use, live};
use ask_find::Spot;
use layout::{COUNT_AT, MOST_AT, ROOM_AT};
use refusal::Refusal;

// What an entry takes up: the length of its name, and the bytes that go with it beside the name if it leaves the tree.
// kept: beside ask_used::Weight, whose size and held have promises of their own
#[derive(Drop)]
pub struct Weight {
    pub name: usize,
    pub freed: usize,
}

// The number of links.
pub fn links(words: &[u64], records: &[u64], heads: &[u64]) -> usize
    requires { Some (with_words words.now ∘ with_records records.now ∘ with_heads heads.now) }
    ensures { Of (still (with_words words.now ∘ with_records records.now ∘ with_heads heads.now)) (λ _ s. result ≡ links_in s.tree) }
{
    ask_used::links_in(live(words, records), in_use(words, heads))
}

// The entries used.
pub fn entries(words: &[u64]) -> usize
    requires { Some (with_words words.now) }
    ensures { Of (still (with_words words.now)) (λ _ s. result ≡ entries_used s) }
{
    words[COUNT_AT] as usize
}

// The bytes used.
pub fn used(words: &[u64], records: &[u64], heads: &[u64]) -> usize
    requires { Some (with_words words.now ∘ with_records records.now ∘ with_heads heads.now) }
    ensures { Of (still (with_words words.now ∘ with_records records.now ∘ with_heads heads.now)) (λ _ s. result ≡ bytes_used s) }
{
    ask_used::bytes_used(words, records, in_use(words, heads))
}

// What the entry at the spot takes up. A file that a number is open on keeps its contents.
pub fn weigh(words: &[u64], records: &[u64], heads: &[u64], spot: Spot) -> Weight
    requires { SomeEntry (with_words words.now ∘ with_records records.now ∘ with_heads heads.now) spot }
    ensures { OfEntry (still (with_words words.now ∘ with_records records.now ∘ with_heads heads.now)) spot (λ s p. WeightIs s p result) }
{
    let w = ask_used::weigh(words, records, in_use(words, heads), spot);
    Weight {
        name: w.name,
        freed: if w.held { 0 } else { w.size },
    }
}

// Whether there is room for so many entries more and so many bytes, where so many bytes are freed: NoEntries or NoBytes where not.
// What is used is within the limits, so no sum is formed: the entries and the bytes that are left are compared, and the bytes only
// where more grow than are freed.
pub fn room_for(
    words: &[u64],
    records: &[u64],
    heads: &[u64],
    more: usize,
    grown: u64,
    freed: u64,
) -> Result<(), Refusal>
    requires { Some (with_words words.now ∘ with_records records.now ∘ with_heads heads.now) }
    ensures { Of (still (with_words words.now ∘ with_records records.now ∘ with_heads heads.now)) (λ _ s. answered result ≡ room_for s more grown freed) }
{
    if words[MOST_AT] - words[COUNT_AT] < more as u64 {
        return Err(Refusal::NoEntries);
    }
    if grown <= freed {
        return Ok(());
    }
    if words[ROOM_AT] - (used(words, records, heads) as u64) < grown - freed {
        return Err(Refusal::NoBytes);
    }
    Ok(())
}
