// The entries of a directory in the model's words: one after the other, how many, and their names.
ghost use Rattle.std.specs.Prelude.{◌≡◌, length};
ghost use Rattle.layout.specs.Lent.{◌∘◌, with_words, with_records, with_bytes, still};
ghost use Rattle.layout.specs.Lent.{◌&◌};
ghost use Rattle.store.specs.Shows.{OfEntry, SomeEntry};
ghost use Rattle.store.specs.Listing.{listed, FirstIs, NextIs, names_of, SomeFitting, NamesPut};

use crate::live;
use ask_find::Spot;

// The first entry of the directory at the spot.
pub fn first(words: &[u64], records: &[u64], spot: Spot) -> Option<Spot>
    requires { SomeEntry (with_words words.now ∘ with_records records.now) spot }
    ensures { FirstIs (still (with_words words.now ∘ with_records records.now)) spot result }
{
    ask_list::first(live(words, records), spot)
}

// The entry behind the one at the spot, in the same directory.
pub fn next(words: &[u64], records: &[u64], spot: Spot) -> Option<Spot>
    requires { SomeEntry (with_words words.now ∘ with_records records.now) spot }
    ensures { NextIs (still (with_words words.now ∘ with_records records.now)) spot result }
{
    ask_list::next(live(words, records), spot)
}

// How many entries the directory at the spot has.
pub fn count(words: &[u64], records: &[u64], spot: Spot) -> usize
    requires { SomeEntry (with_words words.now ∘ with_records records.now) spot }
    ensures { OfEntry (still (with_words words.now ∘ with_records records.now)) spot (λ s p. result ≡ length (listed s p)) }
{
    ask_list::entry_count(live(words, records), spot)
}

// The bytes of the names of its entries, with a zero byte behind each.
pub fn names_length(words: &[u64], records: &[u64], spot: Spot) -> usize
    requires { SomeEntry (with_words words.now ∘ with_records records.now) spot }
    ensures { OfEntry (still (with_words words.now ∘ with_records records.now)) spot (λ s p. result ≡ length (names_of s p)) }
{
    ask_list::names_length(live(words, records), spot)
}

// Writes these names to the front of the buffer, in order.
pub fn put_names(out: &mut [u8], words: &[u64], records: &[u64], bytes: &[u8], spot: Spot)
    requires { SomeFitting (with_words words.now ∘ with_records records.now ∘ with_bytes bytes.now) spot out.old }
    ensures { OfEntry (still (with_words words.now ∘ with_records records.now ∘ with_bytes bytes.now)) spot (λ s p. NamesPut s p out.old out.new) }
{
    ask_list::put_names(out, live(words, records), bytes, spot);
}
