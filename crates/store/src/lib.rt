#![tactic(auto)]
// The store in the model's words: each question of the model about an entry, over slices that are as long as the limits ask.
// kept: a function takes the slices that it reads, since a Tree would ask its callers to lend more; contents reads all of a Tree.
ghost use Rattle.std.proofs.Math.Option.{some};
ghost use Rattle.std.specs.Prelude.{◌≡◌, take, get_or};
ghost use Rattle.layout.specs.Numbers.{count_at, extent_at};
ghost use Rattle.layout.specs.Kinds.{kind_from};
ghost use Rattle.layout.specs.Lent.{◌∘◌, with_words, with_records, with_heads, with_bytes, with_tree, still, with_times, with_paths};
ghost use Rattle.layout.specs.Lent.{◌&◌, with_times, with_paths};
ghost use Rattle.model.specs.Prog.{kind?, stat?, bare?, mask?};
ghost use Rattle.model.specs.Calls.States.{world_of};
ghost use Rattle.ask_find.specs.Spots.{hidden_at};
ghost use Rattle.ask_entry.specs.Reads.{stat_from, Contents, PathIs};
ghost use Rattle.store.specs.Shows.{Of, OfEntry, Some, SomeEntry, says, NumberIs, HeldIs, KeptIs, ChildIs, RootIs};

use ask_entry::Stat;
use ask_find::{Gap, Spot};
use layout::kind::Kind;
use layout::slices::Tree;
use layout::{COUNT_AT, EXTENT_AT, MASK_AT};

pub mod listing;
pub mod space;

// The first of the elements, as many as the state's word at `at` says.
// kept: two calls of the library, as in ask_entry's private at and part; for these two lines to share them both would be made public.
fn counted<'a>(words: &[u64], at: usize, elements: &'a [u64]) -> &'a [u64]
    ensures { result.now ≡ take (get_or words.now at 0) elements.now }
{
    let n = words.get(at).copied().unwrap_or(0) as usize;
    elements.get(..n).unwrap_or(elements)
}

// The words of the slots that there are so far.
pub(crate) fn in_use<'a>(words: &[u64], heads: &'a [u64]) -> &'a [u64]
    ensures { result.now ≡ take (get_or words.now extent_at 0) heads.now }
{
    counted(words, EXTENT_AT, heads)
}

// The records of the entries that there are.
pub fn live<'a>(words: &[u64], records: &'a [u64]) -> &'a [u64]
    ensures { result.now ≡ take (get_or words.now count_at 0) records.now }
{
    counted(words, COUNT_AT, records)
}

// The root.
pub fn root(words: &[u64]) -> Result<Spot, Gap>
    requires { Some (with_words words.now) }
    ensures { Of (still (with_words words.now)) (λ st s. RootIs st s result) }
{
    ask_find::root(words[COUNT_AT] as usize)
}

// The entry `name` of the directory at the spot. The record `hidden`, if one is given, counts as not there, with all below it.
pub fn child(
    words: &[u64],
    records: &[u64],
    bytes: &[u8],
    dir: Spot,
    name: &[u8],
    hidden: Option<usize>,
) -> Result<Spot, Gap>
    requires { SomeEntry (with_words words.now ∘ with_records records.now ∘ with_bytes bytes.now) dir }
    ensures { ChildIs (still (with_words words.now ∘ with_records records.now ∘ with_bytes bytes.now)) dir name.now (hidden_at hidden) result }
{
    ask_find::child(live(words, records), bytes, dir, name, hidden)
}

// The kind of the entry at the spot.
pub fn kind(words: &[u64], records: &[u64], heads: &[u64], spot: Spot) -> Kind
    ensures { OfEntry (still (with_words words.now ∘ with_records records.now ∘ with_heads heads.now)) spot
        (λ s p. says (kind? p) s ≡ some (kind_from result)) }
{
    ask_entry::entry_kind(records, in_use(words, heads), spot)
}

// The metadata of the entry at the spot.
pub fn stat(words: &[u64], records: &[u64], heads: &[u64], times: &[i64], spot: Spot) -> Stat
    ensures { OfEntry (still (with_words words.now ∘ with_records records.now ∘ with_heads heads.now ∘ with_times times.now)) spot
        (λ s p. says (stat? p) s ≡ some (stat_from result)) }
{
    ask_entry::entry_stat(records, in_use(words, heads), times, spot)
}

// The contents of the file, or the target of the link, at the spot.
pub fn contents<'a>(tree: Tree<'a>, spot: Spot) -> &'a [u8]
    requires { Some (with_tree tree) }
    ensures { OfEntry (still (with_tree tree.entry)) spot (λ s p. Contents (world_of s) p result.now) }
{
    ask_entry::entry_contents(
        tree.records,
        in_use(tree.words, tree.heads),
        tree.bytes,
        spot,
    )
}

// Whether the directory at the spot is empty.
pub fn bare(words: &[u64], records: &[u64], spot: Spot) -> bool
    requires { SomeEntry (with_words words.now ∘ with_records records.now) spot }
    ensures { OfEntry (still (with_words words.now ∘ with_records records.now)) spot (λ s p. says (bare? p) s ≡ result) }
{
    ask_list::is_bare(live(words, records), spot)
}

// The umask.
pub fn mask(words: &[u64]) -> u32
    requires { Some (with_words words.now) }
    ensures { Of (still (with_words words.now)) (λ _ s. says mask? s ≡ result) }
{
    words[MASK_AT] as u32
}

// The path of the current directory.
pub fn here<'a>(words: &[u64], paths: &'a [u8]) -> &'a [u8]
    ensures { Of (still (with_words words.now ∘ with_paths paths.now)) (λ _ s. PathIs s.here result.now) }
{
    ask_entry::current(words, paths)
}

// The position of the file number n, if it is open.
pub fn open(words: &[u64], n: usize) -> Option<u64>
    ensures { Of (still (with_words words.now)) (λ _ s. NumberIs s n result) }
{
    ask_entry::number_at(words, n).map(|o| o.pos)
}

// The bytes of the file that the open number n stands on.
pub fn held<'a>(words: &[u64], heads: &[u64], bytes: &'a [u8], n: usize) -> &'a [u8]
    requires { Some (with_words words.now ∘ with_heads heads.now ∘ with_bytes bytes.now) }
    ensures { Of (still (with_words words.now ∘ with_heads heads.now ∘ with_bytes bytes.now)) (λ _ s. HeldIs s n result.now) }
{
    ask_entry::held_bytes(words, in_use(words, heads), bytes, n)
}

// The path that the open number n keeps.
pub fn kept<'a>(words: &[u64], paths: &'a [u8], n: usize) -> &'a [u8]
    ensures { Of (still (with_words words.now ∘ with_paths paths.now)) (λ _ s. KeptIs s n result.now) }
{
    ask_entry::kept_path(words, paths, n)
}
