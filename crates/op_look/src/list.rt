// The entries of a directory: their names, and their records.
ghost use Rattle.std.specs.Prelude.{◌/◌, length, take};
ghost use Rattle.path.specs.Path.{names};
ghost use Rattle.model.specs.Tree.{links_in};
ghost use Rattle.model.specs.Operations.Shows.{list_at};
ghost use Rattle.refusal.specs.Numbers.{answered};
ghost use Rattle.layout.specs.Lent.{◌∘◌, with_tree, with_times, still};
ghost use Rattle.store.specs.Shows.{Some, OfEntry};
ghost use Rattle.op.specs.Lending.{in_both};
ghost use Rattle.op.specs.Doing.{Answered};
ghost use Rattle.walk.specs.Meets.{PathIn};
ghost use Rattle.op_look.specs.Rows.{SomeRows, RowsPut};

use ask_find::Spot;
use layout::kind::Kind;
use layout::slices::Tree;
use op::at::leads;
use op::record::{NUMBERS, put_record};
use refusal::Refusal;

// The records of the entries of the directory at the spot, one behind the other, in front of the row.
// kept: step by step: `successors` would have it shown of all runs before the loop that each entry stands, and ask_list's iterator tells of records alone.
fn put_records(tree: Tree, times: &[i64], rows: &mut [i64], spot: Spot)
    requires { SomeRows (with_tree tree ∘ with_times times.now) spot rows.old }
    ensures { OfEntry (still (with_tree tree.entry ∘ with_times times.now)) spot (λ s p. RowsPut s p rows.old rows.new) }
{
    let mut at = 0;
    let mut step = store::listing::first(tree.words, tree.records, spot);
    while let Some(entry) = step {
        let s = store::stat(tree.words, tree.records, tree.heads, times, entry);
        put_record(rows, at, s);
        at += NUMBERS;
        step = store::listing::next(tree.words, tree.records, entry);
    }
}

// The entries of the directory that the path in work[..len] leads to.
// kept: buffer and length are two, as said at the head of walk.
pub fn list_at(
    tree: Tree,
    times: &[i64],
    work: &mut [u8],
    len: usize,
    out: &mut [u8],
    rows: &mut [i64],
    number: &mut u64,
    links: &mut u64,
) -> Result<(), Refusal>
    requires { Some (with_tree tree ∘ with_times times.now) × PathIn work.old len }
    ensures { Answered (still (with_tree tree.entry ∘ with_times times.now))
        (λ s. list_at (links_in s.tree) (length out.old) (length rows.old / 7) (names (take len work.old)))
        (in_both out.old rows.old number.old links.old) (in_both out.new rows.new number.new links.new) (answered result) }
{
    let there = leads(tree, work, len)?;
    if there.kind != Kind::Directory {
        return Err(Refusal::WrongKind);
    }
    let (words, records, spot) = (tree.words, tree.records, there.spot);
    if out.len() < store::listing::names_length(words, records, spot) {
        return Err(Refusal::ShortBuffer);
    }
    let count = store::listing::count(words, records, spot);
    if rows.len() / NUMBERS < count {
        return Err(Refusal::ShortBuffer);
    }
    store::listing::put_names(out, words, records, tree.bytes, spot);
    put_records(tree, times, rows, spot);
    *number = count as u64;
    *links = there.links as u64;
    Ok(())
}
