// Metadata, and symlink metadata, which does not follow a last link.
ghost use Rattle.std.specs.Prelude.{◌/◌, length, take};
ghost use Rattle.path.specs.Path.{names};
ghost use Rattle.model.specs.Tree.{links_in};
ghost use Rattle.model.specs.Operations.Shows.{metadata_at, symlink_metadata_at};
ghost use Rattle.refusal.specs.Numbers.{answered};
ghost use Rattle.layout.specs.Lent.{◌∘◌, with_tree, with_times, still};
ghost use Rattle.store.specs.Shows.{Some, SomeEntry};
ghost use Rattle.op.specs.Lending.{in_rows};
ghost use Rattle.op.specs.Doing.{Answered};
ghost use Rattle.walk.specs.Meets.{PathIn};
ghost use Rattle.op_look.specs.Rows.{RowAt};

use ask_find::Spot;
use layout::slices::Tree;
use op::at::{leads, no_follow};
use op::record::{NUMBERS, put_record};
use refusal::Refusal;
use walk::End;

// The record of the entry at the spot, in front of the row; or 14.
fn show(tree: Tree, times: &[i64], rows: &mut [i64], spot: Spot) -> Result<(), Refusal>
    requires { SomeEntry (with_tree tree ∘ with_times times.now) spot }
    ensures { RowAt (still (with_tree tree.entry ∘ with_times times.now)) spot rows.old rows.new (answered result) }
{
    let s = store::stat(tree.words, tree.records, tree.heads, times, spot);
    if rows.len() < NUMBERS {
        return Err(Refusal::ShortBuffer);
    }
    put_record(rows, 0, s);
    Ok(())
}

// The record of the entry that the path in work[..len] leads to.
// kept: buffer and length are two, as said at the head of walk.
pub fn metadata_at(
    tree: Tree,
    times: &[i64],
    work: &mut [u8],
    len: usize,
    rows: &mut [i64],
    links: &mut u64,
) -> Result<(), Refusal>
    requires { Some (with_tree tree ∘ with_times times.now) × PathIn work.old len }
    ensures { Answered (still (with_tree tree.entry ∘ with_times times.now))
        (λ s. metadata_at (links_in s.tree) (length rows.old / 7) (names (take len work.old)))
        (in_rows rows.old links.old) (in_rows rows.new links.new) (answered result) }
{
    let there = leads(tree, work, len)?;
    show(tree, times, rows, there.spot)?;
    *links = there.links as u64;
    Ok(())
}

// The same of the entry itself: a last link is not followed.
// kept: buffer and length are two, as said at the head of walk.
pub fn symlink_metadata_at(
    tree: Tree,
    times: &[i64],
    work: &mut [u8],
    len: usize,
    rows: &mut [i64],
    links: &mut u64,
) -> Result<(), Refusal>
    requires { Some (with_tree tree ∘ with_times times.now) × PathIn work.old len }
    ensures { Answered (still (with_tree tree.entry ∘ with_times times.now))
        (λ s. symlink_metadata_at (length rows.old / 7) (names (take len work.old)))
        (in_rows rows.old links.old) (in_rows rows.new links.new) (answered result) }
{
    let walked = no_follow(tree, work, len)?;
    let spot = match walked.end {
        End::Missing { .. } => return Err(Refusal::NotFound),
        End::Found { spot, .. } => spot,
        End::LastLink { spot, .. } => spot,
    };
    show(tree, times, rows, spot)?;
    *links = walked.links as u64;
    Ok(())
}
