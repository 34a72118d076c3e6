// Metadata by file number: of the path kept at open, not of the file.
ghost use Rattle.std.specs.Prelude.{◌/◌, ◌≤◌, length};
ghost use Rattle.model.specs.Tree.{links_in};
ghost use Rattle.model.specs.Operations.Numbers.{metadata_on};
ghost use Rattle.refusal.specs.Numbers.{answered};
ghost use Rattle.layout.specs.Lent.{lent_by, still};
ghost use Rattle.op.specs.Lending.{in_rows};
ghost use Rattle.op_number.specs.Opened.{SomeOpen, OpenAnswered};

use blocks::copy_into;
use layout::slices::Slices;
use op::parts::tree_of;
use op_look::metadata::metadata_at;
use refusal::Refusal;

// The record of the entry that the path kept of the number n leads to now.
pub fn metadata_on(
    lent: Slices,
    n: usize,
    work: &mut [u8],
    rows: &mut [i64],
    links: &mut u64,
) -> Result<(), Refusal>
    requires { SomeOpen (λ _. lent_by lent) n × (1024 ≤ length work.old) }
    ensures { OpenAnswered (still (λ _. lent_by lent.entry)) n (λ s. metadata_on (links_in s.tree) n (length rows.old / 7))
        (in_rows rows.old links.old) (in_rows rows.new links.new) (answered result) }
{
    let kept = store::kept(lent.words, lent.paths, n);
    let len = kept.len();
    copy_into(work, 0, kept);
    metadata_at(tree_of(lent), lent.times, work, len, rows, links)
}
