#![tactic(auto)]
// The operations that set the umask and the current directory.
// kept: outputs are written where they are lent, for the reason at the head of op.
ghost use Rattle.std.specs.Prelude.{take};
ghost use Rattle.path.specs.Path.{names};
ghost use Rattle.model.specs.Tree.{links_in};
ghost use Rattle.model.specs.Operations.Directories.{set_current_dir_at, umask_to};
ghost use Rattle.refusal.specs.Numbers.{answered};
ghost use Rattle.layout.specs.Lent.{◌∘◌, with_words, with_records, with_heads, with_paths, with_bytes, still};
ghost use Rattle.layout.specs.Lent.{◌&◌, on_words, on_paths};
ghost use Rattle.store.specs.Shows.{Some};
ghost use Rattle.walk.specs.Meets.{PathIn};
ghost use Rattle.op.specs.Lending.{in_links, in_number};
ghost use Rattle.op.specs.Doing.{Answered};

use layout::slices::Tree;
use op::at::leads;
use refusal::Refusal;

// Sets the umask and answers the old one.
pub fn set_umask_to(words: &mut [u64], mask: u32, number: &mut u64) -> Result<(), Refusal>
    requires { Some (with_words words.old) }
    ensures { Answered (on_words words.old words.new) (λ _. umask_to mask) (in_number number.old) (in_number number.new) (answered result) }
{
    let old = store::mask(words);
    store_edit::state::umask(words, mask);
    *number = old as u64;
    Ok(())
}

// Makes the entry that the path in work[..len] leads to the current directory; its kind is not tested.
// kept: the slices are lent one by one, since words and paths are written; buffer and length are two, as said at the head of walk.
pub fn set_current_at(
    words: &mut [u64],
    records: &[u64],
    heads: &[u64],
    paths: &mut [u8],
    bytes: &[u8],
    work: &mut [u8],
    len: usize,
    links: &mut u64,
) -> Result<(), Refusal>
    requires { Some (with_words words.old ∘ with_records records.now ∘ with_heads heads.now ∘ with_paths paths.old ∘ with_bytes bytes.now)
        × PathIn work.old len }
    ensures { Answered (on_words words.old words.new & still (with_records records.now ∘ with_heads heads.now) & on_paths paths.old paths.new
        & still (with_bytes bytes.now))
        (λ s. set_current_dir_at (links_in s.tree) (names (take len work.old)))
        (in_links links.old) (in_links links.new) (answered result) }
{
    let tree = Tree {
        words,
        records,
        heads,
        bytes,
    };
    let there = leads(tree, work, len)?;
    store_edit::state::go(words, paths, &work[..there.len]);
    *links = there.links as u64;
    Ok(())
}
