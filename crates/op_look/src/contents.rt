// What is read as bytes: a file, the target of a link, the path of an entry.
ghost use Rattle.std.specs.Prelude.{length, take};
ghost use Rattle.path.specs.Path.{names, render};
ghost use Rattle.model.specs.Tree.{links_in};
ghost use Rattle.model.specs.Operations.Contents.{read_at};
ghost use Rattle.model.specs.Operations.Directories.{canonicalize_at};
ghost use Rattle.model.specs.Operations.Shows.{read_link_at};
ghost use Rattle.refusal.specs.Numbers.{answered};
ghost use Rattle.layout.specs.Lent.{with_tree, still};
ghost use Rattle.store.specs.Shows.{Some};
ghost use Rattle.op.specs.Lending.{in_bytes, PutIs};
ghost use Rattle.op.specs.Doing.{Answered};
ghost use Rattle.walk.specs.Meets.{Plain, PathIn};

use layout::kind::Kind;
use layout::slices::Tree;
use op::answer::put_bytes;
use op::at::{leads, lookup, no_follow};
use refusal::Refusal;
use walk::End;

// The target of the link at the path in work[..len], as it was given.
// kept: buffer and length are two, as said at the head of walk.
pub fn read_link_at(
    tree: Tree,
    work: &mut [u8],
    len: usize,
    out: &mut [u8],
    number: &mut u64,
    links: &mut u64,
) -> Result<(), Refusal>
    requires { Some (with_tree tree) × PathIn work.old len }
    ensures { Answered (still (with_tree tree.entry)) (λ s. read_link_at (length out.old) (names (take len work.old)))
        (in_bytes out.old number.old links.old) (in_bytes out.new number.new links.new) (answered result) }
{
    let walked = no_follow(tree, work, len)?;
    match walked.end {
        End::Found { .. } => Err(Refusal::WrongKind),
        End::Missing { .. } => Err(Refusal::NotFound),
        End::LastLink { spot, .. } => {
            let target = store::contents(tree, spot);
            put_bytes(out, number, target)?;
            *links = walked.links as u64;
            Ok(())
        }
    }
}

// The contents of the file that the path in work[..len] leads to. 5 is of the path that the lookup comes to.
// kept: buffer and length are two, as said at the head of walk.
pub fn read_at(
    tree: Tree,
    work: &mut [u8],
    len: usize,
    out: &mut [u8],
    number: &mut u64,
    links: &mut u64,
) -> Result<(), Refusal>
    requires { Some (with_tree tree) × PathIn work.old len }
    ensures { Answered (still (with_tree tree.entry)) (λ s. read_at (links_in s.tree) (length out.old) (names (take len work.old)))
        (in_bytes out.old number.old links.old) (in_bytes out.new number.new links.new) (answered result) }
{
    let looked = lookup(tree, work, len)?;
    let there = match looked {
        Err(absent) => {
            return Err(if absent.len == 0 {
                Refusal::NoLastName
            } else {
                Refusal::NotFound
            });
        }
        Ok(there) => there,
    };
    if there.len == 0 {
        return Err(Refusal::NoLastName);
    }
    if there.kind != Kind::File {
        return Err(Refusal::WrongKind);
    }
    let contents = store::contents(tree, there.spot);
    put_bytes(out, number, contents)?;
    *links = there.links as u64;
    Ok(())
}

// A path as it is shown: a slash alone for the root.
pub fn put_path(out: &mut [u8], number: &mut u64, path: &[u8]) -> Result<(), Refusal>
    requires { Plain path.now }
    ensures { PutIs (render (names path.now)) out.old number.old out.new number.new (answered result) }
{
    if path.is_empty() {
        return put_bytes(out, number, b"/");
    }
    put_bytes(out, number, path)
}

// The path of the entry that the path in work[..len] leads to.
// kept: buffer and length are two, as said at the head of walk.
pub fn canonicalize_at(
    tree: Tree,
    work: &mut [u8],
    len: usize,
    out: &mut [u8],
    number: &mut u64,
    links: &mut u64,
) -> Result<(), Refusal>
    requires { Some (with_tree tree) × PathIn work.old len }
    ensures { Answered (still (with_tree tree.entry)) (λ s. canonicalize_at (links_in s.tree) (length out.old) (names (take len work.old)))
        (in_bytes out.old number.old links.old) (in_bytes out.new number.new links.new) (answered result) }
{
    let there = leads(tree, work, len)?;
    put_path(out, number, &work[..there.len])?;
    *links = there.links as u64;
    Ok(())
}
