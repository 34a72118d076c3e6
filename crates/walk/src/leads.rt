// From a path to what is there: the entry that it leads to, the directory (find_directory_mut), and the entry of its last name.
ghost use Rattle.std.specs.Prelude.{take};
ghost use Rattle.model.specs.Operations.Steps as steps;
ghost use Rattle.layout.specs.Lent.{with_tree, still};
ghost use Rattle.ask_find.specs.Spots.{hidden_at};
ghost use Rattle.store.specs.Shows.{Some};
ghost use Rattle.walk.specs.Meets.{PathIn};
ghost use Rattle.walk.specs.Leads.{LeadsIn, LastIn};

use crate::lookup::lookup_entry_detail;
use crate::{Search, There};
use ask_find::Gap;
use layout::kind::Kind;
use refusal::Refusal;

// The path in out[..len] leads to an entry that is there, no link; NotFound: it does not.
// kept: buffer and length are two, as said at the head of the crate.
pub fn leads(scope: Search, out: &mut [u8], len: usize) -> Result<There, Refusal>
    requires { Some (with_tree scope.tree) × PathIn out.old len }
    ensures { let q = scope.entry in LeadsIn (still (with_tree q.tree)) (steps.leads q.bound) (take len out.old) (hidden_at q.hidden) out.new result }
{
    lookup_entry_detail(scope, out, len)?.or(Err(Refusal::NotFound))
}

// find_directory_mut: the path in out[..len] leads to a directory; NotFound: missing, NotDirectory: a file.
// kept: buffer and length are two, as said at the head of the crate.
pub fn find_directory(scope: Search, out: &mut [u8], len: usize) -> Result<There, Refusal>
    requires { Some (with_tree scope.tree) × PathIn out.old len }
    ensures { let q = scope.entry in LeadsIn (still (with_tree q.tree)) (steps.directory q.bound) (take len out.old) (hidden_at q.hidden) out.new result }
{
    let there = leads(scope, out, len)?;
    match there.kind {
        Kind::Directory => Ok(there),
        _ => Err(Refusal::NotDirectory),
    }
}

// The place of a missing entry, the length of its directory's path, which now stands in front of the buffer, and how many links were
// followed.
#[derive(Clone, Copy)]
pub struct Unmade {
    pub gap: Gap,
    pub len: usize,
    pub links: usize,
}

// The entry `name` of the directory to which the path in out[..len] leads, there or not; only that path is followed. An entry that is
// there may be a link; its length is that of its directory's path.
// kept: buffer and length are two, as said at the head of the crate.
pub fn last_entry(
    scope: Search,
    out: &mut [u8],
    len: usize,
    name: &[u8],
) -> Result<Result<There, Unmade>, Refusal>
    requires { Some (with_tree scope.tree) × PathIn out.old len }
    ensures { let q = scope.entry in LastIn (still (with_tree q.tree)) (take len out.old) name.now (hidden_at q.hidden) q.bound out.new result }
{
    let dir = find_directory(scope, out, len)?;
    let Search { tree, hidden, .. } = scope;
    match store::child(tree.words, tree.records, tree.bytes, dir.spot, name, hidden) {
        Ok(spot) => {
            let kind = store::kind(tree.words, tree.records, tree.heads, spot);
            Ok(Ok(There { spot, kind, ..dir }))
        }
        Err(gap) => Ok(Err(Unmade {
            gap,
            len: dir.len,
            links: dir.links,
        })),
    }
}
