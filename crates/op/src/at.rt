// The lookups of a call at the path in front of its working buffer: no entry counts as out, and of last links as many are followed as
// there are links in the tree, which are counted once.
ghost use Rattle.std.specs.Prelude.{None, ◌≡◌, take};
ghost use Rattle.model.specs.Tree.{links_in};
ghost use Rattle.model.specs.Operations.Steps as steps;
ghost use Rattle.model.specs.Calls.States.{world_of};
ghost use Rattle.layout.specs.Numbers.{most_entries};
ghost use Rattle.layout.specs.Lent.{with_tree, still};
ghost use Rattle.store.specs.Shows.{Of, Some};
ghost use Rattle.walk.specs.Lookups.{Walks, Looks};
ghost use Rattle.walk.specs.Leads.{Leads};
ghost use Rattle.walk.specs.Meets.{PathIn};

use layout::slices::Tree;
use refusal::Refusal;
use walk::lookup::{Absent, Walked};
use walk::{Search, There};

// What they look in.
fn whole<'a>(tree: Tree<'a>) -> Search<'a>
    requires { Some (with_tree tree) }
    ensures tree { result.tree ≡ tree.entry }
    ensures hidden { result.hidden ≡ None }
    ensures bound { Of (still (with_tree tree.entry)) (λ _ s. result.bound ≡ links_in s.tree) }
{
    Search {
        tree,
        hidden: None,
        bound: store::space::links(tree.words, tree.records, tree.heads),
    }
}

// The entry that the path leads to.
// kept: buffer and length are two, as said at the head of walk.
pub fn leads(tree: Tree, work: &mut [u8], len: usize) -> Result<There, Refusal>
    requires { Some (with_tree tree) × PathIn work.old len }
    ensures { Of (still (with_tree tree.entry))
        (λ st s. Leads (steps.leads (links_in s.tree)) st s (world_of s) (take len work.old) work.new result) }
{
    walk::leads::leads(whole(tree), work, len)
}

// What the path comes to, there or not.
// kept: buffer and length are two, as said at the head of walk.
pub fn lookup(tree: Tree, work: &mut [u8], len: usize) -> Result<Result<There, Absent>, Refusal>
    requires { Some (with_tree tree) × PathIn work.old len }
    ensures { Of (still (with_tree tree.entry))
        (λ st s. Looks st s (world_of s) most_entries (links_in s.tree) (take len work.old) work.new result) }
{
    walk::lookup::lookup_entry_detail(whole(tree), work, len)
}

// The same, with a last link not followed.
// kept: buffer and length are two, as said at the head of walk.
pub fn no_follow(tree: Tree, work: &mut [u8], len: usize) -> Result<Walked, Refusal>
    requires { Some (with_tree tree) × PathIn work.old len }
    ensures { Of (still (with_tree tree.entry)) (λ st s. Walks st s (world_of s) most_entries (take len work.old) work.new result) }
{
    walk::lookup::lookup_entry_detail_no_follow(tree, work, len, None)
}
