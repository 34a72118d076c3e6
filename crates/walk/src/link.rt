// The path behind a link.
ghost use Rattle.std.specs.Prelude.{◌≤◌, length, take};
ghost use Rattle.layout.specs.Lent.{with_tree, still};
ghost use Rattle.walk.specs.Lookups.{SomeLink, FollowsIn};

use ask_find::Spot;
use layout::slices::Tree;
use path::answer::TooLong;
use path_form::link::follow;

// A link on the way: where in the text the path of its directory ends, and where its own does.
#[derive(Clone, Copy)]
pub struct Link {
    pub spot: Spot,
    pub dir: usize,
    pub rest: usize,
}

// The path behind the link, to which the path in out[..len] leads on its way, takes the place of that path: the target seen from the link's
// directory, and then the rest.
// kept: buffer and length are two, as said at the head of the crate.
pub fn behind_link(tree: Tree, out: &mut [u8], len: usize, link: Link) -> Result<usize, TooLong>
    requires { SomeLink (with_tree tree) (take len out.old) link.spot link.dir link.rest × (len ≤ 1024) × (1024 ≤ length out.old) }
    ensures { FollowsIn (still (with_tree tree.entry)) (take len out.old) link.spot link.dir link.rest out.new result }
{
    let target = store::contents(tree, link.spot);
    follow(out, link.dir, link.rest, len, target)
}
