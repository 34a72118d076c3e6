// lookup_entry_detail_no_follow and lookup_entry_detail.
ghost use Rattle.std.specs.Prelude.{◌≡◌, ◌+◌, ◌<◌, take};
ghost use Rattle.layout.specs.Lent.{with_tree, still};
ghost use Rattle.ask_find.specs.Spots.{hidden_at};
ghost use Rattle.store.specs.Shows.{Some};
ghost use Rattle.walk.specs.Meets.{PathIn};
ghost use Rattle.walk.specs.Lookups.{WalksIn, LooksIn};

use crate::link::{Link, behind_link};
use crate::until::lookup_entry_detail_until_symlink;
use crate::{End, Met, Search, There};
use ask_find::Gap;
use layout::slices::Tree;
use refusal::Refusal;

// The end, the length of the path that now stands in front of the buffer, and how many links were followed.
#[derive(Clone, Copy)]
pub struct Walked {
    pub end: End,
    pub len: usize,
    pub links: usize,
}

// The place of a missing entry, where the path of its directory ends, the length of its own, which now stands in front of the buffer, and
// how many links were followed.
#[derive(Clone, Copy)]
pub struct Absent {
    pub gap: Gap,
    pub upto: usize,
    pub len: usize,
    pub links: usize,
}

// The links that a walk has met before the last name.
#[derive(Clone, Copy)]
pub struct Walk {
    pub count: usize,
}

impl Walk {
    // "the 41st link met before the last name is refused"
    pub const MOST: usize = 40;

    pub fn new() -> Self
        ensures { result.count ≡ 0 }
    {
        Self { count: 0 }
    }

    pub fn next(self) -> Self
        requires { self.count < 40 }
        ensures { result.count ≡ self.count + 1 }
    {
        Self {
            count: self.count + 1,
        }
    }
}

// The path in out[..len], with the links before its last name followed. The root, record 0, is never hidden.
// kept: buffer and length are two, as said at the head of the crate.
pub fn lookup_entry_detail_no_follow(
    tree: Tree,
    out: &mut [u8],
    len: usize,
    hidden: Option<usize>,
) -> Result<Walked, Refusal>
    requires { Some (with_tree tree) × PathIn out.old len × (0 < hidden_at hidden) }
    ensures { WalksIn (still (with_tree tree.entry)) (take len out.old) (hidden_at hidden) out.new result }
{
    let mut n = len;
    let mut walk = Walk::new();
    // kept: the 41st link is refused before its path is formed, so the count is tested within a turn, and a `for` would have to fail twice.
    loop {
        let links = walk.count;
        match lookup_entry_detail_until_symlink(tree, &out[..n], hidden)? {
            Met::Ends(end) => return Ok(Walked { end, len: n, links }),
            Met::MidLink(link) => {
                if links == Walk::MOST {
                    return Err(Refusal::LinkLoop);
                }
                n = behind_link(tree, out, n, link)?;
                walk = walk.next();
            }
        }
    }
}

// What the path in out[..len] leads to with all its links followed, there or absent; of last links as many as the bound, the number of
// links in the tree.
// kept: buffer and length are two, as said at the head of the crate.
pub fn lookup_entry_detail(
    scope: Search,
    out: &mut [u8],
    len: usize,
) -> Result<Result<There, Absent>, Refusal>
    requires { Some (with_tree scope.tree) × PathIn out.old len }
    ensures { let q = scope.entry in LooksIn (still (with_tree q.tree)) (take len out.old) (hidden_at q.hidden) q.bound out.new result }
{
    let mut left = scope.bound;
    let mut n = len;
    let mut links = 0;
    // kept: a last link is refused before its path is formed, so the count is tested within a turn, and a `for` would have to fail twice.
    loop {
        let w = lookup_entry_detail_no_follow(scope.tree, out, n, scope.hidden)?;
        let len = w.len;
        links += w.links;
        match w.end {
            End::Found { spot, kind } => {
                let there = There {
                    spot,
                    kind,
                    len,
                    links,
                };
                return Ok(Ok(there));
            }
            End::Missing { gap, upto } => {
                let absent = Absent {
                    gap,
                    upto,
                    len,
                    links,
                };
                return Ok(Err(absent));
            }
            End::LastLink { spot, dir } => {
                if left == 0 {
                    return Err(Refusal::LinkLoop);
                }
                let link = Link {
                    spot,
                    dir,
                    rest: len,
                };
                n = behind_link(scope.tree, out, len, link)?;
                left -= 1;
                links += 1;
            }
        }
    }
}
