// lookup_entry_detail_until_symlink.
ghost use Rattle.std.specs.Prelude.{◌<◌};
ghost use Rattle.layout.specs.Lent.{with_tree, still};
ghost use Rattle.ask_find.specs.Spots.{hidden_at};
ghost use Rattle.store.specs.Shows.{Some};
ghost use Rattle.walk.specs.Meets.{Plain, MeetsIn};

use crate::link::Link;
use crate::{End, Met};
use layout::kind::Kind;
use layout::slices::Tree;
use path::pieces::piece_end;
use refusal::Refusal;

// From the root on, name by name, to the first link or the end; NotDirectory: a file before the last name. The root, record 0, is never
// hidden.
pub fn lookup_entry_detail_until_symlink(
    tree: Tree,
    path: &[u8],
    hidden: Option<usize>,
) -> Result<Met, Refusal>
    requires { Some (with_tree tree) × Plain path.now × (0 < hidden_at hidden) }
    ensures { MeetsIn (still (with_tree tree.entry)) path.now (hidden_at hidden) result }
{
    let mut spot = match store::root(tree.words) {
        Ok(s) => s,
        Err(gap) => return Ok(Met::Ends(End::Missing { gap, upto: 0 })),
    };
    let mut dir = 0;
    let mut e = 0;
    // kept: e goes on by the length of a name, and where it stands is part of the answer.
    while e < path.len() {
        match store::kind(tree.words, tree.records, tree.heads, spot) {
            Kind::Directory => {}
            Kind::File => return Err(Refusal::NotDirectory),
            Kind::Link => return Ok(Met::MidLink(Link { spot, dir, rest: e })),
        }
        let a = e + 1;
        let b = piece_end(path, a);
        spot = match store::child(
            tree.words,
            tree.records,
            tree.bytes,
            spot,
            &path[a..b],
            hidden,
        ) {
            Ok(s) => s,
            Err(gap) => return Ok(Met::Ends(End::Missing { gap, upto: e })),
        };
        dir = e;
        e = b;
    }
    match store::kind(tree.words, tree.records, tree.heads, spot) {
        Kind::Link => Ok(Met::Ends(End::LastLink { spot, dir })),
        kind => Ok(Met::Ends(End::Found { spot, kind })),
    }
}
