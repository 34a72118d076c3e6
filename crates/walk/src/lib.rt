#![tactic(auto)]
// The lookups over a store (01, "Lookups"). A path is a text as it stands in a working buffer: a slash before each name, nothing for the
// root. `hidden` is the record of an entry that counts as out, if one does.
// kept: buffer and length are two; tried as a struct that says its path stands, it has to feign length 0 while a path is formed or refused.
// kept: `Some` of the lent slices stands in the contracts; tried as a ghost field of Search, which holds no fact that names a store.
ghost use Rattle.std.specs.Prelude.{◌≤◌, ◌<◌};
ghost use Rattle.layout.specs.Numbers.{most_entries};
ghost use Rattle.ask_find.specs.Spots.{hidden_at};

pub mod leads;
pub mod link;
pub mod lookup;
pub mod until;

use ask_find::{Gap, Spot};
use layout::kind::Kind;
use layout::slices::Tree;

// What paths are looked up in: the slices that hold the tree, the record of an entry that counts as out, if one does, and how many last
// links may be followed, the number of links in the tree. The root, record 0, is never hidden.
#[derive(Clone, Copy)]
pub struct Search<'a> {
    pub tree: Tree<'a>,
    pub hidden: Option<usize>,
    pub bound: usize,
    ghost rooted: { 0 < hidden_at hidden },
    ghost few: { bound ≤ most_entries },
}

// What a walk that follows no last link ends in.
// kept: three ways, of which none is a refusal, and of which two are entries: no Option or Result says it.
#[derive(Clone, Copy)]
pub enum End {
    // An entry that is no link: a directory or a file.
    Found { spot: Spot, kind: Kind },
    // No entry: the place of the first missing name, and where in the text the path of its directory ends.
    Missing { gap: Gap, upto: usize },
    // A link at the end, and where the path of its directory ends.
    LastLink { spot: Spot, dir: usize },
}

// Where a walk from the root came to.
// kept: as the model's Met; neither variant is an error or nothing, so no Option or Result says it.
#[derive(Clone, Copy)]
pub enum Met {
    Ends(End),
    // A link before the last name.
    MidLink(link::Link),
}

// An entry to which a path led, with the length of that path, which now stands in front of the buffer, and how many links were followed.
// kept: len and links stand in four answers; one struct of the two would be taken apart wherever one of them is read.
#[derive(Clone, Copy)]
pub struct There {
    pub spot: Spot,
    pub kind: Kind,
    pub len: usize,
    pub links: usize,
}
