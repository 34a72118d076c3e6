// What an insertion asks.
ghost use Rattle.std.specs.Prelude.{[], IfSome, IfNone, true, ◌≡◌, ◌≢◌, ◌<◌, ◌≤◌, T, length};
ghost use Rattle.model.specs.Rules.{name_ok};
ghost use Rattle.layout.specs.Kinds.{code_of};
ghost use Rattle.layout.specs.Numbers.{most_entries};
ghost use Rattle.layout.specs.Store.{count, kind_at, state};
ghost use Rattle.layout.specs.Lent.{lent_by};
ghost use Rattle.layout.specs.Lawful.{Lawful};
ghost use Rattle.ask_find.specs.Paths.{slot_at, path_at};
ghost use Rattle.ask_find.specs.Spots.{Looks};
ghost use Rattle.edit_entry.specs.Made.{kind_made, bytes_made, Holds};
ghost use Rattle.edit_entry.specs.Insertion.{Insertable};
ghost use Rattle.test_tried.specs.Tried.{InsertableAs, Spotted};

use crate::asked::room_for;
use ask_find::{Gap, Spot};
use edit_entry::made::Made;
use layout::kind::Kind;
use layout::slices::Slices;
use layout::{COUNT_AT, MOST_BYTES, names_of, slot_of};

// kept: a cast with a name
const MOST: usize = MOST_BYTES as usize;

// Whether it is a name that can stand in a directory.
pub fn name_ok(name: &[u8]) -> bool
    ensures { result ≡ true → T (name_ok name.now) }
{
    !name.contains(&b'/') && lawful::cells::piece_ok(name)
}

// Whether record i is there, and is a directory's.
pub fn is_dir(lent: Slices, i: usize) -> bool
    requires { Lawful (lent_by lent) }
    ensures { result ≡ true → (i < count (lent_by lent.entry)) × (kind_at (lent_by lent.entry) (slot_at (lent_by lent.entry) i) ≡ 1) }
{
    if lent.words[COUNT_AT] as usize <= i {
        return false;
    }
    let slot = slot_of(lent.records[i]);
    Kind::of(lent.heads[slot]) == Some(Kind::Directory)
}

// The entry `name` of the directory at record dir, or where it would stand.
pub(crate) fn look(lent: Slices, dir: usize, name: &[u8]) -> Result<Spot, Gap>
    requires { Lawful (lent_by lent) × (dir < count (lent_by lent)) × (kind_at (lent_by lent) (slot_at (lent_by lent) dir) ≡ 1) }
    ensures { let st = lent_by lent.entry in Looks st most_entries (state st).tree (path_at st dir) name.now result }
{
    let count = lent.words[COUNT_AT] as usize;
    let off = names_of(&lent.records[..dir]);
    let at = Spot { at: dir, off };
    ask_find::child(&lent.records[..count], lent.bytes, at, name, None)
}

// Where the entry `name` of the directory at record dir would stand, if there is none.
pub fn spot_in(lent: Slices, dir: usize, name: &[u8]) -> Option<Gap>
    requires { Lawful (lent_by lent) }
    ensures { IfSome result (λ g. Spotted (lent_by lent.entry) dir g.at g.depth name.now) }
{
    if !is_dir(lent, dir) {
        return None;
    }
    if !name_ok(name) {
        return None;
    }
    look(lent, dir, name).err()
}

// What an entry of that kind with those bytes is: 1 is a directory, which has none, 2 a file, 3 a link.
// kept: the kind is a number, since any may be asked for and one that is none is refused; a Kind would ask more of callers.
pub fn made_of(kind: u64, text: &[u8]) -> Option<Made<'_>>
    ensures some { IfSome result (λ m. (code_of (kind_made m) ≡ kind) × (bytes_made m ≡ text.now)) }
    ensures none { IfNone result ((kind ≡ 1 → text.now ≢ []) × (kind ≢ 2) × (kind ≢ 3)) }
{
    match kind {
        1 if text.is_empty() => Some(Made::Directory),
        2 => Some(Made::File(text)),
        3 => Some(Made::Link(text)),
        _ => None,
    }
}

// Whether it may hold its bytes.
fn may_hold(made: Made) -> bool
    ensures { result ≡ true → Holds made.entry }
{
    match made {
        Made::Link(target) => lawful::held::target_ok(target),
        _ => true,
    }
}

// Whether the limits leave room for the entry.
pub fn may_insert(lent: Slices, name: &[u8], made: Made) -> bool
    requires { Lawful (lent_by lent) × (length name.now ≤ 255) }
    ensures { result ≡ true → Insertable (lent_by lent.entry) name.now made.entry }
{
    if lent.records.len() <= lent.words[COUNT_AT] as usize {
        return false;
    }
    let text = made.bytes();
    if MOST < text.len() {
        return false;
    }
    if !may_hold(made) {
        return false;
    }
    room_for(lent, 0, name.len() + text.len())
}

// The same of an entry of that kind with those bytes. The kind is a number, as in `made_of`.
pub fn insertable(lent: Slices, name: &[u8], kind: u64, text: &[u8]) -> bool
    requires { Lawful (lent_by lent) × (length name.now ≤ 255) }
    ensures { result ≡ true → InsertableAs (lent_by lent.entry) name.now kind text.now }
{
    match made_of(kind, text) {
        Some(made) => may_insert(lent, name, made),
        None => false,
    }
}
