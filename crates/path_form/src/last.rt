// The last name of a path once absolute.
ghost use Rattle.std.specs.Prelude.{◌≡◌};
ghost use Rattle.path.specs.Answer.{PlaceIs};
ghost use Rattle.path.specs.Path.{normal, absolute, last_name};

use crate::is_absolute;
use path::answer::Place;
use path_scan::sifting::last_kept;

// Where the last name stands; nowhere, for the root.
pub fn last_place(path: &[u8], cwd: &[u8]) -> Option<Place>
    ensures { PlaceIs result path.now cwd.now }
{
    match last_kept(path, 0) {
        Ok((a, e)) => Some(Place::InPath(a, e)),
        Err(_) if is_absolute(path) => None,
        Err(left) => match last_kept(cwd, left) {
            Ok((a, e)) => Some(Place::InCwd(a, e)),
            Err(_) => None,
        },
    }
}

// A part of the path or of the current directory, whichever holds the name; empty for the root, which has none.
#[tactic(auto, using(path::proofs::Lasts::place_none))]
pub fn last_name<'a>(path: &'a [u8], cwd: &'a [u8]) -> &'a [u8]
    ensures { result.now ≡ last_name (absolute (normal cwd.now) path.now) }
{
    match last_place(path, cwd) {
        Some(Place::InPath(a, e)) => &path[a..e],
        Some(Place::InCwd(a, e)) => &cwd[a..e],
        None => &[],
    }
}
