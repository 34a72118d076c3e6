// What an entry is.
ghost use Rattle.std.specs.Prelude.{◌≡◌};
ghost use Rattle.layout.specs.Kinds.{code_of, kind_held};

use crate::kind_of;

const DIRECTORY: u64 = Kind::Directory as u64;

const FILE: u64 = Kind::File as u64;

const LINK: u64 = Kind::Link as u64;

// Each with its number in the word of a slot.
#[derive(Clone, Copy, Debug, PartialEq, Eq)]
pub enum Kind {
    Directory = 1,
    File = 2,
    Link = 3,
}

impl Kind {
    // kept: a method and no From, since `Kind::Link.code()` is plainer than `u64::from(Kind::Link)`
    pub fn code(self) -> u64
        ensures { result ≡ code_of self }
    {
        self as u64
    }

    // The kind in the word of a slot; a damaged store's word may hold any number.
    pub fn of(h: u64) -> Option<Kind>
        ensures { result ≡ kind_held h }
    {
        match kind_of(h) {
            DIRECTORY => Some(Kind::Directory),
            FILE => Some(Kind::File),
            LINK => Some(Kind::Link),
            _ => None,
        }
    }
}
