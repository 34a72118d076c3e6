// What a new entry is.
ghost use Rattle.std.specs.Prelude.{◌≡◌};
ghost use Rattle.edit_entry.specs.Made.{kind_made, bytes_made};

use layout::kind::Kind;

// The mode of a new entry, and its time, which is all four.
#[derive(Clone, Copy)]
pub struct Fresh {
    pub mode: u32,
    pub time: i64,
}

// A directory, a file with those bytes, a link with that target.
#[derive(Clone, Copy)]
pub enum Made<'a> {
    Directory,
    File(&'a [u8]),
    Link(&'a [u8]),
}

impl<'a> Made<'a> {
    // kept: a method and no From, since `made.kind()` is plainer than `Kind::from(made)`.
    pub fn kind(self) -> Kind
        ensures { result ≡ kind_made self.entry }
    {
        match self {
            Made::Directory => Kind::Directory,
            Made::File(_) => Kind::File,
            Made::Link(_) => Kind::Link,
        }
    }

    // What stands in its slot.
    pub fn bytes(self) -> &'a [u8]
        ensures { result.now ≡ bytes_made self.entry }
    {
        match self {
            Made::Directory => &[],
            Made::File(contents) => contents,
            Made::Link(target) => target,
        }
    }
}
