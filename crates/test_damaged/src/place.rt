// The words of a line.

// What a change is of: a slice; the length that is handed over; letters.
#[derive(Clone, Copy, Debug, PartialEq, Eq)]
pub enum Place {
    Words,
    Records,
    Heads,
    Times,
    Paths,
    Bytes,
    Length,
    LettersInPaths,
    LettersInBytes,
}

impl Place {
    pub fn named(word: &[u8]) -> Option<Place> {
        match word {
            b"words" => Some(Place::Words),
            b"records" => Some(Place::Records),
            b"heads" => Some(Place::Heads),
            b"times" => Some(Place::Times),
            b"paths" => Some(Place::Paths),
            b"bytes" => Some(Place::Bytes),
            b"length" => Some(Place::Length),
            b"letters-in-paths" => Some(Place::LettersInPaths),
            b"letters-in-bytes" => Some(Place::LettersInBytes),
            _ => None,
        }
    }
}

// What the store holds before the changes: nothing, a root, or tree K with a current directory and two open files.
#[derive(Clone, Copy, Debug, PartialEq, Eq)]
pub enum Holds {
    Empty,
    Root,
    K,
}

impl Holds {
    pub fn named(word: &[u8]) -> Option<Holds> {
        match word {
            b"empty" => Some(Holds::Empty),
            b"root" => Some(Holds::Root),
            b"k" => Some(Holds::K),
            _ => None,
        }
    }
}
