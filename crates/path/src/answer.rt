// What the functions over paths answer.

// A path has more than 1,024 bytes: refusal 6.
#[derive(Clone, Copy, Debug, PartialEq, Eq)]
pub struct TooLong;

// Where the last name of a path once absolute stands: from the first place to the second of the path or of the current
// directory.
// kept: two places of one kind, each in a text of its own, so neither an Option nor a Result would say which text it is.
#[derive(Clone, Copy, PartialEq, Eq)]
pub enum Place {
    InPath(usize, usize),
    InCwd(usize, usize),
}
