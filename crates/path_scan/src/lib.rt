#![tactic(auto)]
// The names that a path keeps: a text whose pieces are all names is known at once, any other is read from its end.
// kept: text, strike and behind one by one in measure, read_back and new, since these make the two structs that hold them.
pub mod kept;
pub mod plain;
pub mod sifting;
