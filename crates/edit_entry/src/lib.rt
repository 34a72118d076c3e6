#![tactic(auto)]
// The edits of the tree: an entry put in, taken out, moved, put below a new one.
mod fill;
pub mod insert;
pub mod lent;
pub mod made;
pub mod moving;
pub mod nesting;
pub mod removing;
