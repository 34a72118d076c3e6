#![tactic(auto)]
// The text of paths: its pieces, their lengths (refusal 3), and what the functions over paths answer.
pub mod answer;
pub mod bytes;
pub mod lengths;
pub mod pieces;
