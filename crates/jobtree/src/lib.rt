#![tactic(auto)]
// The calls of the static library.
pub mod back;
pub mod look;
pub mod number;
pub mod state;
