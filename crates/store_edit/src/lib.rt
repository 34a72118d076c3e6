#![tactic(auto)]
// The store in the model's words: each edit of the model that a call makes, over slices that are as long as the limits ask.
pub mod entry;
pub mod moving;
pub mod number;
pub mod slot;
pub mod state;
