#![tactic(auto)]
// The edits of a store for a program that proves nothing of it: each tests what the edit asks, makes it, and answers whether it was made.
pub mod asked;
pub mod entry;
pub mod moved;
pub mod open;
pub mod place;
pub mod slot;
pub mod state;
