#![tactic(auto)]
// The operations by file number. The number is open: that was tested before (4).
// kept: outputs are written where they are lent, for the reason at the head of op.
// kept: `SomeOpen` stands in the contracts, as `Some` does in walk's: a ghost field holds no fact that names a store.
pub mod attributes;
pub mod metadata;
pub mod position;
