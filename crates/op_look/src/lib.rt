#![tactic(auto)]
// The operations at a path that only ask. The path is absolute and stands in front of a working buffer.
// kept: outputs are written where they are lent, for the reason at the head of op.
pub mod contents;
pub mod list;
pub mod metadata;
