#![tactic(auto)]
// What every call begins and ends with: refusals 1, 14, 2, 3 and 4, the given path made absolute and looked up, the record of metadata, and the
// working buffers cleared.
// kept: outputs are written where they are lent, so that one word of the clause names them before and after; a Result<u64, _> takes two more.
pub mod absolute;
pub mod answer;
pub mod at;
pub mod begin;
pub mod clear;
pub mod parts;
pub mod ready;
pub mod record;
