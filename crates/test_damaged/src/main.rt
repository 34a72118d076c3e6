#![tactic(auto)]
// Makes the tree K of docs/LAYOUT.md word by word, reads it back, and then makes a store for each case of standard input, changes
// it, and writes what the test of refusal 1 says of it.
//
// A line is `RULE HOLDS CHANGE ..: WORDS`, split by single spaces. RULE is the number of the rule that the case is about, 0 where
// no rule speaks of it. HOLDS is what the store holds before: `empty`, `root`, or `k`, tree K with a current directory and two open
// files. A CHANGE is a place, an index and a value: `words 0 4097`, the place one of the six slices; `length I N`, of slice I (0 to
// 5) only N elements are handed over; `letters-in-paths I N` and `letters-in-bytes I N`, N letters `a` from index I on. A number is
// decimal below 10 * 2^60, or hexadecimal in small letters behind 0x. A line that begins with # is skipped; `?` is written for a place
// or HOLDS that is none. Of standard input the first 65,536 bytes are read.
mod place;
mod store;
mod tried;

use crate::store::Case;
use std::alloc::Global;
use std::io::{self, BufWriter, Write};
use test_fields::lines_in;
use test_shown::read::input;

// A case, and what says it in words: that stands behind a colon and its space. A line of one byte says itself.
fn split(line: &[u8]) -> (&[u8], &[u8]) {
    let colon = line.iter().position(|byte| *byte == b':');
    let (case, rest) = line.split_at(colon.unwrap_or(line.len()));
    let words = if line.len() < 2 {
        line
    } else {
        rest.get(2..).unwrap_or_default()
    };
    (case, words)
}

fn cases<W: Write>(alloc: Global, out: &mut W, text: &[u8]) -> io::Result<()> {
    let mut case = Case::longer(alloc)?;
    for line in lines_in(text) {
        if line.starts_with(b"#") {
            continue;
        }
        let (said, words) = split(line);
        tried::tried(out, &mut case, said, words)?;
    }
    Ok(())
}

fn main(rt: HostRuntime) -> io::Result<()> {
    let mut out = BufWriter::new(rt.alloc(), io::writer(&rt))?;
    tried::shown_k(rt.alloc(), &mut out)?;
    out.flush()?;
    let mut space = [0u8; 65536];
    let length = input(&mut rt.reader(), &mut space)?;
    cases(rt.alloc(), &mut out, &space[..length])?;
    out.flush()
}
