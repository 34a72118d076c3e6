#![tactic(auto)]
// Sets up a store of 40 entries and 1,024 bytes, and makes each edit of standard input in it. Writes behind each line whether the
// edit was made, and where it was, the store, read back from its slices.
//
// A line is a word and its arguments, split by single spaces:
//     root MODE TIME | directory AT NAME MODE TIME | file AT NAME MODE TIME BYTES | link AT NAME MODE TIME TARGET
//     remove AT | move AT DIR NAME | mode AT MODE | times AT TIME TIME | contents AT BYTES TIME | length AT N
//     open N POSITION PATH | close N | seek N POSITION | current PATH | umask MODE
// AT is a record's number, DIR that of the directory into which AT is moved, N before POSITION and behind `close` a file number. A
// number is decimal below 10 * 2^60, or hexadecimal in small letters behind 0x. In a name, bytes, a target or a path \HH, two
// hexadecimal digits in small letters, is a byte, and \*NNNN, four decimal digits, repeats the byte before it so that it stands NNNN
// times. A line that begins with # is skipped; a word that is none makes no edit; a seek of a closed number is made and changes nothing.
// Of standard input the first 65,536 bytes are read.
//
// An entry is written as `AT PATH [SLOT: TIMES] KIND, MODE, BYTES`, the times accessed, changed, created and modified. An open
// number is written with its slot, which may have lost its name. A text of more than 40 bytes is its first and last 8, and a sum.
mod edit;
mod edited;
mod shown;

use crate::edit::Edit;
use crate::edited::{make, set_up};
use crate::shown::Shown;
use std::alloc::Global;
use std::io::{self, BufWriter, Write};
use test_fields::lines_in;
use test_shown::decode::Malformed;
use test_shown::read::input;

// Each line and whether its edit was made, and where it was, the store.
fn edits<W: Write>(alloc: Global, out: &mut W, text: &[u8]) -> io::Result<()> {
    let mut store = set_up(alloc)?;
    for line in lines_in(text) {
        if line.starts_with(b"#") {
            continue;
        }
        write!(out, "> ")?;
        out.write_all(line)?;
        let made = match Edit::try_from(line) {
            Ok(edit) => make(&mut store, edit),
            Err(Malformed) => false,
        };
        match made {
            true => write!(out, ": done\n{}", Shown(&store))?,
            false => writeln!(out, ": refused")?,
        }
    }
    Ok(())
}

fn main(rt: HostRuntime) -> io::Result<()> {
    let mut space = [0u8; 65536];
    let length = input(&mut rt.reader(), &mut space)?;
    let mut out = BufWriter::new(rt.alloc(), io::writer(&rt))?;
    edits(rt.alloc(), &mut out, &space[..length])?;
    out.flush()
}
