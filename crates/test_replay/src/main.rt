#![tactic(auto)]
// Reads cases from standard input, one a line, and writes what `text` and `path` answer to each.
//
// A line is a word and its arguments, split by single spaces:
//     text S | lengths S | norm PATH | raw PATH | abs CWD PATH | last CWD PATH | link DIR NAME REST TARGET
// `link` follows the link NAME of the directory DIR, where the path goes on with the bytes REST. In an argument \HH, two
// hexadecimal digits in small letters, is a byte, and \*NNNN, four decimal digits, repeats the byte before it so that it stands NNNN times.
// A line that begins with # is skipped; one that is longer than 4,096 bytes or not as above is answered by `?`.
mod answers;
mod question;

use crate::answers::say_answer;
use crate::question::Question;
use std::io::{self, BufWriter, Write};
use test_fields::lines_in;
use test_shown::decode::Malformed;
use test_shown::read::input;

// The answer to a line of any form and length.
fn answer<W: Write>(out: &mut W, line: &[u8]) -> io::Result<()> {
    if line.len() > 4096 {
        return write!(out, "?");
    }
    match Question::try_from(line) {
        Ok(question) => say_answer(out, &question),
        Err(Malformed) => write!(out, "?"),
    }
}

// Each line with its number and its answer.
fn answer_all<W: Write>(out: &mut W, text: &[u8]) -> io::Result<()> {
    for (i, line) in lines_in(text).enumerate() {
        if line.starts_with(b"#") {
            continue;
        }
        write!(out, "{} ", i + 1)?;
        answer(out, line)?;
        writeln!(out)?;
    }
    Ok(())
}

fn main(rt: HostRuntime) -> io::Result<()> {
    let mut space = [0u8; 65536];
    let length = input(&mut rt.reader(), &mut space)?;
    let mut out = BufWriter::new(rt.alloc(), io::writer(&rt))?;
    answer_all(&mut out, &space[..length])?;
    if length == space.len() {
        writeln!(out, "more than 65,535 bytes: the rest is not read")?;
    }
    out.flush()
}
