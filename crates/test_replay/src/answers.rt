// What is written for each line: the refusal's number or 0, and then the answer.
use crate::question::Question;
use std::io::{self, Write};
use test_shown::text::sum_of;

// The length of a text, and the text; a long one by its first and last 16 bytes, and a sum of all.
fn say_text<W: Write>(out: &mut W, text: &[u8]) -> io::Result<()> {
    write!(out, "{} ", text.len())?;
    if text.len() <= 64 {
        return out.write_all(text);
    }
    out.write_all(&text[..16])?;
    write!(out, "..")?;
    out.write_all(&text[text.len() - 16..])?;
    write!(out, " {:08x}", sum_of(text))
}

// The path that is formed in a buffer; the root's is empty. What forms it answers the path's length, or a million and a refusal.
// kept: `test_probe` answers by numbers, as its exports to C do
fn say_formed<W: Write, F: FnOnce(&mut [u8]) -> u64>(out: &mut W, form: F) -> io::Result<()>
    requires { F.IsAlwaysCallable form }
{
    let mut buffer = [0u8; 1024];
    let length = form(&mut buffer);
    if length == 1000006 {
        return write!(out, "6");
    }
    let Some(formed) = buffer.get(..length as usize) else {
        return write!(out, "?");
    };
    write!(out, "0 ")?;
    say_text(out, if formed.is_empty() { b"/" } else { formed })
}

// Where the last name stands, and the name: `path` or `cwd`, from, to, and its length and bytes; `none` for the root.
fn say_last<W: Write>(out: &mut W, cwd: &[u8], path: &[u8]) -> io::Result<()> {
    let mut from = 0u64;
    let mut to = 0u64;
    // kept: the text by its number, as the export to C tells it
    let text = match test_probe::probe_last(path, cwd, &mut from, &mut to) {
        1 => "path",
        2 => "cwd",
        _ => "none",
    };
    write!(out, "0 {text} {from} {to} ")?;
    let mut buffer = [0u8; 4096];
    let length = test_probe::probe_last_name(&mut buffer, path, cwd);
    match buffer.get(..length as usize) {
        Some(name) => say_text(out, name),
        None => write!(out, "?"),
    }
}

// The answer to a question.
pub fn say_answer<W: Write>(out: &mut W, question: &Question) -> io::Result<()> {
    match question {
        Question::Text(text) => write!(out, "{}", test_probe::probe_text(text)),
        Question::Lengths(text) => write!(out, "{}", test_probe::probe_lengths(text)),
        Question::Norm(path) => say_formed(out, |formed| test_probe::probe_normalize(formed, path)),
        Question::Raw(path) => say_formed(out, |formed| test_probe::probe_raw(formed, path)),
        Question::Abs { cwd, path } => say_formed(
            out,
            |formed| test_probe::probe_absolute(formed, cwd, path),
        ),
        Question::Last { cwd, path } => say_last(out, cwd, path),
        Question::Link {
            dir,
            behind,
            name,
            target,
        } => say_formed(
            out,
            |formed| test_probe::probe_follow(formed, dir, behind, *name, target),
        ),
    }
}
