// What a line asks.
use test_fields::field;
use test_shown::decode::{Bytes, Malformed, decode, decode_behind};

#[derive(Drop)]
pub enum Question {
    Text(Bytes),
    Lengths(Bytes),
    Norm(Bytes),
    Raw(Bytes),
    Abs {
        cwd: Bytes,
        path: Bytes,
    },
    Last {
        cwd: Bytes,
        path: Bytes,
    },
    // The link's name with a slash before it has `name` bytes, and the rest of the path is behind it.
    Link {
        dir: Bytes,
        behind: Bytes,
        name: usize,
        target: Bytes,
    },
}

// The link whose name, with the slash before it, is followed by the rest of a path.
fn link(dir: &[u8], name: &[u8], rest: &[u8], target: &[u8]) -> Result<Question, Malformed> {
    let mut behind = decode(b"/")?;
    decode_behind(&mut behind, name)?;
    let name = behind.len();
    decode_behind(&mut behind, rest)?;
    Ok(Question::Link {
        dir: decode(dir)?,
        behind,
        name,
        target: decode(target)?,
    })
}

// A line's fields: a word, and what it asks for.
impl TryFrom<&[u8]> for Question {
    type Error = Malformed;

    fn try_from(line: &[u8]) -> Result<Question, Malformed> {
        let spaces = line.iter().filter(|byte| **byte == b' ').count();
        let question = match (field(line, 0), spaces) {
            (b"text", 1) => Question::Text(decode(field(line, 1))?),
            (b"lengths", 1) => Question::Lengths(decode(field(line, 1))?),
            (b"norm", 1) => Question::Norm(decode(field(line, 1))?),
            (b"raw", 1) => Question::Raw(decode(field(line, 1))?),
            (b"abs", 2) => Question::Abs {
                cwd: decode(field(line, 1))?,
                path: decode(field(line, 2))?,
            },
            (b"last", 2) => Question::Last {
                cwd: decode(field(line, 1))?,
                path: decode(field(line, 2))?,
            },
            (b"link", 4) => link(
                field(line, 1),
                field(line, 2),
                field(line, 3),
                field(line, 4),
            )?,
            _ => return Err(Malformed),
        };
        Ok(question)
    }
}
