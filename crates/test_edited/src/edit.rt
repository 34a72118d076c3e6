// An edit, as a line asks for it.
use layout::kind::Kind;
use test_fields::field;
use test_shown::decode::{Bytes, Malformed, decode};
use test_shown::read::number;

// An entry that is to be made in a directory.
#[derive(Drop)]
pub struct Insertion {
    pub dir: usize,
    pub name: Bytes,
    pub kind: Kind,
    pub mode: u32,
    pub time: i64,
    pub text: Bytes,
}

// `record` is the number of a record, `dir` that of a directory's, `number` a file number.
#[derive(Drop)]
pub enum Edit {
    Root {
        mode: u32,
        time: i64,
    },
    Insert(Insertion),
    Remove(usize),
    Move {
        record: usize,
        dir: usize,
        name: Bytes,
    },
    Mode {
        record: usize,
        mode: u32,
    },
    Times {
        record: usize,
        accessed: i64,
        modified: i64,
    },
    Contents {
        record: usize,
        text: Bytes,
        time: i64,
    },
    Length {
        record: usize,
        length: usize,
    },
    Open {
        number: usize,
        position: u64,
        path: Bytes,
    },
    Close(usize),
    Seek {
        number: usize,
        position: u64,
    },
    Current(Bytes),
    Umask(u32),
}

// The fields of a line, read as what an edit takes; a field that is not there is 0, or no bytes.
#[derive(Clone, Copy)]
struct Line<'a>(&'a [u8]);

impl Line<'_> {
    fn value(self, k: usize) -> u64 {
        number(field(self.0, k))
    }

    fn index(self, k: usize) -> usize {
        self.value(k) as usize
    }

    fn mode(self, k: usize) -> u32 {
        (self.value(k) % (1 << 32)) as u32
    }

    fn time(self, k: usize) -> i64 {
        (self.value(k) % (1 << 63)) as i64
    }

    fn bytes(self, k: usize) -> Result<Bytes, Malformed> {
        decode(field(self.0, k))
    }

    fn insert(self, kind: Kind) -> Result<Edit, Malformed> {
        Ok(Edit::Insert(Insertion {
            dir: self.index(1),
            name: self.bytes(2)?,
            kind,
            mode: self.mode(3),
            time: self.time(4),
            text: self.bytes(5)?,
        }))
    }
}

// The edit that the first field names, on the others.
impl TryFrom<&[u8]> for Edit {
    type Error = Malformed;

    fn try_from(text: &[u8]) -> Result<Edit, Malformed> {
        let line = Line(text);
        let edit = match field(text, 0) {
            b"root" => Edit::Root {
                mode: line.mode(1),
                time: line.time(2),
            },
            b"directory" => line.insert(Kind::Directory)?,
            b"file" => line.insert(Kind::File)?,
            b"link" => line.insert(Kind::Link)?,
            b"remove" => Edit::Remove(line.index(1)),
            b"move" => Edit::Move {
                record: line.index(1),
                dir: line.index(2),
                name: line.bytes(3)?,
            },
            b"mode" => Edit::Mode {
                record: line.index(1),
                mode: line.mode(2),
            },
            b"times" => Edit::Times {
                record: line.index(1),
                accessed: line.time(2),
                modified: line.time(3),
            },
            b"contents" => Edit::Contents {
                record: line.index(1),
                text: line.bytes(2)?,
                time: line.time(3),
            },
            b"length" => Edit::Length {
                record: line.index(1),
                length: line.index(2),
            },
            b"open" => Edit::Open {
                number: line.index(1),
                position: line.value(2),
                path: line.bytes(3)?,
            },
            b"close" => Edit::Close(line.index(1)),
            b"seek" => Edit::Seek {
                number: line.index(1),
                position: line.value(2),
            },
            b"current" => Edit::Current(line.bytes(1)?),
            b"umask" => Edit::Umask(line.mode(1)),
            _ => return Err(Malformed),
        };
        Ok(edit)
    }
}
