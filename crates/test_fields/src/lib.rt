#![tactic(auto)]
// The lines of a text and the fields of a line, for the programs that read cases. Only for tests.
ghost use Rattle.std.specs.Prelude.{◌≡◌, ◌==◌, [], drop, length, map, slice_index_or, IfOk};
ghost use Rattle.std.specs.Iterator.{YieldsFirstBy, at_most};
ghost use Rattle.std.specs.List.{slice_split};
ghost use Rattle.test_fields.specs.Lines.{but_last_newline, lines_of};

use std::alloc::{AllocError, Global};

// What stands between the bytes of that value.
fn between(alloc: Global, text: &[u8], at: u8) -> Result<Vec<&[u8]>, AllocError>
    ensures { IfOk result (λ v. map (λ part. part.now) v.items ≡ slice_split (λ byte. byte == at) text.now) }
{
    text.split(|byte| *byte == at).collect(alloc)
}

fn but_last_newline(text: &[u8]) -> &[u8]
    ensures { result.now ≡ but_last_newline text.now }
{
    match text {
        [before @ .., b'\n'] => before,
        _ => text,
    }
}

// The lines of a text without the newlines behind them, found in place, one after the other; behind the last there may be no newline.
#[derive(Drop)]
pub struct EachLine<'a> {
    left: &'a [u8],
}

pub fn lines_in(text: &[u8]) -> EachLine<'_>
    ensures { result.left.now ≡ text.now }
{
    EachLine { left: text }
}

// What stands behind the first n bytes.
fn behind(text: &[u8], n: usize) -> &[u8]
    ensures { result.now ≡ drop n text.now }
{
    text.get(n..).unwrap_or_default()
}

impl<'a> Iterator for EachLine<'a> {
    type Item = &'a [u8];

    ghost next_gives = { YieldsFirstBy (λ line. line.now) (λ s. lines_of s.left.now) };

    ghost remaining = { λ s. at_most (length s.left.now) };

    fn next(&mut self) -> Option<&'a [u8]> {
        if self.left.is_empty() {
            return None;
        }
        let line = piece(self.left, b'\n', 0);
        self.left = behind(self.left, line.len() + 1);
        Some(line)
    }
}

// The same lines, all at once.
pub fn lines(alloc: Global, text: &[u8]) -> Result<Vec<&[u8]>, AllocError>
    ensures { IfOk result (λ v. map (λ line. line.now) v.items ≡ lines_of text.now) }
{
    if text.is_empty() {
        return Ok(Vec::new(alloc));
    }
    between(alloc, but_last_newline(text), b'\n')
}

// The fields of a line, split by single spaces.
pub fn fields(alloc: Global, line: &[u8]) -> Result<Vec<&[u8]>, AllocError>
    ensures { IfOk result (λ v. map (λ field. field.now) v.items ≡ slice_split (λ byte. byte == 32) line.now) }
{
    between(alloc, line, b' ')
}

// Piece k of what stands between the bytes of that value, counted from 0; nothing where there are not so many.
fn piece(text: &[u8], at: u8, k: usize) -> &[u8]
    ensures { result.now ≡ slice_index_or (slice_split (λ byte. byte == at) text.now) k [] }
{
    text.split(|byte| *byte == at).nth(k).unwrap_or_default()
}

// Field k of a line, counted from 0, found in place; nothing where there are not so many.
pub fn field(line: &[u8], k: usize) -> &[u8]
    ensures { result.now ≡ slice_index_or (slice_split (λ byte. byte == 32) line.now) k [] }
{
    piece(line, b' ', k)
}

// The same, of fields that were split before.
pub fn field_of<'a>(fields: &[&'a [u8]], k: usize) -> &'a [u8]
    ensures { result.now ≡ slice_index_or (map (λ field. field.now) fields.now) k [] }
{
    fields.get(k).copied().unwrap_or_default()
}

#[cfg(test)]
mod tests {
    use super::*;
    use std::test::Fail;

    #[test]
    fn splits(rt: HostRuntime) -> Result<(), Fail> {
        let text = lines(rt.alloc(), b"root 1\n\nmode  2")?;
        assert_eq!(rt; text.len(), 3);
        assert!(rt; text[0] == b"root 1".as_slice());
        assert!(rt; text[1].is_empty());
        let found = fields(rt.alloc(), text[2])?;
        assert_eq!(rt; found.len(), 3);
        assert!(rt; field_of(&found, 2) == b"2".as_slice());
        assert!(rt; field_of(&found, 3).is_empty());
        assert!(rt; field(text[2], 2) == b"2".as_slice());
        assert!(rt; field(text[2], 3).is_empty());
        assert_eq!(rt; lines(rt.alloc(), b"")?.len(), 0);
        assert_eq!(rt; lines(rt.alloc(), b"a\n")?.len(), 1);
        assert_eq!(rt; lines_in(b"").count(), 0);
        assert_eq!(rt; lines_in(b"a\n").count(), 1);
        let mut found = lines_in(b"root 1\n\nmode  2");
        assert!(rt; found.next().unwrap_or_default() == b"root 1".as_slice());
        assert!(rt; found.next().unwrap_or_default().is_empty());
        assert!(rt; found.next().unwrap_or_default() == b"mode  2".as_slice());
        assert!(rt; found.next().is_none());
        Ok(())
    }
}
