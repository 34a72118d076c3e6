#![tactic(auto)]
// What the programs that read cases say of texts and of stores, and how they read texts and numbers. Only for tests.
pub mod decode;
pub mod read;
pub mod text;
pub mod tree;

#[cfg(test)]
mod tests {
    use crate::decode::{Malformed, decode};
    use crate::read::{input, number, whole_input};
    use crate::text::{Mode, Short};
    use std::test::Fail;

    #[test]
    fn reads(rt: HostRuntime) -> Result<(), Fail> {
        let mut from = b"two words".as_slice();
        let mut into = [0u8; 5];
        assert_eq!(rt; input(&mut from, &mut into)?, 5);
        assert!(rt; into.as_slice() == b"two w".as_slice());
        assert_eq!(rt; input(&mut from, &mut into)?, 4);
        assert!(rt; into.as_slice() == b"ordsw".as_slice());
        let mut from = b"two words".as_slice();
        assert!(rt; whole_input(rt.alloc(), &mut from)?.as_slice() == b"two words".as_slice());
        assert_eq!(rt; number(b"0x1ff"), 511);
        assert_eq!(rt; number(b"420"), 420);
        Ok(())
    }

    #[test]
    fn decodes(rt: HostRuntime) {
        let bytes = decode(b"\\c3\\a9-\\*0003").unwrap_or_default();
        assert!(rt; bytes.as_slice() == b"\xc3\xa9---".as_slice());
        for argument in [b"\\C3".as_slice(), b"a\\*12", b"\\*0003", b"a\\*4097"] {
            assert!(rt; decode(argument) == Err(Malformed));
        }
    }

    #[test]
    fn writes(rt: HostRuntime) -> Result<(), Fail> {
        let alloc = rt.alloc();
        assert!(rt; format!(in alloc; "{}", Mode(493))?.as_str() == "493 (octal 755)");
        assert!(rt; format!(in alloc; "{}", Short(b"a b"))?.as_str() == "a\\20b");
        Ok(())
    }
}
