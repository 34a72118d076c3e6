// The slices that an edit of entries writes, but for the words of the slots.

// kept: the words of the slots are lent beside these: a call hands on those so far, and how a part of a lent field is left no proof knows.
#[derive(Drop)]
pub struct Entries<'a> {
    pub words: &'a mut [u64],
    pub records: &'a mut [u64],
    pub times: &'a mut [i64],
    pub bytes: &'a mut [u8],
}
