// The slices that calls are lent, where they are read together.

// All six: a store, or what is to be tested for one.
#[derive(Clone, Copy)]
pub struct Slices<'a> {
    pub words: &'a [u64],
    pub records: &'a [u64],
    pub heads: &'a [u64],
    pub times: &'a [i64],
    pub paths: &'a [u8],
    pub bytes: &'a [u8],
}

// Those that hold the tree: the state's words, the records, the words of the slots, names and contents.
#[derive(Clone, Copy)]
pub struct Tree<'a> {
    pub words: &'a [u64],
    pub records: &'a [u64],
    pub heads: &'a [u64],
    pub bytes: &'a [u8],
}
