// The edits of a store.
use crate::edit::Edit;
use std::alloc::{AllocError, Global};
use test_shown::tree::Store;
use test_tried::entry::{try_insert, try_remove, try_root};
use test_tried::moved::try_move;
use test_tried::open::try_open;
use test_tried::slot::{try_contents, try_length, try_mode, try_times};
use test_tried::state::{try_close, try_current, try_seek, try_umask};

// A store that is set up for 40 entries and 1,024 bytes, in storage that holds no zeros.
pub fn set_up(alloc: Global) -> Result<Store, AllocError> {
    let mut store = Store::new(alloc, [102, 40, 72, 288, 33792, 1024], 77, 77)?;
    let _ = setup::set_up(
        &mut store.words,
        &store.records,
        &store.heads,
        &store.times,
        &store.paths,
        &store.bytes,
        40,
        1024,
    );
    Ok(store)
}

// Makes an edit, and tells whether it was made.
pub fn make(store: &mut Store, edit: Edit) -> bool {
    let Store {
        words,
        records,
        heads,
        times,
        paths,
        bytes,
    } = store;
    macro_rules! made {
        ($edit:ident, $($argument:expr),+) => {
            $edit(words, records, heads, times, paths, bytes, $($argument),+)
        };
    }
    match edit {
        Edit::Root { mode, time } => made!(try_root, mode, time),
        Edit::Insert(new) => {
            let kind = new.kind.code();
            made!(
                try_insert, new.dir, &new.name, kind, new.mode, new.time, &new.text
            )
        }
        Edit::Remove(record) => made!(try_remove, record),
        Edit::Move { record, dir, name } => made!(try_move, record, dir, &name),
        Edit::Mode { record, mode } => made!(try_mode, record, mode),
        Edit::Times {
            record,
            accessed,
            modified,
        } => made!(try_times, record, accessed, modified),
        Edit::Contents { record, text, time } => made!(try_contents, record, &text, time),
        Edit::Length { record, length } => made!(try_length, record, length),
        Edit::Open {
            number,
            position,
            path,
        } => made!(try_open, number, position, &path),
        Edit::Close(number) => made!(try_close, number),
        Edit::Seek { number, position } => made!(try_seek, number, position),
        Edit::Current(path) => made!(try_current, &path),
        Edit::Umask(mode) => made!(try_umask, mode),
    }
}
