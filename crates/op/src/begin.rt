// How a call with one path begins: the tests, and the path in front of the first working buffer.
ghost use Rattle.std.specs.Prelude.{◌≤◌, length};
ghost use Rattle.layout.specs.Lent.{lent_by, still, with_words, with_paths, ◌∘◌};
ghost use Rattle.store.specs.Shows.{Of};
ghost use Rattle.op.specs.Beginning.{Stops, Begins};

use crate::absolute::absolute_in;
use crate::ready::{Number, ready};
use layout::slices::Slices;
use layout::{PATHS_BYTES, WORD_COUNT};
use refusal::Refusal;

// How a path is taken: made absolute from the current directory, the empty path as that directory itself or as not found.
// kept: two ways of one kind, of which neither is an error or nothing.
#[derive(Clone, Copy)]
pub enum Sort {
    Any,
    Named,
}

// 8 or 6, or the path as it is taken in front of the buffer: how long it is.
fn form(
    words: &[u64],
    paths: &[u8],
    out: &mut [u8],
    path: &[u8],
    sort: Sort,
) -> Result<usize, Refusal>
    requires { 1024 ≤ length out.old }
    ensures { Of (still (with_words words.now ∘ with_paths paths.now)) (λ _ s. Stops s sort path.now out.new result) }
{
    match sort {
        Sort::Named if path.is_empty() => Err(Refusal::NotFound),
        _ => Ok(absolute_in(words, paths, out, path)?),
    }
}

// 1, 14, 2, 3, then 8 or 6, or the path in front of the first buffer.
pub fn begin(
    lent: Slices,
    first: &mut [u8],
    second: &[u8],
    path: &[u8],
    sort: Sort,
) -> Result<usize, Refusal>
    ensures { Begins (lent_by lent.entry) first.old second.now sort path.now first.new result }
{
    ready(
        lent,
        Some((first.len(), second.len())),
        &[path],
        Number::NotGiven,
    )?;
    form(
        &lent.words[..WORD_COUNT],
        &lent.paths[..PATHS_BYTES],
        first,
        path,
        sort,
    )
}
