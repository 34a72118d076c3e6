// The path that a call is given, made absolute from the current directory (refusal 6).
ghost use Rattle.std.specs.Prelude.{◌≤◌, length};
ghost use Rattle.layout.specs.Lent.{◌∘◌, with_words, with_paths, still};
ghost use Rattle.store.specs.Shows.{Of};
ghost use Rattle.op.specs.Testing.{AbsoluteIs};

use path::answer::TooLong;
use path_form::to_absolute_path;

// In front of the buffer.
pub fn absolute_in(
    words: &[u64],
    paths: &[u8],
    out: &mut [u8],
    path: &[u8],
) -> Result<usize, TooLong>
    requires { 1024 ≤ length out.old }
    ensures { Of (still (with_words words.now ∘ with_paths paths.now)) (λ _ s. AbsoluteIs s path.now out.new result) }
{
    to_absolute_path(out, store::here(words, paths), path)
}
