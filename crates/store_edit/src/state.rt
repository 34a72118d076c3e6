// The umask, the current directory, the positions of file numbers.
ghost use Rattle.std.specs.Prelude.{◌<◌, T};
ghost use Rattle.path.specs.Path.{names};
ghost use Rattle.model.specs.Prog.{umask as umask-to, seek as seek-to, go as go-to};
ghost use Rattle.layout.specs.Numbers.{file_numbers};
ghost use Rattle.layout.specs.Lawful.{cell_ok};
ghost use Rattle.layout.specs.Lent.{◌∘◌, ◌&◌, with_words, with_paths, on_words, on_paths, On};
ghost use Rattle.store.specs.Shows.{Some};
ghost use Rattle.store_edit.specs.Turns.{Turns};

// Sets the umask.
pub fn umask(words: &mut [u64], m: u32)
    requires { Some (with_words words.old) }
    ensures { On (on_words words.old words.new) (Turns (umask-to m)) }
{
    edit_state::set_umask(words, m);
}

// Puts the file number n at the position k.
pub fn seek(words: &mut [u64], n: usize, k: u64)
    requires { Some (with_words words.old) × (n < file_numbers) }
    ensures { On (on_words words.old words.new) (Turns (seek-to n k)) }
{
    edit_state::set_position(words, n, k);
}

// Makes the path, a text as it is kept, the current directory.
pub fn go(words: &mut [u64], paths: &mut [u8], path: &[u8])
    requires { Some (with_words words.old ∘ with_paths paths.old) × T (cell_ok path.now) }
    ensures { On (on_words words.old words.new & on_paths paths.old paths.new) (Turns (go-to (names path.now))) }
{
    edit_state::set_current(words, paths, path);
}
