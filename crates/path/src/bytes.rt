// Bytes stored and moved in a buffer.
ghost use Rattle.std.specs.Prelude.{◌≡◌, ◌∷◌, ◌++◌, ◌+◌, ◌≤◌, length, take, drop};

use blocks::copy_into;

// A slash and the name at `at`.
pub fn put_name(out: &mut [u8], at: usize, n: &[u8])
    requires { at + 1 + length n.now ≤ length out.old }
    ensures { out.new ≡ take at out.old
        ++ ((47 ∷ n.now) ++ drop (at + 1 + length n.now) out.old) }
{
    out[at] = b'/';
    copy_into(out, at + 1, n);
}
