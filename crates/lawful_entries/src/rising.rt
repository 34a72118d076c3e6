// The order of two names.
ghost use Rattle.std.specs.Prelude.{◌≡◌};
ghost use Rattle.model.specs.Tree.{precedes};

use name_order::compare;

// Whether the name a is before b.
// kept: a function; written into follows_ok, its one caller, it leaves a goal there that neither search nor grind closes
pub fn rises(a: &[u8], b: &[u8]) -> bool
    ensures { result ≡ precedes a.now b.now }
{
    compare(a, b).is_lt()
}
