// What a slice of times holds, whatever it holds.
ghost use Rattle.std.specs.Prelude.{ℕ, T, pos, get_or};
ghost use Rattle.model.specs.Rules.{time_ok};

// The bounds of signed numbers are known only of those that are read. (The loop does nothing, and the compiler leaves it out.)
pub fn known(times: &[i64])
    ensures { (i : ℕ) → T (time_ok (get_or times.now i (pos 0))) }
{
    for t in times {
        let _read = *t;
    }
}
