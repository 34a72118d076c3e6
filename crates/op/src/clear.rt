// How a call ends that is lent working buffers.
ghost use Rattle.std.specs.Prelude.{◌≡◌};
ghost use Rattle.model.specs.Buffers.{cleared};
ghost use Rattle.refusal.specs.Numbers.{answered};

use refusal::{Refusal, answer};

// What it answers; both are left all zero.
// kept: the number is what C is answered.
pub fn finish(r: Result<(), Refusal>, first: &mut [u8], second: &mut [u8]) -> u32
    ensures first { first.new ≡ cleared first.old }
    ensures second { second.new ≡ cleared second.old }
    ensures number { result ≡ answered r }
{
    first.fill(0);
    second.fill(0);
    answer(r)
}
