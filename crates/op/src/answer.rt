// Bytes as an answer (refusal 14).
ghost use Rattle.refusal.specs.Numbers.{answered};
ghost use Rattle.op.specs.Lending.{PutIs};

use blocks::copy_into;
use refusal::Refusal;

// Writes s to the front of the buffer and its length to the number; or refuses, and writes nothing.
pub fn put_bytes(out: &mut [u8], number: &mut u64, s: &[u8]) -> Result<(), Refusal>
    ensures { PutIs s.now out.old number.old out.new number.new (answered result) }
{
    if out.len() < s.len() {
        return Err(Refusal::ShortBuffer);
    }
    copy_into(out, 0, s);
    *number = s.len() as u64;
    Ok(())
}
