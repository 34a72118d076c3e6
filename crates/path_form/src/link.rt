// The path behind a link (refusal 6), formed in place.
ghost use Rattle.std.specs.Prelude.{◌≡◌, ◌++◌, ◌≤◌, length, take};
ghost use Rattle.path.specs.Answer.{Forms};
ghost use Rattle.path.specs.Backward.{part, drop_n};
ghost use Rattle.path.specs.Path.{names, from, absolute, body};

use crate::is_absolute;
use path::answer::TooLong;
use path::lengths::LONGEST_PATH;
use path_scan::kept::Kept;
use path_scan::sifting::drop_names;

// How much of the link's directory stays before a target that drops `skip` names: nothing before an absolute one.
fn dir_kept(dir: &[u8], target: &[u8], skip: usize) -> usize
    requires { body (names dir.now) ≡ dir.now }
    ensures { (result ≤ length dir.now) × (take result dir.now ≡ body (drop_n skip (from (names dir.now) target.now))) }
{
    if is_absolute(target) {
        return 0;
    }
    drop_names(dir, skip)
}

// out[..dir] is the link's directory and out[rest..len] what stands behind the link's name; of a last link, rest is len.
// The target seen from there, and then the rest, take their place.
// kept: dir, rest and len beside the buffer, since the path is formed in place: memory is fixed, and there is no second buffer.
pub fn follow(
    out: &mut [u8],
    dir: usize,
    rest: usize,
    len: usize,
    target: &[u8],
) -> Result<usize, TooLong>
    requires { (dir ≤ rest) × (rest ≤ len) × (len ≤ 1024) × (1024 ≤ length out.old)
        × (body (names (take dir out.old)) ≡ take dir out.old) }
    ensures { Forms (body (absolute (names (take dir out.old)) target.now) ++ part rest len out.old)
        out.old out.new result }
{
    let kept = Kept::measure(target, true, 0);
    let first = dir_kept(&out[..dir], target, kept.skip);
    let behind = len - rest;
    if LONGEST_PATH - first < kept.len {
        return Err(TooLong);
    }
    let at = first + kept.len;
    if LONGEST_PATH - at < behind {
        return Err(TooLong);
    }
    blocks::shift(out, rest, at, behind);
    kept.put(out, at);
    Ok(at + behind)
}
