#![tactic(auto)]
// normalize_path and to_absolute_path, into a lent buffer (refusal 6); the path behind a link, and the last name.
ghost use Rattle.std.specs.Prelude.{◌≡◌, ◌≤◌, length};
ghost use Rattle.path.specs.Answer.{Forms};
ghost use Rattle.path.specs.Backward.{sifted};
ghost use Rattle.path.specs.Path.{names, norm, normal, absolute, is_absolute, body};

use path::answer::TooLong;
use path::bytes::put_name;
use path::lengths::LONGEST_PATH;
use path_scan::kept::Kept;
use path_scan::plain::find_plain;

pub mod last;
pub mod link;

// Whether the text begins with a slash.
#[tactic(auto, using(path::proofs::Texts::absolutes))]
pub fn is_absolute(s: &[u8]) -> bool
    ensures { result ≡ is_absolute s.now }
{
    matches!(s, [b'/', ..])
}

// What a path that is not plain keeps. It is measured first, since a refusal writes nothing. `strike`: whether `..` drops a name.
fn form_mixed(out: &mut [u8], path: &[u8], strike: bool) -> Result<usize, TooLong>
    requires { 1024 ≤ length out.old }
    ensures { Forms (body (sifted strike 0 path.now).kept) out.old out.new result }
{
    let kept = Kept::read_back(path, strike, 0);
    if LONGEST_PATH < kept.len {
        return Err(TooLong);
    }
    kept.put(out, kept.len);
    Ok(kept.len)
}

// What the path keeps. A plain one, as most are, is copied at once.
// kept: `strike` is true or false at the two callers, and goes on to the guard of `path::pieces::kind_of`.
fn form(out: &mut [u8], path: &[u8], strike: bool) -> Result<usize, TooLong>
    requires { 1024 ≤ length out.old }
    ensures { Forms (body (sifted strike 0 path.now).kept) out.old out.new result }
{
    if let Some(names) = find_plain(path) {
        if LONGEST_PATH <= names.len() {
            return Err(TooLong);
        }
        put_name(out, 0, names);
        return Ok(names.len() + 1);
    }
    form_mixed(out, path, strike)
}

// The path behind the directory `dir`: both are read from the end, so that no longer text is ever formed on the way.
fn join(out: &mut [u8], dir: &[u8], path: &[u8]) -> Result<usize, TooLong>
    requires { 1024 ≤ length out.old }
    ensures { Forms (body (norm (normal dir.now) (names path.now))) out.old out.new result }
{
    let last = Kept::measure(path, true, 0);
    let first = Kept::measure(dir, true, last.skip);
    if LONGEST_PATH < first.len {
        return Err(TooLong);
    }
    if LONGEST_PATH - first.len < last.len {
        return Err(TooLong);
    }
    let len = first.len + last.len;
    last.put(out, len);
    first.put(out, first.len);
    Ok(len)
}

pub fn normalize_path(out: &mut [u8], path: &[u8]) -> Result<usize, TooLong>
    requires { 1024 ≤ length out.old }
    ensures { Forms (body (normal path.now)) out.old out.new result }
{
    form(out, path, true)
}

pub fn to_absolute_path(out: &mut [u8], cwd: &[u8], path: &[u8]) -> Result<usize, TooLong>
    requires { 1024 ≤ length out.old }
    ensures { Forms (body (absolute (normal cwd.now) path.now)) out.old out.new result }
{
    if is_absolute(path) {
        return normalize_path(out, path);
    }
    join(out, cwd, path)
}

// Set times' reading: the names of the path as they stand, `..` among them.
pub fn raw_path(out: &mut [u8], path: &[u8]) -> Result<usize, TooLong>
    requires { 1024 ≤ length out.old }
    ensures { Forms (body (names path.now)) out.old out.new result }
{
    form(out, path, false)
}
