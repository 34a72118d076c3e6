#![tactic(auto)]
// Only for tests and timing: what `text`, `path` and `lawful` answer, by numbers and bytes; `test_probe_c` hands each function on to C
// and Rust programs. No function asks anything of its caller.
// kept: an answer is a number, and a refusal its number, since C programs read them
// kept: each function has a name of its own, and its slices one by one, as test_probe_c hands it on to C.
ghost use Rattle.std.specs.Prelude.{◌≡◌, cond, ◌≤◌, eqb, length, take};
ghost use Rattle.text.specs.Utf8.{text};
ghost use Rattle.path.specs.Path.{names, normal, absolute, body, lengths_ok};
ghost use Rattle.layout.specs.Lent.{lends};
ghost use Rattle.layout.specs.Lawful.{Passes};
ghost use Rattle.lawful_limits.specs.Settles.{Settles};
ghost use Rattle.test_probe.specs.Numbers.{Answers, LastAt, NameAnswers, FollowAnswers, Behind, number_of, which_of, from_of, to_of};

use blocks::copy_into;
use lawful::store_ok;
use layout::slices::Slices;
use path::answer::{Place, TooLong};
use path::lengths::{LONGEST_PATH, lengths_ok};
use path_form::last::{last_name, last_place};
use path_form::link::follow;
use path_form::{normalize_path, raw_path, to_absolute_path};
use text::text_ok;

// 0, or refusal 2.
pub fn probe_text(s: &[u8]) -> u32
    ensures { result ≡ cond (text s.now) 0 2 }
{
    if text_ok(s) {
        return 0;
    }
    2
}

// A call that does nothing, given what `probe_text` is given: how long a call takes that looks at no byte.
pub fn probe_nothing_text(s: &[u8]) -> u32
    ensures { result ≡ 0 }
{
    0
}

// The same, given what `probe_normalize` is given.
pub fn probe_nothing_path(out: &mut [u8], path: &[u8]) -> u64
    ensures { (result ≡ 0) × (out.new ≡ out.old) }
{
    0
}

// 0, or refusal 3.
pub fn probe_lengths(s: &[u8]) -> u32
    ensures { result ≡ cond (lengths_ok s.now) 0 3 }
{
    if lengths_ok(s) {
        return 0;
    }
    3
}

// The length, or a million and the refusal's number.
fn number(formed: Result<usize, TooLong>) -> u64
    ensures { result ≡ number_of formed }
{
    match formed {
        Ok(n) => n as u64,
        Err(TooLong) => 1000006,
    }
}

pub fn probe_normalize(out: &mut [u8], path: &[u8]) -> u64
    ensures { Answers (body (normal path.now)) out.old out.new result }
{
    if out.len() < LONGEST_PATH {
        return 1000014;
    }
    number(normalize_path(out, path))
}

pub fn probe_absolute(out: &mut [u8], cwd: &[u8], path: &[u8]) -> u64
    ensures { Answers (body (absolute (normal cwd.now) path.now)) out.old out.new result }
{
    if out.len() < LONGEST_PATH {
        return 1000014;
    }
    number(to_absolute_path(out, cwd, path))
}

pub fn probe_raw(out: &mut [u8], path: &[u8]) -> u64
    ensures { Answers (body (names path.now)) out.old out.new result }
{
    if out.len() < LONGEST_PATH {
        return 1000014;
    }
    number(raw_path(out, path))
}

// Which of the two texts holds the place, and where it begins and ends there.
fn told(place: Option<Place>) -> (u32, usize, usize)
    ensures { (result.0 ≡ which_of place) × (result.1 ≡ from_of place) × (result.2 ≡ to_of place) }
{
    match place {
        Some(Place::InPath(a, e)) => (1, a, e),
        Some(Place::InCwd(a, e)) => (2, a, e),
        None => (0, 0, 0),
    }
}

// Where the last name stands: from `from` to `to`, of the path (1) or of the current directory (2); 0: the root has none.
pub fn probe_last(path: &[u8], cwd: &[u8], from: &mut u64, to: &mut u64) -> u32
    ensures { LastAt path.now cwd.now result from.new to.new }
{
    let (which, start, end) = told(last_place(path, cwd));
    *from = start as u64;
    *to = end as u64;
    which
}

// The last name itself, and its length; 14 where it does not fit.
pub fn probe_last_name<'a>(out: &mut [u8], path: &'a [u8], cwd: &'a [u8]) -> u64
    ensures { NameAnswers path.now cwd.now out.old out.new result }
{
    let n = last_name(path, cwd);
    if out.len() < n.len() {
        return 1000014;
    }
    copy_into(out, 0, n);
    n.len() as u64
}

// out[..have] is a link's directory: the link's name, of `name` bytes, and the rest are put behind it, and it is followed.
// kept: `have` beside the buffer, as in path_form's follow, which forms the path in place.
fn follow_behind(out: &mut [u8], have: usize, behind: &[u8], name: usize, target: &[u8]) -> u64
    requires { (have ≤ 1024) × (1024 ≤ length out.old) × (name ≤ length behind.now)
        × (body (names (take have out.old)) ≡ take have out.old) }
    ensures { Behind have behind.now name target.now out.old out.new result }
{
    if LONGEST_PATH - have < behind.len() {
        return 1000002;
    }
    let len = have + behind.len();
    copy_into(out, have, behind);
    number(follow(out, have, have + name, len, target))
}

// A link in the directory `dir`, met in the path whose bytes from the link's name on are `behind`; the name has `name` of
// them. A million and 1: it has not so many; 2: directory and name and rest have more than 1,024 bytes.
pub fn probe_follow(out: &mut [u8], dir: &[u8], behind: &[u8], name: usize, target: &[u8]) -> u64
    ensures { FollowAnswers (normal dir.now) behind.now name target.now out.old out.new result }
{
    if behind.len() < name {
        return 1000001;
    }
    if out.len() < LONGEST_PATH {
        return 1000014;
    }
    match normalize_path(out, dir) {
        Ok(have) => follow_behind(out, have, behind, name, target),
        refused => number(refused),
    }
}

// 0 where the slices are a store, or refusal 1.
pub fn probe_store(
    words: &[u64],
    records: &[u64],
    heads: &[u64],
    times: &[i64],
    paths: &[u8],
    bytes: &[u8],
) -> u32
    ensures { Settles (eqb result 0) (Passes (lends words.now records.now heads.now times.now paths.now bytes.now)) × (result ≤ 1) }
{
    let lent = Slices {
        words,
        records,
        heads,
        times,
        paths,
        bytes,
    };
    if store_ok(lent) {
        return 0;
    }
    1
}
