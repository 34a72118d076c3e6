#![tactic(auto)]
// The functions of `test_probe` for C and Rust programs, under the same names.
// kept: each exported function has a name of its own, its slices one by one and a number for an answer, as C calls it.
ghost use Rattle.std.specs.Prelude.{◌≡◌, cond, ◌≤◌, eqb};
ghost use Rattle.text.specs.Utf8.{text};
ghost use Rattle.path.specs.Path.{names, normal, absolute, body, lengths_ok};
ghost use Rattle.layout.specs.Lent.{lends};
ghost use Rattle.layout.specs.Lawful.{Passes};
ghost use Rattle.lawful_limits.specs.Settles.{Settles};
ghost use Rattle.test_probe.specs.Numbers.{Answers, LastAt, NameAnswers, FollowAnswers};

// 0, or refusal 2.
#[unsafe(no_mangle)]
pub extern "C" fn probe_text(s: &[u8]) -> u32
    ensures { result ≡ cond (text s.now) 0 2 }
{
    test_probe::probe_text(s)
}

// A call that does nothing, given what `probe_text` is given: how long a call takes that looks at no byte.
#[unsafe(no_mangle)]
pub extern "C" fn probe_nothing_text(s: &[u8]) -> u32
    ensures { result ≡ 0 }
{
    test_probe::probe_nothing_text(s)
}

// The same, given what `probe_normalize` is given.
#[unsafe(no_mangle)]
pub extern "C" fn probe_nothing_path(out: &mut [u8], path: &[u8]) -> u64
    ensures { (result ≡ 0) × (out.new ≡ out.old) }
{
    test_probe::probe_nothing_path(out, path)
}

// 0, or refusal 3.
#[unsafe(no_mangle)]
pub extern "C" fn probe_lengths(s: &[u8]) -> u32
    ensures { result ≡ cond (lengths_ok s.now) 0 3 }
{
    test_probe::probe_lengths(s)
}

#[unsafe(no_mangle)]
pub extern "C" fn probe_normalize(out: &mut [u8], path: &[u8]) -> u64
    ensures { Answers (body (normal path.now)) out.old out.new result }
{
    test_probe::probe_normalize(out, path)
}

#[unsafe(no_mangle)]
pub extern "C" fn probe_absolute(out: &mut [u8], cwd: &[u8], path: &[u8]) -> u64
    ensures { Answers (body (absolute (normal cwd.now) path.now)) out.old out.new result }
{
    test_probe::probe_absolute(out, cwd, path)
}

#[unsafe(no_mangle)]
pub extern "C" fn probe_raw(out: &mut [u8], path: &[u8]) -> u64
    ensures { Answers (body (names path.now)) out.old out.new result }
{
    test_probe::probe_raw(out, path)
}

// Where the last name stands: from `from` to `to`, of the path (1) or of the current directory (2); 0: the root has none.
#[unsafe(no_mangle)]
pub extern "C" fn probe_last(path: &[u8], cwd: &[u8], from: &mut u64, to: &mut u64) -> u32
    ensures { LastAt path.now cwd.now result from.new to.new }
{
    test_probe::probe_last(path, cwd, from, to)
}

// The last name itself, and its length; 14 where it does not fit.
#[unsafe(no_mangle)]
pub extern "C" fn probe_last_name<'a>(out: &mut [u8], path: &'a [u8], cwd: &'a [u8]) -> u64
    ensures { NameAnswers path.now cwd.now out.old out.new result }
{
    test_probe::probe_last_name(out, path, cwd)
}

// A link in the directory `dir`, met in the path whose bytes from the link's name on are `behind`; the name has `name` of
// them. A million and 1: it has not so many; 2: directory and name and rest have more than 1,024 bytes.
#[unsafe(no_mangle)]
pub extern "C" fn probe_follow(
    out: &mut [u8],
    dir: &[u8],
    behind: &[u8],
    name: usize,
    target: &[u8],
) -> u64
    ensures { FollowAnswers (normal dir.now) behind.now name target.now out.old out.new result }
{
    test_probe::probe_follow(out, dir, behind, name, target)
}

// 0 where the slices are a store, or refusal 1.
#[unsafe(no_mangle)]
pub extern "C" fn probe_store(
    words: &[u64],
    records: &[u64],
    heads: &[u64],
    times: &[i64],
    paths: &[u8],
    bytes: &[u8],
) -> u32
    ensures { Settles (eqb result 0) (Passes (lends words.now records.now heads.now times.now paths.now bytes.now)) × (result ≤ 1) }
{
    test_probe::probe_store(words, records, heads, times, paths, bytes)
}
