// A text whose pieces are all names, as most are: it needs no reading from the end.
ghost use Rattle.std.specs.Prelude.{[], ◌≡◌, ◌∷◌, ◌++◌, ◌⊎◌, Bool, true, ◌<◌, length, drop, IfSome};
ghost use Rattle.path.specs.Answer.{AllNames, Clean};
ghost use Rattle.path_scan.specs.Plain.{lead, PlainPart, TrimIs};

// The text but for a slash in front.
#[tactic(auto, using(crate::proofs::Trimming::lead_slash, crate::proofs::Trimming::lead_other))]
fn behind_slash(s: &[u8]) -> &[u8]
    ensures { result.now ≡ drop (lead s.now) s.now }
{
    match s {
        [b'/', behind @ ..] => behind,
        _ => s,
    }
}

// The text but for a slash at its end.
fn before_slash(s: &[u8]) -> &[u8]
    ensures { (result.now ≡ s.now) ⊎ (s.now ≡ result.now ++ (47 ∷ [])) }
{
    match s {
        [front @ .., b'/'] => front,
        _ => s,
    }
}

// But for both. (By patterns: the library's strip_prefix and strip_suffix compare slices, which takes longer than a short path.)
fn trimmed(s: &[u8]) -> &[u8]
    ensures { TrimIs s.now result.now }
{
    before_slash(behind_slash(s))
}

// Whether no slash has a slash or a dot behind it.
fn clean(s: &[u8]) -> bool
    requires { 0 < length s.now }
    ensures { result ≡ true → Clean s.now }
{
    let front = &s[..s.len() - 1];
    let behind = &s[1..];
    !front
        .iter()
        .zip(behind)
        .any(|(x, y)| *x == b'/' && (*y == b'/' || *y == b'.'))
}

// Whether every piece of the text is a name that does not begin with a dot.
fn all_names(s: &[u8]) -> bool
    ensures { result ≡ true → (0 < length s.now) × AllNames s.now }
{
    if s.is_empty() {
        return false;
    }
    if s[0] == b'/' || s[0] == b'.' || s[s.len() - 1] == b'/' {
        return false;
    }
    clean(s)
}

// The part of the text whose pieces are all names, where beside it stand at most a slash in front and one at the end. None: perhaps
// the text is not so.
pub fn find_plain(s: &[u8]) -> Option<&[u8]>
    ensures { (strike : Bool) → IfSome result (λ names. PlainPart names.now strike 0 s.now) }
{
    let names = trimmed(s);
    all_names(names).then_some(names)
}
