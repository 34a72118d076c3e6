#![tactic(auto)]
// Text of a path or a target (refusal 2): RFC 3629, without the zero byte.
ghost use Rattle.std.specs.Prelude.{true, ◌≡◌, ◌<◌, [], ◌∷◌, length, drop, get_or};
ghost use Rattle.text.specs.Utf8.{tail, rows, starts, char_length, text};
ghost use Rattle.text.specs.Classes.{class_of, table};
ghost use Rattle.text.specs.Steps.{second_of};
ghost use Rattle.text.specs.Looks.{Plain};

// The classes of bytes. Those that begin a character are numbered as the rows of the RFC's grammar, by the row's length and then by
// the bytes, so that tests of order tell how many octets follow.
// kept: numbers and no enum, since the table of 256 byte classes, one load for each byte, is a form that the project asks for.
const ASCII: u8 = 0; // 01-7F

const TWO: u8 = 1; // C2-DF, of two octets

const E0: u8 = 2;

const ED: u8 = 4; // between them 3, E1-EC; behind it 5, EE-EF

const F0: u8 = 6;

const F4: u8 = 8; // between them 7, F1-F3

const TAIL_80: u8 = 9; // 80-8F, which continues a character, as those below do

const TAIL_90: u8 = 10; // 90-9F

const TAIL_A0: u8 = 11; // A0-BF

// The class of each byte; 12: it stands in no valid text. A byte string, since the formatter gives each element of an array a line.
const CLASSES: [u8; 256] = *b"\
    \x0c\x00\x00\x00\x00\x00\x00\x00\x00\x00\x00\x00\x00\x00\x00\x00\
    \x00\x00\x00\x00\x00\x00\x00\x00\x00\x00\x00\x00\x00\x00\x00\x00\
    \x00\x00\x00\x00\x00\x00\x00\x00\x00\x00\x00\x00\x00\x00\x00\x00\
    \x00\x00\x00\x00\x00\x00\x00\x00\x00\x00\x00\x00\x00\x00\x00\x00\
    \x00\x00\x00\x00\x00\x00\x00\x00\x00\x00\x00\x00\x00\x00\x00\x00\
    \x00\x00\x00\x00\x00\x00\x00\x00\x00\x00\x00\x00\x00\x00\x00\x00\
    \x00\x00\x00\x00\x00\x00\x00\x00\x00\x00\x00\x00\x00\x00\x00\x00\
    \x00\x00\x00\x00\x00\x00\x00\x00\x00\x00\x00\x00\x00\x00\x00\x00\
    \x09\x09\x09\x09\x09\x09\x09\x09\x09\x09\x09\x09\x09\x09\x09\x09\
    \x0a\x0a\x0a\x0a\x0a\x0a\x0a\x0a\x0a\x0a\x0a\x0a\x0a\x0a\x0a\x0a\
    \x0b\x0b\x0b\x0b\x0b\x0b\x0b\x0b\x0b\x0b\x0b\x0b\x0b\x0b\x0b\x0b\
    \x0b\x0b\x0b\x0b\x0b\x0b\x0b\x0b\x0b\x0b\x0b\x0b\x0b\x0b\x0b\x0b\
    \x0c\x0c\x01\x01\x01\x01\x01\x01\x01\x01\x01\x01\x01\x01\x01\x01\
    \x01\x01\x01\x01\x01\x01\x01\x01\x01\x01\x01\x01\x01\x01\x01\x01\
    \x02\x03\x03\x03\x03\x03\x03\x03\x03\x03\x03\x03\x03\x04\x05\x05\
    \x06\x07\x07\x07\x08\x0c\x0c\x0c\x0c\x0c\x0c\x0c\x0c\x0c\x0c\x0c";

// The class of each byte.
#[derive(Drop)]
struct Classes {
    of: [u8; 256],
    ghost right: { of ≡ table },
}

impl Classes {
    // The class of the octet at `at`.
    #[tactic(auto, using(crate::proofs::Lead::table_at))]
    fn class_at(&self, s: &[u8], at: usize) -> u8
        requires { at < length s.now }
        ensures { result ≡ class_of (get_or s.now at 0) }
    {
        self.of[s[at] as usize]
    }

    // Whether the octet at `at` is there and can be the second of a character that begins with the class `lead`.
    #[tactic(auto, using(crate::proofs::Lead::second_starts, crate::proofs::Lead::second_past))]
    fn second_at(&self, s: &[u8], at: usize, lead: u8) -> bool
        requires { lead < 9 }
        ensures { result ≡ starts (second_of lead ∷ []) (drop at s.now) }
    {
        if s.len() <= at {
            return false;
        }
        let class = self.class_at(s, at);
        let (low, high) = second(lead);
        // kept: of `(low..=high).contains(&class)` no proof was found (tried).
        low <= class && class <= high
    }

    // Whether the octet at `at` is there and continues a character: what is second behind the class TWO is any such octet.
    #[tactic(auto, unfolding(crate::specs::Steps::second_of))]
    fn tail_at(&self, s: &[u8], at: usize) -> bool
        ensures { result ≡ starts (tail ∷ []) (drop at s.now) }
    {
        self.second_at(s, at, TWO)
    }

    // The length of the character that stands at i, if one does.
    #[tactic(auto, using(crate::proofs::Lead::char_pick))]
    fn char_len(&self, s: &[u8], i: usize) -> Option<usize>
        requires { i < length s.now }
        ensures { result ≡ char_length rows (drop i s.now) }
    {
        let lead = self.class_at(s, i);
        if lead == ASCII {
            return Some(1);
        }
        if F4 < lead {
            return None;
        }
        if !self.second_at(s, i + 1, lead) {
            return None;
        }
        if lead == TWO {
            return Some(2);
        }
        if !self.tail_at(s, i + 2) {
            return None;
        }
        if lead < F0 {
            return Some(3);
        }
        if !self.tail_at(s, i + 3) {
            return None;
        }
        Some(4)
    }

    // Whether s is text, character by character.
    #[tactic(auto, using(crate::proofs::Turns::refused, crate::proofs::Turns::over), unfolding(crate::specs::Utf8::text))]
    fn walk(&self, s: &[u8]) -> bool
        ensures { result ≡ text s.now }
    {
        let mut i = 0;
        // kept: a step is as long as the character that stands at i.
        while i < s.len() {
            let Some(k) = self.char_len(s, i) else {
                return false;
            };
            i += k;
        }
        true
    }
}

// The classes of the lowest and the highest octet that can be second behind the class `lead`: two rows refuse more low octets than a
// character needs, one refuses surrogates, another what is above 10FFFF.
#[tactic(auto, using(crate::proofs::Lead::ends))]
fn second(lead: u8) -> (u8, u8)
    requires { lead < 9 }
    ensures { result ≡ (class_of (second_of lead).low, class_of (second_of lead).high) }
{
    match lead {
        E0 => (TAIL_A0, TAIL_A0),
        ED => (TAIL_80, TAIL_90),
        F0 => (TAIL_90, TAIL_A0),
        F4 => (TAIL_80, TAIL_80),
        _ => (TAIL_80, TAIL_A0),
    }
}

// Whether every octet is ASCII, and none is zero. The loop has no way out, so that the compiler tests many at a time.
// kept: `any` takes 0.64 ns a byte of 95, and the goal for ASCII (docs/BENCH.md) is 0.6; this takes 0.16, the rest of the test with it.
fn all_plain(s: &[u8]) -> bool
    ensures { result ≡ true → Plain s.now 0 (length s.now) }
{
    let mut seen = false;
    for b in s {
        seen |= (*b == 0) | (128 <= *b);
    }
    !seen
}

// Whether s is text. Most text is ASCII, which a look tells. The table is copied here, once and not at every octet: a constant that is
// indexed is copied at every use.
pub fn text_ok(s: &[u8]) -> bool
    ensures { result ≡ text s.now }
{
    if all_plain(s) {
        return true;
    }
    let classes = Classes { of: CLASSES };
    classes.walk(s)
}
