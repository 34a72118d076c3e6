#![tactic(auto)]
// The refusals by name, in checking order, and the numbers that a call answers for them.
ghost use Rattle.std.specs.Prelude.{◌≡◌};
ghost use Rattle.refusal.specs.Numbers.{number_of, answered};
ghost use Rattle.refusal.specs.declared.Refusal.TheVariants.{PathTooLong};

use path::answer::TooLong;

// Each with its number. The store obeys a rule no more; a text is not valid; a given text or a name in it is too long; a file number
// is none, in use or closed; the path is `/`; it is too long after normalising; its links go round; it leads to nothing; a file stands
// on the way; what is there is of the wrong kind; it would go under itself; it is there already; a seek ends nowhere; a buffer is too
// short; there are too many entries, or too many bytes.
#[derive(Clone, Copy, Debug, PartialEq, Eq)]
pub enum Refusal {
    BadStore = 1,
    BadText = 2,
    TextTooLong = 3,
    BadNumber = 4,
    NoLastName = 5,
    PathTooLong = 6,
    LinkLoop = 7,
    NotFound = 8,
    NotDirectory = 9,
    WrongKind = 10,
    UnderItself = 11,
    AlreadyThere = 12,
    BadSeek = 13,
    ShortBuffer = 14,
    NoEntries = 15,
    NoBytes = 16,
}

impl Refusal {
    // kept: a method and no From, since `e.number()` is plainer than `u32::from(e)`
    pub fn number(self) -> u32
        ensures { result ≡ number_of self }
    {
        self as u32
    }
}

// A path that is formed from others and is too long.
impl From<TooLong> for Refusal {
    ghost from_gives = { λ _ r. r ≡ PathTooLong };

    fn from(_e: TooLong) -> Refusal {
        Refusal::PathTooLong
    }
}

// What a call answers: 0, or the number of the refusal.
// kept: C is answered numbers, and no From is allowed here, since both types are of other crates
pub fn answer(r: Result<(), Refusal>) -> u32
    ensures { result ≡ answered r }
{
    match r {
        Ok(()) => 0,
        Err(e) => e.number(),
    }
}
