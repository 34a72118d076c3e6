// The bytes of names: one look at all of them, and a second only where some are not ASCII.
ghost use Rattle.std.specs.Prelude.{◌≡◌, ◌≤◌, length};
ghost use Rattle.std.specs.List.{list_any};
ghost use Rattle.text.specs.Looks.{odd};
ghost use Rattle.layout.specs.Rows.{rows, name_total};
ghost use Rattle.lawful_entries.specs.Looks.{slash, clean_rows, text_rows};

use layout::nlen_of;
use text::text_ok;

#[derive(Drop)]
pub struct Seen {
    pub slash: bool,
    pub odd: bool,
}

// Whether some byte is a slash, and whether some byte is 0 or not ASCII.
// kept: both flags in one pass with no way out; `contains` and `any` would be two, and what `any` takes stands at text's all_plain.
fn look(s: &[u8]) -> Seen
    ensures { (result.slash ≡ list_any slash s.now) × (result.odd ≡ list_any odd s.now) }
{
    let mut slash = false;
    let mut odd = false;
    for b in s {
        slash |= *b == b'/';
        odd |= (*b == 0) | (128 <= *b);
    }
    Seen { slash, odd }
}

// Whether each name is valid text.
fn names_text(recs: &[u64], bytes: &[u8]) -> bool
    requires { name_total recs.now ≤ length bytes.now }
    ensures { result ≡ text_rows (rows recs.now bytes.now) }
{
    let mut rest = bytes;
    for w in recs {
        let (name, behind) = rest.split_at(nlen_of(*w));
        if !text_ok(name) {
            return false;
        }
        rest = behind;
    }
    true
}

// Whether no name has a slash and each is valid text.
pub fn names_clean(recs: &[u64], bytes: &[u8], total: usize) -> bool
    requires { (total ≡ name_total recs.now) × (total ≤ length bytes.now) }
    ensures { result ≡ clean_rows (rows recs.now bytes.now) }
{
    let seen = look(&bytes[..total]);
    !seen.slash && (!seen.odd || names_text(recs, bytes))
}
