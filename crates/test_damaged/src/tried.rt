// One case: a good store made anew, changed, and what the test of refusal 1 says of it.
use crate::place::{Holds, Place};
use crate::store::Case;
use std::alloc::Global;
use std::io::{Result, Write};
use test_fields::field;
use test_shown::read::number;

// A line of more spaces changes nothing.
const MOST_SPACES: usize = 4096;

// What the test says of a case, which is about a rule or about none.
fn say_case<W: Write>(out: &mut W, rule: Option<u64>, what: &[u8], case: &Case) -> Result<()> {
    match rule {
        None => write!(out, "no rule: ")?,
        Some(rule) => write!(out, "rule {rule}: ")?,
    }
    out.write_all(what)?;
    match case.is_accepted() {
        true => writeln!(out, ": accepted"),
        false => writeln!(out, ": refused"),
    }
}

// A change: its place, its index and its value.
fn change<W: Write>(
    out: &mut W,
    case: &mut Case,
    place: &[u8],
    at: &[u8],
    value: &[u8],
) -> Result<()> {
    let Some(place) = Place::named(place) else {
        return write!(out, "? ");
    };
    case.change(place, number(at) as usize, number(value));
    Ok(())
}

// The changes of a line, which stand behind its first two fields. The last may have no value: that is 0.
fn change_all<W: Write>(out: &mut W, case: &mut Case, line: &[u8]) -> Result<()> {
    let spaces = line.iter().filter(|byte| **byte == b' ').count();
    if spaces > MOST_SPACES {
        return Ok(());
    }
    let mut fields = line.split(|byte| *byte == b' ').skip(2);
    for _ in (2..spaces).step_by(3) {
        let place = fields.next().unwrap_or_default();
        let at = fields.next().unwrap_or_default();
        let value = fields.next().unwrap_or_default();
        change(out, case, place, at, value)?;
    }
    Ok(())
}

// One case, in a store that cases before it may have changed: a line's fields, and what it says in words.
pub fn tried<W: Write>(out: &mut W, case: &mut Case, line: &[u8], what: &[u8]) -> Result<()> {
    case.renew();
    match Holds::named(field(line, 1)) {
        Some(holds) => case.hold(holds),
        None => write!(out, "? ")?,
    }
    change_all(out, case, line)?;
    let rule = Some(number(field(line, 0))).filter(|rule| *rule != 0);
    say_case(out, rule, what, case)
}

// Tree K as the page has it, read back, and what the test says of it.
pub fn shown_k<W: Write>(alloc: Global, out: &mut W) -> Result<()> {
    let mut case = Case::exact(alloc)?;
    case.put_tree_k();
    let tree = case.store.tree();
    for i in 0..case.store.entries() {
        writeln!(out, "{}{}", tree.path(i), tree.slot(tree.record(i).slot))?;
    }
    say_case(out, None, b"tree K", &case)
}
