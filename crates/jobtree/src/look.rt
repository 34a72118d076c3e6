// The calls with a path that only ask. Each is a shell, the tests and the operation over the parts of the slices that the limits ask, and
// the call itself, which then clears both working buffers.
// kept: each exported function has a name of its own and the six slices one by one, as C calls it.
// kept: a closure handed to one shell for all tells nothing of the outputs that it writes (tried), so that each shell is its two steps.
ghost use Rattle.std.specs.Prelude.{◌/◌, length};
ghost use Rattle.model.specs.Calls.Calling as op;
ghost use Rattle.refusal.specs.Numbers.{answered};
ghost use Rattle.layout.specs.Lent.{lends, lent_by};
ghost use Rattle.layout.specs.Answers.{Answers};
ghost use Rattle.op.specs.Lending.{call_with, in_bytes, in_rows, in_both};
ghost use Rattle.op.specs.Doing.{Done};

use layout::slices::Slices;
use op::begin::{Sort, begin};
use op::clear::finish;
use op::parts::{tree_of, used};
use op_look::contents::{canonicalize_at, read_at, read_link_at};
use op_look::list::list_at;
use op_look::metadata::{metadata_at, symlink_metadata_at};
use refusal::Refusal;

// The record of the entry that the path leads to.
fn metadata(
    lent: Slices,
    first: &mut [u8],
    second: &[u8],
    path: &[u8],
    rows: &mut [i64],
    links: &mut u64,
) -> Result<(), Refusal>
    ensures { Done (call_with (op.metadata path.now (length rows.old / 7)) (in_rows rows.old links.old) first.old second.now)
        (lent_by lent.entry) (lent_by lent.entry) (in_rows rows.new links.new) (answered result) }
{
    let n = begin(lent, first, second, path, Sort::Any)?;
    let used = used(lent);
    metadata_at(tree_of(used), used.times, first, n, rows, links)
}

#[unsafe(no_mangle)]
pub extern "C" fn jobtree_metadata(
    words: &[u64],
    records: &[u64],
    heads: &[u64],
    times: &[i64],
    paths: &[u8],
    bytes: &[u8],
    first: &mut [u8],
    second: &mut [u8],
    path: &[u8],
    rows: &mut [i64],
    links: &mut u64,
) -> u32
    ensures { Answers
        (call_with (op.metadata path.now (length rows.old / 7))
        (in_rows rows.old links.old) first.old second.old)
        (lends words.now records.now heads.now times.now paths.now bytes.now) (lends words.now records.now heads.now times.now paths.now bytes.now)
        (in_rows rows.new links.new)
        first.new second.new result }
{
    let lent = Slices {
        words,
        records,
        heads,
        times,
        paths,
        bytes,
    };
    finish(
        metadata(lent, first, second, path, rows, links),
        first,
        second,
    )
}

// The record of the entry itself.
fn symlink_metadata(
    lent: Slices,
    first: &mut [u8],
    second: &[u8],
    path: &[u8],
    rows: &mut [i64],
    links: &mut u64,
) -> Result<(), Refusal>
    ensures { Done (call_with (op.symlink_metadata path.now (length rows.old / 7)) (in_rows rows.old links.old) first.old second.now)
        (lent_by lent.entry) (lent_by lent.entry) (in_rows rows.new links.new) (answered result) }
{
    let n = begin(lent, first, second, path, Sort::Any)?;
    let used = used(lent);
    symlink_metadata_at(tree_of(used), used.times, first, n, rows, links)
}

#[unsafe(no_mangle)]
pub extern "C" fn jobtree_symlink_metadata(
    words: &[u64],
    records: &[u64],
    heads: &[u64],
    times: &[i64],
    paths: &[u8],
    bytes: &[u8],
    first: &mut [u8],
    second: &mut [u8],
    path: &[u8],
    rows: &mut [i64],
    links: &mut u64,
) -> u32
    ensures { Answers
        (call_with (op.symlink_metadata path.now (length rows.old / 7))
        (in_rows rows.old links.old) first.old second.old)
        (lends words.now records.now heads.now times.now paths.now bytes.now) (lends words.now records.now heads.now times.now paths.now bytes.now)
        (in_rows rows.new links.new)
        first.new second.new result }
{
    let lent = Slices {
        words,
        records,
        heads,
        times,
        paths,
        bytes,
    };
    finish(
        symlink_metadata(lent, first, second, path, rows, links),
        first,
        second,
    )
}

// The target of a link.
fn read_link(
    lent: Slices,
    first: &mut [u8],
    second: &[u8],
    path: &[u8],
    out: &mut [u8],
    number: &mut u64,
    links: &mut u64,
) -> Result<(), Refusal>
    ensures { Done (call_with (op.read_link path.now (length out.old)) (in_bytes out.old number.old links.old) first.old second.now)
        (lent_by lent.entry) (lent_by lent.entry) (in_bytes out.new number.new links.new) (answered result) }
{
    let n = begin(lent, first, second, path, Sort::Any)?;
    read_link_at(tree_of(used(lent)), first, n, out, number, links)
}

#[unsafe(no_mangle)]
pub extern "C" fn jobtree_read_link(
    words: &[u64],
    records: &[u64],
    heads: &[u64],
    times: &[i64],
    paths: &[u8],
    bytes: &[u8],
    first: &mut [u8],
    second: &mut [u8],
    path: &[u8],
    out: &mut [u8],
    number: &mut u64,
    links: &mut u64,
) -> u32
    ensures { Answers
        (call_with (op.read_link path.now (length out.old))
        (in_bytes out.old number.old links.old) first.old second.old)
        (lends words.now records.now heads.now times.now paths.now bytes.now) (lends words.now records.now heads.now times.now paths.now bytes.now)
        (in_bytes out.new number.new links.new)
        first.new second.new result }
{
    let lent = Slices {
        words,
        records,
        heads,
        times,
        paths,
        bytes,
    };
    finish(
        read_link(lent, first, second, path, out, number, links),
        first,
        second,
    )
}

// The contents of a file.
fn read(
    lent: Slices,
    first: &mut [u8],
    second: &[u8],
    path: &[u8],
    out: &mut [u8],
    number: &mut u64,
    links: &mut u64,
) -> Result<(), Refusal>
    ensures { Done (call_with (op.read_file path.now (length out.old)) (in_bytes out.old number.old links.old) first.old second.now)
        (lent_by lent.entry) (lent_by lent.entry) (in_bytes out.new number.new links.new) (answered result) }
{
    let n = begin(lent, first, second, path, Sort::Any)?;
    read_at(tree_of(used(lent)), first, n, out, number, links)
}

#[unsafe(no_mangle)]
pub extern "C" fn jobtree_read(
    words: &[u64],
    records: &[u64],
    heads: &[u64],
    times: &[i64],
    paths: &[u8],
    bytes: &[u8],
    first: &mut [u8],
    second: &mut [u8],
    path: &[u8],
    out: &mut [u8],
    number: &mut u64,
    links: &mut u64,
) -> u32
    ensures { Answers
        (call_with (op.read_file path.now (length out.old))
        (in_bytes out.old number.old links.old) first.old second.old)
        (lends words.now records.now heads.now times.now paths.now bytes.now) (lends words.now records.now heads.now times.now paths.now bytes.now)
        (in_bytes out.new number.new links.new)
        first.new second.new result }
{
    let lent = Slices {
        words,
        records,
        heads,
        times,
        paths,
        bytes,
    };
    finish(
        read(lent, first, second, path, out, number, links),
        first,
        second,
    )
}

// The path of the entry that the path leads to.
fn canonicalize(
    lent: Slices,
    first: &mut [u8],
    second: &[u8],
    path: &[u8],
    out: &mut [u8],
    number: &mut u64,
    links: &mut u64,
) -> Result<(), Refusal>
    ensures { Done (call_with (op.canonicalize path.now (length out.old)) (in_bytes out.old number.old links.old) first.old second.now)
        (lent_by lent.entry) (lent_by lent.entry) (in_bytes out.new number.new links.new) (answered result) }
{
    let n = begin(lent, first, second, path, Sort::Named)?;
    canonicalize_at(tree_of(used(lent)), first, n, out, number, links)
}

#[unsafe(no_mangle)]
pub extern "C" fn jobtree_canonicalize(
    words: &[u64],
    records: &[u64],
    heads: &[u64],
    times: &[i64],
    paths: &[u8],
    bytes: &[u8],
    first: &mut [u8],
    second: &mut [u8],
    path: &[u8],
    out: &mut [u8],
    number: &mut u64,
    links: &mut u64,
) -> u32
    ensures { Answers
        (call_with (op.canonicalize path.now (length out.old))
        (in_bytes out.old number.old links.old) first.old second.old)
        (lends words.now records.now heads.now times.now paths.now bytes.now) (lends words.now records.now heads.now times.now paths.now bytes.now)
        (in_bytes out.new number.new links.new)
        first.new second.new result }
{
    let lent = Slices {
        words,
        records,
        heads,
        times,
        paths,
        bytes,
    };
    finish(
        canonicalize(lent, first, second, path, out, number, links),
        first,
        second,
    )
}

// The names and records of the entries of a directory.
fn list(
    lent: Slices,
    first: &mut [u8],
    second: &[u8],
    path: &[u8],
    out: &mut [u8],
    rows: &mut [i64],
    number: &mut u64,
    links: &mut u64,
) -> Result<(), Refusal>
    ensures { Done (call_with (op.list path.now (length out.old) (length rows.old / 7)) (in_both out.old rows.old number.old links.old) first.old second.now)
        (lent_by lent.entry) (lent_by lent.entry) (in_both out.new rows.new number.new links.new) (answered result) }
{
    let n = begin(lent, first, second, path, Sort::Any)?;
    let used = used(lent);
    list_at(
        tree_of(used),
        used.times,
        first,
        n,
        out,
        rows,
        number,
        links,
    )
}

#[unsafe(no_mangle)]
pub extern "C" fn jobtree_list(
    words: &[u64],
    records: &[u64],
    heads: &[u64],
    times: &[i64],
    paths: &[u8],
    bytes: &[u8],
    first: &mut [u8],
    second: &mut [u8],
    path: &[u8],
    out: &mut [u8],
    rows: &mut [i64],
    number: &mut u64,
    links: &mut u64,
) -> u32
    ensures { Answers
        (call_with (op.list path.now (length out.old) (length rows.old / 7))
        (in_both out.old rows.old number.old links.old) first.old second.old)
        (lends words.now records.now heads.now times.now paths.now bytes.now) (lends words.now records.now heads.now times.now paths.now bytes.now)
        (in_both out.new rows.new number.new links.new)
        first.new second.new result }
{
    let lent = Slices {
        words,
        records,
        heads,
        times,
        paths,
        bytes,
    };
    finish(
        list(lent, first, second, path, out, rows, number, links),
        first,
        second,
    )
}
