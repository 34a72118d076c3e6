#![tactic(auto)]
// The entries of a store against the rules of a tree.
ghost use Rattle.std.specs.Prelude.{◌≡◌, ◌≤◌, length};
ghost use Rattle.layout.specs.Numbers.{most_entries, most_bytes};
ghost use Rattle.layout.specs.Rows.{rows, name_total};
ghost use Rattle.layout.specs.Lawful.{rows_ok};
ghost use Rattle.lawful_entries.specs.Fits.{kind_in};

// kept: records and bytes side by side: of a struct over both each clause would take them out again, for their rows
mod looks;
mod rising;
mod span;
mod walk;

// Whether the records are the entries of a tree, in the order of a walk. `total` is the length of all names.
pub fn entries_ok(recs: &[u64], heads: &[u64], bytes: &[u8], total: usize) -> bool
    requires { (total ≡ name_total recs.now) × (total ≤ length bytes.now)
        × (length recs.now ≤ most_entries) × (length bytes.now ≤ most_bytes) }
    ensures { result ≡ rows_ok (kind_in heads.now) (length heads.now) (rows recs.now bytes.now) }
{
    looks::names_clean(recs, bytes, total) && walk::walk_ok(recs, heads, bytes)
}
