// The rows of a table image judged where they lie: what is wrong with them, or where the tables are.
#![tactic(auto)]

ghost use Rattle.std.specs.Prelude.{◌≡◌, [], ◌+◌, ◌≤◌, length};
ghost use Rattle.rows.specs.Steps.{reached};
ghost use Rattle.image_layout.specs.Layout.{rows_in, end_of, Inside, laid_out, image_length, most_rows};
ghost use Rattle.image_judge.specs.Faults.{table_fault, rows_fault, surveyed};

use answers::Fault;
use image_layout::{Extent, HEADER, Layout};
use rows::Table;

// The rows of a table judged one after the other: where they end.
fn judge_table(w: &[u8], t: Table, x: Extent) -> Result<usize, Fault>
    requires { Inside w.now x }
    ensures { result ≡ reached (table_fault t [] (rows_in w.now x)) (end_of w.now x) }
{
    let mut o = x.rows;
    let mut before = o;
    let mut key = o;
    for i in 0..x.count {
        let e = o + image_layout::pair_at(w, x.lengths + 2 * i);
        let end = o + rows_quick::judge_row(t, &w[o..e])?;
        if before < key && !octets::ascends(&w[before..key], &w[o..end]) {
            return Err(Fault::NotAscending);
        }
        before = o;
        key = end;
        o = e;
    }
    Ok(o)
}

// The rows of all tables judged, of `c`, `m`, `a` and `v` rows, and where the tables lie.
pub fn judge_rows(w: &[u8], c: usize, m: usize, a: usize, v: usize) -> Result<Layout, Fault>
    requires few { c + m + a + v ≤ most_rows }
    requires inside { image_length (c + m + a + v) w.now ≤ length w.now }
    ensures { result ≡ surveyed (rows_fault w.now (laid_out w.now c m a v)) (laid_out w.now c m a v) }
{
    let contexts = Extent {
        lengths: HEADER,
        rows: HEADER + 2 * (c + m + a + v),
        count: c,
    };
    let e = judge_table(w, Table::Context, contexts)?;
    let mappings = image_layout::following(contexts, e, m);
    let e = judge_table(w, Table::Mapping, mappings)?;
    let accesses = image_layout::following(mappings, e, a);
    let e = judge_table(w, Table::Access, accesses)?;
    let views = image_layout::following(accesses, e, v);
    judge_table(w, Table::View, views)?;
    Ok(Layout {
        contexts,
        mappings,
        accesses,
        views,
    })
}
