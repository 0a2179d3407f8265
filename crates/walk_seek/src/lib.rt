// The rows of a table that are above an identifier's parts, found by bisection: rows ascend by their indices, so those above are the last ones.
#![tactic(auto)]

ghost use Rattle.image_judge.specs.Faults.{SoundTable};
ghost use Rattle.walk_seek.specs.Above.{Above};

use image_layout::Extent;
use rows::Table;

// The rows whose index is above the parts.
pub fn rows_above(w: &[u8], x: Extent, t: Table, parts: &[u32]) -> Extent
    requires { SoundTable t w.now x }
    ensures { Above t w.now x parts.now result }
{
    let n = x.count;
    let g = x.lengths;
    let mut lo = 0;
    let mut hi = n;
    let mut o = x.rows;
    // by hand: the rows lie in bytes, and the library bisects slices alone; rows before `lo`, which lies at `o`, are not above, and rows from `hi` on are
    while lo < hi {
        let m = image_layout::middle_row(w, x, lo, hi, o);
        let row = m.row;
        let from = m.from;
        let end = m.end;
        if walk_rows::is_row_above(t, &w[from..end], parts) {
            hi = row;
        } else {
            lo = row + 1;
            o = end;
        }
    }
    Extent {
        lengths: g + 2 * lo,
        rows: o,
        count: n - lo,
    }
}
