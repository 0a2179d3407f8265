// Where the rows of a table image lie: the header, the rows' lengths of two bytes each, and the rows.
#![tactic(auto)]

ghost use Rattle.std.specs.Prelude.{◌≡◌, ◌+◌, ◌*◌, ◌≤◌, ◌<◌, length, drop};
ghost use Rattle.image_layout.specs.Layout.{pair, pairs, total, extent, end_of, Inside, header, most_rows, most_pair, longest_slice};
ghost use Rattle.image_layout.specs.Bisection.{Between, MiddleRow};

// How many bytes stand ahead of the rows' lengths: the four counts.
pub const HEADER: usize = 8;

// Where a table's rows lie: their 2-byte lengths from `lengths` on, their bytes from `rows` on.
#[derive(Clone, Copy)]
pub struct Extent {
    pub lengths: usize,
    pub rows: usize,
    pub count: usize,
}

// Where each table of an image lies.
#[derive(Clone, Copy)]
pub struct Layout {
    pub contexts: Extent,
    pub mappings: Extent,
    pub accesses: Extent,
    pub views: Extent,
}

// The number that the two bytes at `at` say, big-endian: a count or a row's length.
pub fn pair_at(w: &[u8], at: usize) -> usize
    requires { at + 2 ≤ length w.now }
    ensures number { result ≡ pair (drop at w.now) }
    ensures bounded { result ≤ most_pair }
{
    // by hand: with u16::from_be_bytes an image is read a tenth slower
    numbers::wide(w[at]) * 256 + numbers::wide(w[at + 1])
}

// The sum of the `n` numbers of two bytes from `at` on.
pub fn sum(w: &[u8], at: usize, n: usize) -> usize
    requires inside { at + 2 * n ≤ length w.now }
    requires bounded { total (pairs n (drop at w.now)) ≤ longest_slice }
    ensures { result ≡ total (pairs n (drop at w.now)) }
{
    let mut s = 0;
    for i in 0..n {
        s += pair_at(w, at + 2 * i);
    }
    s
}

// Where the rows of an extent end.
pub fn end_of(w: &[u8], x: Extent) -> usize
    requires { Inside w.now x }
    ensures { result ≡ end_of w.now x }
{
    x.rows + sum(w, x.lengths, x.count)
}

// The extent of `n` rows behind those of `x`, which end at `end`.
pub fn following(x: Extent, end: usize, n: usize) -> Extent
    requires { x.lengths + 2 * x.count ≤ header + 2 * most_rows }
    ensures { result ≡ extent (x.lengths + 2 * x.count) end n }
{
    Extent {
        lengths: x.lengths + 2 * x.count,
        rows: end,
        count: n,
    }
}

// ---- a bisection over rows

// A row, and where it lies.
#[derive(Clone, Copy)]
pub struct Middle {
    pub row: usize,
    pub from: usize,
    pub end: usize,
}

// The row in the middle of those from row `lo`, which begins at `o`, up to row `hi`.
pub fn middle_row(w: &[u8], x: Extent, lo: usize, hi: usize, o: usize) -> Middle
    requires inside { Inside w.now x }
    requires rows { Between w.now x lo hi o }
    requires some { lo < hi }
    ensures { MiddleRow w.now x lo hi result }
{
    let g = x.lengths;
    let row = lo + (hi - lo) / 2;
    let from = o + sum(w, g + 2 * lo, row - lo);
    let end = from + pair_at(w, g + 2 * row);
    Middle { row, from, end }
}
