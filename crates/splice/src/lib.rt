// A part of a lent slice replaced where it lies, or two parts at once: what stands behind moves once, and nothing else changes.
#![tactic(auto)]

ghost use Rattle.std.specs.Prelude.{◌≡◌, ◌+◌, ◌-◌, ◌≤◌, length};
ghost use Rattle.splice.specs.Splice.{spliced, spliced_two};
ghost use Rattle.std.proofs.Math.Seq.{paste};
ghost use Rattle.splice.specs.Moves.{moved, block};

// How many octets are moved at once.
const BLOCK: usize = 64;

// Copies `new` into w from `at` on. By hand, as all that moves octets here: over parts of any length `copy_from_slice` and `copy_within` become calls of
// memcpy and memmove, which an archive for C then needs from outside, and `copy_within` goes octet by octet over a block of a known length.
pub fn copy_in(w: &mut [u8], at: usize, new: &[u8])
    requires { at + length new.now ≤ length w.old }
    ensures { w.new ≡ paste w.old at new.now (length new.now) }
{
    for (i, octet) in new.iter().enumerate() {
        w[at + i] = *octet;
    }
}

// Moves the block at `from` to `to`. All are read before one is stored, so that they become wide loads and stores.
fn move_block(w: &mut [u8], from: usize, to: usize)
    requires source { from + block ≤ length w.old }
    requires target { to + block ≤ length w.old }
    ensures { w.new ≡ moved w.old from (from + block) to }
{
    let mut block = [0u8; BLOCK];
    let stop = from + BLOCK;
    copy_in(&mut block, 0, &w[from..stop]);
    copy_in(w, to, &block);
}

// Moves blocks from `end` on by `by`, the last first, while one fits behind `from`, and says from where on.
fn move_blocks_up(w: &mut [u8], from: usize, end: usize, by: usize) -> usize
    requires part { from ≤ end }
    requires room { end + by ≤ length w.old }
    ensures behind { from ≤ result }
    ensures within { result ≤ end }
    ensures moves { w.new ≡ moved w.old result end (result + by) }
{
    let mut j = end;
    while BLOCK <= j - from {
        j -= BLOCK;
        move_block(w, j, j + by);
    }
    j
}

// Moves the octets from `from` up to `end` on by `by`, the last first.
fn move_up(w: &mut [u8], from: usize, end: usize, by: usize)
    requires part { from ≤ end }
    requires room { end + by ≤ length w.old }
    ensures { w.new ≡ moved w.old from end (from + by) }
{
    let mut j = move_blocks_up(w, from, end, by);
    while from < j {
        j -= 1;
        w[j + by] = w[j];
    }
}

// Moves blocks from `from` back by `by`, the first first, while one fits in front of `end`, and says up to where.
fn move_blocks_down(w: &mut [u8], from: usize, end: usize, by: usize) -> usize
    requires back { by ≤ from }
    requires part { from ≤ end }
    requires inside { end ≤ length w.old }
    ensures behind { from ≤ result }
    ensures within { result ≤ end }
    ensures moves { w.new ≡ moved w.old from result (from - by) }
{
    let mut j = from;
    while BLOCK <= end - j {
        move_block(w, j, j - by);
        j += BLOCK;
    }
    j
}

// Moves the octets from `from` up to `end` back by `by`, the first first.
fn move_down(w: &mut [u8], from: usize, end: usize, by: usize)
    requires back { by ≤ from }
    requires part { from ≤ end }
    requires inside { end ≤ length w.old }
    ensures { w.new ≡ moved w.old from end (from - by) }
{
    let mut j = move_blocks_down(w, from, end, by);
    while j < end {
        w[j - by] = w[j];
        j += 1;
    }
}

// Moves the octets from `from` up to `end` so that they stand from `to` on.
pub fn shift(w: &mut [u8], from: usize, end: usize, to: usize)
    requires part { from ≤ end }
    requires inside { end ≤ length w.old }
    requires room { to + (end - from) ≤ length w.old }
    ensures { w.new ≡ moved w.old from end to }
{
    if from < to {
        move_up(w, from, end, to - from);
    } else if to < from {
        move_down(w, from, end, from - to);
    }
}

// The `gone` octets at `at` give way to `new`, and what stands behind them up to `end` follows.
fn splice(w: &mut [u8], at: usize, gone: usize, end: usize, new: &[u8])
    requires part { at + gone ≤ end }
    requires inside { end ≤ length w.old }
    requires room { end - gone + length new.now ≤ length w.old }
    ensures { w.new ≡ spliced w.old at gone end new.now }
{
    shift(w, at + gone, end, at + new.len());
    copy_in(w, at, new);
}

// Two parts give way at once: the `had` octets at `place` to `head`, and the `gone` octets at `at`, behind them, to `new`. What stands between
// them and what stands behind, up to `end`, each moves once, that first which the other would be stored over.
pub fn splice_two(
    w: &mut [u8],
    place: usize,
    had: usize,
    head: &[u8],
    at: usize,
    gone: usize,
    end: usize,
    new: &[u8],
)
    requires first { place + had ≤ at }
    requires second { at + gone ≤ end }
    requires inside { end ≤ length w.old }
    requires room { end - gone - had + length head.now + length new.now ≤ length w.old }
    ensures { w.new ≡ spliced_two w.old place had head.now at gone end new.now }
{
    let to = at - had + head.len();
    let next = to + new.len();
    if at <= to {
        shift(w, at + gone, end, next);
        splice(w, place, had, at, head);
    } else {
        splice(w, place, had, at, head);
        shift(w, at + gone, end, next);
    }
    copy_in(w, to, new);
}
