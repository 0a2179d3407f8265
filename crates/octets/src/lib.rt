// Octets of lent slices compared, many at a time: whether they are the same, and which stand first.
#![tactic(auto)]

ghost use Rattle.std.specs.Prelude.{◌≡◌, ◌+◌, ◌≤◌, length, take};
ghost use Rattle.numbers.specs.Order.{same, before};
ghost use Rattle.octets.specs.Same.{same_four, same_eight};
ghost use Rattle.octets.specs.Order.{order};

use std::cmp::Ordering;

// Whether the four octets at `i` are the same, which is where the numbers that they say are: one load and one comparison.
pub fn same_four(a: &[u8], b: &[u8], i: usize) -> bool
    requires first { i + 4 ≤ length a.now }
    requires second { i + 4 ≤ length b.now }
    ensures { result ≡ same_four a.now b.now i }
{
    numbers::quad_at(a, i) == numbers::quad_at(b, i)
}

// Whether the eight octets at `i` are the same. Joined by `&`, the two fours become one load and one comparison.
fn same_eight(a: &[u8], b: &[u8], i: usize) -> bool
    requires first { i + 8 ≤ length a.now }
    requires second { i + 8 ≤ length b.now }
    ensures { result ≡ same_eight a.now b.now i }
{
    same_four(a, b, i) & same_four(a, b, i + 4)
}

// A number of octets, at most `n`, that are the same in front, where the first `from` are known to be: 8 a turn.
// By hand: a turn is made only while 8 are left, which no range with a step says.
pub fn skip(a: &[u8], b: &[u8], from: usize, n: usize) -> usize
    requires begun { from ≤ n }
    requires first { n ≤ length a.now }
    requires second { n ≤ length b.now }
    requires known { take from a.now ≡ take from b.now }
    ensures within { result ≤ n }
    ensures equal { take result a.now ≡ take result b.now }
{
    let mut i = from;
    while 8 <= n - i {
        if !same_eight(a, b, i) {
            return i;
        }
        i += 8;
    }
    i
}

// Whether the first `n` octets are the same. As many as eight at a time go into both are compared so.
fn same_front(a: &[u8], b: &[u8], n: usize) -> bool
    requires first { n ≤ length a.now }
    requires second { length a.now ≡ length b.now }
    ensures { result ≡ same (take n a.now) (take n b.now) }
{
    for i in skip(a, b, 0, a.len())..n {
        if a[i] != b[i] {
            return false;
        }
    }
    true
}

// Whether both have the same octets. Names of a table mostly differ at their end, so the last four are looked at first, by one comparison.
pub fn are_same(a: &[u8], b: &[u8]) -> bool
    ensures { result ≡ same a.now b.now }
{
    let n = a.len();
    if n != b.len() {
        return false;
    }
    if n < 4 {
        return same_front(a, b, n);
    }
    let last = n - 4;
    if !same_four(a, b, last) {
        return false;
    }
    same_front(a, b, last)
}

// ---- order

// A number of octets, at most `n`, that are the same in front: 32 a turn.
// By hand beside `skip`: the four tests are joined by `&`, where a const parameter for 8 and 32 would put a loop into the turn.
fn skip_long(a: &[u8], b: &[u8], n: usize) -> usize
    requires first { n ≤ length a.now }
    requires second { n ≤ length b.now }
    ensures within { result ≤ n }
    ensures equal { take result a.now ≡ take result b.now }
{
    let mut i = 0;
    while 32 <= n - i {
        if !(same_eight(a, b, i)
            & same_eight(a, b, i + 8)
            & same_eight(a, b, i + 16)
            & same_eight(a, b, i + 24))
        {
            return i;
        }
        i += 32;
    }
    i
}

// Whether `a` stands before `b`. Four octets are compared as one number, big-endian: such numbers stand to each other as the octets do.
// Called at one place, so that the compiler puts it there whole.
pub fn ascends(a: &[u8], b: &[u8]) -> bool
    ensures { result ≡ before a.now b.now }
{
    let n = a.len().min(b.len());
    let mut i = skip(a, b, skip_long(a, b, n), n);
    if 4 <= n - i {
        let x = numbers::quad_at(a, i);
        let y = numbers::quad_at(b, i);
        if x != y {
            return x < y;
        }
        i += 4;
    }
    for j in i..n {
        if a[j] != b[j] {
            return a[j] < b[j];
        }
    }
    a.len() < b.len()
}

// How `a` stands to `b`.
pub fn compare(a: &[u8], b: &[u8]) -> Ordering
    ensures { result ≡ order a.now b.now }
{
    let n = a.len().min(b.len());
    for i in skip(a, b, 0, n)..n {
        if a[i] != b[i] {
            return a[i].cmp(&b[i]);
        }
    }
    a.len().cmp(&b.len())
}
