// An identifier's parts beside a common front of identifiers, and beside the index of a key, compared where the key lies.
#![tactic(auto)]

ghost use Rattle.std.specs.Prelude.{◌≡◌, ◌+◌, ◌*◌, ◌≤◌, ◌<◌, length, get_or};
ghost use Rattle.numbers.specs.Order.{before};
ghost use Rattle.instance_encode.specs.Runs.{runs};
ghost use Rattle.walk_compare.specs.Onward.{GoesOn};

// ---- a common front of identifiers

// The identifier beside the front.
pub fn past(identifier: &[u32], front: &[u8]) -> Option<usize>
    ensures { GoesOn identifier.now front.now result }
{
    let n = front.len();
    let mut i = 0;
    while i < n {
        if identifier.len() <= i {
            return Some(i);
        }
        let x = identifier[i] as usize;
        let y = numbers::wide(front[i]);
        if x < y {
            return Some(identifier.len());
        }
        if y < x {
            return None;
        }
        i += 1;
    }
    Some(i)
}

// ---- the index of a key, in its three runs

// The part at place `i` of the index in its three runs.
fn part_at(key: &[u8], from: usize, quads: usize, i: usize) -> usize
    requires inside { from + 4 * quads ≤ length key.now }
    requires place { i + 3 * quads < length key.now }
    ensures { result ≡ get_or (runs from quads key.now) i 0 }
{
    if i < from {
        return numbers::wide(key[i]);
    }
    if i < from + quads {
        return numbers::quad_at(key, from + 4 * (i - from));
    }
    numbers::wide(key[i + 3 * quads])
}

// Whether the index in its three runs is above the parts. Neighbours in a table share long fronts, which are passed first.
pub fn is_above(key: &[u8], from: usize, quads: usize, parts: &[u32]) -> bool
    requires { from + 4 * quads ≤ length key.now }
    ensures { result ≡ before parts.now (runs from quads key.now) }
{
    let n = key.len() - 3 * quads;
    let mut i = walk_alike::same_parts(key, from, quads, parts);
    while i < n {
        if parts.len() <= i {
            return true;
        }
        let x = parts[i] as usize;
        let y = part_at(key, from, quads, i);
        if x < y {
            return true;
        }
        if y < x {
            return false;
        }
        i += 1;
    }
    false
}
