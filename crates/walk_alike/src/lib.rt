// How many parts of an identifier in front are the same as those of an index, compared run by run where the key lies.
#![tactic(auto)]

ghost use Rattle.std.specs.Prelude.{◌≡◌, ◌+◌, ◌*◌, ◌≤◌, length};
ghost use Rattle.numbers.specs.BigEndian.{quad, numbers};
ghost use Rattle.instance_encode.specs.Runs.{runs};
ghost use Rattle.walk_alike.specs.Alike.{Alike, four_same};

// Whether the four octets at `i` are the same as the parts there. Joined by `&`, they become one comparison.
fn are_four_same(octets: &[u8], parts: &[u32], i: usize) -> bool
    requires first { i + 4 ≤ length octets.now }
    requires second { i + 4 ≤ length parts.now }
    ensures { result ≡ four_same parts.now octets.now i }
{
    (parts[i] == octets[i] as u32)
        & (parts[i + 1] == octets[i + 1] as u32)
        & (parts[i + 2] == octets[i + 2] as u32)
        & (parts[i + 3] == octets[i + 3] as u32)
}

// A number of octets in front, at most `n`, that are the same as the parts: 4 a turn.
fn skip_octets(octets: &[u8], parts: &[u32], n: usize) -> usize
    requires first { n ≤ length octets.now }
    requires second { n ≤ length parts.now }
    ensures within { result ≤ n }
    ensures same { Alike result parts.now octets.now }
{
    let mut i = 0;
    while 4 <= n - i {
        if !are_four_same(octets, parts, i) {
            return i;
        }
        i += 4;
    }
    i
}

// A number of octets in front that are the same as the parts.
fn same_octets(octets: &[u8], parts: &[u32]) -> usize
    ensures { Alike result parts.now octets.now }
{
    let n = octets.len().min(parts.len());
    let mut i = skip_octets(octets, parts, n);
    while i < n {
        if parts[i] as usize != numbers::wide(octets[i]) {
            return i;
        }
        i += 1;
    }
    i
}

// A number of numbers of four bytes in front, at most `count`, that are the same as the parts.
fn same_quads(bytes: &[u8], count: usize, parts: &[u32]) -> usize
    requires { 4 * count ≤ length bytes.now }
    ensures { Alike result parts.now (numbers quad count bytes.now) }
{
    let n = count.min(parts.len());
    let mut i = 0;
    while i < n {
        if parts[i] as usize != numbers::quad_at(bytes, 4 * i) {
            return i;
        }
        i += 1;
    }
    i
}

// A number of parts in front that are the same as those of the index, run by run.
pub fn same_parts(key: &[u8], from: usize, quads: usize, parts: &[u32]) -> usize
    requires { from + 4 * quads ≤ length key.now }
    ensures { Alike result parts.now (runs from quads key.now) }
{
    let first = same_octets(&key[0..from], parts);
    if first < from {
        return first;
    }
    let second = same_quads(&key[from..], quads, &parts[from..]);
    if second < quads {
        return from + second;
    }
    let end = from + 4 * quads;
    let behind = from + quads;
    behind + same_octets(&key[end..], &parts[behind..])
}
