// Numbers in the bytes of a lent slice, big-endian: read and written.
#![tactic(auto)]

ghost use Rattle.std.specs.Prelude.{◌≡◌, ◌+◌, ◌*◌, ◌≤◌, ◌<◌, length, drop};
ghost use Rattle.numbers.specs.Laid.{laid};
ghost use Rattle.numbers.specs.BigEndian.{quad, number, bytes, bytes_of};

// An octet as a length or a place. By hand: the proofs of the crates above cite its clauses.
pub fn wide(x: u8) -> usize
    ensures equal { result ≡ x }
    ensures bounded { result < 256 }
{
    x as usize
}

// The number that the four bytes at `at` say, big-endian.
pub fn quad_at(row: &[u8], at: usize) -> usize
    requires { at + 4 ≤ length row.now }
    ensures value { result ≡ number quad (drop at row.now) }
    ensures bounded { result < 4294967296 }
{
    u32::from_be_bytes([row[at], row[at + 1], row[at + 2], row[at + 3]]) as usize
}

// A number in the four bytes at `at`.
pub fn put_quad(out: &mut [u8], at: usize, x: u32)
    requires { at + 4 ≤ length out.old }
    ensures { out.new ≡ laid at (bytes quad x) out.old }
{
    out[at..at + 4].copy_from_slice(&x.to_be_bytes());
}

// Numbers in four bytes each, one behind the other, in as much room as they take.
pub fn put_quads(out: &mut [u8], parts: &[u32])
    requires { length out.old ≡ 4 * length parts.now }
    ensures { out.new ≡ bytes_of quad parts.now }
{
    for (i, x) in parts.iter().enumerate() {
        put_quad(out, 4 * i, *x);
    }
}
