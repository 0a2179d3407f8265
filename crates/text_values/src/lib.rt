// Values as text, put into a lent slice: each writer puts one text at a place and returns the place behind it.
#![tactic(auto)]

ghost use Rattle.std.specs.Prelude.{◌≡◌, [], ◌∷◌, ◌+◌, ◌≤◌, ◌<◌, length};
ghost use Rattle.decision_steps.specs.Bytes.{identifier};
ghost use Rattle.text_values.specs.Texts.{decimal_text, hex_digit, hex_text, name_text, dotted_text, Puts};

// ---- octets as they are

// One octet as it is.
pub fn put_octet(out: &mut [u8], at: usize, x: u8) -> usize
    requires { at + 1 ≤ length out.old }
    ensures { Puts (x ∷ []) at out.old out.new result }
{
    out[at] = x;
    at + 1
}

// A text as it is.
pub fn put_text(out: &mut [u8], at: usize, text: &[u8]) -> usize
    requires { at + length text.now ≤ length out.old }
    ensures { Puts text.now at out.old out.new result }
{
    splice::copy_in(out, at, text);
    at + text.len()
}

// ---- numbers in decimal

fn decimal_digit(n: u64) -> u8
    requires { n < 10 }
    ensures { result ≡ 48 + n }
{
    b'0' + n as u8
}

// A number in decimal, with no zero in front.
pub fn put_decimal(out: &mut [u8], at: usize, n: u64) -> usize
    requires { at + length (decimal_text n) ≤ length out.old }
    ensures { Puts (decimal_text n) at out.old out.new result }
{
    if n < 10 {
        return put_octet(out, at, decimal_digit(n));
    }
    let end = put_decimal(out, at, n / 10);
    put_octet(out, end, decimal_digit(n % 10))
}

// ---- names in hex

fn hex_digit(x: u8) -> u8
    requires { x < 16 }
    ensures { result ≡ hex_digit x }
{
    if x < 10 { b'0' + x } else { b'a' - 10 + x }
}

// Octets in hex, two lower-case digits each.
pub fn put_hex(out: &mut [u8], at: usize, octets: &[u8]) -> usize
    requires { at + length (hex_text octets.now) ≤ length out.old }
    ensures { Puts (hex_text octets.now) at out.old out.new result }
{
    let mut o = at;
    for &x in octets {
        out[o] = hex_digit(x / 16);
        out[o + 1] = hex_digit(x % 16);
        o += 2;
    }
    o
}

// A name in hex; the empty one is `-`.
pub fn put_name(out: &mut [u8], at: usize, name: &[u8]) -> usize
    requires { at + length (name_text name.now) ≤ length out.old }
    ensures { Puts (name_text name.now) at out.old out.new result }
{
    if name.is_empty() {
        return put_octet(out, at, b'-');
    }
    put_hex(out, at, name)
}

// ---- identifiers

// A number behind a dot or a space.
fn put_number(out: &mut [u8], at: usize, lead: u8, n: u64) -> usize
    requires { at + length (lead ∷ decimal_text n) ≤ length out.old }
    ensures { Puts (lead ∷ decimal_text n) at out.old out.new result }
{
    let next = put_octet(out, at, lead);
    put_decimal(out, next, n)
}

// An identifier, its sub-identifiers dotted; one that has none is `-`.
pub fn put_dotted(out: &mut [u8], at: usize, parts: &[u32]) -> usize
    requires { at + length (dotted_text parts.now) ≤ length out.old }
    ensures { Puts (dotted_text parts.now) at out.old out.new result }
{
    let Some((&first, rest)) = parts.split_first() else {
        return put_octet(out, at, b'-');
    };
    let mut o = put_decimal(out, at, u64::from(first));
    for &part in rest {
        o = put_number(out, o, b'.', u64::from(part));
    }
    o
}

// The same of sub-identifiers that lie in four bytes each, big-endian.
// A function of its own: one over both kinds of part would take an iterator or a closure, and its contract would be longer than the loop.
pub fn put_dotted_quads(out: &mut [u8], at: usize, bytes: &[u8]) -> usize
    requires { at + length (dotted_text (identifier bytes.now)) ≤ length out.old }
    ensures { Puts (dotted_text (identifier bytes.now)) at out.old out.new result }
{
    let Some((first, rest)) = bytes.split_first_chunk::<4>() else {
        return put_octet(out, at, b'-');
    };
    let mut o = put_decimal(out, at, numbers::quad_at(first, 0) as u64);
    for quad in rest.chunks_exact(4) {
        o = put_number(out, o, b'.', numbers::quad_at(quad, 0) as u64);
    }
    o
}
