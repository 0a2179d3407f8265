// The words of a line and what each says: a number, a name in hex, an identifier. The desk programs share them.
#![tactic(auto)]

ghost use Rattle.std.specs.Prelude.{◌≡◌, ◌+◌, ◌≤◌, length};
ghost use Rattle.text_words.specs.Words.{Ends, split, words, word_at, place, hex_digit, hex_octet, hex_pairs, hex_octets, number_of, is_said};
ghost use Rattle.text_words.specs.Words.{Fills, decimals, decimal as Words·decimal, dotted as Words·dotted};

// The longest line, in octets, its newline not counted.
pub const LONGEST_LINE: usize = 2048;

// Where the first `mark` from `at` on stands, or the end of `s`.
pub fn end_of(s: &[u8], at: usize, mark: u8) -> usize
    requires { at ≤ length s.now }
    ensures { Ends mark s.now at result }
{
    match memchr::memchr(mark, &s[at..]) {
        Some(i) => at + i,
        None => s.len(),
    }
}

// Where the word that begins at `at` ends. Behind the line's end there is none.
pub fn word_at(line: &[u8], at: usize) -> Option<usize>
    ensures { result ≡ word_at at line.now }
{
    if line.len() < at {
        return None;
    }
    Some(end_of(line, at, b' '))
}

// The place of a word among the words of a list; behind them all, where it is none of them.
pub fn place_of(word: &[u8], list: &[u8]) -> usize
    ensures { result ≡ place word.now (words list.now) }
{
    list.split(|c| *c == b' ')
        .take_while(|w| !octets::are_same(w, word))
        .count()
}

// The number that a word says. Summed in 64 bits: by `checked_mul` and `checked_add` a digit takes half as long again.
pub fn decimal(word: &[u8]) -> Option<u32>
    ensures { number_of result ≡ Words·decimal word.now }
{
    if word.is_empty() {
        return None;
    }
    let mut n: u64 = 0;
    for &c in word {
        let digit = char::from(c).to_digit(10)?;
        n = n * 10 + u64::from(digit);
        // it only grows from here
        if 4294967295 < n {
            return None;
        }
    }
    Some(n as u32)
}

// The number of a hex digit, a letter in either case.
fn hex_digit(c: u8) -> Option<u32>
    ensures { number_of result ≡ hex_digit c }
{
    char::from(c).to_digit(16)
}

// The octet that a pair of hex digits says; none, where a digit stands alone.
fn hex_pair(pair: &[u8]) -> Option<u8>
    ensures { number_of result ≡ hex_octet pair.now }
{
    let [high, low] = *pair else {
        return None;
    };
    Some((hex_digit(high)? * 16 + hex_digit(low)?) as u8)
}

// Whether a word is pairs of hex digits.
fn are_pairs(word: &[u8]) -> bool
    ensures { result ≡ is_said (hex_pairs word.now) }
{
    word.chunks(2).all(|pair| hex_pair(pair).is_some())
}

// The name that a word says in hex, into `out` from `from` on. An octet takes two digits.
pub fn hex_octets(word: &[u8], out: &mut [u8], from: usize) -> Option<usize>
    requires { from + length word.now ≤ length out.old }
    ensures { Fills result from (length word.now) out.old out.new (hex_octets word.now) }
{
    if word.is_empty() {
        return None;
    }
    if octets::are_same(word, b"-") {
        return Some(from);
    }
    // judged before anything is written
    if !are_pairs(word) {
        return None;
    }
    let mut n = from;
    for pair in word.chunks(2) {
        out[n] = hex_pair(pair)?;
        n += 1;
    }
    Some(n)
}

// Whether a word is numbers with one dot between two of them.
fn are_numbers(word: &[u8]) -> bool
    ensures { result ≡ is_said (decimals (split 46 word.now)) }
{
    word.split(|c| *c == b'.')
        .all(|part| decimal(part).is_some())
}

// The identifier that a word says, into `out` from `from` on. But for the last, a part takes a digit and a dot at least.
pub fn dotted(word: &[u8], out: &mut [u32], from: usize) -> Option<usize>
    requires { from + length word.now ≤ length out.old }
    ensures { Fills result from (length word.now) out.old out.new (Words·dotted word.now) }
{
    if octets::are_same(word, b"-") {
        return Some(from);
    }
    // judged before anything is written
    if !are_numbers(word) {
        return None;
    }
    let mut n = from;
    for part in word.split(|c| *c == b'.') {
        out[n] = decimal(part)?;
        n += 1;
    }
    Some(n)
}
