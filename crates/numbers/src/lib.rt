// Lists of numbers that are lent as bytes: four bytes a number, the low byte first. A read past the end is 0, and a write
// there changes nothing.
#![tactic(auto, using(crate::proofs::Ways::coding))]

ghost use Rattle.std.specs.Prelude.{◌≡◌, cond, ◌/◌, ◌%◌, ◌<◌, ◌≤◌, length, get_or, drop};
ghost use Rattle.numbers.specs.Bytes.{word_at, width, limit, numbers, holds_count, stored, first_over, all_below};

// The bytes of a list's number.
pub const WIDTH: usize = 4;

// The byte at an offset.
pub fn byte(s: &[u8], at: usize) -> u64
    ensures { record { eq : result ≡ get_or s.now at 0; lt : result < 256 } }
{
    if at < s.len() { s[at] as u64 } else { 0 }
}

// The two-byte number at an offset.
// As it is: `u16::from_le_bytes` takes two bytes that are there, and of these either may be past the end.
pub fn word(s: &[u8], at: usize) -> u64
    ensures { record { eq : result ≡ word_at s.now at; lt : result < 65536 } }
{
    if at < s.len() {
        byte(s, at) + 256 * byte(s, at + 1)
    } else {
        0
    }
}

// Number i of a list that has it, as its four bytes: no test is made.
fn short(s: &[u8], i: usize) -> u32
    requires { i < length s.now / width }
    ensures { record { eq : result ≡ get_or (numbers s.now) i 0; lt : result < limit } }
{
    let at = WIDTH * i;
    u32::from_le_bytes([s[at], s[at + 1], s[at + 2], s[at + 3]])
}

// The same, as a number of eight bytes.
pub fn number(s: &[u8], i: usize) -> u64
    requires { i < length s.now / width }
    ensures { record { eq : result ≡ get_or (numbers s.now) i 0; lt : result < limit } }
{
    short(s, i) as u64
}

// Number i of a list.
pub fn read(s: &[u8], i: usize) -> u64
    ensures { record { eq : result ≡ get_or (numbers s.now) i 0; lt : result < limit } }
{
    if i < s.len() / WIDTH { number(s, i) } else { 0 }
}

// The list from one place on; past the end there are no numbers.
pub fn rest(s: &[u8], from: usize) -> &[u8]
    ensures { numbers result.now ≡ drop from (numbers s.now) }
{
    if s.len() / WIDTH <= from {
        return &s[s.len()..];
    }
    &s[WIDTH * from..]
}

// Sets number i of a list to v, of which the four low bytes are kept.
pub fn write(s: &mut [u8], i: usize, v: u64)
    ensures { s.new ≡ stored s.old i v }
{
    if s.len() / WIDTH <= i {
        return;
    }
    let at = WIDTH * i;
    s[at..at + WIDTH].copy_from_slice(&v.to_le_bytes()[..WIDTH]);
}

// Whether these bytes are a list of k numbers.
pub fn count_is(s: &[u8], k: usize) -> bool
    ensures { result ≡ holds_count k s.now }
{
    s.len() % WIDTH == 0 && s.len() / WIDTH == k
}

// The first number of a list that is p or more.
pub fn first_over(s: &[u8], p: u64) -> Option<usize>
    ensures { result ≡ first_over p (numbers s.now) }
{
    if all_below(s, 0, p) {
        return None;
    }
    seek_over(s, p)
}

// The same by a search that ends where it finds one.
fn seek_over(s: &[u8], p: u64) -> Option<usize>
    ensures { result ≡ first_over p (numbers s.now) }
{
    (0..s.len() / WIDTH).find(|i| p <= read(s, *i))
}

// Whether every number of a list from one place on is below p, of four bytes: all are compared, several at once, with no early end.
fn all_under(s: &[u8], from: usize, p: u32) -> bool
    ensures { result ≡ all_below p (drop from (numbers s.now)) }
{
    let mut all = true;
    for i in from..s.len() / WIDTH {
        all &= short(s, i) < p;
    }
    all
}

// Whether every number of a list from one place on is below p.
pub fn all_below(s: &[u8], from: usize, p: u64) -> bool
    ensures { result ≡ all_below p (drop from (numbers s.now)) }
{
    4294967296 <= p || all_under(s, from, p as u32)
}
