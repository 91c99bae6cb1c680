// Blanks and decimal numbers in a text, read from a place on. A place is an index of the text; past the end every byte is 0.
// As it is: text and place are two parameters, and a reader answers the place past what it read, as the definitions do. A reader that moves a place in a
// struct would be no plainer: its contract would say where it stood, where it stands, and that the text is the same.
#![tactic(auto, using(crate::proofs::Laws::reading))]

ghost use Rattle.std.specs.Prelude.{◌≡◌, ◌<◌, ◌≤◌, length};
ghost use Rattle.text_decimals.specs.Reading.{blanks_end, digits_at, is_digit, decimal_at, Within, Placed};

// The first place from `at` on whose byte isn't a blank.
pub fn blanks(s: &[u8], at: usize) -> usize
    ensures { Within s.now at (blanks_end s.now at) result }
{
    for i in at..s.len() {
        if s[i] != b' ' {
            return i;
        }
    }
    at.max(s.len())
}

// As it is: no `u8::is_ascii_digit`. A place may lie past the text's end, so that two of the three calls have the u64 of `numbers::byte`, and would cast it.
#[tactic(auto, unfolding(crate::specs::Reading::is_digit))]
fn is_digit(b: u64) -> bool
    ensures { result ≡ is_digit b }
{
    (48..=57).contains(&b)
}

// The number whose first digit, not a 0, stands at `at`, and the place past it.
fn digits(s: &[u8], at: usize, limit: u64) -> Option<(u64, usize)>
    requires { record { inside : at < length s.now; small : limit ≤ 4294967296 } }
    ensures { result ≡ digits_at limit s.now at }
{
    let mut v: u64 = 0;
    for i in at..s.len() {
        let b = s[i] as u64;
        if !is_digit(b) {
            return Some((v, i));
        }
        v = 10 * v + (b - 48);
        if limit <= v {
            return None;
        }
    }
    Some((v, s.len()))
}

// The decimal number at a place, below the limit and without leading zeros, and the place past it. After a 0 no digit may follow.
#[tactic(auto, using(crate::proofs::Laws::placing))]
pub fn decimal(s: &[u8], at: usize, limit: u64) -> Option<(u64, usize)>
    requires { limit ≤ 4294967296 }
    ensures { Placed s.now at limit (decimal_at limit s.now at) result }
{
    let b = numbers::byte(s, at);
    if !is_digit(b) {
        return None;
    }
    if b != 48 {
        return digits(s, at, limit);
    }
    if limit == 0 || is_digit(numbers::byte(s, at + 1)) {
        return None;
    }
    Some((0, at + 1))
}
