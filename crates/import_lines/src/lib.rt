// Lines, fields and numbers of a text, read from a place on.
// As it is: text and place are two parameters, and a reader answers the place past what it read, as the definitions do. A reader that moves a place in a
// struct would be no plainer: its contract would say where it stood, where it stands, and that the text is the same.
#![tactic(auto, using(crate::proofs::Reading::reading))]

ghost use Rattle.std.specs.Prelude.{◌≡◌, ◌+◌, ◌<◌, ◌≤◌, length};
ghost use Rattle.import_lines.specs.Places.{is_gap, line_start, line_over, field_over, number_at, word_past, numbers_at, summed, values_at, NumberRead, ValuesRead};

// A line of numbers that says how many follow: the count, the first one's place, their sum, and the place past them.
#[derive(Clone, Copy)]
pub struct Values {
    pub count: usize,
    pub first: usize,
    pub total: usize,
    pub past: usize,
}

// A blank or a line feed.
fn is_gap(b: u8) -> bool
    ensures { result ≡ is_gap b }
{
    b == b' ' || b == b'\n'
}

// The first place from `at` on with neither a blank nor a line feed.
// As it is: the loop of `text_decimals::blanks` with another test. One loop that takes the test would be no plainer: both functions would stay for their
// contracts, and each would state its test again for the closure.
pub fn line_start(s: &[u8], at: usize) -> usize
    ensures { result ≡ line_start s.now at }
{
    for i in at..s.len() {
        if !is_gap(s[i]) {
            return i;
        }
    }
    at.max(s.len())
}

// Whether the line is over at a place: its line feed, or the text's end.
pub fn line_over(s: &[u8], at: usize) -> bool
    ensures { result ≡ line_over s.now at }
{
    s.len() <= at || s[at] == b'\n'
}

// Whether a field ends at a place: a blank, or the line is over.
fn field_over(s: &[u8], at: usize) -> bool
    ensures { result ≡ field_over s.now at }
{
    numbers::byte(s, at) == 32 || line_over(s, at)
}

// The number that is the field at a place, and the next field's place.
#[tactic(auto, using(crate::proofs::Reading::fields))]
pub fn number(s: &[u8], at: usize) -> Option<(u64, usize)>
    ensures { NumberRead (number_at s.now at) result }
{
    let (v, e) = text_decimals::decimal(s, at, 65536)?;
    if !field_over(s, e) {
        return None;
    }
    Some((v, text_decimals::blanks(s, e)))
}

// The place past the word that is the field at a place and the line's last.
#[tactic(auto, using(crate::proofs::Reading::wording))]
pub fn word_past(s: &[u8], at: usize, word: &[u8; 3]) -> Option<usize>
    ensures { result ≡ word_past word.now s.now at }
{
    if s.len() < at || !s[at..].starts_with(word) {
        return None;
    }
    let past = at + word.len();
    if !line_over(s, text_decimals::blanks(s, past)) {
        return None;
    }
    Some(past)
}

// The sum of as many numbers, the first of which stands at `at`; then the line is over.
#[tactic(auto, using(crate::proofs::Reading::summing))]
fn sum(s: &[u8], at: usize, count: usize) -> Option<Values>
    requires { count < 65536 }
    ensures { ValuesRead (summed count at 0 (numbers_at count s.now at)) result }
{
    let mut total: usize = 0;
    let mut e: usize = at;
    for k in 0..count {
        let (v, next) = number(s, e)?;
        total += v as usize;
        e = next;
    }
    if !line_over(s, e) {
        return None;
    }
    Some(Values {
        count,
        first: at,
        total,
        past: e,
    })
}

// A line that says how many numbers follow, then these.
#[tactic(auto, using(crate::proofs::Reading::summing))]
pub fn values_at(s: &[u8], at: usize) -> Option<Values>
    ensures { ValuesRead (values_at s.now at) result }
{
    let (count, e) = number(s, at)?;
    sum(s, e, count as usize)
}
