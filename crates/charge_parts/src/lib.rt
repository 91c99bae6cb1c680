// A bill's parts: rounded down, then the cents left over, each to the greatest remainder, and the parts as a list that is lent.
#![tactic(auto)]

ghost use Rattle.std.specs.Prelude.{◌≡◌, ◌+◌, ◌*◌, ◌<◌, ◌≤◌, length, map, sum};
ghost use Rattle.numbers.specs.Tables.{tab, total};
ghost use Rattle.numbers.specs.Bytes.{width, bytes_of};
ghost use Rattle.charge_laws.specs.Charges.{floor_at, remainder_at, left_over, greater_at, greatest, give, shares_first, parts_of};

// A party's part of a bill, in cents, and the remainder that it leaves, 0 once a cent is given for it.
#[derive(Clone, Copy)]
pub struct Portion {
    pub part: u64,
    pub rest: u64,
}

// ---- rounded down

// Each party's part rounded down, and what that leaves over, by the elements that the parties send.
// As it is: an index into the portions. `portions.iter_mut().zip(es)` was tried: there the loop's invariant has the pair of iterators to name, and not
// the list that is written, of which it must speak.
#[tactic(auto, using(crate::proofs::Loops::dividing))]
fn divide(bill: u64, sent: u64, es: &[u64], portions: &mut [Portion])
    requires fact { record { sum : sent ≡ total es.now; some : 1 ≤ sent; few : sent ≤ 692160; bill : bill < 4294967296 } }
    requires shares_len { length portions.old ≡ length es.now }
    ensures parts { map (λ s. s.part) portions.new ≡ tab (floor_at bill es.now) (length es.now) }
    ensures rests { map (λ s. s.rest) portions.new ≡ tab (remainder_at bill es.now) (length es.now) }
{
    for (i, e) in es.iter().enumerate() {
        let x = bill * *e;
        portions[i] = Portion {
            part: x / sent,
            rest: x % sent,
        };
    }
}

fn sum(portions: &[Portion]) -> u64
    requires { sum (map (λ s. s.part) portions.now) < 4294967296 }
    ensures { result ≡ sum (map (λ s. s.part) portions.now) }
{
    portions.iter().map(|s| s.part).sum()
}

// ---- the cents left over

// The place of the greater of two remainders, the first where they are equal.
#[tactic(auto, using(crate::proofs::Loops::seeking))]
fn greater(portions: &[Portion], b: usize, i: usize) -> usize
    requires { record { b : b < length portions.now; i : i < length portions.now } }
    ensures { result ≡ greater_at (map (λ s. s.rest) portions.now) b i }
{
    if portions[b].rest < portions[i].rest {
        i
    } else {
        b
    }
}

// The place of the greatest remainder, the lowest among equals.
// As it is: no `max_by_key`, which answers the last among equals, and an `Option`, where a list of parties is never empty.
#[tactic(auto, using(crate::proofs::Loops::seeking))]
fn greatest(portions: &[Portion]) -> usize
    requires { 1 ≤ length portions.now }
    ensures { record { eq : result ≡ greatest (map (λ s. s.rest) portions.now); lt : result < length portions.now } }
{
    let mut b: usize = 0;
    for i in 0..portions.len() {
        b = greater(portions, b, i);
    }
    b
}

// Gives so many cents, each to the greatest remainder that is left.
#[tactic(auto, using(crate::proofs::Sharing::giving))]
fn give(left: u64, portions: &mut [Portion])
    requires { record { some : 1 ≤ length portions.old; fits : total (map (λ s. s.part) portions.old) + left < 4294967296 } }
    ensures parts { map (λ s. s.part) portions.new ≡ (give left (record { parts = map (λ s. s.part) portions.old; rests = map (λ s. s.rest) portions.old })).parts }
    ensures rests { map (λ s. s.rest) portions.new ≡ (give left (record { parts = map (λ s. s.part) portions.old; rests = map (λ s. s.rest) portions.old })).rests }
{
    for _ in 0..left {
        let g = greatest(portions);
        portions[g] = Portion {
            part: portions[g].part + 1,
            rest: 0,
        };
    }
}

// Shares a bill among parties that sent so many elements each.
#[tactic(auto, using(crate::proofs::Sharing::sharing))]
pub fn share(bill: u64, sent: u64, es: &[u64], portions: &mut [Portion])
    requires fact { record { sum : sent ≡ total es.now; some : 1 ≤ sent; few : sent ≤ 692160; bill : bill < 4294967296 } }
    requires shares_len { length portions.old ≡ length es.now }
    ensures parts { map (λ s. s.part) portions.new ≡ parts_of bill es.now }
    ensures rests { map (λ s. s.rest) portions.new ≡ (give (left_over bill es.now) (shares_first bill es.now)).rests }
{
    divide(bill, sent, es, portions);
    let floors = sum(portions);
    give(bill - floors, portions);
}

// ---- as a list

#[tactic(auto, using(crate::proofs::Loops::putting))]
pub fn put_parts(portions: &[Portion], out: &mut [u8])
    requires { length out.old ≡ width * length portions.now }
    ensures { out.new ≡ bytes_of (map (λ s. s.part) portions.now) }
{
    for (i, s) in portions.iter().enumerate() {
        numbers::write(out, i, s.part);
    }
}
