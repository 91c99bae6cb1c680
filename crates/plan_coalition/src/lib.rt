// Coalitions: bit i - 1 of a 16-bit number stands for party i.
#![tactic(auto, using(crate::proofs::Coalitions::bits))]

ghost use Rattle.std.specs.Prelude.{◌≡◌, ◌≤◌, ◌^◌, leb, length};
ghost use Rattle.plan_coalition.specs.Coalitions.{in_set, members, set_fits};

// Whether party i is in a set; party 0 is read as party 1.
pub fn is_member(set: u16, i: usize) -> bool
    ensures { result ≡ in_set set i }
{
    i <= 16 && (set >> i.saturating_sub(1)) & 1 == 1
}

pub fn member_count(set: u16) -> usize
    ensures { record { eq : result ≡ length (members set); le : result ≤ 16 } }
{
    set.count_ones() as usize
}

// Whether a set names a party above n, which shows as a bit above n - 1.
fn names_above(n: usize, set: u16) -> bool
    ensures { result ≡ leb (2 ^ n) set }
{
    n < 16 && set >> n != 0
}

// Whether a set names no party above n and has at most t members.
pub fn set_ok(n: usize, t: usize, set: u16) -> bool
    ensures { result ≡ set_fits n t set }
{
    !names_above(n, set) && member_count(set) <= t
}
