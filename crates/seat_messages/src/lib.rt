// What a party's call is lent to read, the points of the parties, the sum of a step's mail, and a party's share of a product that spends a triple.
#![tactic(auto)]

ghost use Rattle.std.specs.Prelude.{◌≡◌, true, ◌<◌, take};
ghost use Rattle.numbers.specs.Bytes.{numbers, all_below};
ghost use Rattle.field.specs.Field.{Is};
ghost use Rattle.sharing_laws.specs.Basis.{sum_all};
ghost use Rattle.plan.specs.File.{plan_of};
ghost use Rattle.seat_messages.specs.Messages.{spent_share};

use field::Field;
use plan::PlanFile;

// The lists of numbers that a party's call reads beside its plan, its state and its triples: its own inputs and coins, and its mail.
#[derive(Clone, Copy)]
pub struct Lists<'a> {
    pub inputs: &'a [u8],
    pub coins: &'a [u8],
    pub mail: &'a [u8],
}

// The points of a plan's parties, n of them; what stands after them plays no part.
// As it is: an array, since there is no heap, and without a count, since the plan that callers have says it.
#[tactic(auto, using(crate::proofs::PointLaws::pointing))]
pub fn points_of(plan: &PlanFile) -> [u64; 15]
    ensures { take plan.now.header.n result ≡ (plan_of plan.now.bytes.now).points }
{
    let mut points = [0u64; 15];
    for i in 0..plan.header.n {
        points[i] = plan::point_at(plan.bytes, i);
    }
    points
}

// The sum of the numbers of a step's mail.
#[tactic(auto, using(crate::proofs::SumLaws::summing))]
pub fn sum_all(f: Field, mail: &[u8]) -> u64
    requires mail_value { all_below f.p (numbers mail.now) ≡ true }
    ensures { Is f.p (sum_all f.p (numbers mail.now)) result }
{
    let mut sum: u64 = 0;
    let count = mail.len() / numbers::WIDTH;
    for j in 0..count {
        sum = f.add(sum, numbers::read(mail, j));
    }
    sum
}

// A party's share of a product that spends its triple: c + e·x + d·y - d·e, for the opened d = x - a and e = y - b.
#[tactic(auto, using(crate::proofs::SpentLaws::spending))]
pub fn spent_share(f: Field, c: u64, x: u64, y: u64, d: u64, e: u64) -> u64
    requires c_lt_p { c < f.p }
    requires x_lt_p { x < f.p }
    requires y_lt_p { y < f.p }
    requires d_lt_p { d < f.p }
    requires e_lt_p { e < f.p }
    ensures { Is f.p (spent_share f.p c x y d e) result }
{
    let sum = f.add(c, f.add(f.mul(e, x), f.mul(d, y)));
    f.sub(sum, f.mul(d, e))
}
