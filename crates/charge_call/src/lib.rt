// The line charge: what each party sends, the carrier's bill, and each party's part of it.
#![tactic(auto)]

ghost use Rattle.std.specs.Prelude.{◌≡◌, ◌*◌, ◌<◌, ◌≤◌, length};
ghost use Rattle.numbers.specs.Bytes.{width, bytes_of};
ghost use Rattle.plan.specs.File.{plan_of};
ghost use Rattle.charge_laws.specs.Charges.{elements_by, elements, bill_for, bill_of, charge_of, pieces_by};
ghost use Rattle.charge_call.specs.ChargeCalls.{charge_answer, charged_of, charge_after};

use charge_parts::Portion;
use plan::{PlanFile, Refusal, Rule};

// What party i sends each party at a multiply gate.
#[tactic(auto, using(crate::proofs::Charging::listing))]
fn pieces_by(plan: &PlanFile, i: usize) -> usize
    ensures { record { eq : result ≡ pieces_by (plan_of plan.now.bytes.now) plan.now.header.rule i; le : result ≤ 3 } }
{
    let h = plan.header;
    match h.rule {
        Rule::Reduction => usize::from(i <= h.t + h.t + 1),
        Rule::Truncation => 3,
    }
}

// The elements that party i sends: to each party what it deals and opens, and a share for each out.
#[tactic(auto, using(crate::proofs::Charging::listing))]
fn elements_by(plan: &PlanFile, i: usize) -> u64
    ensures { result ≡ elements_by (plan_of plan.now.bytes.now) i }
{
    let c = plan_counts::tally_of(plan, i);
    let each = c.own + c.multiplies * pieces_by(plan, i) + c.randoms + 2 * c.spends;
    (plan.header.n * each + plan.header.outs) as u64
}

#[tactic(auto, using(crate::proofs::Charging::listing))]
fn put_elements(plan: &PlanFile, es: &mut [u64])
    requires es_len { length es.old ≡ plan.now.header.n }
    ensures { es.new ≡ elements (plan_of plan.now.bytes.now) }
{
    for (i, e) in es.iter_mut().enumerate() {
        *e = elements_by(plan, i + 1);
    }
}

// The bill for so many elements at a price for 1,000, rounded up.
#[tactic(auto, using(crate::proofs::Charging::listing))]
fn bill_for(sent: u64, price: u32) -> u64
    requires { record { sent : sent ≤ 692160; price : price ≤ 1000000 } }
    ensures { record { eq : result ≡ bill_for sent price; lt : result < 4294967296 } }
{
    (sent * price as u64 + 999) / 1000
}

// Writes the parts and answers the bill; the two lists are room to work in, an entry for each party.
// As it is: plan, price and buffer are three parameters, here and in write_all and charge_on. A struct of plan and price would be made in charge_on, which first
// knows that the price is in bounds, for two calls, and taken apart in the second, where the bill alone is of the price.
#[tactic(auto, using(crate::proofs::Charging::listing))]
fn write_charge(
    plan: &PlanFile,
    price: u32,
    es: &mut [u64],
    portions: &mut [Portion],
    out: &mut [u8],
) -> u64
    requires fact { record { price : price ≤ 1000000; es : length es.old ≡ plan.now.header.n; portions : length portions.old ≡ plan.now.header.n; out : length out.old ≡ width * plan.now.header.n } }
    ensures bill { result ≡ bill_of (plan_of plan.now.bytes.now) price }
    ensures out { out.new ≡ bytes_of (charge_of (plan_of plan.now.bytes.now) price) }
{
    put_elements(plan, es);
    let sent = plan_sizes::sent_count(plan) as u64;
    let bill = bill_for(sent, price);
    charge_parts::share(bill, sent, es, portions);
    charge_parts::put_parts(portions, out);
    bill
}

#[tactic(auto, using(crate::proofs::Charging::listing))]
fn write_all(plan: &PlanFile, price: u32, out: &mut [u8]) -> u64
    requires fact { record { price : price ≤ 1000000; out : length out.old ≡ width * plan.now.header.n } }
    ensures bill { result ≡ bill_of (plan_of plan.now.bytes.now) price }
    ensures out { out.new ≡ bytes_of (charge_of (plan_of plan.now.bytes.now) price) }
{
    let n = plan.header.n;
    let mut es = [0u64; 15];
    let mut portions = [Portion { part: 0, rest: 0 }; 15];
    write_charge(plan, price, &mut es[0..n], &mut portions[0..n], out)
}

// The charge for a run of a plan that passes: refusals 31 and 19.
#[tactic(auto, using(crate::proofs::Charging::charging))]
fn charge_on(plan: &PlanFile, price: u32, out: &mut [u8]) -> Result<u64, Refusal>
    ensures answer { result ≡ charged_of (charge_answer plan.now.bytes.now price (length out.old)) (bill_of (plan_of plan.now.bytes.now) price) }
    ensures out { out.new ≡ charge_after plan.now.bytes.now price out.old }
{
    if 1000000 < price {
        return Err(Refusal::Price);
    }
    if out.len() != numbers::WIDTH * plan.header.n {
        return Err(Refusal::BufferLength);
    }
    Ok(write_all(plan, price, out))
}

// The charge for a run of a plan at a price for 1,000 elements: writes the list of parts by party and answers the bill in cents; or answers
// the first of refusals 1 to 8, 25, 26, 31 and 19 that falls on it, and writes nothing.
#[tactic(auto, using(crate::proofs::Charging::charging))]
pub fn charge(bytes: &[u8], price: u32, out: &mut [u8]) -> Result<u64, Refusal>
    ensures answer { result ≡ charged_of (charge_answer bytes.now price (length out.old)) (bill_of (plan_of bytes.now) price) }
    ensures out { out.new ≡ charge_after bytes.now price out.old }
{
    let plan = plan_reading::read(bytes)?;
    charge_on(&plan, price, out)
}
