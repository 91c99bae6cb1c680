// The sizes of a run's lists: a party's outs, what a step brings and sends, the mail that a call takes, what it writes, and the elements sent.
#![tactic(auto)]

ghost use Rattle.std.specs.Prelude.{◌≡◌, cond, ◌+◌, ◌*◌, ◌<◌, ◌≤◌, leb};
ghost use Rattle.plan.specs.File.{plan_of};
ghost use Rattle.plan.specs.Plans.{party_count, kind_count, own_out_count, received, sent_by, mail_count, written_count, per_multiply, sent_count};

use plan::{PlanFile, Rule, Step};
use plan_counts::Seat;

// How many outs party i gets.
#[tactic(auto, using(plan_counts::proofs::Counts::counting_outs))]
pub fn own_out_count(plan: &PlanFile, i: usize) -> usize
    ensures { record { eq : result ≡ own_out_count (plan_of plan.now.bytes.now) i; le : result ≤ 64 } }
{
    let mut k = 0;
    for o in 0..plan.header.outs {
        k += usize::from(i == plan::out_at(plan.bytes, o).party);
    }
    k
}

// The numbers that a step brings a seat.
// As it is: the steps are a closed enum, each case gives a number, and the contract goes by the cases; closures would be chosen by this same `match`.
#[tactic(auto, using(crate::proofs::Sizes::bringing))]
fn received(seat: &Seat, step: Step) -> usize
    ensures { record { eq : result ≡ received (plan_of seat.now.plan.now.bytes.now) seat.now.party step; le : result ≤ 1024 } }
{
    let h = seat.plan.header;
    match step {
        Step::DealInputs => seat.tally.inputs,
        Step::DealProduct(_, _, _) => h.t + h.t + 1,
        Step::DealZero(_)
        | Step::DealMasked(_, _, _)
        | Step::SendTruncated(_)
        | Step::DealDraws(_) => h.n,
        Step::OpenSpent(_, _, _) => 2 * h.n,
        Step::SendOuts => h.n * own_out_count(seat.plan, seat.party),
    }
}

// The numbers that a seat sends in a step.
// As it is: a `match` as in `received`, and not one for both, since the inputs, the products and the outs differ.
#[tactic(auto, using(crate::proofs::Sizes::sending))]
fn sent_by(seat: &Seat, step: Step) -> usize
    ensures { record { eq : result ≡ sent_by (plan_of seat.now.plan.now.bytes.now) seat.now.party step; le : result ≤ 15360 } }
{
    let h = seat.plan.header;
    match step {
        Step::DealInputs => h.n * seat.tally.own,
        Step::DealProduct(_, _, _) => sent_upto(h.n, seat.party, h.t + h.t + 1),
        Step::DealZero(_)
        | Step::DealMasked(_, _, _)
        | Step::SendTruncated(_)
        | Step::DealDraws(_) => h.n,
        Step::OpenSpent(_, _, _) => 2 * h.n,
        Step::SendOuts => h.outs,
    }
}

// One number to each of n parties if party i is one of the dealers.
#[tactic(auto, using(crate::proofs::Sizes::sending))]
fn sent_upto(n: usize, i: usize, dealers: usize) -> usize
    ensures { record { eq : result ≡ cond (leb i dealers) n 0; le : result ≤ n } }
{
    if i <= dealers { n } else { 0 }
}

// The numbers of mail that a seat's call number k takes.
// As it is: k is a call's number and no kind, so it is compared.
#[tactic(auto, using(crate::proofs::Sizes::mailing))]
pub fn mail_by(seat: &Seat, k: usize) -> usize
    ensures { record { eq : result ≡ mail_count (plan_of seat.now.plan.now.bytes.now) seat.now.party k; le : result ≤ 1024 } }
{
    if k == 0 {
        return 0;
    }
    received(seat, plan_counts::step_at(seat.plan, k - 1))
}

// The same from the plan alone.
pub fn mail_count(plan: &PlanFile, i: usize, k: usize) -> usize
    ensures { record { eq : result ≡ mail_count (plan_of plan.now.bytes.now) i k; le : result ≤ 1024 } }
{
    mail_by(&Seat::new(plan, i), k)
}

// The numbers that a seat's call number k writes: outgoing mail, or results in the last call.
#[tactic(auto, using(crate::proofs::Sizes::mailing))]
pub fn written_by(seat: &Seat, k: usize) -> usize
    ensures { record { eq : result ≡ written_count (plan_of seat.now.plan.now.bytes.now) seat.now.party k; le : result ≤ 15360 } }
{
    if k < seat.last_call() {
        return sent_by(seat, plan_counts::step_at(seat.plan, k));
    }
    own_out_count(seat.plan, seat.party)
}

// The same from the plan alone.
pub fn written_count(plan: &PlanFile, i: usize, k: usize) -> usize
    ensures { record { eq : result ≡ written_count (plan_of plan.now.bytes.now) i k; le : result ≤ 15360 } }
{
    written_by(&Seat::new(plan, i), k)
}

// What a multiply gate has each party sent, in all its rounds.
#[tactic(auto, using(crate::proofs::Sizes::totalling))]
fn per_multiply(plan: &PlanFile) -> usize
    ensures { record { eq : result ≡ per_multiply (plan_of plan.now.bytes.now) plan.now.header.rule; le : result ≤ 45 } }
{
    let h = plan.header;
    match h.rule {
        Rule::Reduction => h.t + h.t + 1,
        Rule::Truncation => 3 * h.n,
    }
}

// The numbers that each party is sent in all steps but the last.
#[tactic(auto, using(crate::proofs::Sizes::totalling))]
pub fn gate_mail(seat: &Seat) -> usize
    ensures { record {
      eq : result
          ≡ kind_count (plan_of seat.now.plan.now.bytes.now) 1 + kind_count (plan_of seat.now.plan.now.bytes.now) 5 * per_multiply (plan_of seat.now.plan.now.bytes.now) (plan_of seat.now.plan.now.bytes.now).rule
          + kind_count (plan_of seat.now.plan.now.bytes.now) 6 * party_count (plan_of seat.now.plan.now.bytes.now)
          + kind_count (plan_of seat.now.plan.now.bytes.now) 7 * (2 * party_count (plan_of seat.now.plan.now.bytes.now));
      le : result ≤ 46080;
    } }
{
    let c = seat.tally;
    let n = seat.plan.header.n;
    c.inputs + c.multiplies * per_multiply(seat.plan) + c.randoms * n + c.spends * (2 * n)
}

// Elements sent in a run, own included.
#[tactic(auto, using(crate::proofs::Sizes::totalling))]
pub fn sent_count(plan: &PlanFile) -> usize
    ensures { record { eq : result ≡ sent_count (plan_of plan.now.bytes.now); le : result ≤ 692160 } }
{
    plan.header.n * (gate_mail(&Seat::new(plan, 0)) + plan.header.outs)
}
