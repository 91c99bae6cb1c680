// Refusals 9 to 13, 29 and 19 of a run, in their order.
ghost use Rattle.std.specs.Prelude.{◌≡◌, cond, ◌≤◌};
ghost use Rattle.plan.specs.Refusals.{first_of};
ghost use Rattle.plan.specs.File.{plan_of};
ghost use Rattle.plan_coalition.specs.Coalitions.{in_set, members};
ghost use Rattle.run_protocol.specs.Rounds.{view_count_of, view_count};
ghost use Rattle.run_bench.specs.Checks.{lent_checks};
ghost use Rattle.run_bench.specs.BenchCalls.{given_checks};

use plan::{PlanFile, Refusal};
use plan_counts::Seat;

// The numbers of a seat's view: its inputs and coins, what all steps bring it, and its results.
#[tactic(auto, using(crate::proofs::RunCheckLaws::sizing))]
fn view_by(seat: &Seat) -> usize
    ensures { record { eq : result ≡ view_count_of (plan_of seat.now.plan.now.bytes.now) seat.now.party; le : result ≤ 68608 } }
{
    let outs = plan_sizes::own_out_count(seat.plan, seat.party);
    let mail = plan_sizes::gate_mail(seat) + seat.plan.header.n * outs;
    seat.own_inputs() + (seat.own_coins() + (mail + outs))
}

// The same from the plan alone.
pub fn view_count_of(plan: &PlanFile, i: usize) -> usize
    ensures { record { eq : result ≡ view_count_of (plan_of plan.now.bytes.now) i; le : result ≤ 68608 } }
{
    view_by(&Seat::new(plan, i))
}

// The same, where it is a member.
#[tactic(auto, using(crate::proofs::RunCheckLaws::sizing_one))]
pub fn member_view_count(plan: &PlanFile, set: u16, i: usize) -> usize
    ensures { record { eq : result ≡ cond (in_set set i) (view_count_of (plan_of plan.now.bytes.now) i) 0; le : result ≤ 68608 } }
{
    if plan_coalition::is_member(set, i) {
        view_count_of(plan, i)
    } else {
        0
    }
}

// The numbers of a coalition's view.
#[tactic(auto, using(crate::proofs::RunCheckLaws::sizing_all))]
pub fn view_count(plan: &PlanFile, set: u16) -> usize
    ensures { record { eq : result ≡ view_count (plan_of plan.now.bytes.now) (members set); le : result ≤ 1097728 } }
{
    let mut k: usize = 0;
    for i in 1..=16 {
        k += member_view_count(plan, set, i);
    }
    k
}

// Refusals 10 to 13 and 29.
#[tactic(auto, using(crate::proofs::RunCheckLaws::giving))]
pub fn check_given(
    plan: &PlanFile,
    inputs: &[u8],
    coins: &[u8],
    triples: &[u8],
) -> Result<(), Refusal>
    ensures { result ≡ first_of (given_checks (plan_of plan.now.bytes.now) inputs.now coins.now triples.now) }
{
    let p = plan.header.field.p;
    seat_admission::check_inputs(inputs, plan_counts::input_count(plan), p)?;
    seat_admission::check_coins(coins, plan_counts::coin_count(plan), p)?;
    seat_admission::check_triples(triples, plan_counts::triple_count(plan), p)
}

// Refusals 9 to 13, 29 and 19 of a run; `room` is the length of the buffer to be written.
#[tactic(auto, using(crate::proofs::RunCheckLaws::running))]
pub fn check(
    plan: &PlanFile,
    set: u16,
    inputs: &[u8],
    coins: &[u8],
    triples: &[u8],
    room: usize,
) -> Result<(), Refusal>
    ensures { result ≡ first_of (lent_checks (plan_of plan.now.bytes.now) set inputs.now coins.now triples.now room) }
{
    if !plan_coalition::set_ok(plan.header.n, plan.header.t, set) {
        return Err(Refusal::Coalition);
    }
    check_given(plan, inputs, coins, triples)?;
    if room != numbers::WIDTH * view_count(plan, set) {
        return Err(Refusal::BufferLength);
    }
    Ok(())
}
