// The sizes of the lists and of the record that a host lends.
#![tactic(auto)]

ghost use Rattle.std.specs.Prelude.{IfOk, ◌≡◌, [], ◌∷◌, ◌++◌, ◌*◌, ◌<◌, ◌≤◌};
ghost use Rattle.numbers.specs.Bytes.{width};
ghost use Rattle.plan.specs.declared.Refusal.TheVariants.{Coalition};
ghost use Rattle.plan.specs.Refusals.{first_of, need};
ghost use Rattle.plan.specs.Plans.{party_count};
ghost use Rattle.plan.specs.File.{between, plan_checks, plan_of};
ghost use Rattle.plan_coalition.specs.Coalitions.{set_ok};
ghost use Rattle.plan_codes.specs.Values.{Answered};
ghost use Rattle.pool_sizes.specs.Sizes.{seat_count, run_count, seat_size, call_count, run_size, stored_size};

use plan::{PlanFile, Refusal};
use plan_counts::Seat;

// How many numbers one of a seat's lists has.
// As it is: the C interface names the lists by numbers, here and of a run.
#[tactic(auto, using(crate::proofs::Sized::counting))]
fn seat_count(seat: &Seat, call: usize, what: u16) -> usize
    ensures { record { eq : result ≡ seat_count (plan_of seat.now.plan.now.bytes.now) seat.now.party call what; le : result ≤ 43008 } }
{
    let is_made = call <= seat.last_call();
    match what {
        0 => seat.own_inputs(),
        1 => seat.own_coins(),
        2 => 1 + seat.plan.header.gates,
        3 if is_made => plan_sizes::mail_by(seat, call),
        4 if is_made => plan_sizes::written_by(seat, call),
        5 => seat.own_triples(),
        _ => 0,
    }
}

// How many numbers one of a run's lists has.
#[tactic(auto, using(crate::proofs::Sized::counting))]
fn run_count(plan: &PlanFile, set: u16, what: u16) -> usize
    ensures { record { eq : result ≡ run_count (plan_of plan.now.bytes.now) set what; le : result ≤ 2097152 } }
{
    match what {
        0 => plan_counts::input_count(plan),
        1 => plan_counts::coin_count(plan),
        2 => run_bench::checking::view_count(plan, set),
        3 => plan_counts::triple_count(plan),
        _ => 0,
    }
}

#[tactic(auto, using(crate::proofs::Sized::sizing))]
fn seat_bytes(bytes: &[u8], party: u16, call: u16, what: u16) -> Result<usize, Refusal>
    ensures is { Answered result (first_of (plan_checks bytes.now ++ (need Coalition (between 1 (party_count (plan_of bytes.now)) party) ∷ []))) (width * seat_count (plan_of bytes.now) party call what) }
    ensures small { IfOk result (λ s. s < 72057594037927936) }
{
    let plan = plan_reading::read(bytes)?;
    if !(1..=plan.header.n).contains(&(party as usize)) {
        return Err(Refusal::Coalition);
    }
    let seat = Seat::new(&plan, party as usize);
    Ok(numbers::WIDTH * seat_count(&seat, call as usize, what))
}

// The bytes of one of a party's lists: 0 its own figures, 1 its own coins, 2 its state, 3 a call's mail, 4 what a call writes, 5 its
// triples.
#[tactic(auto, using(crate::proofs::Sized::sizing))]
pub fn seat_size(plan: &[u8], seat: u16, call: u16, what: u16) -> u64
    ensures { result ≡ seat_size plan.now seat call what }
{
    plan_codes::answer(seat_bytes(plan, seat, call, what))
}

// How many calls each party makes.
// As it is: `record_size` reads as this does; a function for both would take the closure that `map` takes.
#[tactic(auto, using(crate::proofs::Sized::sizing))]
pub fn calls(plan: &[u8]) -> u64
    ensures { result ≡ call_count plan.now }
{
    plan_codes::answer(plan_reading::read(plan).map(|file| plan_counts::last_call(&file) + 1))
}

#[tactic(auto, using(crate::proofs::Sized::sizing))]
fn run_bytes(bytes: &[u8], set: u16, what: u16) -> Result<usize, Refusal>
    ensures is { Answered result (first_of (plan_checks bytes.now ++ (need Coalition (set_ok (plan_of bytes.now) set) ∷ []))) (width * run_count (plan_of bytes.now) set what) }
    ensures small { IfOk result (λ s. s < 72057594037927936) }
{
    let plan = plan_reading::read(bytes)?;
    if !plan_coalition::set_ok(plan.header.n, plan.header.t, set) {
        return Err(Refusal::Coalition);
    }
    Ok(numbers::WIDTH * run_count(&plan, set, what))
}

// The bytes of one of a run's lists: 0 all figures, 1 all coins, 2 the view of a set, 3 all triples.
#[tactic(auto, using(crate::proofs::Sized::sizing))]
pub fn run_size(plan: &[u8], set: u16, what: u16) -> u64
    ensures { result ≡ run_size plan.now set what }
{
    plan_codes::answer(run_bytes(plan, set, what))
}

// The bytes of a run's record: refusals 1 to 8, 25 and 26.
#[tactic(auto, using(crate::proofs::Sized::sizing))]
pub fn record_size(plan: &[u8]) -> u64
    ensures { result ≡ stored_size plan.now }
{
    plan_codes::answer(plan_reading::read(plan).map(|file| record_write::record_size(&file)))
}
