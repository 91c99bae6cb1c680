// One party's call: what it learns from its mail, works on its shares, spends, and sends.
#![tactic(auto)]

ghost use Rattle.std.specs.Prelude.{◌≡◌, true, length, drop};
ghost use Rattle.numbers.specs.Bytes.{numbers, bytes_of, all_below};
ghost use Rattle.plan.specs.File.{plan_of};
ghost use Rattle.seat_messages.specs.Calls.{call_answer, state_after, triples_after, out_after, written};
ghost use Rattle.seat_messages.specs.Messages.{call_with};
ghost use Rattle.seat_call.specs.Admitted.{Admitted, Whole, Learnt, Spent, Sendable, state_left, triples_left, out_left};

use plan::{PlanFile, Refusal};
use plan_counts::Seat;
use seat_messages::Lists;

// What call number k learns from its mail and works, on the shares of a state, and what it spends of the triples.
// As it is: k is the call's number and no kind; the first call has no step before it.
#[tactic(auto, using(crate::proofs::CallLaws::working))]
fn learn(plan: &PlanFile, k: usize, mail: &[u8], triples: &mut [u8], state: &mut [u8])
    requires whole { Whole state.old }
    requires mail_value { all_below (plan_of plan.now.bytes.now).p (numbers mail.now) ≡ true }
    requires triples_value { all_below (plan_of plan.now.bytes.now).p (numbers triples.old) ≡ true }
    requires state_value { all_below (plan_of plan.now.bytes.now).p (drop 1 (numbers state.old)) ≡ true }
    ensures state { Learnt (plan_of plan.now.bytes.now) k (numbers triples.old) (numbers mail.now) state.old state.new }
    ensures triples { Spent (plan_of plan.now.bytes.now) k triples.old triples.new }
{
    if k == 0 {
        return;
    }
    let step = plan_counts::step_at(plan, k - 1);
    seat_learning::learn(plan, step, mail, triples, &mut state[numbers::WIDTH..]);
    seat_learning::spend(plan, step, triples);
}

// What call number k writes, from the shares of a state and the triples that are left.
#[tactic(auto, using(crate::proofs::CallLaws::working))]
fn send(seat: &Seat, k: usize, lists: &Lists, triples: &[u8], state: &[u8], out: &mut [u8])
    requires whole { Whole state.now }
    requires sendable { Sendable (plan_of seat.now.plan.now.bytes.now) seat.now.party k lists.now.inputs.now lists.now.coins.now triples.now (drop 1 (numbers state.now)) lists.now.mail.now out.old }
    ensures { out.new ≡ bytes_of (written (plan_of seat.now.plan.now.bytes.now) k (call_with (plan_of seat.now.plan.now.bytes.now) seat.now.party k (numbers lists.now.inputs.now) (numbers lists.now.coins.now) (numbers triples.now) (drop 1 (numbers state.now)) (numbers lists.now.mail.now))) }
{
    seat_sending::send(seat, k, lists, triples, &state[numbers::WIDTH..], out);
}

// A call that no refusal falls on: it learns from its mail, writes its outgoing mail or its results, and numbers the next call.
#[tactic(auto, using(crate::proofs::CallLaws::working))]
fn work(seat: &Seat, lists: &Lists, triples: &mut [u8], state: &mut [u8], out: &mut [u8])
    requires { Admitted (plan_of seat.now.plan.now.bytes.now) seat.now.party lists.now.inputs.now lists.now.coins.now triples.old state.old lists.now.mail.now (length out.old) }
    ensures triples { triples.new ≡ triples_left (plan_of seat.now.plan.now.bytes.now) seat.now.party lists.now.inputs.now lists.now.coins.now triples.old state.old lists.now.mail.now }
    ensures state { state.new ≡ state_left (plan_of seat.now.plan.now.bytes.now) seat.now.party lists.now.inputs.now lists.now.coins.now triples.old state.old lists.now.mail.now }
    ensures out { out.new ≡ out_left (plan_of seat.now.plan.now.bytes.now) seat.now.party lists.now.inputs.now lists.now.coins.now triples.old state.old lists.now.mail.now }
{
    let k = numbers::read(state, 0);
    learn(seat.plan, k as usize, lists.mail, triples, state);
    send(seat, k as usize, lists, triples, state, out);
    numbers::write(state, 0, k + 1);
}

// Party i's call on its own inputs, coins and triples, its state and its mail; `out` takes its outgoing mail, or its results in the last call, and a triple
// whose wire the call learns becomes zeros. Answers the first refusal of 1 to 8, 25, 26, 9 to 20 and 29 that falls on it, and then nothing is written.
#[tactic(auto, using(crate::proofs::CallLaws::calling))]
pub fn call(
    plan: &[u8],
    i: usize,
    inputs: &[u8],
    coins: &[u8],
    triples: &mut [u8],
    state: &mut [u8],
    mail: &[u8],
    out: &mut [u8],
) -> Result<(), Refusal>
    ensures answer { result ≡ call_answer plan.now i inputs.now coins.now triples.old state.old mail.now (length out.old) }
    ensures triples { triples.new ≡ triples_after plan.now i inputs.now coins.now triples.old state.old mail.now (length out.old) }
    ensures state { state.new ≡ state_after plan.now i inputs.now coins.now triples.old state.old mail.now (length out.old) }
    ensures out { out.new ≡ out_after plan.now i inputs.now coins.now triples.old state.old mail.now out.old }
{
    let file = plan_reading::read(plan)?;
    let seat = Seat::new(&file, i);
    let lists = Lists {
        inputs,
        coins,
        mail,
    };
    seat_admission::check(&seat, &lists, triples, state, out.len())?;
    work(&seat, &lists, triples, state, out);
    Ok(())
}
