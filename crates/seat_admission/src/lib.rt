// Refusals 9 to 20 and 29 of a party's call, in their order.
#![tactic(auto)]

ghost use Rattle.std.specs.Prelude.{◌≡◌, true, ℕ, ◌<◌, ◌≤◌, length};
ghost use Rattle.numbers.specs.Bytes.{numbers, all_below};
ghost use Rattle.plan.specs.declared.Refusal.{Refusal};
ghost use Rattle.plan.specs.declared.Refusal.TheVariants as refusal;
ghost use Rattle.plan.specs.Refusals.{first_of};
ghost use Rattle.plan.specs.File.{plan_of};
ghost use Rattle.seat_messages.specs.Messages.{from_each};
ghost use Rattle.seat_messages.specs.Calls.{on_polynomial, outs_check, party_checks};
ghost use Rattle.seat_admission.specs.Parts.{list_checks, triple_checks, own_checks, state_checks, mail_checks};

use plan::Refusal;
use plan_counts::Seat;
use seat_messages::Lists;
use sharing_openings::Checker;

// The refusals of a lent list: that of its count, then that of the first of its numbers which isn't below p.
// As it is: the count is what the list has to hold, which its length is compared with.
#[tactic(auto, using(crate::proofs::CheckLaws::listing))]
fn check_list<F: Fn(usize) -> Refusal>(
    list: &[u8],
    count: usize,
    p: u64,
    few: Refusal,
    over: F,
) -> Result<(), Refusal>
    ghost over_at: { ℕ → Refusal }
    requires callable { F.IsAlwaysCallable over }
    requires over_value { (i : ℕ) (r : Refusal) → F.post over i r → r ≡ over_at i }
    ensures { result ≡ first_of (list_checks few over_at p count list.now) }
{
    if !numbers::count_is(list, count) {
        return Err(few);
    }
    match numbers::first_over(list, p) {
        Some(i) => Err(over(i)),
        None => Ok(()),
    }
}

// Refusals 10 and 11.
// As it is: the count is what the list has to hold, which its length is compared with.
pub fn check_inputs(inputs: &[u8], count: usize, p: u64) -> Result<(), Refusal>
    ensures { result ≡ first_of (list_checks refusal.InputCount refusal.InputValue p count inputs.now) }
{
    check_list(inputs, count, p, Refusal::InputCount, Refusal::InputValue)
}

// Refusals 12 and 13.
// As it is: the count is what the list has to hold, which its length is compared with; from the inputs' check it differs in its refusals alone, which
// `check_list` takes.
pub fn check_coins(coins: &[u8], count: usize, p: u64) -> Result<(), Refusal>
    ensures { result ≡ first_of (list_checks refusal.CoinCount refusal.CoinValue p count coins.now) }
{
    check_list(coins, count, p, Refusal::CoinCount, Refusal::CoinValue)
}

// Refusals 13 and 29 of triples: their numbers come before their count.
// As it is: the count is what the list has to hold, which its length is compared with.
#[tactic(auto, using(crate::proofs::CheckLaws::tripling))]
pub fn check_triples(triples: &[u8], count: usize, p: u64) -> Result<(), Refusal>
    ensures { result ≡ first_of (triple_checks p count triples.now) }
{
    if let Some(i) = numbers::first_over(triples, p) {
        return Err(Refusal::CoinValue(i));
    }
    if !numbers::count_is(triples, count) {
        return Err(Refusal::Triples);
    }
    Ok(())
}

// Refusals 14 to 16, for a plan of so many gates, with this last call.
#[tactic(auto, using(crate::proofs::CheckLaws::stating))]
fn check_state(state: &[u8], gates: usize, last: usize, p: u64) -> Result<(), Refusal>
    requires gates_bound { gates ≤ 1024 }
    requires last_bound { last ≤ 3074 }
    ensures { result ≡ first_of (state_checks p gates last state.now) }
{
    if !numbers::count_is(state, 1 + gates) {
        return Err(Refusal::StateCount);
    }
    let k = numbers::read(state, 0);
    let finished = last as u64 + 1;
    if finished < k || !numbers::all_below(state, 1, p) {
        return Err(Refusal::StateValue);
    }
    if k == finished {
        return Err(Refusal::Finished);
    }
    Ok(())
}

// ---- refusal 20

// Refusal 20 of a party's own out j: its place is the first party whose share is off.
#[tactic(auto, using(crate::proofs::CheckLaws::opening))]
fn check_out(checker: &Checker, own: usize, j: usize, mail: &[u8]) -> Result<(), Refusal>
    requires points_len_bound { length checker.now.points.now ≤ 15 }
    requires own_bound { own ≤ 64 }
    requires j_lt_own { j < own }
    requires mail_value { all_below checker.now.field.p (numbers mail.now) ≡ true }
    ensures { result ≡ on_polynomial checker.now.field.p checker.now.t checker.now.points.now (from_each (length checker.now.points.now) own j (numbers mail.now)) }
{
    let n = checker.points.len();
    let shares = seat_results::from_each(n, own, j, mail);
    if let Some(i) = checker.first_off(&shares[..n]) {
        let party = i + 1;
        return Err(Refusal::OffPolynomial(party));
    }
    Ok(())
}

// Refusal 20 of the first of the party's own outs that has a share that is off.
#[tactic(auto, using(crate::proofs::CheckLaws::each))]
fn check_outs(seat: &Seat, mail: &[u8]) -> Result<(), Refusal>
    requires mail_value { all_below seat.now.plan.now.header.field.p (numbers mail.now) ≡ true }
    ensures { result ≡ outs_check (plan_of seat.now.plan.now.bytes.now) seat.now.party (numbers mail.now) }
{
    let h = seat.plan.header;
    let points = seat_messages::points_of(seat.plan);
    let mut room = [0u64; 225];
    let used = (h.t + 1) * h.n;
    let checker = Checker::new(h.field, h.t, &points[..h.n], &mut room[..used]);
    let own = plan_sizes::own_out_count(seat.plan, seat.party);
    for j in 0..own {
        check_out(&checker, own, j, mail)?;
    }
    Ok(())
}

// ---- the checks in their order

// Refusals 9 to 13 and 29.
#[tactic(auto, using(crate::proofs::CheckLaws::owning))]
fn check_own(seat: &Seat, lists: &Lists, triples: &[u8]) -> Result<(), Refusal>
    ensures { result ≡ first_of (own_checks (plan_of seat.now.plan.now.bytes.now) seat.now.party lists.now.inputs.now lists.now.coins.now triples.now) }
{
    let h = seat.plan.header;
    if seat.party < 1 || h.n < seat.party {
        return Err(Refusal::Coalition);
    }
    check_inputs(lists.inputs, seat.own_inputs(), h.field.p)?;
    check_coins(lists.coins, seat.own_coins(), h.field.p)?;
    check_triples(triples, seat.own_triples(), h.field.p)
}

// Refusals 17 to 20 of call number k.
#[tactic(auto, using(crate::proofs::CheckLaws::mailing))]
fn check_mail(seat: &Seat, k: usize, mail: &[u8], room: usize) -> Result<(), Refusal>
    ensures { result ≡ first_of (mail_checks (plan_of seat.now.plan.now.bytes.now) seat.now.party k mail.now room) }
{
    let count = plan_sizes::mail_by(seat, k);
    let p = seat.plan.header.field.p;
    check_list(mail, count, p, Refusal::MailCount, Refusal::MailValue)?;
    if room != numbers::WIDTH * plan_sizes::written_by(seat, k) {
        return Err(Refusal::BufferLength);
    }
    if k != seat.last_call() {
        return Ok(());
    }
    check_outs(seat, mail)
}

// Refusals 9 to 20 and 29 of the party's call; `room` is the length of the buffer to be written.
#[tactic(auto, using(crate::proofs::CheckLaws::ordering))]
pub fn check(
    seat: &Seat,
    lists: &Lists,
    triples: &[u8],
    state: &[u8],
    room: usize,
) -> Result<(), Refusal>
    ensures { result ≡ first_of (party_checks (plan_of seat.now.plan.now.bytes.now) seat.now.party lists.now.inputs.now lists.now.coins.now triples.now state.now lists.now.mail.now room) }
{
    let h = seat.plan.header;
    check_own(seat, lists, triples)?;
    check_state(state, h.gates, seat.last_call(), h.field.p)?;
    let k = numbers::read(state, 0);
    check_mail(seat, k as usize, lists.mail, room)
}
