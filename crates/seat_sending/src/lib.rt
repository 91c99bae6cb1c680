// What a call writes: the outgoing mail of its step, or in the last call the results.
#![tactic(auto)]

ghost use Rattle.std.specs.Prelude.{◌≡◌, true, cond, ◌+◌, ◌*◌, ◌<◌, ◌≤◌, length, take, drop, get_or};
ghost use mathlib.Core.List.{[], ◌∷◌, map};
ghost use Rattle.numbers.specs.Bytes.{width, limit, numbers, all_below};
ghost use Rattle.field.specs.Mod.{sub};
ghost use Rattle.field.specs.Field.{Is};
ghost use Rattle.sharing_laws.specs.Poly.{eval};
ghost use Rattle.sharing_laws.specs.Sharing.{deal};
ghost use Rattle.sharing_matrix.specs.Matrix.{applied};
ghost use Rattle.plan.specs.declared.Step.TheVariants.{DealInputs, DealProduct, DealZero, DealMasked, DealDraws, OpenSpent, SendOuts};
ghost use Rattle.plan.specs.Plans.{party_count, is_input_of, input_wires, out_wires, coins_at, sent_by};
ghost use Rattle.plan.specs.File.{plan_of};
ghost use Rattle.plan_counts.specs.Counts.{Stepped};
ghost use Rattle.seat_messages.specs.Calls.{written};
ghost use Rattle.seat_messages.specs.Messages.{product_at, call_with};
ghost use Rattle.seat_sending.specs.Sending.{Sent, Dealing, Past, Elements, Lent, coins_from, input_shares, out_shares, pairs, outgoing};

use field::Field;
use plan::{Gate, Step};
use plan_counts::Seat;
use seat_messages::Lists;

// Writes the values of a polynomial at the points.
#[tactic(auto, using(crate::proofs::DealLaws::valuing))]
fn send_values(f: Field, polynomial: &[u64], points: &[u64], out: &mut [u8])
    requires polynomial_value { all_below f.p polynomial.now ≡ true }
    requires points_value { all_below f.p points.now ≡ true }
    requires out_len { length out.old ≡ width * length points.now }
    ensures { numbers out.new ≡ map (eval f.p polynomial.now) points.now }
{
    for (j, x) in points.iter().enumerate() {
        let piece = sharing::value(f, polynomial, *x);
        numbers::write(out, j, piece);
    }
}

// A dealing: the dealt value, and k coins of a lent list from a place on.
#[derive(Clone, Copy)]
struct Dealt<'a> {
    field: Field,
    k: usize,
    secret: u64,
    coins: &'a [u8],
    at: usize,
    ghost dealing: { Dealing field.p k secret (numbers coins.now) at },
}

impl Dealt<'_> {
    // The coefficients: the dealt value, then k coins.
    #[tactic(auto, using(crate::proofs::DealLaws::beginning))]
    fn polynomial(&self) -> [u64; 16]
        ensures { take (self.now.k + 1) result ≡ self.now.secret ∷ coins_from self.now.k self.now.at (numbers self.now.coins.now) }
    {
        let mut polynomial = [0u64; 16];
        polynomial[0] = self.secret;
        for j in 0..self.k {
            polynomial[j + 1] = numbers::read(self.coins, self.at + j);
        }
        polynomial
    }

    // The share at x.
    #[tactic(auto, using(crate::proofs::DealLaws::dealing))]
    fn share(&self, x: u64) -> u64
        requires { x < self.now.field.p }
        ensures { Is self.now.field.p (eval self.now.field.p (self.now.secret ∷ take self.now.k (drop self.now.at (numbers self.now.coins.now))) x) result }
    {
        let coefficients = self.polynomial();
        sharing::value(self.field, &coefficients[..self.k + 1], x)
    }

    // Writes a share for each point.
    #[tactic(auto, using(crate::proofs::DealLaws::dealing_out))]
    fn send(&self, points: &[u64], out: &mut [u8])
        requires points_value { all_below self.now.field.p points.now ≡ true }
        requires out_len { length out.old ≡ width * length points.now }
        ensures { numbers out.new ≡ deal self.now.field.p self.now.secret (take self.now.k (drop self.now.at (numbers self.now.coins.now))) points.now }
    {
        let coefficients = self.polynomial();
        send_values(self.field, &coefficients[..self.k + 1], points, out);
    }
}

// A party's inputs and coins at the gates below one.
#[derive(Clone, Copy)]
struct Passed {
    inputs: usize,
    coins: usize,
}

impl Passed {
    // With those at this gate.
    fn past(self, seat: &Seat, gate: Gate) -> Passed
        requires inputs_bound { self.inputs ≤ 1024 }
        requires coins_bound { self.coins ≤ 43008 }
        ensures { Past (plan_of seat.now.plan.now.bytes.now) seat.now.party gate self result }
    {
        Passed {
            inputs: self.inputs + plan_counts::own_inputs_at(seat.plan, seat.party, gate),
            coins: self.coins + plan_counts::own_coins_at(seat.plan, seat.party, gate),
        }
    }
}

// What a party's call sends from: its seat, its own inputs and coins, its mail, its triples, and its shares.
#[derive(Clone, Copy)]
struct Sender<'a> {
    seat: &'a Seat<'a>,
    lists: &'a Lists<'a>,
    triples: &'a [u8],
    shares: &'a [u8],
    ghost elements: { Elements (plan_of seat.now.plan.now.bytes.now) lists.now.inputs.now lists.now.coins.now triples.now shares.now lists.now.mail.now },
}

impl Sender<'_> {
    // ---- the party's own inputs

    // Writes the share at x of the dealing of a gate's input, if it is the party's, to a place; answers the next place.
    #[tactic(auto, using(crate::proofs::InputLaws::sharing_one))]
    fn send_input_to(
        &self,
        gate: Gate,
        before: Passed,
        x: u64,
        place: usize,
        out: &mut [u8],
    ) -> usize
        requires coins_bound { before.coins ≤ 43008 }
        requires x_lt_p { x < self.now.seat.now.plan.now.header.field.p }
        requires place_bound { place ≤ 16384 }
        ensures { Sent (cond (is_input_of self.now.seat.now.party gate) (eval self.now.seat.now.plan.now.header.field.p (get_or (numbers self.now.lists.now.inputs.now) before.inputs 0 ∷ take self.now.seat.now.plan.now.header.t (drop before.coins (numbers self.now.lists.now.coins.now))) x ∷ []) []) place out.old out.new result }
    {
        if !plan_counts::is_input_of(self.seat.party, gate) {
            return place;
        }
        let h = self.seat.plan.header;
        let dealt = Dealt {
            field: h.field,
            k: h.t,
            secret: numbers::read(self.lists.inputs, before.inputs),
            coins: self.lists.coins,
            at: before.coins,
        };
        numbers::write(out, place, dealt.share(x));
        place + 1
    }

    // Writes the shares at x of the party's inputs from a place on; answers the next place.
    // As it is: the place is handed in and answered; of a struct that holds it with the list each clause would have to say too that the list is the same one.
    #[tactic(auto, using(crate::proofs::InputLaws::inputting))]
    fn send_inputs_to(&self, x: u64, at: usize, out: &mut [u8]) -> usize
        requires x_lt_p { x < self.now.seat.now.plan.now.header.field.p }
        requires at_bound { at ≤ 15360 }
        ensures { Sent (input_shares (plan_of self.now.seat.now.plan.now.bytes.now) self.now.seat.now.party (input_wires (plan_of self.now.seat.now.plan.now.bytes.now) self.now.seat.now.party) (numbers self.now.lists.now.inputs.now) (numbers self.now.lists.now.coins.now) x) at out.old out.new result }
    {
        let plan = self.seat.plan;
        let mut place = at;
        let mut passed = Passed {
            inputs: 0,
            coins: 0,
        };
        let gates = plan.gates();
        for g in 0..plan.header.gates {
            let gate = gates.gate(g);
            place = self.send_input_to(gate, passed, x, place, out);
            passed = passed.past(self.seat, gate);
        }
        place
    }

    // Writes the dealings of the party's inputs, by receiving party.
    #[tactic(auto, using(crate::proofs::InputLaws::receiving))]
    fn send_inputs(&self, out: &mut [u8])
        requires out_len { length out.old ≡ width * sent_by (plan_of self.now.seat.now.plan.now.bytes.now) self.now.seat.now.party DealInputs }
        ensures { numbers out.new ≡ outgoing (plan_of self.now.seat.now.plan.now.bytes.now) self.now.seat.now.party DealInputs (numbers self.now.lists.now.inputs.now) (numbers self.now.lists.now.coins.now) (numbers self.now.triples.now) (numbers self.now.shares.now) (numbers self.now.lists.now.mail.now) }
    {
        let plan = self.seat.plan;
        let points = seat_messages::points_of(plan);
        let mut at: usize = 0;
        for x in &points[..plan.header.n] {
            at = self.send_inputs_to(*x, at, out);
        }
    }

    // ---- a dealing at a gate

    // Writes the dealing of a value at gate g, with k of the party's coins there after `skip` that another dealing takes.
    #[tactic(auto, using(crate::proofs::GateLaws::dealing_there))]
    fn deal_at(&self, g: usize, secret: u64, skip: usize, k: usize, out: &mut [u8])
        requires g_le_gates { g ≤ self.now.seat.now.plan.now.header.gates }
        requires secret_lt_p { secret < self.now.seat.now.plan.now.header.field.p }
        requires skip_bound { skip ≤ 14 }
        requires k_bound { k ≤ 14 }
        requires out_len { length out.old ≡ width * party_count (plan_of self.now.seat.now.plan.now.bytes.now) }
        ensures { numbers out.new ≡ deal (plan_of self.now.seat.now.plan.now.bytes.now).p secret (coins_at (plan_of self.now.seat.now.plan.now.bytes.now) self.now.seat.now.party g skip k (numbers self.now.lists.now.coins.now)) (plan_of self.now.seat.now.plan.now.bytes.now).points }
    {
        let plan = self.seat.plan;
        let dealt = Dealt {
            field: plan.header.field,
            k,
            secret,
            coins: self.lists.coins,
            at: plan_counts::coins_below(plan, self.seat.party, g) + skip,
        };
        let points = seat_messages::points_of(plan);
        dealt.send(&points[..plan.header.n], out);
    }

    // The product of two wires' shares.
    #[tactic(auto, using(crate::proofs::GateLaws::multiplying_shares))]
    fn product(&self, a: usize, b: usize) -> u64
        ensures { Is self.now.seat.now.plan.now.header.field.p (product_at (plan_of self.now.seat.now.plan.now.bytes.now) a b (numbers self.now.shares.now)) result }
    {
        let f = self.seat.plan.header.field;
        f.mul(numbers::read(self.shares, a), numbers::read(self.shares, b))
    }

    // Writes the dealing of the product of wires a and b, at gate g, if the party is one of the 2t + 1 dealers.
    #[tactic(auto, using(crate::proofs::GateLaws::product_sending))]
    fn send_product(&self, g: usize, a: usize, b: usize, out: &mut [u8])
        requires stepped { Stepped (plan_of self.now.seat.now.plan.now.bytes.now) (DealProduct g a b) }
        requires out_len { length out.old ≡ width * sent_by (plan_of self.now.seat.now.plan.now.bytes.now) self.now.seat.now.party (DealProduct g a b) }
        ensures { numbers out.new ≡ outgoing (plan_of self.now.seat.now.plan.now.bytes.now) self.now.seat.now.party (DealProduct g a b) (numbers self.now.lists.now.inputs.now) (numbers self.now.lists.now.coins.now) (numbers self.now.triples.now) (numbers self.now.shares.now) (numbers self.now.lists.now.mail.now) }
    {
        let t = self.seat.plan.header.t;
        if t + t + 1 < self.seat.party {
            return;
        }
        self.deal_at(g, self.product(a, b), 0, t, out);
    }

    // Writes the dealing of 0 with 2t coins, at gate g.
    #[tactic(auto, using(crate::proofs::GateLaws::zero_sending))]
    fn send_zero(&self, g: usize, out: &mut [u8])
        requires stepped { Stepped (plan_of self.now.seat.now.plan.now.bytes.now) (DealZero g) }
        requires out_len { length out.old ≡ width * sent_by (plan_of self.now.seat.now.plan.now.bytes.now) self.now.seat.now.party (DealZero g) }
        ensures { numbers out.new ≡ outgoing (plan_of self.now.seat.now.plan.now.bytes.now) self.now.seat.now.party (DealZero g) (numbers self.now.lists.now.inputs.now) (numbers self.now.lists.now.coins.now) (numbers self.now.triples.now) (numbers self.now.shares.now) (numbers self.now.lists.now.mail.now) }
    {
        let t = self.seat.plan.header.t;
        self.deal_at(g, 0, 0, t + t, out);
    }

    // Writes the dealing of the product of wires a and b with the sum of the zeros' pieces, at gate g.
    #[tactic(auto, using(crate::proofs::GateLaws::masked_sending))]
    fn send_masked(&self, g: usize, a: usize, b: usize, out: &mut [u8])
        requires stepped { Stepped (plan_of self.now.seat.now.plan.now.bytes.now) (DealMasked g a b) }
        requires out_len { length out.old ≡ width * sent_by (plan_of self.now.seat.now.plan.now.bytes.now) self.now.seat.now.party (DealMasked g a b) }
        ensures { numbers out.new ≡ outgoing (plan_of self.now.seat.now.plan.now.bytes.now) self.now.seat.now.party (DealMasked g a b) (numbers self.now.lists.now.inputs.now) (numbers self.now.lists.now.coins.now) (numbers self.now.triples.now) (numbers self.now.shares.now) (numbers self.now.lists.now.mail.now) }
    {
        let h = self.seat.plan.header;
        let mask = seat_messages::sum_all(h.field, self.lists.mail);
        let masked = h.field.add(self.product(a, b), mask);
        self.deal_at(g, masked, h.t + h.t, h.t, out);
    }

    // Writes the dealing of the party's draw, at gate g.
    #[tactic(auto, using(crate::proofs::GateLaws::draw_sending))]
    fn send_draw(&self, g: usize, out: &mut [u8])
        requires stepped { Stepped (plan_of self.now.seat.now.plan.now.bytes.now) (DealDraws g) }
        requires out_len { length out.old ≡ width * sent_by (plan_of self.now.seat.now.plan.now.bytes.now) self.now.seat.now.party (DealDraws g) }
        ensures { numbers out.new ≡ outgoing (plan_of self.now.seat.now.plan.now.bytes.now) self.now.seat.now.party (DealDraws g) (numbers self.now.lists.now.inputs.now) (numbers self.now.lists.now.coins.now) (numbers self.now.triples.now) (numbers self.now.shares.now) (numbers self.now.lists.now.mail.now) }
    {
        let plan = self.seat.plan;
        let place = plan_counts::inputs_below(plan, self.seat.party, g);
        let draw = numbers::read(self.lists.inputs, place);
        self.deal_at(g, draw, 0, plan.header.t, out);
    }

    // A wire's share less number k of the triples.
    #[tactic(auto, using(crate::proofs::TripleLaws::taking_off))]
    fn difference(&self, wire: usize, k: usize) -> u64
        ensures { Is self.now.seat.now.plan.now.header.field.p (sub (plan_of self.now.seat.now.plan.now.bytes.now).p (get_or (numbers self.now.shares.now) wire 0) (get_or (numbers self.now.triples.now) k 0)) result }
    {
        let f = self.seat.plan.header.field;
        f.sub(
            numbers::read(self.shares, wire),
            numbers::read(self.triples, k),
        )
    }

    // Writes two numbers to each party.
    #[tactic(auto, using(crate::proofs::TripleLaws::pairing))]
    fn send_pairs(&self, d: u64, e: u64, out: &mut [u8])
        requires d_value { d < limit }
        requires e_value { e < limit }
        requires out_len { length out.old ≡ width * (2 * party_count (plan_of self.now.seat.now.plan.now.bytes.now)) }
        ensures { numbers out.new ≡ pairs d e (plan_of self.now.seat.now.plan.now.bytes.now).points }
    {
        for j in 0..self.seat.plan.header.n {
            numbers::write(out, 2 * j, d);
            numbers::write(out, 2 * j + 1, e);
        }
    }

    // Writes what wires a and b are opened by at gate g: their shares less a and b of its triple.
    #[tactic(auto, using(crate::proofs::TripleLaws::spend_sending))]
    fn send_spent(&self, g: usize, a: usize, b: usize, out: &mut [u8])
        requires stepped { Stepped (plan_of self.now.seat.now.plan.now.bytes.now) (OpenSpent g a b) }
        requires out_len { length out.old ≡ width * sent_by (plan_of self.now.seat.now.plan.now.bytes.now) self.now.seat.now.party (OpenSpent g a b) }
        ensures { numbers out.new ≡ outgoing (plan_of self.now.seat.now.plan.now.bytes.now) self.now.seat.now.party (OpenSpent g a b) (numbers self.now.lists.now.inputs.now) (numbers self.now.lists.now.coins.now) (numbers self.now.triples.now) (numbers self.now.shares.now) (numbers self.now.lists.now.mail.now) }
    {
        let at = plan_counts::triple_at(self.seat.plan, g);
        self.send_pairs(self.difference(a, at), self.difference(b, at + 1), out);
    }

    // What the matrix makes of the mail: at each party's point its piece of the party's truncated share.
    // As it is: an array, since there is no heap, and without a count, since it has n.
    #[tactic(auto, using(crate::proofs::CutLaws::truncating))]
    fn truncated(&self) -> [u64; 15]
        ensures { take self.now.seat.now.plan.now.header.n result ≡ applied (plan_of self.now.seat.now.plan.now.bytes.now).p (plan_of self.now.seat.now.plan.now.bytes.now).t (plan_of self.now.seat.now.plan.now.bytes.now).points (numbers self.now.lists.now.mail.now) }
    {
        let h = self.seat.plan.header;
        let points = seat_messages::points_of(self.seat.plan);
        let values = seat_results::from_each(h.n, 1, 0, self.lists.mail);
        let mut pieces = [0u64; 15];
        sharing_matrix::apply(
            h.field,
            h.t,
            &points[..h.n],
            &values[..h.n],
            &mut pieces[..h.n],
        );
        pieces
    }

    // Writes the pieces of the party's truncated share.
    #[tactic(auto, using(crate::proofs::CutLaws::piecing))]
    fn send_truncated(&self, out: &mut [u8])
        requires out_len { length out.old ≡ width * party_count (plan_of self.now.seat.now.plan.now.bytes.now) }
        ensures { numbers out.new ≡ applied (plan_of self.now.seat.now.plan.now.bytes.now).p (plan_of self.now.seat.now.plan.now.bytes.now).t (plan_of self.now.seat.now.plan.now.bytes.now).points (numbers self.now.lists.now.mail.now) }
    {
        let pieces = self.truncated();
        for j in 0..self.seat.plan.header.n {
            numbers::write(out, j, pieces[j]);
        }
    }

    // ---- the shares of the outs

    // Writes the shares of a party's outs from a place on; answers the next place.
    // As it is: the place is handed in and answered, for the same reason as in `send_inputs_to`.
    #[tactic(auto, using(crate::proofs::OutLaws::outing))]
    fn send_outs_to(&self, party: usize, at: usize, out: &mut [u8]) -> usize
        requires at_bound { at ≤ 15360 }
        ensures { Sent (out_shares (numbers self.now.shares.now) (out_wires (plan_of self.now.seat.now.plan.now.bytes.now) party)) at out.old out.new result }
    {
        let plan = self.seat.plan;
        let mut place = at;
        for o in 0..plan.header.outs {
            let output = plan::out_at(plan.bytes, o);
            if party != output.party {
                continue;
            }
            numbers::write(out, place, numbers::read(self.shares, output.wire));
            place += 1;
        }
        place
    }

    // Writes the share of each out to that out's party, by receiving party.
    #[tactic(auto, using(crate::proofs::OutLaws::gathering))]
    fn send_outs(&self, out: &mut [u8])
        requires out_len { length out.old ≡ width * sent_by (plan_of self.now.seat.now.plan.now.bytes.now) self.now.seat.now.party SendOuts }
        ensures { numbers out.new ≡ outgoing (plan_of self.now.seat.now.plan.now.bytes.now) self.now.seat.now.party SendOuts (numbers self.now.lists.now.inputs.now) (numbers self.now.lists.now.coins.now) (numbers self.now.triples.now) (numbers self.now.shares.now) (numbers self.now.lists.now.mail.now) }
    {
        let mut at: usize = 0;
        for j in 0..self.seat.plan.header.n {
            at = self.send_outs_to(j + 1, at, out);
        }
    }

    // ---- a step

    // Writes what the party sends in a step.
    // As it is: the plan's file names the step, so one `match` has to choose. A closure for a step would be made in that `match`, and its contract
    // would be the step's case of `send_at` once more.
    #[tactic(auto, using(crate::proofs::WrittenLaws::stepping))]
    fn send(&self, step: Step, out: &mut [u8])
        requires stepped { Stepped (plan_of self.now.seat.now.plan.now.bytes.now) step }
        requires out_len { length out.old ≡ width * sent_by (plan_of self.now.seat.now.plan.now.bytes.now) self.now.seat.now.party step }
        ensures { numbers out.new ≡ outgoing (plan_of self.now.seat.now.plan.now.bytes.now) self.now.seat.now.party step (numbers self.now.lists.now.inputs.now) (numbers self.now.lists.now.coins.now) (numbers self.now.triples.now) (numbers self.now.shares.now) (numbers self.now.lists.now.mail.now) }
    {
        match step {
            Step::DealInputs => self.send_inputs(out),
            Step::DealProduct(g, a, b) => self.send_product(g, a, b, out),
            Step::DealZero(g) => self.send_zero(g, out),
            Step::DealMasked(g, a, b) => self.send_masked(g, a, b, out),
            Step::SendTruncated(_) => self.send_truncated(out),
            Step::DealDraws(g) => self.send_draw(g, out),
            Step::OpenSpent(g, a, b) => self.send_spent(g, a, b, out),
            Step::SendOuts => self.send_outs(out),
        }
    }
}

// ---- the call

// Writes what the party's call number k sends, or in the last call its results.
#[tactic(auto, using(crate::proofs::WrittenLaws::calling))]
pub fn send(seat: &Seat, k: usize, lists: &Lists, triples: &[u8], shares: &[u8], out: &mut [u8])
    requires { Lent (plan_of seat.now.plan.now.bytes.now) seat.now.party k lists.now.inputs.now lists.now.coins.now triples.now shares.now lists.now.mail.now out.old }
    ensures { numbers out.new ≡ written (plan_of seat.now.plan.now.bytes.now) k (call_with (plan_of seat.now.plan.now.bytes.now) seat.now.party k (numbers lists.now.inputs.now) (numbers lists.now.coins.now) (numbers triples.now) (numbers shares.now) (numbers lists.now.mail.now)) }
{
    if k == seat.last_call() {
        seat_results::results(seat.plan, lists.mail, out);
        return;
    }
    let sender = Sender {
        seat,
        lists,
        triples,
        shares,
    };
    sender.send(plan_counts::step_at(seat.plan, k), out);
}
