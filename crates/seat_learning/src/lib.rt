// What a call learns from its mail, works on its shares, and spends.
#![tactic(auto)]

ghost use Rattle.std.specs.Prelude.{◌≡◌, true, cond, [], ◌<◌, ◌≤◌, ◌+◌, ◌*◌, length, drop, get_or, set};
ghost use Rattle.numbers.specs.Bytes.{numbers, all_below};
ghost use Rattle.field.specs.Field.{Is};
ghost use Rattle.sharing_laws.specs.Basis.{sum_all};
ghost use Rattle.sharing_laws.specs.Sharing.{opened};
ghost use Rattle.plan.specs.Plans.{is_input_of, input_wires, triple_at};
ghost use Rattle.plan.specs.File.{gate_ok, plan_of};
ghost use Rattle.plan_counts.specs.Counts.{Stepped};
ghost use Rattle.seat_learning.specs.Lent.{Holds, Stepped-prop};
ghost use Rattle.seat_messages.specs.Messages.{work_gate, work_from, set_all, wires_by_party, opened_at, spent_share, learnt, resume_at, learn_from, spend_from};
ghost use Rattle.seat_results.specs.Opened.{opened_outs};

use plan::{Gate, Header, PlanFile, Step};

// Shares that a gate reads: numbers below the prime.
#[derive(Clone, Copy)]
struct Shares<'a> {
    header: Header,
    bytes: &'a [u8],
    ghost below: { all_below header.field.p (numbers bytes.now) ≡ true },
}

impl Shares<'_> {
    // That of wire g once gate g is worked. Those of the other kinds come from mail, and stay as they are.
    #[tactic(auto, using(crate::proofs::LearnLaws::working))]
    fn worked(&self, g: usize, gate: Gate) -> u64
        requires { gate_ok self.now.header.n self.now.header.field.p g gate ≡ true }
        ensures { record { eq : set (numbers self.now.bytes.now) g result ≡ work_gate self.now.header.field.p g gate (numbers self.now.bytes.now); lt : result < self.now.header.field.p } }
    {
        let f = self.header.field;
        match gate {
            Gate::Add(a, b) => f.add(numbers::read(self.bytes, a), numbers::read(self.bytes, b)),
            Gate::Scale(a, c) => f.mul(numbers::read(self.bytes, a), c),
            Gate::Offset(a, c) => f.add(numbers::read(self.bytes, a), c),
            _ => numbers::read(self.bytes, g),
        }
    }
}

// Works the gates from one on up to the next that takes rounds, or all that are left.
#[tactic(auto, using(crate::proofs::LearnLaws::going_on))]
fn work_from(plan: &PlanFile, from: usize, shares: &mut [u8])
    requires shares_value { all_below plan.now.header.field.p (numbers shares.old) ≡ true }
    ensures { Holds plan.now.header.field.p (work_from plan.now.header.field.p from (drop from (plan_of plan.now.bytes.now).gates) (numbers shares.old)) shares.new }
{
    let gates = plan.gates();
    for g in from..plan.header.gates {
        let gate = gates.gate(g);
        if plan_counts::takes_rounds(gate) {
            return;
        }
        let header = plan.header;
        let share = Shares {
            header,
            bytes: shares,
        }
        .worked(g, gate);
        numbers::write(shares, g, share);
    }
}

// ---- the mail

// The mail that a step of the plan brings, and the triples that the party has then: numbers below the plan's prime.
#[derive(Clone, Copy)]
struct Mail<'a> {
    plan: &'a PlanFile<'a>,
    step: Step,
    bytes: &'a [u8],
    triples: &'a [u8],
    ghost stepped: { Stepped (plan_of plan.now.bytes.now) step } by { Stepped-prop (plan_of plan.now.bytes.now) step },
    ghost below: { all_below plan.now.header.field.p (numbers bytes.now) ≡ true },
    ghost triples_below: { all_below plan.now.header.field.p (numbers triples.now) ≡ true },
}

impl Mail<'_> {
    // Learns wire g from number `at` where gate g is an input of party i. Answers the place of the next number.
    #[tactic(auto, using(crate::proofs::LearnLaws::learning_one))]
    fn learn_input(&self, i: usize, g: usize, gate: Gate, at: usize, shares: &mut [u8]) -> usize
        requires at_bound { at ≤ 16384 }
        ensures { record {
          shares : numbers shares.exit.now ≡ cond (is_input_of i gate) (set (numbers shares.entry.now) g (get_or (numbers self.now.bytes.now) at 0)) (numbers shares.entry.now);
          next : result ≡ at + cond (is_input_of i gate) 1 0;
          most : result ≤ at + 1;
        } }
    {
        if plan_counts::is_input_of(i, gate) {
            numbers::write(shares, g, numbers::read(self.bytes, at));
            return at + 1;
        }
        at
    }

    // Learns the wires of party i's inputs, from number `from` on. Answers the place after the last.
    #[tactic(auto, using(crate::proofs::LearnLaws::learning_own))]
    fn learn_inputs_of(&self, i: usize, from: usize, shares: &mut [u8]) -> usize
        requires from_bound { from ≤ 15360 }
        ensures { record {
          shares : numbers shares.exit.now ≡ set_all (numbers shares.entry.now) (input_wires (plan_of self.now.plan.now.bytes.now) i) (drop from (numbers self.now.bytes.now));
          next : result ≡ from + length (input_wires (plan_of self.now.plan.now.bytes.now) i);
          most : result ≤ from + 1024;
        } }
    {
        let gates = self.plan.gates();
        let mut at = from;
        for g in 0..self.plan.header.gates {
            at = self.learn_input(i, g, gates.gate(g), at, shares);
        }
        at
    }

    // Learns all input wires from round 0's mail, in its order: by party, then by gate.
    #[tactic(auto, using(crate::proofs::LearnLaws::gathering))]
    fn learn_inputs(&self, shares: &mut [u8])
        ensures { numbers shares.new ≡ set_all (numbers shares.old) (wires_by_party (plan_of self.now.plan.now.bytes.now)) (numbers self.now.bytes.now) }
    {
        let mut at = 0;
        for i in 0..self.plan.header.n {
            at = self.learn_inputs_of(i + 1, at, shares);
        }
    }

    // The value at 0 of the polynomial of degree d that has the mail's numbers at the first d + 1 points.
    #[tactic(auto, using(crate::proofs::LearnLaws::opening))]
    fn opened(&self, d: usize) -> u64
        requires d_lt_n { d < self.now.plan.now.header.n }
        ensures { Is self.now.plan.now.header.field.p (opened self.now.plan.now.header.field.p d (plan_of self.now.plan.now.bytes.now).points (numbers self.now.bytes.now)) result }
    {
        let m = d + 1;
        let points = seat_messages::points_of(self.plan);
        let pieces = seat_results::from_each(m, 1, 0, self.bytes);
        sharing_openings::opened(self.plan.header.field, d, &points[..m], &pieces[..m])
    }

    // The two openings of a gate that spends a triple: x - a, then y - b. All parties send them as they send two outs.
    // As it is: as bytes, since openings are written so.
    #[tactic(auto, using(crate::proofs::SpentLaws::opening_two))]
    fn openings(&self) -> [u8; 8]
        ensures { numbers result ≡ opened_outs (plan_of self.now.plan.now.bytes.now) 2 (numbers self.now.bytes.now) }
    {
        let mut openings = [0u8; 8];
        seat_results::results(self.plan, self.bytes, &mut openings);
        openings
    }

    // The share of wire g, the product of wires a and b that spends a triple.
    #[tactic(auto, using(crate::proofs::SpentLaws::multiplying))]
    fn spent(&self, g: usize, a: usize, b: usize, shares: &[u8]) -> u64
        requires g_le_gates { g ≤ self.now.plan.now.header.gates }
        requires shares_value { all_below self.now.plan.now.header.field.p (numbers shares.now) ≡ true }
        ensures { Is self.now.plan.now.header.field.p (spent_share self.now.plan.now.header.field.p (get_or (numbers self.now.triples.now) (triple_at (plan_of self.now.plan.now.bytes.now) g + 2) 0) (get_or (numbers shares.now) a 0) (get_or (numbers shares.now) b 0) (opened_at (plan_of self.now.plan.now.bytes.now) 2 0 (numbers self.now.bytes.now)) (opened_at (plan_of self.now.plan.now.bytes.now) 2 1 (numbers self.now.bytes.now))) result }
    {
        let f = self.plan.header.field;
        let openings = self.openings();
        let d = numbers::read(&openings, 0);
        let e = numbers::read(&openings, 1);
        let c = numbers::read(self.triples, plan_counts::triple_at(self.plan, g) + 2);
        let x = numbers::read(shares, a);
        let y = numbers::read(shares, b);
        seat_messages::spent_share(f, c, x, y, d, e)
    }

    // Learns the shares that the step's mail makes known.
    // As it is: the plan's file names the step, so one `match` has to choose. A closure for a step would be made in that `match`, and its contract
    // would be the step's case of `learnt` once more.
    #[tactic(auto, using(crate::proofs::LearnLaws::learning_mail))]
    fn learn(&self, shares: &mut [u8])
        requires shares_value { all_below self.now.plan.now.header.field.p (numbers shares.old) ≡ true }
        ensures { numbers shares.new ≡ learnt (plan_of self.now.plan.now.bytes.now) self.now.step (numbers self.now.triples.now) (numbers shares.old) (numbers self.now.bytes.now) }
    {
        let h = self.plan.header;
        match self.step {
            Step::DealInputs => self.learn_inputs(shares),
            Step::DealProduct(g, _, _) => numbers::write(shares, g, self.opened(h.t + h.t)),
            Step::SendTruncated(g) => numbers::write(shares, g, self.opened(h.t)),
            Step::DealDraws(g) => {
                numbers::write(shares, g, seat_messages::sum_all(h.field, self.bytes));
            }
            Step::OpenSpent(g, a, b) => {
                let share = self.spent(g, a, b, shares);
                numbers::write(shares, g, share);
            }
            _ => {}
        }
    }

    // The gate from which the work goes on after the mail.
    // As it is: no step is run here; the answer is a number that is read off the step's case.
    #[tactic(auto, using(crate::proofs::LearnLaws::resuming))]
    fn resume_at(&self) -> usize
        ensures { result ≡ resume_at (plan_of self.now.plan.now.bytes.now) self.now.step }
    {
        match self.step {
            Step::DealInputs => 0,
            Step::DealZero(g) | Step::DealMasked(g, _, _) => g,
            Step::DealProduct(g, _, _)
            | Step::SendTruncated(g)
            | Step::DealDraws(g)
            | Step::OpenSpent(g, _, _) => g + 1,
            Step::SendOuts => self.plan.header.gates,
        }
    }
}

// ---- a step

// What a call learns from the mail of the step before it, and works on the shares.
#[tactic(auto, using(crate::proofs::LearnLaws::learning))]
pub fn learn(plan: &PlanFile, step: Step, mail: &[u8], triples: &[u8], shares: &mut [u8])
    requires stepped { Stepped (plan_of plan.now.bytes.now) step }
    requires mail_value { all_below plan.now.header.field.p (numbers mail.now) ≡ true }
    requires triples_value { all_below plan.now.header.field.p (numbers triples.now) ≡ true }
    requires shares_value { all_below plan.now.header.field.p (numbers shares.old) ≡ true }
    ensures { Holds plan.now.header.field.p (learn_from (plan_of plan.now.bytes.now) step (numbers triples.now) (numbers shares.old) (numbers mail.now)) shares.new }
{
    let mail = Mail {
        plan,
        step,
        bytes: mail,
        triples,
    };
    mail.learn(shares);
    work_from(plan, mail.resume_at(), shares);
}

// What a call spends that learns from the mail of a step: the triple of the step's gate becomes zeros.
#[tactic(auto, using(crate::proofs::SpentLaws::spending))]
pub fn spend(plan: &PlanFile, step: Step, triples: &mut [u8])
    requires stepped { Stepped (plan_of plan.now.bytes.now) step }
    requires triples_value { all_below plan.now.header.field.p (numbers triples.old) ≡ true }
    ensures { Holds plan.now.header.field.p (spend_from (plan_of plan.now.bytes.now) step (numbers triples.old)) triples.new }
{
    if let Step::OpenSpent(g, _, _) = step {
        let at = plan_counts::triple_at(plan, g);
        numbers::write(triples, at, 0);
        numbers::write(triples, at + 1, 0);
        numbers::write(triples, at + 2, 0);
    }
}
