// Counts of a plan's gates, coins and steps, and the step that a call sends.
#![tactic(auto)]

ghost use Rattle.std.specs.Prelude.{◌≡◌, cond, suc, ◌+◌, ◌*◌, ◌<◌, ◌≤◌, eqb, leb, length, take, get_or, [], ◌∷◌};
ghost use mathlib.Core.List.{flat_map};
ghost use Rattle.numbers.specs.Tables.{count_where};
ghost use Rattle.plan.specs.declared.Step.TheVariants.{SendOuts};
ghost use Rattle.plan.specs.File.{between, gate_at, plan_of};
ghost use Rattle.plan.specs.Plans.{party_count, kind_of, is_input_of, input_owners_at, coin_owners_at, multiply_steps, steps_at, step_at, last_call, input_count, own_input_count, coin_count, own_coin_count, triple_numbers, triple_at};
ghost use Rattle.plan.specs.Kinds.{multiply_coins, own_multiply_coins, multiply_rounds, own_draws, own_random_coins};
ghost use Rattle.plan_counts.specs.Counts.{Tallied, Stepped};

use plan::{Gate, Gates, PlanFile, Rule, Step};

// Counts of gates, for one party.
#[derive(Clone, Copy)]
pub struct Tally {
    // input gates
    pub inputs: usize,
    // the party's own
    pub own: usize,
    pub multiplies: usize,
    // random wires
    pub randoms: usize,
    // multiplies that spend a triple
    pub spends: usize,
}

// The kinds of gates in the plan file: gates from ADD to OFFSET are worked on shares alone, those from MULTIPLY on take rounds.
pub const INPUT: usize = 1;

const ADD: usize = 2;

const SCALE: usize = 3;

const OFFSET: usize = 4;

const MULTIPLY: usize = 5;

const RANDOM: usize = 6;

const SPEND: usize = 7;

// A party's seat at a plan: the tally of the plan's gates for the party, with the plan and the party that it is of.
#[derive(Clone, Copy)]
pub struct Seat<'a> {
    pub plan: &'a PlanFile<'a>,
    pub party: usize,
    pub tally: Tally,
    pub ghost tallied: { Tallied (plan_of plan.now.bytes.now).gates party tally },
}

impl<'a> Seat<'a> {
    pub fn new(plan: &'a PlanFile<'a>, party: usize) -> Seat<'a>
        ensures { record { plan : result.plan.now ≡ plan.now; party : result.party ≡ party } }
    {
        Seat {
            plan,
            party,
            tally: tally_of(plan, party),
        }
    }

    // The call that gives the results: the steps are the inputs, those of the gates that take rounds, and the outs.
    #[tactic(auto, using(crate::proofs::Sizes::seats))]
    pub fn last_call(&self) -> usize
        ensures { record { eq : result ≡ last_call (plan_of self.now.plan.now.bytes.now); low : 2 ≤ result; le : result ≤ 3074 } }
    {
        multiply_rounds(self.plan.header.rule) * self.tally.multiplies
            + self.tally.randoms
            + self.tally.spends
            + 2
    }

    // Its inputs: figures, and draws.
    #[tactic(auto, using(crate::proofs::Sizes::seats))]
    pub fn own_inputs(&self) -> usize
        ensures { record { eq : result ≡ own_input_count (plan_of self.now.plan.now.bytes.now) self.now.party; le : result ≤ 1024 } }
    {
        inputs_in(self.plan, self.party, self.tally)
    }

    #[tactic(auto, using(crate::proofs::Sizes::seats))]
    pub fn own_coins(&self) -> usize
        ensures { record { eq : result ≡ own_coin_count (plan_of self.now.plan.now.bytes.now) self.now.party; le : result ≤ 43008 } }
    {
        coins_in(self.plan, self.party, self.tally)
    }

    // The numbers of its triples: three for each gate that spends one.
    #[tactic(auto, using(crate::proofs::Sizes::seats))]
    pub fn own_triples(&self) -> usize
        ensures { record { eq : result ≡ triple_numbers (plan_of self.now.plan.now.bytes.now); le : result ≤ 3072 } }
    {
        3 * self.tally.spends
    }
}

// A gate's kind in the plan file.
// As it is: the rules order kinds by the file's number, and `takes_rounds` asks for that order; an enum would be made into the number there.
#[tactic(auto, unfolding(plan::specs::Plans::kind_of))]
pub fn kind(gate: Gate) -> usize
    ensures { result ≡ kind_of gate }
{
    match gate {
        Gate::Input(_) => INPUT,
        Gate::Add(_, _) => ADD,
        Gate::Scale(_, _) => SCALE,
        Gate::Offset(_, _) => OFFSET,
        Gate::Multiply(_, _) => MULTIPLY,
        Gate::Random => RANDOM,
        Gate::Spend(_, _) => SPEND,
    }
}

#[tactic(auto, using(crate::proofs::Counts::kinds))]
pub fn takes_rounds(gate: Gate) -> bool
    ensures { result ≡ leb 5 (kind_of gate) }
{
    MULTIPLY <= kind(gate)
}

#[tactic(auto, unfolding(plan::specs::Plans::is_input_of, plan::specs::Plans::is_kind, plan::specs::Plans::kind_of, plan::specs::Plans::operands_of))]
pub fn is_input_of(i: usize, gate: Gate) -> bool
    ensures { result ≡ is_input_of i gate }
{
    match gate {
        Gate::Input(party) => i == party,
        _ => false,
    }
}

// ---- what a gate brings a party

// So many coins where something holds, else none.
fn coins_if(k: usize, b: bool) -> usize
    ensures { record { eq : result ≡ cond b k 0; le : result ≤ k } }
{
    if b { k } else { 0 }
}

// Whether i is one of the parties 1 to k.
#[tactic(auto, using(plan::proofs::Ranges::contains_is))]
fn is_among(k: usize, i: usize) -> bool
    requires { k ≤ 29 }
    ensures { result ≡ between 1 k i }
{
    (1..=k).contains(&i)
}

// Party i's draws at a random wire: one, if it is one of the parties.
#[tactic(auto, using(crate::proofs::Counts::by_kind))]
fn own_draws(plan: &PlanFile, i: usize) -> usize
    ensures { record { eq : result ≡ own_draws (plan_of plan.now.bytes.now) i; le : result ≤ 1 } }
{
    usize::from(is_among(plan.header.n, i))
}

// Its coins there.
#[tactic(auto, using(crate::proofs::Counts::by_kind))]
fn own_random_coins(plan: &PlanFile, i: usize) -> usize
    ensures { record { eq : result ≡ own_random_coins (plan_of plan.now.bytes.now) i; le : result ≤ 14 } }
{
    coins_if(plan.header.t, is_among(plan.header.n, i))
}

// Its coins at a multiply gate: of one dealing if it is one of the 2t + 1 dealers, or of two, of degrees 2t and t.
#[tactic(auto, using(crate::proofs::Counts::by_kind))]
fn own_multiply_coins(plan: &PlanFile, i: usize) -> usize
    ensures { record { eq : result ≡ own_multiply_coins (plan_of plan.now.bytes.now) plan.now.header.rule i; le : result ≤ 42 } }
{
    let h = plan.header;
    match h.rule {
        Rule::Reduction => coins_if(h.t, is_among(h.t + h.t + 1, i)),
        Rule::Truncation => coins_if(3 * h.t, is_among(h.n, i)),
    }
}

// All parties' coins at a multiply gate.
#[tactic(auto, using(crate::proofs::Counts::by_kind))]
fn multiply_coins(plan: &PlanFile) -> usize
    ensures { record { eq : result ≡ multiply_coins (plan_of plan.now.bytes.now) plan.now.header.rule; le : result ≤ 630 } }
{
    let h = plan.header;
    match h.rule {
        Rule::Reduction => h.t * (h.t + h.t + 1),
        Rule::Truncation => 3 * h.t * h.n,
    }
}

// The rounds of a multiply gate.
#[tactic(auto, unfolding(plan::specs::Kinds::multiply_rounds))]
fn multiply_rounds(rule: Rule) -> usize
    ensures { record { eq : result ≡ multiply_rounds rule; le : result ≤ 3 } }
{
    match rule {
        Rule::Reduction => 1,
        Rule::Truncation => 3,
    }
}

// Party i's inputs at a gate: its own figure, or its draw.
#[tactic(auto, using(crate::proofs::Counts::coining), unfolding(plan::specs::Plans::input_owners_at))]
pub fn own_inputs_at(plan: &PlanFile, i: usize, gate: Gate) -> usize
    ensures { record { eq : result ≡ count_where (eqb i) (input_owners_at (plan_of plan.now.bytes.now) gate); le : result ≤ 1 } }
{
    match gate {
        Gate::Input(dealer) => usize::from(i == dealer),
        Gate::Random => own_draws(plan, i),
        _ => 0,
    }
}

// Party i's coins at a gate.
#[tactic(auto, using(crate::proofs::Counts::coining), unfolding(plan::specs::Plans::dealings_at))]
pub fn own_coins_at(plan: &PlanFile, i: usize, gate: Gate) -> usize
    ensures { record { eq : result ≡ count_where (eqb i) (coin_owners_at (plan_of plan.now.bytes.now) gate); le : result ≤ 42 } }
{
    match gate {
        Gate::Input(dealer) => coins_if(plan.header.t, i == dealer),
        Gate::Multiply(_, _) => own_multiply_coins(plan, i),
        Gate::Random => own_random_coins(plan, i),
        _ => 0,
    }
}

// Party i's inputs at the gates of a tally.
#[tactic(auto, using(crate::proofs::Sizes::summing))]
fn inputs_in(plan: &PlanFile, i: usize, c: Tally) -> usize
    requires { c.own + c.multiplies + c.randoms ≤ 1024 }
    ensures { record { eq : result ≡ c.own + own_draws (plan_of plan.now.bytes.now) i * c.randoms; le : result ≤ 1024 } }
{
    c.own + own_draws(plan, i) * c.randoms
}

// Its coins there.
#[tactic(auto, using(crate::proofs::Sizes::summing))]
fn coins_in(plan: &PlanFile, i: usize, c: Tally) -> usize
    requires { c.own + c.multiplies + c.randoms ≤ 1024 }
    ensures { record {
      eq : result ≡ plan.now.header.t * c.own + own_multiply_coins (plan_of plan.now.bytes.now) plan.now.header.rule i * c.multiplies
          + own_random_coins (plan_of plan.now.bytes.now) i * c.randoms;
      le : result ≤ 43008;
    } }
{
    plan.header.t * c.own
        + own_multiply_coins(plan, i) * c.multiplies
        + own_random_coins(plan, i) * c.randoms
}

// ---- by a gate's kind, which its first byte gives: every gate of a plan that passes keeps its kind's rule

// A plan with its gates.
#[derive(Clone, Copy)]
struct PlanGates<'a> {
    plan: &'a PlanFile<'a>,
    gates: Gates<'a>,
    ghost bytes: { gates.bytes.now ≡ plan.now.bytes.now },
    ghost count: { gates.count ≡ plan.now.header.gates },
}

impl<'a> PlanGates<'a> {
    fn new(plan: &'a PlanFile<'a>) -> PlanGates<'a>
        ensures { result.plan.now ≡ plan.now }
    {
        PlanGates {
            plan,
            gates: plan.gates(),
        }
    }

    // As it is: the file's byte is the kind, and is only compared. The bound on g stands in four methods; an index with the bound in its type would be of
    // one plan, and made anew for each gate that is read.
    #[tactic(auto, using(crate::proofs::Counts::kinds))]
    fn kind(&self, g: usize) -> usize
        requires { g < self.now.plan.now.header.gates }
        ensures { result ≡ kind_of (gate_at self.now.plan.now.bytes.now g) }
    {
        self.gates.kind(g)
    }

    fn gate(&self, g: usize) -> Gate
        requires { g < self.now.plan.now.header.gates }
        ensures { result ≡ gate_at self.now.plan.now.bytes.now g }
    {
        self.gates.gate(g)
    }

    // A tally for party i of the gates below gate g, with gate g.
    // As it is: no `match` on the kinds, which becomes a jump for each gate.
    #[tactic(auto, using(crate::proofs::Counts::counting_one))]
    fn with_gate(&self, i: usize, g: usize, tally: Tally) -> Tally
        requires g_lt_gates { g < self.now.plan.now.header.gates }
        requires tallied { Tallied (take g (plan_of self.now.plan.now.bytes.now).gates) i tally }
        ensures { Tallied (take (g + 1) (plan_of self.now.plan.now.bytes.now).gates) i result }
    {
        let k = self.kind(g);
        if MULTIPLY < k {
            return Tally {
                randoms: tally.randoms + usize::from(k == RANDOM),
                spends: tally.spends + usize::from(k == SPEND),
                ..tally
            };
        }
        if k == MULTIPLY {
            return Tally {
                multiplies: tally.multiplies + 1,
                ..tally
            };
        }
        if k == INPUT {
            return Tally {
                inputs: tally.inputs + 1,
                own: tally.own + usize::from(is_input_of(i, self.gate(g))),
                ..tally
            };
        }
        tally
    }

    // A tally for party i of the gates below gate `top`, in one pass.
    #[tactic(auto, using(crate::proofs::Counts::counting))]
    fn tally_below(&self, i: usize, top: usize) -> Tally
        requires top_le_gates { top ≤ self.now.plan.now.header.gates }
        ensures { Tallied (take top (plan_of self.now.plan.now.bytes.now).gates) i result }
    {
        let mut tally = Tally {
            inputs: 0,
            own: 0,
            multiplies: 0,
            randoms: 0,
            spends: 0,
        };
        for g in 0..top {
            tally = self.with_gate(i, g, tally);
        }
        tally
    }

    // The step of calls k + 1: those of the gates that take rounds come one by one, then the outs'.
    #[tactic(auto, using(crate::proofs::Steps::stepping))]
    fn step_after(&self, k: usize) -> Step
        ensures { record { eq : result ≡ step_at (plan_of self.now.plan.now.bytes.now) (suc k); of : Stepped (plan_of self.now.plan.now.bytes.now) result } }
    {
        let rule = self.plan.header.rule;
        let mut left = k;
        for g in 0..self.plan.header.gates {
            let kind = self.kind(g);
            if MULTIPLY <= kind {
                let steps = steps_of(rule, kind);
                if left < steps {
                    return step_of(rule, g, self.gate(g), left);
                }
                left -= steps;
            }
        }
        Step::SendOuts
    }
}

// A tally for party i of the gates below gate `top`.
fn tally_below(plan: &PlanFile, i: usize, top: usize) -> Tally
    requires top_le_gates { top ≤ plan.now.header.gates }
    ensures { Tallied (take top (plan_of plan.now.bytes.now).gates) i result }
{
    PlanGates::new(plan).tally_below(i, top)
}

// Of all gates.
#[tactic(auto, using(crate::proofs::Counts::tallied_all))]
pub fn tally_of(plan: &PlanFile, i: usize) -> Tally
    ensures { Tallied (plan_of plan.now.bytes.now).gates i result }
{
    tally_below(plan, i, plan.header.gates)
}

// ---- the same from the plan alone

pub fn last_call(plan: &PlanFile) -> usize
    ensures { record { eq : result ≡ last_call (plan_of plan.now.bytes.now); low : 2 ≤ result; le : result ≤ 3074 } }
{
    Seat::new(plan, 0).last_call()
}

pub fn own_input_count(plan: &PlanFile, i: usize) -> usize
    ensures { record { eq : result ≡ own_input_count (plan_of plan.now.bytes.now) i; le : result ≤ 1024 } }
{
    Seat::new(plan, i).own_inputs()
}

pub fn own_coin_count(plan: &PlanFile, i: usize) -> usize
    ensures { record { eq : result ≡ own_coin_count (plan_of plan.now.bytes.now) i; le : result ≤ 43008 } }
{
    Seat::new(plan, i).own_coins()
}

// The inputs of a run: figures, and a draw of every party at each random wire.
#[tactic(auto, using(crate::proofs::Sizes::sizing))]
pub fn input_count(plan: &PlanFile) -> usize
    ensures { record { eq : result ≡ input_count (plan_of plan.now.bytes.now); le : result ≤ 15360 } }
{
    let c = tally_of(plan, 0);
    c.inputs + plan.header.n * c.randoms
}

// The coins of a run.
#[tactic(auto, using(crate::proofs::Sizes::sizing))]
pub fn coin_count(plan: &PlanFile) -> usize
    ensures { record { eq : result ≡ coin_count (plan_of plan.now.bytes.now); le : result ≤ 645120 } }
{
    let c = tally_of(plan, 0);
    let h = plan.header;
    h.t * c.inputs + multiply_coins(plan) * c.multiplies + h.t * h.n * c.randoms
}

// The triples of a run: every party's.
#[tactic(auto, using(crate::proofs::Sizes::sizing))]
pub fn triple_count(plan: &PlanFile) -> usize
    ensures { record { eq : result ≡ party_count (plan_of plan.now.bytes.now) * triple_numbers (plan_of plan.now.bytes.now); le : result ≤ 15345 } }
{
    plan.header.n * (3 * tally_of(plan, 0).spends)
}

// Party i's inputs at gates below g.
#[tactic(auto, using(crate::proofs::Sizes::sizing))]
pub fn inputs_below(plan: &PlanFile, i: usize, g: usize) -> usize
    requires g_le_gates { g ≤ plan.now.header.gates }
    ensures { record {
      eq : result ≡ count_where (eqb i) (flat_map (input_owners_at (plan_of plan.now.bytes.now)) (take g (plan_of plan.now.bytes.now).gates));
      le : result ≤ 1024;
    } }
{
    inputs_in(plan, i, tally_below(plan, i, g))
}

// Its coins there.
#[tactic(auto, using(crate::proofs::Sizes::sizing))]
pub fn coins_below(plan: &PlanFile, i: usize, g: usize) -> usize
    requires g_le_gates { g ≤ plan.now.header.gates }
    ensures { record {
      eq : result ≡ count_where (eqb i) (flat_map (coin_owners_at (plan_of plan.now.bytes.now)) (take g (plan_of plan.now.bytes.now).gates));
      le : result ≤ 43008;
    } }
{
    coins_in(plan, i, tally_below(plan, i, g))
}

// The place of gate g's triple among a party's: past those of the gates below it.
#[tactic(auto, using(crate::proofs::Sizes::sizing))]
pub fn triple_at(plan: &PlanFile, g: usize) -> usize
    requires g_le_gates { g ≤ plan.now.header.gates }
    ensures { record { eq : result ≡ triple_at (plan_of plan.now.bytes.now) g; le : result ≤ 3072 } }
{
    3 * tally_below(plan, 0, g).spends
}

// ---- steps

// How many steps a gate has of a kind that takes rounds.
#[tactic(auto, using(crate::proofs::Steps::counting_steps))]
fn steps_of(rule: Rule, kind: usize) -> usize
    ensures { result ≡ cond (eqb kind 5) (multiply_rounds rule) 1 }
{
    if kind == MULTIPLY {
        return multiply_rounds(rule);
    }
    1
}

// Step j of a multiply gate.
// As it is: j is the number of calls past the gate's first, so it is compared.
#[tactic(auto, using(crate::proofs::Steps::stepping))]
fn multiply_step(rule: Rule, g: usize, a: usize, b: usize, j: usize) -> Step
    ensures { result ≡ get_or (multiply_steps rule g a b) j SendOuts }
{
    match rule {
        Rule::Reduction => only(Step::DealProduct(g, a, b), j),
        Rule::Truncation => match j {
            0 => Step::DealZero(g),
            1 => Step::DealMasked(g, a, b),
            2 => Step::SendTruncated(g),
            _ => Step::SendOuts,
        },
    }
}

// Step j of a gate that has one.
#[tactic(auto, using(crate::proofs::Steps::stepping))]
fn only(s: Step, j: usize) -> Step
    ensures { result ≡ get_or (s ∷ []) j SendOuts }
{
    if j == 0 {
        return s;
    }
    Step::SendOuts
}

// Step j of gate g.
#[tactic(auto, using(crate::proofs::Steps::stepping), unfolding(plan::specs::Plans::steps_at))]
fn step_of(rule: Rule, g: usize, gate: Gate, j: usize) -> Step
    ensures { result ≡ get_or (steps_at rule g gate) j SendOuts }
{
    match gate {
        Gate::Multiply(a, b) => multiply_step(rule, g, a, b, j),
        Gate::Random => only(Step::DealDraws(g), j),
        Gate::Spend(a, b) => only(Step::OpenSpent(g, a, b), j),
        _ => Step::SendOuts,
    }
}

// The step that the calls of number k send.
// As it is: k is a call's number and no kind, so it is compared.
#[tactic(auto, using(crate::proofs::Steps::stepping))]
pub fn step_at(plan: &PlanFile, k: usize) -> Step
    ensures { record { eq : result ≡ step_at (plan_of plan.now.bytes.now) k; of : Stepped (plan_of plan.now.bytes.now) result } }
{
    if k == 0 {
        return Step::DealInputs;
    }
    PlanGates::new(plan).step_after(k - 1)
}
