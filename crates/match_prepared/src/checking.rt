// Refusals 9 to 13, 29, 19, 21 and 22 of two runs together, in their order.
ghost use Rattle.std.specs.Prelude.{◌≡◌, ◌≤◌, ◌<◌, ◌+◌, ◌*◌, ◌/◌, length};
ghost use Rattle.numbers.specs.Tables.{first_failing};
ghost use Rattle.numbers.specs.Bytes.{width, numbers};
ghost use Rattle.plan.specs.Refusals.{first_of};
ghost use Rattle.plan.specs.Plans.{kind_count};
ghost use Rattle.plan.specs.File.{plan_of, same_bytes};
ghost use Rattle.run_protocol.specs.Preparing.{prepares};
ghost use Rattle.match_prepared.specs.PreparedCalls.{preparing_count, joint_count, joint_below, prepared_ok, joint_checks};
ghost use Rattle.match_prepared.specs.PreparedParts.{joint_coin_checks, same_gate, makes_at, made_as};
ghost use Rattle.plan.specs.declared.Gate.TheVariants.{Multiply, Random};

use match_agreement::InputPair;
use plan::{Gate, PlanFile, Refusal};

// Whether a gate is a random wire.
#[tactic(auto, using(crate::proofs::ShapeLaws::matching))]
fn is_random(gate: Gate) -> bool
    ensures { result ≡ same_gate gate Random }
{
    matches!(gate, Gate::Random)
}

// Whether a gate is the product of wires a and b.
#[tactic(auto, using(crate::proofs::ShapeLaws::matching))]
fn is_product(gate: Gate, a: usize, b: usize) -> bool
    ensures { result ≡ same_gate gate (Multiply a b) }
{
    match gate {
        Gate::Multiply(x, y) => x == a && y == b,
        _ => false,
    }
}

// A preparing plan, and two lists of inputs of the main plan that spends its triples.
#[derive(Clone, Copy)]
pub struct PreparedPair<'a> {
    pub preparing: &'a PlanFile<'a>,
    pub lists: InputPair<'a>,
}

impl PreparedPair<'_> {
    // ---- the preparing plan's shape

    // Whether both plans have the same points.
    #[tactic(auto, using(crate::proofs::ShapeLaws::pointing))]
    fn same_points(&self) -> bool
        ensures { result ≡ same_bytes (plan_of self.now.preparing.now.bytes.now).points (plan_of self.now.lists.plan.now.bytes.now).points }
    {
        let first = seat_messages::points_of(self.preparing);
        let second = seat_messages::points_of(self.lists.plan);
        first[..self.preparing.header.n] == second[..self.lists.plan.header.n]
    }

    // Whether the preparing plan's gates from 3k on are two random wires and their product.
    #[tactic(auto, using(crate::proofs::ShapeLaws::making))]
    fn makes(&self, k: usize) -> bool
        requires { 3 * k + 2 < self.now.preparing.now.header.gates }
        ensures { result ≡ makes_at (plan_of self.now.preparing.now.bytes.now).gates k }
    {
        let plan = self.preparing;
        let a = 3 * k;
        let b = 3 * k + 1;
        if !is_random(plan.gate(a)) {
            return false;
        }
        is_random(plan.gate(b)) && is_product(plan.gate(3 * k + 2), a, b)
    }

    // Whether they are that for every triple, and no others.
    #[tactic(auto, using(crate::proofs::ShapeLaws::making_all))]
    fn makes_triples(&self, triples: usize) -> bool
        requires triples_bound { triples ≤ 1024 }
        requires triples_value { triples ≡ kind_count (plan_of self.now.lists.plan.now.bytes.now) 7 }
        ensures { result ≡ made_as (plan_of self.now.preparing.now.bytes.now).gates (kind_count (plan_of self.now.lists.plan.now.bytes.now) 7) }
    {
        if self.preparing.header.gates != 3 * triples {
            return false;
        }
        for k in 0..triples {
            if !self.makes(k) {
                return false;
            }
        }
        true
    }

    // Whether the preparing plan makes so many triples, with the main plan's t, p and points, and has no outs.
    #[tactic(auto, using(crate::proofs::ShapeLaws::preparing_all))]
    fn prepares(&self, triples: usize) -> bool
        requires triples_bound { triples ≤ 1024 }
        requires triples_value { triples ≡ kind_count (plan_of self.now.lists.plan.now.bytes.now) 7 }
        ensures { result ≡ prepares (plan_of self.now.preparing.now.bytes.now) (plan_of self.now.lists.plan.now.bytes.now) }
    {
        let first = self.preparing.header;
        let second = self.lists.plan.header;
        if first.t != second.t {
            return false;
        }
        if first.field.p != second.field.p {
            return false;
        }
        if !self.same_points() {
            return false;
        }
        self.makes_triples(triples) && first.outs == 0
    }

    // Whether the main plan spends triples, and the preparing plan makes them.
    #[tactic(auto, using(crate::proofs::ShapeLaws::fitting))]
    fn prepared_ok(&self) -> bool
        ensures { result ≡ prepared_ok (plan_of self.now.preparing.now.bytes.now) (plan_of self.now.lists.plan.now.bytes.now) }
    {
        let triples = plan_counts::tally_of(self.lists.plan, 0).spends;
        0 < triples && self.prepares(triples)
    }

    // ---- the joint list: the preparing run's draws and coins, then the main run's coins

    // The numbers of it that are the preparing run's.
    #[tactic(auto, using(crate::proofs::JointLaws::counting))]
    pub fn preparing_count(&self) -> usize
        ensures { record { eq : result ≡ preparing_count (plan_of self.now.preparing.now.bytes.now); le : result ≤ 660480 } }
    {
        plan_counts::input_count(self.preparing) + plan_counts::coin_count(self.preparing)
    }

    #[tactic(auto, using(crate::proofs::JointLaws::counting))]
    pub fn joint_count(&self) -> usize
        ensures { record { eq : result ≡ joint_count (plan_of self.now.preparing.now.bytes.now) (plan_of self.now.lists.plan.now.bytes.now); le : result ≤ 1305600 } }
    {
        self.preparing_count() + plan_counts::coin_count(self.lists.plan)
    }

    // Whether number i is below its own plan's p.
    #[tactic(auto, using(crate::proofs::JointLaws::comparing))]
    fn is_below(&self, count: usize, coins: &[u8], i: usize) -> bool
        requires { count ≡ preparing_count (plan_of self.now.preparing.now.bytes.now) }
        ensures { result ≡ joint_below (plan_of self.now.preparing.now.bytes.now) (plan_of self.now.lists.plan.now.bytes.now) (numbers coins.now) i }
    {
        let coin = numbers::read(coins, i);
        if i < count {
            coin < self.preparing.header.field.p
        } else {
            coin < self.lists.plan.header.field.p
        }
    }

    // The first number that is not.
    #[tactic(auto, using(numbers::proofs::Searches::seeking))]
    fn first_over(&self, coins: &[u8]) -> Option<usize>
        ensures { result ≡ first_failing (joint_below (plan_of self.now.preparing.now.bytes.now) (plan_of self.now.lists.plan.now.bytes.now) (numbers coins.now)) (length coins.now / width) }
    {
        let count = self.preparing_count();
        for i in 0..coins.len() / numbers::WIDTH {
            if !self.is_below(count, coins, i) {
                return Some(i);
            }
        }
        None
    }

    // Refusals 12, 13, 29 and 19, for a buffer of so many bytes.
    #[tactic(auto, using(crate::proofs::JointLaws::coining))]
    fn check_coins(&self, coins: &[u8], room: usize) -> Result<(), Refusal>
        ensures { result ≡ first_of (joint_coin_checks (plan_of self.now.preparing.now.bytes.now) (plan_of self.now.lists.plan.now.bytes.now) coins.now room) }
    {
        let count = self.joint_count();
        if !numbers::count_is(coins, count) {
            return Err(Refusal::CoinCount);
        }
        if let Some(i) = self.first_over(coins) {
            return Err(Refusal::CoinValue(i));
        }
        if !self.prepared_ok() {
            return Err(Refusal::Triples);
        }
        if room != numbers::WIDTH * count {
            return Err(Refusal::BufferLength);
        }
        Ok(())
    }

    // The first refusal of 9 to 13, 29, 19, 21 and 22 that falls on the set, the lists, a joint list, and a buffer of so many bytes.
    #[tactic(auto, using(crate::proofs::JointLaws::checking))]
    pub fn check(&self, coins: &[u8], room: usize) -> Result<(), Refusal>
        ensures { result ≡ first_of (joint_checks (plan_of self.now.preparing.now.bytes.now) (plan_of self.now.lists.plan.now.bytes.now) self.now.lists.set self.now.lists.first.now self.now.lists.second.now coins.now room) }
    {
        let h = self.preparing.header;
        if !plan_coalition::set_ok(h.n, h.t, self.lists.set) {
            return Err(Refusal::Coalition);
        }
        self.lists.check_inputs()?;
        self.check_coins(coins, room)?;
        self.lists.check_agree()
    }
}
