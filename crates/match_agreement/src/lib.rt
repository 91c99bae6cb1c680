// Refusals 9 to 13, 29, 19, 21 and 22 of a matching, in their order.
#![tactic(auto)]

ghost use Rattle.std.specs.Prelude.{◌≡◌, true, suc, ◌<◌, ◌≤◌, length};
ghost use Rattle.numbers.specs.Tables.{tab, first_failing};
ghost use Rattle.numbers.specs.Bytes.{numbers, all_below};
ghost use Rattle.plan.specs.Refusals.{first_of};
ghost use Rattle.plan.specs.Plans.{input_owners_at, input_count};
ghost use Rattle.plan.specs.File.{plan_of, gate_at};
ghost use Rattle.run_protocol.specs.Ideal.{inputs_taken, values};
ghost use Rattle.match_agreement.specs.MatchCalls.{pair_checks};
ghost use Rattle.match_agreement.specs.MatchParts.{input_checks, coin_checks, agree_checks, same_input, input_agrees, gate_agrees, out_agrees, out_agrees_at};

use plan::{Gate, Output, PlanFile, Refusal};

// Two lists of inputs of a plan, of which a coalition's set names the members.
#[derive(Clone, Copy)]
pub struct InputPair<'a> {
    pub plan: &'a PlanFile<'a>,
    pub set: u16,
    pub first: &'a [u8],
    pub second: &'a [u8],
}

// Whether an out is no member's, or has the same value in both lists of values.
#[tactic(auto, using(crate::proofs::AgreeLaws::outing))]
fn out_agrees(set: u16, out: Output, before: &[u64], after: &[u64]) -> bool
    ensures { result ≡ out_agrees set before.now after.now out }
{
    !plan_coalition::is_member(set, out.party)
        || run_ideal::wire(before, out.wire) == run_ideal::wire(after, out.wire)
}

impl InputPair<'_> {
    // Refusals 9 to 11.
    #[tactic(auto, using(crate::proofs::AgreeLaws::inputting))]
    pub fn check_inputs(&self) -> Result<(), Refusal>
        ensures { result ≡ first_of (input_checks (plan_of self.now.plan.now.bytes.now) self.now.set self.now.first.now self.now.second.now) }
    {
        if !plan_coalition::set_ok(self.plan.header.n, self.plan.header.t, self.set) {
            return Err(Refusal::Coalition);
        }
        let count = plan_counts::input_count(self.plan);
        if !numbers::count_is(self.first, count) {
            return Err(Refusal::InputCount);
        }
        if !numbers::count_is(self.second, count) {
            return Err(Refusal::InputCount);
        }
        let p = self.plan.header.field.p;
        if let Some(i) = numbers::first_over(self.first, p) {
            return Err(Refusal::InputValue(i));
        }
        if let Some(i) = numbers::first_over(self.second, p) {
            return Err(Refusal::InputValue(i));
        }
        Ok(())
    }

    // Refusals 12, 13, 29 and 19, for a buffer of so many bytes.
    #[tactic(auto, using(crate::proofs::AgreeLaws::coining))]
    fn check_coins(&self, coins: &[u8], room: usize) -> Result<(), Refusal>
        ensures { result ≡ first_of (coin_checks (plan_of self.now.plan.now.bytes.now) coins.now room) }
    {
        let count = plan_counts::coin_count(self.plan);
        seat_admission::check_coins(coins, count, self.plan.header.field.p)?;
        if plan_counts::tally_of(self.plan, 0).spends != 0 {
            return Err(Refusal::Triples);
        }
        if room != numbers::WIDTH * count {
            return Err(Refusal::BufferLength);
        }
        Ok(())
    }

    // Whether input i, a party's, is no member's, or the same in both lists.
    #[tactic(auto, using(crate::proofs::AgreeLaws::agreeing))]
    fn same_input(&self, party: usize, i: usize) -> bool
        ensures { result ≡ same_input self.now.set party (numbers self.now.first.now) (numbers self.now.second.now) i }
    {
        !plan_coalition::is_member(self.set, party)
            || numbers::read(self.first, i) == numbers::read(self.second, i)
    }

    // Of a random wire's draws, which stand party by party from place `next` on, the first that is a member's and differs.
    #[tactic(auto, using(crate::proofs::AgreeLaws::drawing))]
    fn first_draw_off(&self, next: usize) -> Option<usize>
        requires { next ≤ 15360 }
        ensures { result ≡ first_failing (gate_agrees self.now.set (tab suc self.now.plan.now.header.n) (numbers self.now.first.now) (numbers self.now.second.now) next) self.now.plan.now.header.n }
    {
        for j in 0..self.plan.header.n {
            if !self.same_input(j + 1, next + j) {
                return Some(j);
            }
        }
        None
    }

    // Of gate g's inputs, which stand from place `next` on, the first that is a member's and differs.
    #[tactic(auto, using(crate::proofs::AgreeLaws::gating))]
    fn gate_off(&self, g: usize, next: usize) -> Option<usize>
        requires g_lt_gates { g < self.now.plan.now.header.gates }
        requires next_bound { next ≤ 15360 }
        ensures { result ≡ first_failing (gate_agrees self.now.set (input_owners_at (plan_of self.now.plan.now.bytes.now) (gate_at self.now.plan.now.bytes.now g)) (numbers self.now.first.now) (numbers self.now.second.now) next) (inputs_taken (plan_of self.now.plan.now.bytes.now) (gate_at self.now.plan.now.bytes.now g)) }
    {
        match self.plan.gate(g) {
            Gate::Input(party) => {
                if self.same_input(party, next) {
                    None
                } else {
                    Some(0)
                }
            }
            Gate::Random => self.first_draw_off(next),
            _ => None,
        }
    }

    // The first input of a member at which the two lists differ.
    #[tactic(auto, using(crate::proofs::AgreeLaws::comparing))]
    fn first_input_off(&self) -> Option<usize>
        ensures { result ≡ first_failing (input_agrees (plan_of self.now.plan.now.bytes.now) self.now.set (numbers self.now.first.now) (numbers self.now.second.now)) (input_count (plan_of self.now.plan.now.bytes.now)) }
    {
        let mut next = 0;
        for g in 0..self.plan.header.gates {
            let taken = run_ideal::inputs_taken(self.plan, self.plan.gate(g));
            if let Some(j) = self.gate_off(g, next) {
                return Some(next + j);
            }
            next += taken;
        }
        None
    }

    // The first out of a member at which two lists of values differ.
    #[tactic(auto, using(crate::proofs::AgreeLaws::finding_outs))]
    fn first_value_off(&self, before: &[u64], after: &[u64]) -> Option<usize>
        ensures { result ≡ first_failing (out_agrees_at (plan_of self.now.plan.now.bytes.now) self.now.set before.now after.now) (length (plan_of self.now.plan.now.bytes.now).outs) }
    {
        for o in 0..self.plan.header.outs {
            if !out_agrees(self.set, plan::out_at(self.plan.bytes, o), before, after) {
                return Some(o);
            }
        }
        None
    }

    // The first out of a member at which the plan's values differ.
    #[tactic(auto, using(crate::proofs::AgreeLaws::outs_by_values))]
    fn first_out_off(&self) -> Option<usize>
        requires first_value { all_below self.now.plan.now.header.field.p (numbers self.now.first.now) ≡ true }
        requires second_value { all_below self.now.plan.now.header.field.p (numbers self.now.second.now) ≡ true }
        ensures { result ≡ first_failing (out_agrees_at (plan_of self.now.plan.now.bytes.now) self.now.set (values (plan_of self.now.plan.now.bytes.now) (numbers self.now.first.now)) (values (plan_of self.now.plan.now.bytes.now) (numbers self.now.second.now))) (length (plan_of self.now.plan.now.bytes.now).outs) }
    {
        let gates = self.plan.header.gates;
        let mut before = [0u64; 1024];
        let mut after = [0u64; 1024];
        run_ideal::values(self.plan, self.first, &mut before);
        run_ideal::values(self.plan, self.second, &mut after);
        self.first_value_off(&before[..gates], &after[..gates])
    }

    // Refusals 21 and 22.
    #[tactic(auto, using(crate::proofs::AgreeLaws::both_agreeing))]
    pub fn check_agree(&self) -> Result<(), Refusal>
        requires first_value { all_below self.now.plan.now.header.field.p (numbers self.now.first.now) ≡ true }
        requires second_value { all_below self.now.plan.now.header.field.p (numbers self.now.second.now) ≡ true }
        ensures { result ≡ first_of (agree_checks (plan_of self.now.plan.now.bytes.now) self.now.set (numbers self.now.first.now) (numbers self.now.second.now)) }
    {
        if let Some(i) = self.first_input_off() {
            return Err(Refusal::InputsDiffer(i));
        }
        if let Some(o) = self.first_out_off() {
            return Err(Refusal::OutputsDiffer(o));
        }
        Ok(())
    }

    // The first refusal of 9 to 13, 29, 19, 21 and 22 that falls on the lists, a setting of coins, and a buffer of so many bytes.
    #[tactic(auto, using(crate::proofs::AgreeLaws::pairing))]
    pub fn check(&self, coins: &[u8], room: usize) -> Result<(), Refusal>
        ensures { result ≡ first_of (pair_checks (plan_of self.now.plan.now.bytes.now) self.now.set self.now.first.now self.now.second.now coins.now room) }
    {
        self.check_inputs()?;
        self.check_coins(coins, room)?;
        self.check_agree()
    }
}
