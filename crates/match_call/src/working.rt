// The coins of the matched run. Both runs' tables of shares are worked side by side, gate by gate.
ghost use Rattle.std.specs.Prelude.{◌≡◌, true, suc, ◌+◌, ◌-◌, ◌*◌, ◌<◌, ◌≤◌, length, take, drop};
ghost use Rattle.numbers.specs.Tables.{tab};
ghost use Rattle.numbers.specs.Bytes.{numbers, bytes_of};
ghost use Rattle.plan.specs.File.{plan_of, gate_at};
ghost use Rattle.plan_coalition.specs.Coalitions.{members, set_ok};
ghost use Rattle.run_dealings.specs.Rows.{Stepped};
ghost use Rattle.match_privacy.specs.Matching.{lowest_of, matched_coins};
ghost use Rattle.match_agreement.specs.MatchParts.{Matchable};
ghost use Rattle.match_call.specs.MatchSteps.{delta_whole, delta_tail, spares_of, Equipped, Absorbing, Runnable, MatchedBy, Turn, NewCoins, Both, Matched};

use match_agreement::InputPair;
use match_moves::Mover;
use match_moves::truncation::Truncation;
use plan::PlanFile;
use run_dealings::Way;
use run_tables::RunPlan;

// What a matching is worked from: the plan with what its dealings need, the set, both lists, the first run's coins, both runs' triples, delta's
// coefficients, and what the coins of a multiply by truncation move by besides.
// As it is: no `InputPair`, which would bring the plan a second time, with a ghost field more to say that the two plans are one.
#[derive(Clone, Copy)]
struct Matcher<'a> {
    run: RunPlan<'a>,
    set: u16,
    first: &'a [u8],
    second: &'a [u8],
    coins: &'a [u8],
    first_triples: &'a [u8],
    second_triples: &'a [u8],
    delta: &'a [u64],
    truncation: Truncation<'a>,
    ghost equipped: { Equipped run.plan.now.bytes.now run.plan.now.header set delta.now },
    ghost absorbing: { Absorbing run.plan.now.bytes.now run.plan.now.header set truncation.lowest truncation.spares.now truncation.bases.field.p truncation.bases.t truncation.bases.points.now },
}

// A gate, with the places of its first input in both lists and of its first coin, and how many numbers of each party's triples are spent before it.
#[derive(Clone, Copy)]
struct Place {
    gate: usize,
    input: usize,
    coin: usize,
    spent: usize,
}

// As it is: both tables and `out` go together from `work` to `move_coins`. Of a struct of their `&mut` each clause would have to say too that the
// buffers are the same ones.
impl Matcher<'_> {
    // A gate's new coins; the place after them.
    #[tactic(auto, using(crate::proofs::StepMatchLaws::matching_coins))]
    fn move_coins(&self, at: Place, before: &[u64], after: &[u64], out: &mut [u8]) -> usize
        requires { Turn self.now.run.plan.now.bytes.now self.now.run.plan.now.header at.gate self.now.first.now self.now.second.now before.now after.now at.coin self.now.coins.now out.old self.now.first_triples.now self.now.second_triples.now at.spent }
        ensures { NewCoins (plan_of self.now.run.plan.now.bytes.now) (members self.now.set) self.now.run.plan.now.header.n (gate_at self.now.run.plan.now.bytes.now at.gate) at.gate (drop at.input (numbers self.now.first.now)) (drop at.input (numbers self.now.second.now)) (drop at.coin (numbers self.now.coins.now)) (numbers self.now.first_triples.now) (numbers self.now.second_triples.now) at.spent at.coin before.now after.now out.old out.new result }
    {
        let mover = Mover {
            header: self.run.plan.header,
            sums: self.run.dealings.sums,
            set: self.set,
            delta: self.delta,
            first: self.first,
            second: self.second,
            coins: self.coins,
            before,
            after,
            truncation: &self.truncation,
        };
        mover.gate(at.gate, self.run.plan.gate(at.gate), at.input, at.coin, out)
    }

    // A gate's row in both tables: the first run's with the coins, the second run's with the new ones.
    #[tactic(auto, using(crate::proofs::StepMatchLaws::matching_step))]
    fn step_both(&self, at: Place, new: &[u8], before: &mut [u64], after: &mut [u64])
        requires { Both self.now.run.plan.now.bytes.now self.now.run.plan.now.header at.gate self.now.first.now self.now.second.now before.old after.old at.coin self.now.coins.now new.now self.now.first_triples.now self.now.second_triples.now at.spent }
        ensures stepped { Stepped (plan_of self.now.run.plan.now.bytes.now) self.now.run.plan.now.header.n (gate_at self.now.run.plan.now.bytes.now at.gate) at.gate (drop at.input (numbers self.now.first.now)) (drop at.coin (numbers self.now.coins.now)) (numbers self.now.first_triples.now) at.spent before.old before.new }
        ensures stepped_2 { Stepped (plan_of self.now.run.plan.now.bytes.now) self.now.run.plan.now.header.n (gate_at self.now.run.plan.now.bytes.now at.gate) at.gate (drop at.input (numbers self.now.second.now)) (drop at.coin (numbers new.now)) (numbers self.now.second_triples.now) at.spent after.old after.new }
    {
        let gate = self.run.plan.gate(at.gate);
        self.run.step(
            gate,
            at.gate,
            self.first,
            at.input,
            self.coins,
            at.coin,
            self.first_triples,
            at.spent,
            before,
        );
        self.run.step(
            gate,
            at.gate,
            self.second,
            at.input,
            new,
            at.coin,
            self.second_triples,
            at.spent,
            after,
        );
    }

    // A gate of both runs: its new coins, and its row in both tables. Answers the place after the coins.
    #[tactic(auto, using(crate::proofs::StepMatchLaws::matching_step))]
    fn step(&self, at: Place, before: &mut [u64], after: &mut [u64], out: &mut [u8]) -> usize
        requires { Turn self.now.run.plan.now.bytes.now self.now.run.plan.now.header at.gate self.now.first.now self.now.second.now before.old after.old at.coin self.now.coins.now out.old self.now.first_triples.now self.now.second_triples.now at.spent }
        ensures { Matched (plan_of self.now.run.plan.now.bytes.now) (members self.now.set) self.now.run.plan.now.header.n (gate_at self.now.run.plan.now.bytes.now at.gate) at.gate (drop at.input (numbers self.now.first.now)) (drop at.input (numbers self.now.second.now)) (drop at.coin (numbers self.now.coins.now)) (numbers self.now.first_triples.now) (numbers self.now.second_triples.now) at.spent at.coin before.old after.old out.old before.new after.new out.new result }
    {
        let end = self.move_coins(at, before, after, out);
        self.step_both(at, out, before, after);
        end
    }

    // The coins of the matched run, by the tables of both runs, which are worked gate by gate.
    #[tactic(auto, using(crate::proofs::RunsLaws::matching_runs))]
    fn work(&self, before: &mut [u64], after: &mut [u64], out: &mut [u8])
        requires cases { Runnable self.now.run.plan.now.bytes.now self.now.run.plan.now.header self.now.set self.now.first.now self.now.second.now self.now.coins.now self.now.first_triples.now self.now.second_triples.now (length out.old) }
        requires before_len { (length before.old ≡ 15360) × (length after.old ≡ 15360) }
        ensures { MatchedBy self.now.run.plan.now.bytes.now self.now.set self.now.first.now self.now.second.now self.now.coins.now self.now.first_triples.now self.now.second_triples.now (numbers out.new) }
    {
        let mut at = 0;
        let mut next = 0;
        let mut spent = 0;
        for g in 0..self.run.plan.header.gates {
            let place = Place {
                gate: g,
                input: next,
                coin: at,
                spent,
            };
            at = self.step(place, before, after, out);
            let gate = self.run.plan.gate(g);
            next += run_ideal::inputs_taken(self.run.plan, gate);
            spent += run_dealings::triples_taken(gate);
        }
    }
}

// The lowest of n parties that is no member of the set; 0 where all are.
#[tactic(auto, using(crate::proofs::LowestLaws::seeking_lowest))]
pub fn lowest(set: u16, n: usize) -> usize
    requires { n ≤ 15 }
    ensures { result ≡ lowest_of (members set) (tab suc n) }
{
    for i in 0..n {
        if !plan_coalition::is_member(set, i + 1) {
            return i + 1;
        }
    }
    0
}

// Delta's coefficients; from entry 1 on those of X to X^t.
#[tactic(auto, using(crate::proofs::RunsLaws::finding_delta))]
fn delta(plan: &PlanFile, set: u16) -> [u64; 15]
    requires { set_ok (plan_of plan.now.bytes.now) set ≡ true }
    ensures whole { take (plan.now.header.t + 1) result ≡ delta_whole (plan_of plan.now.bytes.now) set }
    ensures rest { take (plan.now.header.t + 1 - 1) (drop 1 result) ≡ delta_tail (plan_of plan.now.bytes.now) set }
{
    let e = plan.header.t + 1;
    let n = plan.header.n;
    let points = seat_messages::points_of(plan);
    let mut room = [0u64; 16];
    let mut delta = [0u64; 15];
    let count = match_moves::members(set, &points[..n], &mut room);
    sharing_delta::vanishing(plan.header.field, &room[..count], &mut delta[..e]);
    delta
}

// Delta's values at the parties' points.
#[tactic(auto, using(crate::proofs::RunsLaws::sparing))]
fn spares(plan: &PlanFile, set: u16, delta: &[u64]) -> [u64; 15]
    requires delta_value { delta.now ≡ delta_whole (plan_of plan.now.bytes.now) set }
    ensures { take plan.now.header.n result ≡ spares_of (plan_of plan.now.bytes.now) set }
{
    let n = plan.header.n;
    let points = seat_messages::points_of(plan);
    let mut spares = [0u64; 15];
    sharing::deal(plan.header.field, delta, &points[..n], &mut spares[..n]);
    spares
}

// Writes the coins of the matched run, of two lists of inputs, coins and both runs' triples. Both tables stand on the stack: 245,760 bytes.
#[tactic(auto, using(crate::proofs::RunsLaws::working))]
pub fn matched_with(
    lists: &InputPair,
    coins: &[u8],
    first_triples: &[u8],
    second_triples: &[u8],
    out: &mut [u8],
)
    requires { Runnable lists.now.plan.now.bytes.now lists.now.plan.now.header lists.now.set lists.now.first.now lists.now.second.now coins.now first_triples.now second_triples.now (length out.old) }
    ensures numbers { MatchedBy lists.now.plan.now.bytes.now lists.now.set lists.now.first.now lists.now.second.now coins.now first_triples.now second_triples.now (numbers out.new) }
    ensures bytes { out.new ≡ bytes_of (numbers out.new) }
{
    // The arrays stand first: a call before them would make the machine clear them twice.
    let mut before = [0u64; 15360];
    let mut after = [0u64; 15360];
    let mut rows = [0u64; 240];
    let mut bases = [0u64; 225];
    let mut weights = [0u64; 15];
    let mut matrix = [0u64; 225];
    let h = lists.plan.header;
    let delta = delta(lists.plan, lists.set);
    let spares = spares(lists.plan, lists.set, &delta[..h.t + 1]);
    let points = seat_messages::points_of(lists.plan);
    let points = &points[..h.n];
    let lowest = lowest(lists.set, h.n);
    let matcher = Matcher {
        run: RunPlan::new(
            lists.plan,
            Way::Sum,
            points,
            &mut rows,
            &mut weights,
            &mut matrix,
        ),
        set: lists.set,
        first: lists.first,
        second: lists.second,
        coins,
        first_triples,
        second_triples,
        delta: &delta[1..h.t + 1],
        truncation: Truncation::new(h, lowest, &spares[..h.n], points, &mut bases),
    };
    matcher.work(&mut before, &mut after, out);
}

// Writes the coins of the matched run, of two lists of inputs and coins that pass the checks: a plan that is matched alone spends no triple.
#[tactic(auto, using(crate::proofs::AloneLaws::alone))]
pub fn matched(lists: &InputPair, coins: &[u8], out: &mut [u8])
    requires { Matchable lists.now.plan.now.bytes.now lists.now.plan.now.header lists.now.set lists.now.first.now lists.now.second.now coins.now (length out.old) }
    ensures { out.new ≡ bytes_of (matched_coins (plan_of lists.now.plan.now.bytes.now) (members lists.now.set) (numbers lists.now.first.now) (numbers lists.now.second.now) (numbers coins.now)) }
{
    matched_with(lists, coins, &[], &[], out);
}
