// The rows of all settings, filled one after the other: a setting's coins, the set's view of the run with them, and 1.
#![tactic(auto)]

ghost use Rattle.std.specs.Prelude.{◌≡◌, true, cond, suc, ◌+◌, ◌*◌, ◌/◌, ◌%◌, ◌≤◌, ◌<◌, length, take, get_or, replicate};
ghost use mathlib.Core.List.{[], ◌∷◌, ◌++◌, flat_map};
ghost use Rattle.numbers.specs.Tables.{tab};
ghost use Rattle.numbers.specs.Bytes.{width, numbers, bytes_of};
ghost use Rattle.plan.specs.Plans.{coin_count, coin_owners_at, coin_owners};
ghost use Rattle.plan.specs.File.{gate_at, plan_of};
ghost use Rattle.plan_coalition.specs.Coalitions.{members, set_ok};
ghost use Rattle.run_protocol.specs.Rounds.{view, view_count};
ghost use Rattle.run_dealings.specs.Rows.{Given};
ghost use Rattle.count_laws.specs.Settings.{coins_from};
ghost use Rattle.count_fill.specs.Filling.{Put, rows_filled, Lent};

use field::Field;
use plan::{Gate, PlanFile, Rule};
use run_tables::RunPlan;

// ---- whose the coins are

// Party i stands k times from a place on; the place after it.
// As it is: the place is a number beside the list. A struct of both, as Text of bench_text, would add a clause to each of three contracts, and its
// one caller needs no place.
#[tactic(auto, using(crate::proofs::OwnerLaws::repeating))]
fn put_owner(i: usize, k: usize, at: usize, out: &mut [u8]) -> usize
    requires i_bound { i < 256 }
    requires k_in_bounds { at + k ≤ length out.old }
    ensures { Put (replicate k i) at out.old out.new result }
{
    out[at..at + k].fill(i as u8);
    at + k
}

// Each of the parties 1 to m stands t times.
#[tactic(auto, using(crate::proofs::OwnerLaws::dealing))]
fn put_dealers(m: usize, t: usize, at: usize, out: &mut [u8]) -> usize
    requires m_bound { m ≤ 15 }
    requires m_in_bounds { at + t * m ≤ length out.old }
    ensures { Put (flat_map (replicate t) (tab suc m)) at out.old out.new result }
{
    let mut next = at;
    for i in 0..m {
        next = put_owner(i + 1, t, next, out);
    }
    next
}

// The owners of gate g's coins.
#[tactic(auto, using(crate::proofs::OwnerLaws::gating))]
fn put_owners(plan: &PlanFile, g: usize, at: usize, out: &mut [u8]) -> usize
    requires g_lt_gates { g < plan.now.header.gates }
    requires g_in_bounds { at + length (coin_owners_at (plan_of plan.now.bytes.now) (gate_at plan.now.bytes.now g)) ≤ length out.old }
    ensures { Put (coin_owners_at (plan_of plan.now.bytes.now) (gate_at plan.now.bytes.now g)) at out.old out.new result }
{
    let t = plan.header.t;
    match plan.gate(g) {
        Gate::Input(s) => put_owner(s, t, at, out),
        Gate::Multiply(_, _) => match plan.header.rule {
            Rule::Reduction => put_dealers(t + t + 1, t, at, out),
            Rule::Truncation => put_dealers(plan.header.n, 3 * t, at, out),
        },
        Gate::Random => put_dealers(plan.header.n, t, at, out),
        _ => at,
    }
}

// The owner of each coin of a run, in front of the room.
#[tactic(auto, using(crate::proofs::OwnerLaws::owning))]
pub fn owners(plan: &PlanFile, out: &mut [u8])
    requires plan_in_bounds { coin_count (plan_of plan.now.bytes.now) ≤ length out.old }
    ensures { take (coin_count (plan_of plan.now.bytes.now)) out.new ≡ coin_owners (plan_of plan.now.bytes.now) }
{
    let mut at = 0;
    for g in 0..plan.header.gates {
        at = put_owners(plan, g, at, out);
    }
}

// ---- a setting

// The next coin, and what is left of the setting's number after it: a member's coin as given, another's the lowest digit.
// As it is: a `bool`, since the caller asks whose the coin is for itself as well: the next place of a member's coin goes by it.
#[tactic(auto, using(crate::proofs::SettingLaws::choosing))]
fn coin(member: bool, given: &[u8], from: usize, f: Field, rest: u64) -> (u64, u64)
    ensures coin { result.0 ≡ cond member (get_or (numbers given.now) from 0) (rest % f.p) }
    ensures left { result.1 ≡ cond member rest (rest / f.p) }
{
    if member {
        (numbers::read(given, from), rest)
    } else {
        (rest % f.p, rest / f.p)
    }
}

// What all settings are run with: the plan with what its dealings are worked with, the set, the inputs, the members' coins, the owners of all coins, and
// the numbers of a view.
#[derive(Clone, Copy)]
pub struct Settings<'a> {
    pub run: &'a RunPlan<'a>,
    pub set: u16,
    pub inputs: &'a [u8],
    pub given: &'a [u8],
    pub owners: &'a [u8],
    pub view_len: usize,
    pub ghost lent: { Lent (plan_of run.now.plan.now.bytes.now) set inputs.now given.now owners.now view_len },
}

impl Settings<'_> {
    // All coins of setting number k, from the members' coins.
    #[tactic(auto, using(crate::proofs::SettingLaws::setting))]
    fn set_coins(&self, k: u64, out: &mut [u8])
        requires { length out.old ≡ width * length self.now.owners.now }
        ensures { out.new ≡ bytes_of (coins_from self.now.run.now.plan.now.header.field.p self.now.set self.now.owners.now (numbers self.now.given.now) k) }
    {
        let f = self.run.plan.header.field;
        let mut from = 0;
        let mut rest = k;
        for (c, owner) in self.owners.iter().enumerate() {
            let member = plan_coalition::is_member(self.set, *owner as usize);
            let (next, left) = coin(member, self.given, from, f, rest);
            numbers::write(out, c, next);
            from += usize::from(member);
            rest = left;
        }
    }

    // The set's view of the run with these coins, then 1; `table` takes the run's shares.
    #[tactic(auto, using(crate::proofs::RowLaws::viewing))]
    fn fill_row(&self, coins: &[u8], table: &mut [u64], row: &mut [u8])
        requires given { Given (plan_of self.now.run.now.plan.now.bytes.now) self.now.inputs.now coins.now [] }
        requires table_in_bounds { self.now.run.now.plan.now.header.n * self.now.run.now.plan.now.header.gates ≤ length table.old }
        requires row_len { length row.old ≡ width * (self.now.view_len + 1) }
        ensures { row.new ≡ bytes_of (view (plan_of self.now.run.now.plan.now.bytes.now) (members self.now.set) (numbers self.now.inputs.now) (numbers coins.now) [] ++ (1 ∷ [])) }
    {
        let e = numbers::WIDTH * self.view_len;
        run_bench::write_run_by(
            self.run,
            self.set,
            self.inputs,
            coins,
            &[],
            table,
            &mut row[..e],
        );
        numbers::write(row, self.view_len, 1);
    }

    // The rows of as many settings as have room, from setting 0 on; `coins` takes each setting's coins, `table` the shares of its run.
    #[tactic(auto, using(crate::proofs::RowLaws::filling))]
    fn fill_by(&self, coins: &mut [u8], table: &mut [u64], out: &mut [u8])
        requires coins_len { length coins.old ≡ width * coin_count (plan_of self.now.run.now.plan.now.bytes.now) }
        requires table_in_bounds { self.now.run.now.plan.now.header.n * self.now.run.now.plan.now.header.gates ≤ length table.old }
        requires out_len { length out.old % (width * (self.now.view_len + 1)) ≡ 0 }
        ensures { out.new ≡ rows_filled (plan_of self.now.run.now.plan.now.bytes.now) self.now.set (numbers self.now.inputs.now) (numbers self.now.given.now) (length out.old / (width * (self.now.view_len + 1))) }
    {
        let size = numbers::WIDTH * (self.view_len + 1);
        for s in 0..out.len() / size {
            self.set_coins(s as u64, coins);
            let at = size * s;
            self.fill_row(coins, table, &mut out[at..at + size]);
        }
    }

    // The same, where the room of the coins may have bytes left over, in a table that holds 1,024 wires of 15 parties.
    #[tactic(auto, using(crate::proofs::RowLaws::rooming))]
    pub fn fill(&self, room: &mut [u8], out: &mut [u8])
        requires owners_in_bounds { width * length self.now.owners.now ≤ length room.old }
        requires out_len { length out.old % (width * (self.now.view_len + 1)) ≡ 0 }
        ensures { out.new ≡ rows_filled (plan_of self.now.run.now.plan.now.bytes.now) self.now.set (numbers self.now.inputs.now) (numbers self.now.given.now) (length out.old / (width * (self.now.view_len + 1))) }
    {
        let used = numbers::WIDTH * self.owners.len();
        let mut table = [0u64; 15360];
        self.fill_by(&mut room[..used], &mut table, out);
    }
}
