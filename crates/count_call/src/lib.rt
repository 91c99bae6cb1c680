// Counting the views: for given inputs, a set and its members' coins, how many settings of the others' coins lead to each
// view. A row a setting stands in the lent list: it is filled with the setting's view and 1, and the rows are sorted and merged where they stand.
#![tactic(auto)]

ghost use Rattle.std.specs.Prelude.{◌≡◌, ◌+◌, ◌*◌, ◌/◌, ◌%◌, ◌≤◌, length};
ghost use Rattle.numbers.specs.Bytes.{width, numbers, bytes_of};
ghost use Rattle.plan.specs.File.{plan_of};
ghost use Rattle.plan_coalition.specs.Coalitions.{members};
ghost use Rattle.run_protocol.specs.Rounds.{view_count};
ghost use Rattle.count_laws.specs.CountCalls.{view_list, count_size, count_answer, count_after};
ghost use Rattle.count_fill.specs.Filling.{rows_filled};
ghost use Rattle.count_call.specs.Counting.{Countable};

use checking::Given;
use count_fill::Settings;
use plan::Refusal;
use run_dealings::Way;
use run_tables::RunPlan;

pub mod checking;

impl Given<'_> {
    // The rows of all settings, as they come, by the plan with what its dealings are worked with. Where there are at most 65,536 settings a run has at
    // most 14,576 coins.
    #[tactic(auto, using(crate::proofs::CallLaws::rooming))]
    fn fill_rows_by(&self, run: &RunPlan, v: usize, out: &mut [u8])
        requires countable { Countable (plan_of run.now.plan.now.bytes.now) self.now.set self.now.inputs.now self.now.coins.now }
        requires v_value { (v ≡ view_count (plan_of run.now.plan.now.bytes.now) (members self.now.set)) × (v ≤ 1097728) }
        requires out_len { length out.old % (width * (v + 1)) ≡ 0 }
        ensures { out.new ≡ rows_filled (plan_of run.now.plan.now.bytes.now) self.now.set (numbers self.now.inputs.now) (numbers self.now.coins.now) (length out.old / (width * (v + 1))) }
    {
        let n = plan_counts::coin_count(run.plan);
        let mut owners = [0u8; 14576];
        let mut coins = [0u8; 58304];
        count_fill::owners(run.plan, &mut owners);
        let settings = Settings {
            run,
            set: self.set,
            inputs: self.inputs,
            given: self.coins,
            owners: &owners[..n],
            view_len: v,
        };
        settings.fill(&mut coins, out);
    }

    // The same from the plan alone.
    #[tactic(auto, using(crate::proofs::CallLaws::rooming))]
    fn fill_rows(&self, v: usize, out: &mut [u8])
        requires countable { Countable (plan_of self.now.plan.now.bytes.now) self.now.set self.now.inputs.now self.now.coins.now }
        requires v_value { (v ≡ view_count (plan_of self.now.plan.now.bytes.now) (members self.now.set)) × (v ≤ 1097728) }
        requires out_len { length out.old % (width * (v + 1)) ≡ 0 }
        ensures { out.new ≡ rows_filled (plan_of self.now.plan.now.bytes.now) self.now.set (numbers self.now.inputs.now) (numbers self.now.coins.now) (length out.old / (width * (v + 1))) }
    {
        let mut rows = [0u64; 240];
        let mut weights = [0u64; 15];
        let mut matrix = [0u64; 225];
        let points = seat_messages::points_of(self.plan);
        let points = &points[..self.plan.header.n];
        let run = RunPlan::new(
            self.plan,
            Way::Grid,
            points,
            &mut rows,
            &mut weights,
            &mut matrix,
        );
        self.fill_rows_by(&run, v, out);
    }

    // Writes the views of a call that no refusal falls on, each with its count.
    #[tactic(auto, using(crate::proofs::CallLaws::tallying))]
    fn write_views(&self, out: &mut [u8])
        requires countable { Countable (plan_of self.now.plan.now.bytes.now) self.now.set self.now.inputs.now self.now.coins.now }
        requires out_len { length out.old ≡ count_size (plan_of self.now.plan.now.bytes.now) self.now.set }
        ensures { out.new ≡ bytes_of (view_list (plan_of self.now.plan.now.bytes.now) self.now.set (numbers self.now.inputs.now) (numbers self.now.coins.now)) }
    {
        let v = run_bench::checking::view_count(self.plan, self.set);
        let k = checking::settings(self.plan, self.set);
        self.fill_rows(v, out);
        count_rows::tally(out, v, k);
    }

    // Counts the views of a plan that passes.
    #[tactic(auto, using(crate::proofs::CallLaws::calling))]
    fn count(&self, out: &mut [u8]) -> Result<(), Refusal>
        ensures answer { result ≡ count_answer self.now.plan.now.bytes.now self.now.set self.now.inputs.now self.now.coins.now (length out.old) }
        ensures out { out.new ≡ count_after self.now.plan.now.bytes.now self.now.set self.now.inputs.now self.now.coins.now out.old }
    {
        self.check(out.len())?;
        self.write_views(out);
        Ok(())
    }
}

// Counts the views, and writes a row for each: its numbers, then its count, views ascending, rows left over 0; or answers the first refusal and
// writes nothing.
#[tactic(auto, using(crate::proofs::CallLaws::calling))]
pub fn count(
    bytes: &[u8],
    set: u16,
    inputs: &[u8],
    coins: &[u8],
    out: &mut [u8],
) -> Result<(), Refusal>
    ensures answer { result ≡ count_answer bytes.now set inputs.now coins.now (length out.old) }
    ensures out { out.new ≡ count_after bytes.now set inputs.now coins.now out.old }
{
    let plan = plan_reading::read(bytes)?;
    let given = Given {
        plan: &plan,
        set,
        inputs,
        coins,
    };
    given.count(out)
}
