// A run of all parties in one machine: the bench.
#![tactic(auto)]

ghost use Rattle.std.specs.Prelude.{◌≡◌, ◌*◌, ◌^◌, ◌<◌, ◌≤◌, length};
ghost use Rattle.numbers.specs.Bytes.{width, numbers, bytes_of};
ghost use Rattle.plan.specs.Plans.{sent_count};
ghost use Rattle.plan.specs.File.{plan_of};
ghost use Rattle.plan_coalition.specs.Coalitions.{members};
ghost use Rattle.seat_messages.specs.Calls.{unless_refused};
ghost use Rattle.run_protocol.specs.Rounds.{at_end, view, view_count};
ghost use Rattle.run_dealings.specs.Rows.{Given};
ghost use Rattle.run_bench.specs.BenchCalls.{broken_check, bench_answer, benched_of, view_after, spent_after};

use plan::{PlanFile, Refusal};
use run_dealings::Way;
use run_tables::RunPlan;

pub mod checking;
mod outs;

// Writes the views of a set's members in the run of all calls, by the table of shares, whatever the outs open to. The set may have more than t
// members.
#[tactic(auto, using(crate::proofs::BenchLaws::writing_run))]
pub fn write_run_by(
    run: &RunPlan,
    set: u16,
    inputs: &[u8],
    coins: &[u8],
    triples: &[u8],
    table: &mut [u64],
    out: &mut [u8],
)
    requires given { Given (plan_of run.now.plan.now.bytes.now) inputs.now coins.now triples.now }
    requires set_bound { set < 2 ^ run.now.plan.now.header.n }
    requires table_in_bounds { run.now.plan.now.header.n * run.now.plan.now.header.gates ≤ length table.old }
    requires out_len { length out.old ≡ width * view_count (plan_of run.now.plan.now.bytes.now) (members set) }
    ensures { out.new ≡ bytes_of (view (plan_of run.now.plan.now.bytes.now) (members set) (numbers inputs.now) (numbers coins.now) (numbers triples.now)) }
{
    run.fill(inputs, coins, triples, table);
    let used = run.plan.header.n * run.plan.header.gates;
    run_views::write_views(run, set, inputs, coins, triples, &table[..used], out);
}

// The same by a table that is filled, where no out breaks; or refusal 20. Where no triple is spent none does, and nothing is looked at.
#[tactic(auto, using(crate::proofs::BenchLaws::writing_run))]
fn write_checked(
    run: &RunPlan,
    set: u16,
    inputs: &[u8],
    coins: &[u8],
    triples: &[u8],
    table: &mut [u64],
    out: &mut [u8],
) -> Result<(), Refusal>
    requires given { Given (plan_of run.now.plan.now.bytes.now) inputs.now coins.now triples.now }
    requires set_bound { set < 2 ^ run.now.plan.now.header.n }
    requires table_in_bounds { run.now.plan.now.header.n * run.now.plan.now.header.gates ≤ length table.old }
    requires out_len { length out.old ≡ width * view_count (plan_of run.now.plan.now.bytes.now) (members set) }
    ensures answer { result ≡ broken_check (plan_of run.now.plan.now.bytes.now) (at_end (plan_of run.now.plan.now.bytes.now) (numbers inputs.now) (numbers coins.now) (numbers triples.now)) }
    ensures out_after { out.new ≡ unless_refused (broken_check (plan_of run.now.plan.now.bytes.now) (at_end (plan_of run.now.plan.now.bytes.now) (numbers inputs.now) (numbers coins.now) (numbers triples.now))) (bytes_of (view (plan_of run.now.plan.now.bytes.now) (members set) (numbers inputs.now) (numbers coins.now) (numbers triples.now))) out.old }
{
    run.fill(inputs, coins, triples, table);
    let used = run.plan.header.n * run.plan.header.gates;
    let table = &table[..used];
    if !triples.is_empty() {
        outs::check_outs(run, table)?;
    }
    run_views::write_views(run, set, inputs, coins, triples, table, out);
    Ok(())
}

// The same from the plan alone, in a table that holds 1,024 wires of 15 parties.
#[tactic(auto, using(crate::proofs::BenchLaws::writing_run))]
pub fn write_run(
    plan: &PlanFile,
    set: u16,
    inputs: &[u8],
    coins: &[u8],
    triples: &[u8],
    out: &mut [u8],
) -> Result<(), Refusal>
    requires given { Given (plan_of plan.now.bytes.now) inputs.now coins.now triples.now }
    requires set_bound { set < 2 ^ plan.now.header.n }
    requires out_len { length out.old ≡ width * view_count (plan_of plan.now.bytes.now) (members set) }
    ensures answer { result ≡ broken_check (plan_of plan.now.bytes.now) (at_end (plan_of plan.now.bytes.now) (numbers inputs.now) (numbers coins.now) (numbers triples.now)) }
    ensures out_after { out.new ≡ unless_refused (broken_check (plan_of plan.now.bytes.now) (at_end (plan_of plan.now.bytes.now) (numbers inputs.now) (numbers coins.now) (numbers triples.now))) (bytes_of (view (plan_of plan.now.bytes.now) (members set) (numbers inputs.now) (numbers coins.now) (numbers triples.now))) out.old }
{
    let mut table = [0u64; 15360];
    let mut rows = [0u64; 240];
    let mut weights = [0u64; 15];
    let mut matrix = [0u64; 225];
    let points = seat_messages::points_of(plan);
    let points = &points[..plan.header.n];
    let run = RunPlan::new(
        plan,
        Way::Grid,
        points,
        &mut rows,
        &mut weights,
        &mut matrix,
    );
    write_checked(&run, set, inputs, coins, triples, &mut table, out)
}

// Runs a plan on all inputs, coins and triples: writes the view of a coalition, its members ascending, makes the triples zeros, and answers the
// elements sent, own included; or answers the first refusal and writes nothing.
// As it is: the C interface lends the set and the lists one by one. Nothing is known of them before the checks, and what holds after them only
// `write_run` asks, so a struct of them would be made here and taken apart in the next two calls.
#[tactic(auto, using(crate::proofs::BenchLaws::benching))]
pub fn bench(
    bytes: &[u8],
    set: u16,
    inputs: &[u8],
    coins: &[u8],
    triples: &mut [u8],
    out: &mut [u8],
) -> Result<usize, Refusal>
    ensures value { result ≡ benched_of (bench_answer bytes.now set inputs.now coins.now triples.old (length out.old)) (sent_count (plan_of bytes.now)) }
    ensures triples_after { triples.new ≡ spent_after bytes.now set inputs.now coins.now triples.old (length out.old) }
    ensures out_after { out.new ≡ view_after bytes.now set inputs.now coins.now triples.old out.old }
{
    let plan = plan_reading::read(bytes)?;
    checking::check(&plan, set, inputs, coins, triples, out.len())?;
    write_run(&plan, set, inputs, coins, triples, out)?;
    triples.fill(0);
    Ok(plan_sizes::sent_count(&plan))
}
