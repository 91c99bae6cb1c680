// The triples that a preparing run leaves, party by party: each party's shares of all wires, read off the run's table of shares.
ghost use Rattle.std.specs.Prelude.{◌≡◌, [], ◌*◌, ◌<◌, ◌≤◌, length};
ghost use Rattle.numbers.specs.Bytes.{width, numbers, bytes_of};
ghost use Rattle.plan.specs.Plans.{kind_count};
ghost use Rattle.plan.specs.File.{plan_of};
ghost use Rattle.run_protocol.specs.Rounds.{triples_from};
ghost use Rattle.run_dealings.specs.Rows.{Given};
ghost use Rattle.match_prepared.specs.MatchingParts.{column_of, columns_of};

use plan::PlanFile;
use run_dealings::Way;
use run_tables::RunPlan;

// Writes party d's shares of all wires, d counted from 0; a wire's row has n.
#[tactic(auto, using(crate::proofs::TripleLaws::columning))]
fn write_column(table: &[u64], n: usize, gates: usize, d: usize, out: &mut [u8])
    requires d_lt_n { d < n }
    requires table_in_bounds { n * gates ≤ length table.now }
    requires out_len { length out.old ≡ width * gates }
    ensures { out.new ≡ bytes_of (column_of n table.now gates d) }
{
    for w in 0..gates {
        numbers::write(out, w, table[n * w + d]);
    }
}

// Writes all parties' shares of all wires, party by party.
#[tactic(auto, using(crate::proofs::TripleLaws::columning_all))]
fn write_columns(table: &[u64], n: usize, gates: usize, out: &mut [u8])
    requires gates_bound { gates ≤ 1024 }
    requires table_in_bounds { n * gates ≤ length table.now }
    requires out_len { length out.old ≡ width * gates * n }
    ensures { out.new ≡ bytes_of (columns_of n table.now gates) }
{
    let size = numbers::WIDTH * gates;
    for d in 0..n {
        let at = size * d;
        write_column(table, n, gates, d, &mut out[at..at + size]);
    }
}

// Writes the triples that a run leaves, by a table that holds 1,024 wires of 15 parties.
#[tactic(auto, using(crate::proofs::TripleLaws::leaving))]
pub fn write_triples(plan: &PlanFile, inputs: &[u8], coins: &[u8], out: &mut [u8])
    requires no_spend { kind_count (plan_of plan.now.bytes.now) 7 ≡ 0 }
    requires given { Given (plan_of plan.now.bytes.now) inputs.now coins.now [] }
    requires out_len { length out.old ≡ width * plan.now.header.gates * plan.now.header.n }
    ensures { out.new ≡ bytes_of (triples_from (plan_of plan.now.bytes.now) (numbers inputs.now) (numbers coins.now)) }
{
    let mut table = [0u64; 15360];
    let mut rows = [0u64; 240];
    let mut weights = [0u64; 15];
    let mut matrix = [0u64; 225];
    let h = plan.header;
    let points = seat_messages::points_of(plan);
    let points = &points[..h.n];
    let run = RunPlan::new(plan, Way::Sum, points, &mut rows, &mut weights, &mut matrix);
    run.fill(inputs, coins, &[], &mut table);
    write_columns(&table, h.n, h.gates, out);
}
