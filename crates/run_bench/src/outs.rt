// Refusal 20 of a run.
ghost use Rattle.std.specs.Prelude.{◌≡◌, ◌≤◌, true, length};
ghost use Rattle.numbers.specs.Bytes.{all_below};
ghost use Rattle.plan.specs.File.{plan_of};
ghost use Rattle.seat_messages.specs.Calls.{on_polynomial};
ghost use Rattle.run_views.specs.Flat.{Running};
ghost use Rattle.run_bench.specs.Checks.{broken_in};

use plan::Refusal;
use run_tables::RunPlan;
use sharing_openings::Checker;

// That of an out with these shares: its place is the first party whose share is off.
#[tactic(auto, using(crate::proofs::OutLaws::checking))]
fn check_shares(checker: &Checker, shares: &[u64]) -> Result<(), Refusal>
    requires points_len_bound { length checker.now.points.now ≤ 15 }
    requires shares_value { all_below checker.now.field.p shares.now ≡ true }
    requires shares_len { length shares.now ≡ length checker.now.points.now }
    ensures { result ≡ on_polynomial checker.now.field.p checker.now.t checker.now.points.now shares.now }
{
    if let Some(i) = checker.first_off(shares) {
        let party = i + 1;
        return Err(Refusal::OffPolynomial(party));
    }
    Ok(())
}

// That of the first out, in the plan's order, which has a share that is off; `table` is the table of shares.
#[tactic(auto, using(crate::proofs::OutLaws::each))]
pub fn check_outs(run: &RunPlan, table: &[u64]) -> Result<(), Refusal>
    requires running { Running run.now.plan.now.header table.now }
    ensures { result ≡ broken_in (plan_of run.now.plan.now.bytes.now) run.now.plan.now.header.n table.now }
{
    let h = run.plan.header;
    let mut room = [0u64; 225];
    let used = (h.t + 1) * h.n;
    let checker = Checker::new(h.field, h.t, run.dealings.points, &mut room[..used]);
    for k in 0..h.outs {
        let o = plan::out_at(run.plan.bytes, k);
        let from = h.n * o.wire;
        check_shares(&checker, &table[from..from + h.n])?;
    }
    Ok(())
}
