// The run record, written: contents first, an offset from the file's start and a length in bytes for each party; then each
// party's inputs, coins, mail and results. All numbers have four bytes.
#![tactic(auto)]

ghost use Rattle.std.specs.Prelude.{◌≡◌, ◌+◌, ◌-◌, ◌*◌, ◌^◌, ◌≤◌, length, take};
ghost use Rattle.numbers.specs.Bytes.{numbers, stored};
ghost use Rattle.plan.specs.File.{plan_of};
ghost use Rattle.seat_messages.specs.Calls.{unless_refused};
ghost use Rattle.run_protocol.specs.Rounds.{at_end};
ghost use Rattle.run_dealings.specs.Rows.{Given};
ghost use Rattle.run_bench.specs.BenchCalls.{broken_check};
ghost use Rattle.record_laws.specs.Records.{body_size, record_size, contents_of, record_of, record_answer, record_after, record_spent};

use plan::{PlanFile, Refusal};

// The set of parties 1 to n.
#[tactic(auto, using(crate::proofs::Contents::shifting))]
fn everyone(n: usize) -> u16
    requires { n ≤ 15 }
    ensures { result ≡ 2 ^ n - 1 }
{
    (1u16 << n) - 1
}

// The bytes of party i's body.
#[tactic(auto, using(crate::proofs::Contents::sizing))]
pub fn body_size(plan: &PlanFile, i: usize) -> usize
    ensures { record { eq : result ≡ body_size (plan_of plan.now.bytes.now) i; le : result ≤ 274432 } }
{
    numbers::WIDTH * run_bench::checking::view_count_of(plan, i)
}

// The bytes of a record.
#[tactic(auto, using(crate::proofs::Contents::sizing))]
pub fn record_size(plan: &PlanFile) -> usize
    ensures { record { eq : result ≡ record_size (plan_of plan.now.bytes.now); le : result ≤ 4391032 } }
{
    let set = everyone(plan.header.n);
    8 * plan.header.n + numbers::WIDTH * run_bench::checking::view_count(plan, set)
}

// What the contents say of party k + 1: where its body begins, and its bytes.
// As it is: `size` is a number that is written, and not the length of the list.
#[tactic(auto, using(crate::proofs::Contents::listing))]
fn put_content(k: usize, at: usize, size: usize, out: &mut [u8])
    requires { k ≤ 15 }
    ensures { out.new ≡ stored (stored out.old (2 * k) at) (2 * k + 1) size }
{
    numbers::write(out, 2 * k, at as u64);
    numbers::write(out, 2 * k + 1, size as u64);
}

#[tactic(auto, using(crate::proofs::Contents::listing))]
fn put_contents(plan: &PlanFile, out: &mut [u8])
    requires n_in_bounds { 8 * plan.now.header.n ≤ length out.old }
    ensures { take (8 * plan.now.header.n) out.new ≡ contents_of (plan_of plan.now.bytes.now) }
{
    let mut at = 8 * plan.header.n;
    for k in 0..plan.header.n {
        let size = body_size(plan, k + 1);
        put_content(k, at, size, out);
        at += size;
    }
}

// The record of a run whose lists pass: the view of all parties, and the contents before it; or refusal 20.
#[tactic(auto, using(crate::proofs::Recording::writing))]
fn write_record(
    plan: &PlanFile,
    inputs: &[u8],
    coins: &[u8],
    triples: &[u8],
    out: &mut [u8],
) -> Result<(), Refusal>
    requires given { Given (plan_of plan.now.bytes.now) inputs.now coins.now triples.now }
    requires out_len { length out.old ≡ record_size (plan_of plan.now.bytes.now) }
    ensures answer { result ≡ broken_check (plan_of plan.now.bytes.now) (at_end (plan_of plan.now.bytes.now) (numbers inputs.now) (numbers coins.now) (numbers triples.now)) }
    ensures out_after { out.new ≡ unless_refused (broken_check (plan_of plan.now.bytes.now) (at_end (plan_of plan.now.bytes.now) (numbers inputs.now) (numbers coins.now) (numbers triples.now))) (record_of (plan_of plan.now.bytes.now) (numbers inputs.now) (numbers coins.now) (numbers triples.now)) out.old }
{
    let set = everyone(plan.header.n);
    let bodies = 8 * plan.header.n;
    run_bench::write_run(plan, set, inputs, coins, triples, &mut out[bodies..])?;
    put_contents(plan, &mut out[..bodies]);
    Ok(())
}

// The record of a plan that passes.
// As it is: the lists and out are the call's own. A struct of them would be no plainer: nothing is known of them before the checks, and what is known
// after them is asked by write_record alone.
#[tactic(auto, using(crate::proofs::Recording::recording))]
fn record_on(
    plan: &PlanFile,
    inputs: &[u8],
    coins: &[u8],
    triples: &mut [u8],
    out: &mut [u8],
) -> Result<(), Refusal>
    ensures answer { result ≡ record_answer plan.now.bytes.now inputs.now coins.now triples.old (length out.old) }
    ensures triples { triples.new ≡ record_spent plan.now.bytes.now inputs.now coins.now triples.old (length out.old) }
    ensures out { out.new ≡ record_after plan.now.bytes.now inputs.now coins.now triples.old out.old }
{
    run_bench::checking::check_given(plan, inputs, coins, triples)?;
    if out.len() != record_size(plan) {
        return Err(Refusal::BufferLength);
    }
    write_record(plan, inputs, coins, triples, out)?;
    triples.fill(0);
    Ok(())
}

// Runs a plan on all inputs, coins and triples, writes the record of the run, and makes the triples zeros; or answers the first of the plan's refusals,
// 10 to 13, 29, 19 and 20 that falls on it, and writes nothing.
#[tactic(auto, using(crate::proofs::Recording::recording))]
pub fn record(
    bytes: &[u8],
    inputs: &[u8],
    coins: &[u8],
    triples: &mut [u8],
    out: &mut [u8],
) -> Result<(), Refusal>
    ensures answer { result ≡ record_answer bytes.now inputs.now coins.now triples.old (length out.old) }
    ensures triples { triples.new ≡ record_spent bytes.now inputs.now coins.now triples.old (length out.old) }
    ensures out { out.new ≡ record_after bytes.now inputs.now coins.now triples.old out.old }
{
    let plan = plan_reading::read(bytes)?;
    record_on(&plan, inputs, coins, triples, out)
}
