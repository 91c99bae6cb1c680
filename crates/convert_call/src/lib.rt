// A plan of version 1 or 2 written as one of version 3.
#![tactic(auto, using(crate::proofs::Converting::putting))]

ghost use Rattle.std.specs.Prelude.{Ok, Err, IfOk, IfErr, ◌≡◌, ◌&&◌, ◌≤◌, leb, length, take};
ghost use mathlib.Core.List.{flat_map};
ghost use Rattle.plan.specs.Refusals.{first_of};
ghost use Rattle.plan.specs.File.{magic, same_bytes, between, version_at, plan_of};
ghost use Rattle.plan_file.specs.Bodies.{written, place_in, out_start, gates_bytes, out_bytes, points_bytes};
ghost use Rattle.convert_call.specs.Converting.{old_checks, converted_file, convert_answer, convert_after};

use plan::{PlanFile, Refusal};

// Whether a file begins as a plan of version 3 or 4.
#[tactic(auto, using(plan::proofs::Ranges::contains_is))]
fn is_later(bytes: &[u8]) -> bool
    ensures { result ≡ (between 3 4 (version_at bytes.now) && (leb 18 (length bytes.now) && same_bytes (take 4 bytes.now) magic)) }
{
    (3..=4).contains(&plan::byte(bytes, 4)) && plan_reading::begins(bytes)
}

// Reads a plan of version 1 or 2: any other version is refused.
#[tactic(auto, using(crate::proofs::Reading::versions))]
pub fn read_old(bytes: &[u8]) -> Result<PlanFile<'_>, Refusal>
    ensures same { IfOk result (λ f. f.bytes.now ≡ bytes.now) }
    ensures passed { IfOk result (λ f. first_of (old_checks bytes.now) ≡ Ok tt) }
    ensures refused { IfErr result (λ r. first_of (old_checks bytes.now) ≡ Err r) }
{
    if is_later(bytes) {
        return Err(Refusal::Version);
    }
    // As it is: `?` and `Ok`. The call alone was tried: that the plan passes is a ghost field of it, and of a plan inside a `Result` no search found it,
    // nor with the type's fact of the call's result.
    let plan = plan_reading::read(bytes)?;
    Ok(plan)
}

// The bytes of the plan as one of version 3.
pub fn converted_size(plan: &PlanFile) -> usize
    ensures { record { eq : result ≡ length (converted_file plan.now.bytes.now); few : result ≤ 10524 } }
{
    plan_file::file_size(3, plan.header.n, plan.header.gates, plan.header.outs)
}

// As it is: three loops, over gates, outs and points. One loop that takes a closure to write the row of an index would be no plainer: each closure would
// state where its row goes and what stands there, which the loop's contract says in each function.
fn put_gates(plan: &PlanFile, out: &mut [u8])
    ensures { out.new ≡ written out.old (place_in 3 0) (gates_bytes 3 (plan_of plan.now.bytes.now).gates) }
{
    for g in 0..plan.header.gates {
        plan_file::put_gate(out, 3, g, plan.gate(g));
    }
}

fn put_outs(plan: &PlanFile, out: &mut [u8])
    ensures { out.new ≡ written out.old (out_start 3 plan.now.header.gates 0) (flat_map out_bytes (plan_of plan.now.bytes.now).outs) }
{
    for o in 0..plan.header.outs {
        plan_file::put_out(out, 3, plan.header.gates, o, plan::out_at(plan.bytes, o));
    }
}

fn put_points(plan: &PlanFile, out: &mut [u8])
    ensures { out.new ≡ written out.old (out_start 3 plan.now.header.gates plan.now.header.outs) (points_bytes 3 (plan_of plan.now.bytes.now).points) }
{
    let at = plan_file::out_start(3, plan.header.gates, plan.header.outs);
    for i in 0..plan.header.n {
        plan_file::put_point(out, 3, at, i, plan::point_at(plan.bytes, i));
    }
}

// Writes the plan as one of version 3.
#[tactic(auto, using(crate::proofs::Converting::filing))]
fn write_third(plan: &PlanFile, out: &mut [u8])
    requires out_len { length out.old ≡ length (converted_file plan.now.bytes.now) }
    ensures { out.new ≡ converted_file plan.now.bytes.now }
{
    plan_file::put_contents(
        out,
        3,
        plan.header.n as u32,
        plan.header.t as u32,
        plan.header.field.p as u32,
        plan.header.gates,
        plan.header.outs,
    );
    put_gates(plan, out);
    put_outs(plan, out);
    put_points(plan, out);
}

// Converts a plan: `out` takes the file of version 3. Answers the first refusal of the plan, with 2 for any version but 1 and 2, or 19, and then
// `out` is not written.
#[tactic(auto, using(crate::proofs::Converting::converting))]
pub fn convert(bytes: &[u8], out: &mut [u8]) -> Result<(), Refusal>
    ensures answer { result ≡ convert_answer bytes.now (length out.old) }
    ensures out { out.new ≡ convert_after bytes.now out.old }
{
    let plan = read_old(bytes)?;
    if out.len() != converted_size(&plan) {
        return Err(Refusal::BufferLength);
    }
    write_third(&plan, out);
    Ok(())
}
