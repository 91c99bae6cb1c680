// The plan's own arithmetic, without shares: the value of every wire.
#![tactic(auto)]

ghost use Rattle.std.specs.Prelude.{◌≡◌, true, ◌<◌, ◌≤◌, length, get_or, take, drop};
ghost use Rattle.numbers.specs.Bytes.{numbers, all_below};
ghost use Rattle.field.specs.Field.{Is};
ghost use Rattle.sharing_laws.specs.Basis.{sum_all};
ghost use Rattle.plan.specs.File.{gate_at, plan_of};
ghost use Rattle.run_protocol.specs.Ideal.{inputs_taken, gate_value, values};

use plan::{Gate, PlanFile};

// The inputs that a gate takes from the list of all.
#[tactic(auto, using(crate::proofs::IdealLaws::taking))]
pub fn inputs_taken(plan: &PlanFile, gate: Gate) -> usize
    ensures { record { eq : result ≡ inputs_taken (plan_of plan.now.bytes.now) gate; le : result ≤ 15 } }
{
    match gate {
        Gate::Input(_) => 1,
        Gate::Random => plan.header.n,
        _ => 0,
    }
}

// A wire's value; 0 where there is none.
#[tactic(auto, using(crate::proofs::IdealLaws::valuing))]
pub fn wire(wires: &[u64], w: usize) -> u64
    ensures { result ≡ get_or wires.now w 0 }
{
    wires.get(w).copied().unwrap_or(0)
}

// The sum of the draws of a random wire, with which the inputs begin.
#[tactic(auto, using(crate::proofs::IdealLaws::drawing))]
fn drawn(plan: &PlanFile, inputs: &[u8]) -> u64
    requires { all_below plan.now.header.field.p (numbers inputs.now) ≡ true }
    ensures { Is plan.now.header.field.p (sum_all plan.now.header.field.p (take plan.now.header.n (numbers inputs.now))) result }
{
    let f = plan.header.field;
    let mut sum: u64 = 0;
    for j in 0..plan.header.n {
        sum = f.add(sum, numbers::read(inputs, j));
    }
    sum
}

// The value of gate g's wire, from the values of the wires before it and the inputs from place `next` on.
#[tactic(auto, using(crate::proofs::IdealLaws::valuing))]
fn gate_value(plan: &PlanFile, g: usize, inputs: &[u8], next: usize, wires: &[u64]) -> u64
    requires g_lt_gates { g < plan.now.header.gates }
    requires inputs_value { all_below plan.now.header.field.p (numbers inputs.now) ≡ true }
    requires wires_value { all_below plan.now.header.field.p wires.now ≡ true }
    ensures { Is plan.now.header.field.p (gate_value (plan_of plan.now.bytes.now) (gate_at plan.now.bytes.now g) wires.now (drop next (numbers inputs.now))) result }
{
    let f = plan.header.field;
    match plan.gate(g) {
        Gate::Input(_) => numbers::read(inputs, next),
        Gate::Add(a, b) => f.add(wire(wires, a), wire(wires, b)),
        Gate::Scale(a, c) => f.mul(wire(wires, a), c),
        Gate::Offset(a, c) => f.add(wire(wires, a), c),
        Gate::Multiply(a, b) | Gate::Spend(a, b) => f.mul(wire(wires, a), wire(wires, b)),
        Gate::Random => drawn(plan, numbers::rest(inputs, next)),
    }
}

// The values of all wires, in front of the lent ones.
#[tactic(auto, using(crate::proofs::IdealLaws::working))]
pub fn values(plan: &PlanFile, inputs: &[u8], wires: &mut [u64])
    requires inputs_value { all_below plan.now.header.field.p (numbers inputs.now) ≡ true }
    requires gates_in_bounds { plan.now.header.gates ≤ length wires.old }
    ensures { take plan.now.header.gates wires.new ≡ values (plan_of plan.now.bytes.now) (numbers inputs.now) }
{
    let mut next: usize = 0;
    for g in 0..plan.header.gates {
        let v = gate_value(plan, g, inputs, next, &wires[..g]);
        wires[g] = v;
        next += inputs_taken(plan, plan.gate(g));
    }
}
