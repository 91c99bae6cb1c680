// A gate of a circuit: the wire that it sets, and the plan's gates that it takes.
#![tactic(auto, using(crate::proofs::Ways::sizing))]

ghost use Rattle.std.specs.Prelude.{◌≡◌, ◌≤◌};
ghost use Rattle.import_circuit.specs.Wires.{set_by};
ghost use Rattle.import_circuit.specs.Making.{gate_size};

use import_text::LogicGate;

pub fn set_by(gate: LogicGate) -> usize
    ensures { result ≡ set_by gate }
{
    match gate {
        LogicGate::Xor(_, _, c) | LogicGate::And(_, _, c) | LogicGate::Inv(_, c) => c,
    }
}

pub fn gate_size(gate: LogicGate) -> usize
    ensures { record { eq : result ≡ gate_size gate; low : 1 ≤ result; high : result ≤ 4 } }
{
    match gate {
        LogicGate::Xor(_, _, _) => 4,
        LogicGate::And(_, _, _) => 1,
        LogicGate::Inv(_, _) => 2,
    }
}
