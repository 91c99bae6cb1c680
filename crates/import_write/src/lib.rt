// The second pass over a circuit's text: the plan's file is written.
#![tactic(auto, using(crate::proofs::Bytes::putting))]

ghost use Rattle.std.specs.Prelude.{◌≡◌, ◌+◌, ◌*◌, ◌<◌, ◌≤◌, length, get_or, set, replicate};
ghost use mathlib.Core.List.{[], ◌∷◌, ◌++◌, flat_map};
ghost use Rattle.numbers.specs.Tables.{tab};
ghost use Rattle.plan.specs.declared.Gate.TheVariants.{Input};
ghost use Rattle.plan_file.specs.Bodies.{written, gates_bytes, out_bytes, place_in, out_start, file_size, version_for, file_of_plan};
ghost use Rattle.import_text.specs.Circuits.{circuit_of};
ghost use Rattle.import_circuit.specs.Wires.{output_wires};
ghost use Rattle.import_circuit.specs.Making.{input_gates, made_by, gates_from, held_after, outs_of, circuit_bodies};
ghost use Rattle.import_write.specs.Second.{numbers_in, gates_in, all_gates, Putting, Filing, Importable};

use import_text::{Head, LogicGate};
use plan::{Gate, Output};

// ---- the plan's wire that holds each wire

fn held_at(held: &[usize], w: usize) -> usize
    ensures { result ≡ get_or held.now w 0 }
{
    held.get(w).copied().unwrap_or(0)
}

fn hold(held: &mut [usize], w: usize, v: usize)
    ensures { held.new ≡ set held.old w v }
{
    if w < held.len() {
        held[w] = v;
    }
}

// Each wire is held by itself.
fn hold_own(held: &mut [usize])
    ensures { held.new ≡ tab (λ w. w) (length held.old) }
{
    for (w, wire) in held.iter_mut().enumerate() {
        *wire = w;
    }
}

// ---- a gate of the circuit, in a version's layout

// Gates in a row, from gate g on.
fn put_row(out: &mut [u8], version: usize, g: usize, gates: &[Gate])
    requires { record { g : g ≤ 5 * 65536; few : length gates.now ≤ 4 } }
    ensures { out.new ≡ written out.old (place_in version g) (gates_bytes version gates.now) }
{
    for (i, x) in gates.iter().enumerate() {
        plan_file::put_gate(out, version, g + i, *x);
    }
}

// The gates that a gate of the circuit makes, from gate g on.
// As it is: p is a number that is at least 2, and no `Field`: the text's check leaves none, and one made here would search for a divisor once more.
fn put_made(out: &mut [u8], version: usize, g: usize, p: u64, held: &[usize], x: LogicGate)
    requires { record { g : g ≤ 5 * 65536; p : 2 ≤ p } }
    ensures { out.new ≡ written out.old (place_in version g) (gates_bytes version (made_by p g held.now x)) }
{
    match x {
        // a + b - 2ab
        LogicGate::Xor(a, b, _) => {
            let (a, b) = (held_at(held, a), held_at(held, b));
            let product = Gate::Multiply(a, b);
            let less_two = Gate::Scale(g, p - 2);
            let sum = Gate::Add(a, b);
            let both = Gate::Add(g + 2, g + 1);
            put_row(out, version, g, &[product, less_two, sum, both]);
        }
        LogicGate::And(a, b, _) => {
            let product = Gate::Multiply(held_at(held, a), held_at(held, b));
            put_row(out, version, g, &[product]);
        }
        LogicGate::Inv(a, _) => {
            let less = Gate::Scale(held_at(held, a), p - 1);
            put_row(out, version, g, &[less, Gate::Offset(g, 1)]);
        }
    }
}

// ---- the gates

// The gates of as many gates' lines, from gate `start` on.
// As it is: the text, the table of what holds each wire, the buffer and its version go from function to function one by one. A struct of them would hold
// two `&mut`, so that each clause would name table and buffer at the start and at the end of the call.
#[tactic(auto, using(crate::proofs::Bytes::gating))]
fn put_gates(
    s: &[u8],
    at: usize,
    gates: usize,
    version: usize,
    p: u64,
    start: usize,
    held: &mut [usize],
    out: &mut [u8],
)
    requires { record { gates : gates < 65536; p : 2 ≤ p; start : start ≤ 65536 } }
    ensures held { held.new ≡ held_after start held.old (gates_in gates s.now at) }
    ensures out { out.new ≡ written out.old (place_in version start) (gates_bytes version (gates_from p start held.old (gates_in gates s.now at))) }
{
    let mut e: usize = at;
    let mut g: usize = start;
    for k in 0..gates {
        let Some((x, next)) = import_text::gate_at(s, import_lines::line_start(s, e)) else {
            return;
        };
        put_made(out, version, g, p, held, x);
        let size = import_circuit::gate_size(x);
        hold(held, import_circuit::set_by(x), g + size - 1);
        g += size;
        e = next;
    }
}

// ---- the input gates

// As many inputs of a party, from gate `start` on.
#[tactic(auto, using(crate::proofs::Bytes::naming))]
fn put_party(out: &mut [u8], version: usize, start: usize, party: usize, count: usize)
    requires { record { start : start ≤ 65535 * 65535; count : count < 65536 } }
    ensures { out.new ≡ written out.old (place_in version start) (gates_bytes version (replicate count (Input party))) }
{
    for i in 0..count {
        plan_file::put_gate(out, version, start + i, Gate::Input(party));
    }
}

// The inputs of as many values, the first of which belongs to party 1.
#[tactic(auto, using(crate::proofs::Bytes::naming))]
fn put_inputs(s: &[u8], at: usize, values: usize, version: usize, out: &mut [u8])
    requires { values < 65536 }
    ensures { out.new ≡ written out.old (place_in version 0) (gates_bytes version (input_gates 1 (numbers_in values s.now at))) }
{
    let mut e: usize = at;
    let mut g: usize = 0;
    for k in 0..values {
        let Some((v, next)) = import_lines::number(s, e) else {
            return;
        };
        put_party(out, version, g, k + 1, v as usize);
        g += v as usize;
        e = next;
    }
}

// ---- the outs

// The outs after the gates, of these wires: they go to party 1.
#[tactic(auto, using(crate::proofs::Bytes::outing))]
fn put_outs(out: &mut [u8], version: usize, gates: usize, wires: &[usize])
    requires { record { gates : gates ≤ 1024; count : length wires.now ≤ 64 } }
    ensures { out.new ≡ written out.old (out_start version gates 0) (flat_map out_bytes (outs_of wires.now 0 (length wires.now))) }
{
    for (o, wire) in wires.iter().enumerate() {
        let x = Output {
            party: 1,
            wire: *wire,
        };
        plan_file::put_out(out, version, gates, o, x);
    }
}

// ---- the file

// All gates: the inputs, then the circuit's.
#[tactic(auto, using(crate::proofs::Whole::filling))]
fn put_all(s: &[u8], h: Head, version: usize, p: u64, held: &mut [usize], out: &mut [u8])
    requires { Putting s.now h p }
    ensures held { held.new ≡ held_after h.inputs (tab (λ w. w) (length held.old)) (gates_in h.gates s.now h.at) }
    ensures out { out.new ≡ written out.old (place_in version 0) (gates_bytes version (all_gates s.now h p (length held.old))) }
{
    put_inputs(s, h.first, h.values, version, out);
    hold_own(held);
    put_gates(s, h.at, h.gates, version, p, h.inputs, held, out);
}

// The contents, the gates, the outs and the points, with room for what holds each wire.
#[tactic(auto, using(crate::proofs::Whole::filing))]
fn put_file(
    s: &[u8],
    h: Head,
    n: u32,
    t: u32,
    p: u32,
    gates: usize,
    held: &mut [usize],
    out: &mut [u8],
)
    requires { Filing s.now h n t p gates (length held.old) }
    ensures { out.new ≡ written out.old 0 (file_of_plan n t p (circuit_bodies p (circuit_of s.now))) }
{
    let version = plan_file::version_for(p);
    plan_file::put_contents(out, version, n, t, p, gates, h.outputs);
    put_all(s, h, version, p as u64, held, out);
    put_outs(out, version, gates, &held[h.wires - h.outputs..]);
    let points = plan_file::out_start(version, gates, h.outputs);
    plan_file::put_first_points(out, version, points, n as usize);
}

// Writes the plan of a text that was checked: a plan of so many gates.
// As it is: n and t are parameters of this function and of put_file alone, which hands them on to the plan's contents: a struct of n, t and p would be taken
// apart at once. The table of what holds each wire stands in fixed memory, for there is no heap.
#[tactic(auto, using(crate::proofs::Whole::importing))]
pub fn write_text(s: &[u8], n: u32, t: u32, p: u32, gates: usize, out: &mut [u8])
    requires { record { text : Importable s.now n t p gates; room : length out.old ≡ file_size (version_for p) n gates (output_wires (circuit_of s.now)) } }
    ensures { out.new ≡ file_of_plan n t p (circuit_bodies p (circuit_of s.now)) }
{
    let Some(h) = import_text::head_at(s) else {
        return;
    };
    let mut room = [0usize; 1024];
    put_file(s, h, n, t, p, gates, &mut room[..h.wires], out);
}
