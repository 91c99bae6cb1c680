// The first pass over a circuit's text: refusal 23, and how many gates and outs the plan has.
#![tactic(auto, using(crate::proofs::Marks::marking))]

ghost use Rattle.std.specs.Prelude.{◌≡◌, ◌*◌, ◌<◌, ◌≤◌, length};
ghost use Rattle.import_circuit.specs.Wires.{is_set, can_set, gate_fits};
ghost use Rattle.import_check.specs.Surveying.{survey_of, head_ok, marks_of, sized_from, Surveyed};

use import_text::{Head, LogicGate};

// The plan's gates and outs.
#[derive(Clone, Copy)]
pub struct Counts {
    pub gates: usize,
    pub outs: usize,
}

// ---- marks: 1 for each wire that is set
// As it is: a mark is a byte, as the definitions have it; of a list of `bool` each contract would state what bytes stand for it. is_set and can_set
// differ in the mark: one function of wire and mark would be no plainer, since each of its five calls would write 1 or 0 for what the names say.

fn is_set(marks: &[u8], w: usize) -> bool
    ensures { result ≡ is_set marks.now w }
{
    w < marks.len() && marks[w] == 1
}

fn can_set(marks: &[u8], w: usize) -> bool
    ensures { result ≡ can_set marks.now w }
{
    w < marks.len() && marks[w] == 0
}

// Whether a gate reads wires that are set, and sets one that isn't.
fn fits(marks: &[u8], gate: LogicGate) -> bool
    ensures { result ≡ gate_fits marks.now gate }
{
    match gate {
        LogicGate::Xor(a, b, c) | LogicGate::And(a, b, c) => is_set(marks, a)
            && is_set(marks, b)
            && can_set(marks, c),
        LogicGate::Inv(a, c) => is_set(marks, a) && can_set(marks, c),
    }
}

// Marks the inputs: wires 0 up.
fn mark_inputs(marks: &mut [u8], inputs: usize)
    ensures { marks.new ≡ marks_of inputs (length marks.old) }
{
    for (w, mark) in marks.iter_mut().enumerate() {
        *mark = u8::from(w < inputs);
    }
}

// ---- the gates

// The plan's gates that as many gates' lines take, where each fits and nothing more follows.
#[tactic(auto, using(crate::proofs::Marks::sizing))]
fn sized(s: &[u8], at: usize, gates: usize, marks: &mut [u8]) -> Option<usize>
    requires { gates < 65536 }
    ensures { result ≡ sized_from gates s.now at marks.old 0 }
{
    let mut e: usize = at;
    let mut size: usize = 0;
    for k in 0..gates {
        let (g, next) = import_text::gate_at(s, import_lines::line_start(s, e))?;
        if !fits(marks, g) {
            return None;
        }
        marks[import_circuit::set_by(g)] = 1;
        size += import_circuit::gate_size(g);
        e = next;
    }
    if s.len() <= import_lines::line_start(s, e) {
        return Some(size);
    }
    None
}

// The same with the inputs marked before them, in a room for the marks of more wires.
#[tactic(auto, using(crate::proofs::Counting::placing))]
fn sized_in(s: &[u8], h: Head, room: &mut [u8; 65536]) -> Option<usize>
    requires { record { gates : h.gates < 65536; wires : h.wires < 65536 } }
    ensures { result ≡ sized_from h.gates s.now h.at (marks_of h.inputs h.wires) 0 }
{
    let marks = &mut room[..h.wires];
    mark_inputs(marks, h.inputs);
    sized(s, h.at, h.gates, marks)
}

// What the lines before the gates decide.
#[tactic(auto, using(crate::proofs::Counting::heading))]
fn head_ok(n: usize, h: Head) -> bool
    requires { record { gates : h.gates < 65536; inputs : h.inputs ≤ 65535 * 65535 } }
    ensures { result ≡ head_ok n h }
{
    h.values <= n && h.inputs <= h.wires && h.outputs <= h.wires && h.inputs + h.gates == h.wires
}

// Reads a text to its end: the gates and outs of its plan, or that it is refused.
#[tactic(auto, using(crate::proofs::Counting::surveying))]
pub fn survey_text(s: &[u8], n: usize) -> Option<Counts>
    ensures { Surveyed (survey_of n s.now) result }
{
    let h = import_text::head_at(s)?;
    if !head_ok(n, h) {
        return None;
    }
    let mut room = [0u8; 65536];
    let size = sized_in(s, h, &mut room)?;
    Some(Counts {
        gates: h.inputs + size,
        outs: h.outputs,
    })
}
