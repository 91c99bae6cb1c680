// A circuit in Bristol Fashion: its text, line by line.
// As it is: text and place are two parameters, and a reader answers the place past what it read, as the definitions do. A reader that moves a place in a
// struct would be no plainer: its contract would say where it stood, where it stands, and that the text is the same.
#![tactic(auto, using(crate::proofs::Scanned::scanning))]

ghost use Rattle.std.specs.Prelude.{◌≡◌, ◌<◌};
ghost use Rattle.import_text.specs.Scanning.{two_named, one_named, two_wires, one_wire, wires_at, gate_at, values_head, head_at, HeadIs};

// A gate of the circuit: the wires it reads, then the wire it sets.
#[derive(Clone, Copy)]
pub enum LogicGate {
    Xor(usize, usize, usize),
    And(usize, usize, usize),
    Inv(usize, usize),
}

// What the lines before the gates say: the gates and wires; the count of input values, the place of the first one's count of wires, and
// the wires of all; the wires of all output values; and the place past these lines.
#[derive(Clone, Copy)]
pub struct Head {
    pub gates: usize,
    pub wires: usize,
    pub values: usize,
    pub first: usize,
    pub inputs: usize,
    pub outputs: usize,
    pub at: usize,
}

// ---- a gate's line, and the place past it

// The operation of a gate that reads two wires: XOR or AND.
fn two_named(s: &[u8], at: usize, a: usize, b: usize, c: usize) -> Option<(LogicGate, usize)>
    ensures { result ≡ two_named a b c s.now at }
{
    if let Some(e) = import_lines::word_past(s, at, b"XOR") {
        return Some((LogicGate::Xor(a, b, c), e));
    }
    let e = import_lines::word_past(s, at, b"AND")?;
    Some((LogicGate::And(a, b, c), e))
}

// The operation of a gate that reads one wire: INV.
fn one_named(s: &[u8], at: usize, a: usize, c: usize) -> Option<(LogicGate, usize)>
    ensures { result ≡ one_named a c s.now at }
{
    let e = import_lines::word_past(s, at, b"INV")?;
    Some((LogicGate::Inv(a, c), e))
}

// two_wires and one_wire stay calls: inlined into gate_at, each turn of their loops would clear the answer's words for the case that the line is wrong.
#[inline(never)]
fn two_wires(s: &[u8], at: usize) -> Option<(LogicGate, usize)>
    ensures { result ≡ two_wires s.now at }
{
    let (a, e) = import_lines::number(s, at)?;
    let (b, f) = import_lines::number(s, e)?;
    let (c, i) = import_lines::number(s, f)?;
    two_named(s, i, a as usize, b as usize, c as usize)
}

// As it is: two_wires reads three numbers, one_wire and gate_at two. One reader of N numbers would be no plainer: a loop that fills an array, with an
// invariant on what it has read, in place of a line by `?` for each number.
#[inline(never)]
fn one_wire(s: &[u8], at: usize) -> Option<(LogicGate, usize)>
    ensures { result ≡ one_wire s.now at }
{
    let (a, e) = import_lines::number(s, at)?;
    let (c, f) = import_lines::number(s, e)?;
    one_named(s, f, a as usize, c as usize)
}

// The wires, after the counts of wires read and set.
fn wires(s: &[u8], at: usize, r: u64, w: u64) -> Option<(LogicGate, usize)>
    ensures { result ≡ wires_at r w s.now at }
{
    match (r, w) {
        (2, 1) => two_wires(s, at),
        (1, 1) => one_wire(s, at),
        _ => None,
    }
}

pub fn gate_at(s: &[u8], at: usize) -> Option<(LogicGate, usize)>
    ensures { result ≡ gate_at s.now at }
{
    let (r, e) = import_lines::number(s, at)?;
    let (w, f) = import_lines::number(s, e)?;
    wires(s, f, r, w)
}

// ---- the lines before the gates

// The lines of the input values and of the output values.
#[tactic(auto, using(crate::proofs::Scanned::heading))]
fn head_values(s: &[u8], at: usize, gates: usize, wires: usize) -> Option<Head>
    requires { record { gates : gates < 65536; wires : wires < 65536 } }
    ensures { HeadIs (values_head gates wires s.now at) result }
{
    let inputs = import_lines::values_at(s, import_lines::line_start(s, at))?;
    let outputs = import_lines::values_at(s, import_lines::line_start(s, inputs.past))?;
    Some(Head {
        gates,
        wires,
        values: inputs.count,
        first: inputs.first,
        inputs: inputs.total,
        outputs: outputs.total,
        at: outputs.past,
    })
}

#[tactic(auto, using(crate::proofs::Scanned::heading))]
pub fn head_at(s: &[u8]) -> Option<Head>
    ensures { HeadIs (head_at s.now) result }
{
    let (gates, e) = import_lines::number(s, import_lines::line_start(s, 0))?;
    let (wires, f) = import_lines::number(s, e)?;
    if !import_lines::line_over(s, f) {
        return None;
    }
    head_values(s, f, gates as usize, wires as usize)
}
