// The two passes over a formula sheet: the first checks and counts, and fills the table of names; the second writes the file.
#![tactic(auto)]

ghost use Rattle.std.specs.Prelude.{◌≡◌, [], suc, ◌+◌, ◌*◌, ◌-◌, ◌/◌, ◌<◌, ◌≤◌, length, get_or};
ghost use Rattle.numbers.specs.Tables.{tab};
ghost use Rattle.plan.specs.declared.Gate.TheVariants.{Input};
ghost use Rattle.plan_file.specs.Bodies.{written, gate_bytes, gates_bytes, out_bytes, points_bytes, place_in, out_start, file_size, version_for, file_of_plan};
ghost use Rattle.sheet_text.specs.Making.{sheet_tree, tree_bodies};
ghost use Rattle.sheet_write.specs.Passes.{table_of, inputs_in, Surveyed, Compilable};

use plan::{Gate, Output};

// How many inputs and how many gates a sheet makes. A count past 1,024 is not exact.
#[derive(Clone, Copy)]
pub struct Counts {
    pub inputs: usize,
    pub gates: usize,
}

// A sheet to compile: its text, how many parties there are, the threshold, the prime, and the party that gets the result.
#[derive(Clone, Copy)]
pub struct Sheet<'a> {
    pub text: &'a [u8],
    pub n: u32,
    pub t: u32,
    pub p: u32,
    pub seat: u32,
}

impl Sheet<'_> {
    // The counts of a sheet that keeps the rules, else refusal 27 falls. `names` is empty, and holds the names afterwards.
    #[tactic(auto, using(crate::proofs::Passing::surveying))]
    pub fn survey(&self, names: &mut [usize]) -> Option<Counts>
        requires { names.old ≡ table_of 1025 [] }
        ensures { Surveyed self.now.n self.now.p self.now.text.now result names.new }
    {
        let mut none = [0u8; 1];
        let part = sheet_read::read_sheet(self.text, self.n, self.p, 0, names, &mut none)?;
        let inputs = sheet_read::find(names, 0);
        if inputs == 0 {
            return None;
        }
        let gates = inputs + part.gates;
        Some(Counts { inputs, gates })
    }

    // Writes the plan of a sheet that was checked: so many inputs and so many gates.
    #[tactic(auto, using(crate::proofs::Passing::compiling))]
    pub fn write(&self, counts: Counts, names: &mut [usize], out: &mut [u8])
        requires compilable { Compilable self.now.text.now self.now.n self.now.t self.now.p self.now.seat counts.inputs counts.gates names.old }
        requires out_len { length out.old ≡ file_size (version_for self.now.p) self.now.n counts.gates 1 }
        ensures { out.new ≡ file_of_plan self.now.n self.now.t self.now.p (tree_bodies self.now.p self.now.seat (sheet_tree self.now.n self.now.p self.now.text.now)) }
    {
        let Sheet {
            text,
            n,
            t,
            p,
            seat,
        } = *self;
        let version = plan_file::version_for(p);
        let Counts { inputs, gates } = counts;
        plan_file::put_contents(out, version, n, t, p, gates, 1);
        put_inputs(&names[..inputs], version, out);
        let Some(part) = sheet_read::read_sheet(text, n, p, inputs, names, out) else {
            return;
        };
        put_end(out, version, gates, n, seat, part.wire);
    }
}

// The input gates, one for each name.
#[tactic(auto, using(crate::proofs::Passing::listing))]
fn put_inputs(names: &[usize], version: usize, out: &mut [u8])
    requires { length names.now ≤ 1024 }
    ensures { out.new ≡ written out.old (place_in version 0) (gates_bytes version (inputs_in (length names.now) names.now)) }
{
    for (i, name) in names.iter().enumerate() {
        plan_file::put_gate(out, version, i, Gate::Input(name.saturating_sub(1) / 256));
    }
}

// The out and the points 1 to n, after so many gates: wire `wire` goes to party `seat`.
#[tactic(auto, using(crate::proofs::Passing::ending))]
fn put_end(out: &mut [u8], version: usize, gates: usize, n: u32, seat: u32, wire: usize)
    requires { record { gates : gates ≤ 1024; n : n ≤ 15; seat : seat < 256 } }
    ensures { out.new ≡ written (written out.old (out_start version gates 0) (out_bytes (record { party = seat; wire = wire }))) (out_start version gates 1) (points_bytes version (tab suc n)) }
{
    let party = seat as usize;
    plan_file::put_out(out, version, gates, 0, Output { party, wire });
    let points = plan_file::out_start(version, gates, 1);
    plan_file::put_first_points(out, version, points, n as usize);
}
