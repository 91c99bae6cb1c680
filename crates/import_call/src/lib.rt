// A circuit in Bristol Fashion imported into a plan.
#![tactic(auto, using(crate::proofs::Calls::measuring))]

ghost use Rattle.std.specs.Prelude.{◌≡◌, ◌≤◌, length};
ghost use Rattle.import_call.specs.Importing.{import_file, import_answer, import_after};
ghost use Rattle.plan.specs.Refusals.{and_then, first_of};
ghost use Rattle.plan.specs.File.{majority_check};
ghost use Rattle.plan_file.specs.Bodies.{content_checks};
ghost use Rattle.import_circuit.specs.Wires.{output_wires};
ghost use Rattle.import_text.specs.Circuits.{circuit_of};
ghost use Rattle.import_write.specs.Second.{Importable};
ghost use Rattle.import_call.specs.Measures.{Counted, MeasuredAs};

use import_check::Counts;
use plan::Refusal;

// A circuit to import: its text, how many parties there are, the threshold and the prime.
#[derive(Clone, Copy)]
struct Circuit<'a> {
    text: &'a [u8],
    n: u32,
    t: u32,
    p: u32,
}

impl Circuit<'_> {
    // Refusal 25 of the file that would be written, which is written in a room of its own where 2t is not below n.
    #[tactic(auto, using(crate::proofs::Calls::majorities))]
    fn check_majority(&self, c: Counts) -> Result<(), Refusal>
        requires importable { Importable self.now.text.now self.now.n self.now.t self.now.p c.gates }
        requires outs_value { c.outs ≡ output_wires (circuit_of self.now.text.now) }
        ensures { result ≡ majority_check (import_file self.now.n self.now.t self.now.p self.now.text.now) }
    {
        let Circuit { text, n, t, p } = *self;
        if 2 * t < n {
            return Ok(());
        }
        let size = plan_file::file_size(plan_file::version_for(p), n as usize, c.gates, c.outs);
        let mut room = [0u8; 10524];
        import_write::write_text(text, n, t, p, c.gates, &mut room[..size]);
        plan_reading::check_majority(&room[..size])
    }

    // Refusals 3 to 6 and 25 of the plan.
    #[tactic(auto, using(crate::proofs::Calls::checking_plan))]
    fn check_plan(&self, c: Counts) -> Result<(), Refusal>
        requires { Counted self.now.text.now self.now.n self.now.p c.gates c.outs }
        ensures { result ≡ and_then (first_of (content_checks self.now.n self.now.t self.now.p c.gates c.outs)) (majority_check (import_file self.now.n self.now.t self.now.p self.now.text.now)) }
    {
        plan_file::check(self.n, self.t, self.p, c.gates, c.outs)?;
        self.check_majority(c)
    }

    // Refusals 23, 24 and those of the plan: the plan's gates and outs.
    fn measure(&self) -> Result<Counts, Refusal>
        ensures { MeasuredAs self.now.text.now self.now.n self.now.t self.now.p result }
    {
        let c = import_check::survey_text(self.text, self.n as usize).ok_or(Refusal::CircuitText)?;
        if 1024 < c.gates || 64 < c.outs {
            return Err(Refusal::TooLarge);
        }
        self.check_plan(c)?;
        Ok(c)
    }
}

// Checks a text and what is given beside it, refusals 23, 24 and those of its plan: the plan's gates and outs.
pub fn measure_text(text: &[u8], n: u32, t: u32, p: u32) -> Result<Counts, Refusal>
    ensures { MeasuredAs text.now n t p result }
{
    Circuit { text, n, t, p }.measure()
}

// Imports a circuit: `plan` takes the file of its plan. Answers the first of refusals 23, 24, those of the plan and 19 that falls on it, and
// then `plan` is not written.
#[tactic(auto, using(crate::proofs::Calls::importing))]
pub fn import_plan(text: &[u8], n: u32, t: u32, p: u32, plan: &mut [u8]) -> Result<(), Refusal>
    ensures answer { result ≡ import_answer n t p text.now (length plan.old) }
    ensures plan { plan.new ≡ import_after n t p text.now plan.old }
{
    let c = measure_text(text, n, t, p)?;
    if plan.len() != plan_file::file_size(plan_file::version_for(p), n as usize, c.gates, c.outs) {
        return Err(Refusal::BufferLength);
    }
    import_write::write_text(text, n, t, p, c.gates, plan);
    Ok(())
}
