// A formula sheet compiled to a plan.
#![tactic(auto)]

ghost use Rattle.std.specs.Prelude.{◌≡◌, [], length};
ghost use Rattle.plan.specs.Refusals.{and_then, first_of, need};
ghost use Rattle.plan.specs.File.{between, majority_check};
ghost use Rattle.plan_file.specs.Bodies.{content_checks};
ghost use Rattle.plan.specs.declared.Refusal.TheVariants.{OutputRule};
ghost use Rattle.sheet_text.specs.Trees.{names_of};
ghost use Rattle.sheet_text.specs.Making.{sheet_tree};
ghost use Rattle.sheet_write.specs.Passes.{table_of, Compilable};
ghost use Rattle.sheet_call.specs.Compiling.{sheet_file, sheet_answer, sheet_after};
ghost use Rattle.sheet_call.specs.Measures.{Counted, MeasuredAs, Measuring};

use plan::Refusal;
use sheet_write::{Counts, Sheet};

// Refusal 25 of the file that would be written, which is written in a room of its own where 2t is not below n.
// As it is: import_call has such a function of a circuit. One that takes a closure to write the file would be no plainer: what `write` asks and gives, which
// here its contract says, would stand where each closure is made.
#[tactic(auto, using(crate::proofs::Calls::majorities))]
fn check_majority(sheet: &Sheet, counts: Counts) -> Result<(), Refusal>
    requires { Compilable sheet.now.text.now sheet.now.n sheet.now.t sheet.now.p sheet.now.seat counts.inputs counts.gates (table_of 1025 (names_of (sheet_tree sheet.now.n sheet.now.p sheet.now.text.now))) }
    ensures { result ≡ majority_check (sheet_file sheet.now.n sheet.now.t sheet.now.p sheet.now.seat sheet.now.text.now) }
{
    if 2 * sheet.t < sheet.n {
        return Ok(());
    }
    let mut names = [0usize; 1025];
    let Some(_) = sheet.survey(&mut names) else {
        return Ok(());
    };
    let version = plan_file::version_for(sheet.p);
    let size = plan_file::file_size(version, sheet.n as usize, counts.gates, 1);
    let mut room = [0u8; 10524];
    sheet.write(counts, &mut names, &mut room[..size]);
    plan_reading::check_majority(&room[..size])
}

// Refusals 3 to 6, 8 of the one out, whose party is 1 to n, and 25 of the plan.
#[tactic(auto, using(crate::proofs::Calls::checking_plan))]
fn check_plan(sheet: &Sheet, counts: Counts) -> Result<(), Refusal>
    requires { Counted sheet.now.text.now sheet.now.n sheet.now.p counts.inputs counts.gates }
    ensures { result ≡ and_then (and_then (first_of (content_checks sheet.now.n sheet.now.t sheet.now.p counts.gates 1)) (need (OutputRule 0) (between 1 sheet.now.n sheet.now.seat))) (majority_check (sheet_file sheet.now.n sheet.now.t sheet.now.p sheet.now.seat sheet.now.text.now)) }
{
    let Sheet { n, t, p, seat, .. } = *sheet;
    plan_file::check(n, t, p, counts.gates, 1)?;
    if !(1..=n).contains(&seat) {
        return Err(Refusal::OutputRule(0));
    }
    check_majority(sheet, counts)
}

// Checks a sheet and what is given beside it: how many inputs and gates its plan has, or the first of refusals 27, 24 and those of its plan.
// `names` is empty, and holds the names afterwards.
#[tactic(auto, using(crate::proofs::Calls::measuring))]
fn measure_in(sheet: &Sheet, names: &mut [usize]) -> Result<Counts, Refusal>
    requires { names.old ≡ table_of 1025 [] }
    ensures { MeasuredAs sheet.now.text.now sheet.now.n sheet.now.t sheet.now.p sheet.now.seat result names.new }
{
    let counts = sheet.survey(names).ok_or(Refusal::SheetText)?;
    if 1024 < counts.gates {
        return Err(Refusal::TooLarge);
    }
    check_plan(sheet, counts)?;
    Ok(counts)
}

// The same with a table of its own.
#[tactic(auto, using(crate::proofs::Calls::compiling))]
pub fn measure_sheet(text: &[u8], n: u32, t: u32, p: u32, seat: u32) -> Result<Counts, Refusal>
    ensures { Measuring text.now n t p seat result }
{
    let mut names = [0usize; 1025];
    measure_in(
        &Sheet {
            text,
            n,
            t,
            p,
            seat,
        },
        &mut names,
    )
}

// Compiles a sheet: `plan` takes the file of its plan, whose result goes to party `seat`. Answers the first of refusals 27, 24, those of the plan
// and 19 that falls on it, and then `plan` is not written.
#[tactic(auto, using(crate::proofs::Calls::compiling))]
pub fn compile(
    text: &[u8],
    n: u32,
    t: u32,
    p: u32,
    seat: u32,
    plan: &mut [u8],
) -> Result<(), Refusal>
    ensures answer { result ≡ sheet_answer n t p seat text.now (length plan.old) }
    ensures plan { plan.new ≡ sheet_after n t p seat text.now plan.old }
{
    let sheet = Sheet {
        text,
        n,
        t,
        p,
        seat,
    };
    let mut names = [0usize; 1025];
    let counts = measure_in(&sheet, &mut names)?;
    if plan.len() != plan_file::file_size(plan_file::version_for(p), n as usize, counts.gates, 1) {
        return Err(Refusal::BufferLength);
    }
    sheet.write(counts, &mut names, plan);
    Ok(())
}
