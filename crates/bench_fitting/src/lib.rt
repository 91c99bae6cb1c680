// The bench program's text, whole: a buffer of 1,000,000 bytes holds every report.
#![tactic(auto)]

ghost use Rattle.std.specs.Prelude.{◌≤◌, length};
ghost use Rattle.bench_lines.specs.Report.{report};
ghost use Rattle.bench_fitting.specs.Fitting.{longest, Whole};

// Writes the bench program's text for an input and answers how many bytes it has.
#[tactic(auto, using(crate::proofs::Fitting::fitted))]
pub fn text(input: &[u8], out: &mut [u8]) -> usize
    requires { longest ≤ length out.old }
    ensures { Whole (report input.now) out.new result }
{
    bench_report::report(input, out)
}
