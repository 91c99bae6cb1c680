// The bench program: reads a plan, a set, figures, coins and triples from standard input, and prints the set's view of the run.
#![tactic(auto)]

ghost use Rattle.std.specs.Prelude.{◌≤◌, length};
ghost use Rattle.bench_fitting.specs.Fitting.{longest};

const STDIN_FILENO: i32 = 0;

const STDOUT_FILENO: i32 = 1;

fn print(input: &mut [u8], text: &mut [u8])
    requires { longest ≤ length text.old }
{
    let n = io::read_full(STDIN_FILENO, input);
    let m = bench_fitting::text(&input[..n], text);
    io::write_all(STDOUT_FILENO, &text[..m]);
}

// One byte more than an input may have, and room for the longest text.
fn bench(input: &mut [u8; 32769], text: &mut [u8; 1000000]) {
    print(input, text);
}

fn main() {
    let mut input = [0u8; 32769];
    let mut text = [0u8; 1000000];
    bench(&mut input, &mut text);
}
