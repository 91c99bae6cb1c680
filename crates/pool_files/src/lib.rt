// The sizes of the plans that are made of circuits, sheets and older plans.
#![tactic(auto, using(crate::proofs::Made::filing))]

ghost use Rattle.std.specs.Prelude.{◌≡◌};
ghost use Rattle.pool_files.specs.FileSizes.{import_size, sheet_size, convert_size};

// The bytes of the plan that a circuit's text makes: refusals 23, 24, 3 to 6 and 25.
pub fn import_size(text: &[u8], n: u32, t: u32, p: u32) -> u64
    ensures { result ≡ import_size n t p text.now }
{
    let counts = import_call::measure_text(text, n, t, p);
    let version = plan_file::version_for(p);
    plan_codes::answer(counts.map(|c| plan_file::file_size(version, n as usize, c.gates, c.outs)))
}

// The bytes of a plan of version 1 or 2 as one of version 3: refusals 1 to 8, 25 and 26, with 2 for any other version.
pub fn convert_size(plan: &[u8]) -> u64
    ensures { result ≡ convert_size plan.now }
{
    plan_codes::answer(convert_call::read_old(plan).map(|old| convert_call::converted_size(&old)))
}

// The bytes of the plan that a formula sheet makes, whose result goes to `seat`: refusals 27, 24, 3 to 5, 8 and 25.
// As it is: like `import_size` but for what is measured. The two kinds of counts are two types, so a function for both would be left with the
// two calls that each makes.
pub fn sheet_size(text: &[u8], n: u32, t: u32, p: u32, seat: u32) -> u64
    ensures { result ≡ sheet_size n t p seat text.now }
{
    let counts = sheet_call::measure_sheet(text, n, t, p, seat);
    let version = plan_file::version_for(p);
    plan_codes::answer(counts.map(|c| plan_file::file_size(version, n as usize, c.gates, 1)))
}
