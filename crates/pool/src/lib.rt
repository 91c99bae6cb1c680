// The C interface: include/pool.h is its manual.
#![tactic(auto)]

ghost use Rattle.std.specs.Prelude.{◌≡◌, ◌*◌, ◌<◌, length};
ghost use Rattle.plan.specs.Refusals.{code_of};
ghost use Rattle.plan.specs.File.{plan_check, plan_of};
ghost use Rattle.plan.specs.Plans.{sent_count};
ghost use Rattle.seat_messages.specs.Calls.{call_answer, triples_after, state_after, out_after};
ghost use Rattle.run_bench.specs.BenchCalls.{bench_answer, benched_of, spent_after, view_after};
ghost use Rattle.match_agreement.specs.MatchCalls.{match_answer, matched_after};
ghost use Rattle.match_prepared.specs.PreparedCalls.{prepared_answer, prepared_after};
ghost use Rattle.import_call.specs.Importing.{import_answer, import_after};
ghost use Rattle.convert_call.specs.Converting.{convert_answer, convert_after};
ghost use Rattle.sheet_call.specs.Compiling.{sheet_answer, sheet_after};
ghost use Rattle.charge_laws.specs.Charges.{bill_of};
ghost use Rattle.charge_call.specs.ChargeCalls.{charge_answer, charged_of, charge_after};
ghost use Rattle.record_laws.specs.Records.{record_answer, record_spent, record_after, bench_read_answer, bench_read_after, plant_read_answer, plant_read_after};
ghost use Rattle.count_laws.specs.CountCalls.{count_answer, count_after};
ghost use Rattle.pool_views.specs.ViewSizes.{views_size};
ghost use Rattle.pool_sizes.specs.Sizes.{seat_size, call_count, run_size, stored_size};
ghost use Rattle.pool_files.specs.FileSizes.{import_size, sheet_size, convert_size};
ghost use Rattle.pool_answers.specs.Answers.{answer_of, billed_of};

// Checks a plan: refusals 1 to 8, 25 and 26.
#[unsafe(no_mangle)]
pub extern "C" fn pool_plan_check(plan: &[u8]) -> u64
    ensures { result ≡ code_of (plan_check plan.now) }
{
    plan_codes::code(plan_reading::check(plan))
}

// The bytes of one of a party's lists: 0 its own figures, 1 its own coins, 2 its state, 3 a call's mail, 4 what a call writes, 5 its triples.
#[unsafe(no_mangle)]
pub extern "C" fn pool_seat_size(plan: &[u8], seat: u16, call: u16, what: u16) -> u64
    ensures { result ≡ seat_size plan.now seat call what }
{
    pool_sizes::seat_size(plan, seat, call, what)
}

// How many calls each party makes.
#[unsafe(no_mangle)]
pub extern "C" fn pool_calls(plan: &[u8]) -> u64
    ensures { result ≡ call_count plan.now }
{
    pool_sizes::calls(plan)
}

// One call of a party: refusals 1 to 8, 25, 26, 9 to 13, 29 and 14 to 20.
// As it is: the C interface hands the figures and the coins over one by one, here and in the calls below.
#[unsafe(no_mangle)]
pub extern "C" fn pool_seat_call(
    plan: &[u8],
    seat: u16,
    figures: &[u8],
    coins: &[u8],
    triples: &mut [u8],
    state: &mut [u8],
    mail: &[u8],
    out: &mut [u8],
) -> u64
    ensures answer { result ≡ code_of (call_answer plan.now seat figures.now coins.now triples.old state.old mail.now (length out.old)) }
    ensures triples { triples.new ≡ triples_after plan.now seat figures.now coins.now triples.old state.old mail.now (length out.old) }
    ensures state { state.new ≡ state_after plan.now seat figures.now coins.now triples.old state.old mail.now (length out.old) }
    ensures out { out.new ≡ out_after plan.now seat figures.now coins.now triples.old state.old mail.now out.old }
{
    plan_codes::code(seat_call::call(
        plan,
        seat as usize,
        figures,
        coins,
        triples,
        state,
        mail,
        out,
    ))
}

// The bytes of one of a run's lists: 0 all figures, 1 all coins, 2 the view of a set, 3 all triples.
#[unsafe(no_mangle)]
pub extern "C" fn pool_run_size(plan: &[u8], set: u16, what: u16) -> u64
    ensures { result ≡ run_size plan.now set what }
{
    pool_sizes::run_size(plan, set, what)
}

// All parties in one machine: refusals 1 to 8, 25, 26, 9 to 13, 29, 19 and 20.
// As it is: the C interface hands the set over beside the coins, here, in `pool_match` and in `pool_count`.
#[unsafe(no_mangle)]
pub extern "C" fn pool_bench(
    plan: &[u8],
    set: u16,
    figures: &[u8],
    coins: &[u8],
    triples: &mut [u8],
    view: &mut [u8],
) -> u64
    ensures answer { result ≡ answer_of (benched_of (bench_answer plan.now set figures.now coins.now triples.old (length view.old)) (sent_count (plan_of plan.now))) }
    ensures triples { triples.new ≡ spent_after plan.now set figures.now coins.now triples.old (length view.old) }
    ensures view { view.new ≡ view_after plan.now set figures.now coins.now triples.old view.old }
{
    pool_answers::sent(run_bench::bench(plan, set, figures, coins, triples, view))
}

// The matching of coins: refusals 1 to 8, 25, 26, 9 to 13, 29, 19, 21 and 22.
#[unsafe(no_mangle)]
pub extern "C" fn pool_match(
    plan: &[u8],
    set: u16,
    first: &[u8],
    second: &[u8],
    coins: &[u8],
    matched: &mut [u8],
) -> u64
    ensures answer { result ≡ code_of (match_answer plan.now set first.now second.now coins.now (length matched.old)) }
    ensures matched { matched.new ≡ matched_after plan.now set first.now second.now coins.now matched.old }
{
    plan_codes::code(match_call::pair(plan, set, first, second, coins, matched))
}

// The matching of coins over a preparing run and the run that spends its triples: refusals 1 to 8, 25, 26, 9 to 13, 29, 19, 21 and 22.
#[unsafe(no_mangle)]
pub extern "C" fn pool_match_prepared(
    preparing: &[u8],
    plan: &[u8],
    set: u16,
    first: &[u8],
    second: &[u8],
    coins: &[u8],
    matched: &mut [u8],
) -> u64
    ensures answer { result ≡ code_of (prepared_answer preparing.now plan.now set first.now second.now coins.now (length matched.old)) }
    ensures matched { matched.new ≡ prepared_after preparing.now plan.now set first.now second.now coins.now matched.old }
{
    plan_codes::code(match_prepared::match_prepared(
        preparing, plan, set, first, second, coins, matched,
    ))
}

// The bytes of the plan that a circuit's text makes: refusals 23, 24, 3 to 6 and 25.
// As it is: the C interface hands the text, n, t and p over one by one, here and in the three others that make a plan.
#[unsafe(no_mangle)]
pub extern "C" fn pool_import_size(text: &[u8], n: u32, t: u32, p: u32) -> u64
    ensures { result ≡ import_size n t p text.now }
{
    pool_files::import_size(text, n, t, p)
}

// A circuit in Bristol Fashion imported into a plan: refusals 23, 24, 3 to 6, 25 and 19.
// As it is: what it shares with `pool_sheet` is the C interface's row of parameters; each hands it to a crate of its own.
#[unsafe(no_mangle)]
pub extern "C" fn pool_import(text: &[u8], n: u32, t: u32, p: u32, plan: &mut [u8]) -> u64
    ensures answer { result ≡ code_of (import_answer n t p text.now (length plan.old)) }
    ensures plan { plan.new ≡ import_after n t p text.now plan.old }
{
    plan_codes::code(import_call::import_plan(text, n, t, p, plan))
}

// The bytes of a plan of version 1 or 2 as one of version 3: refusals 1 to 8, 25 and 26, with 2 for any other version.
#[unsafe(no_mangle)]
pub extern "C" fn pool_convert_size(plan: &[u8]) -> u64
    ensures { result ≡ convert_size plan.now }
{
    pool_files::convert_size(plan)
}

// A plan of version 1 or 2 converted to version 3: refusals 1 to 8, 25, 26 and 19, with 2 for any other version.
#[unsafe(no_mangle)]
pub extern "C" fn pool_convert(plan: &[u8], out: &mut [u8]) -> u64
    ensures answer { result ≡ code_of (convert_answer plan.now (length out.old)) }
    ensures out { out.new ≡ convert_after plan.now out.old }
{
    plan_codes::code(convert_call::convert(plan, out))
}

// The bytes of the plan that a formula sheet makes, whose result goes to `seat`: refusals 27, 24, 3 to 5, 8 and 25.
#[unsafe(no_mangle)]
pub extern "C" fn pool_sheet_size(text: &[u8], n: u32, t: u32, p: u32, seat: u32) -> u64
    ensures { result ≡ sheet_size n t p seat text.now }
{
    pool_files::sheet_size(text, n, t, p, seat)
}

// A formula sheet compiled to a plan, whose result goes to `seat`: refusals 27, 24, 3 to 5, 8, 25 and 19.
#[unsafe(no_mangle)]
pub extern "C" fn pool_sheet(text: &[u8], n: u32, t: u32, p: u32, seat: u32, plan: &mut [u8]) -> u64
    ensures answer { result ≡ code_of (sheet_answer n t p seat text.now (length plan.old)) }
    ensures plan { plan.new ≡ sheet_after n t p seat text.now plan.old }
{
    plan_codes::code(sheet_call::compile(text, n, t, p, seat, plan))
}

// The bytes of a run's record: refusals 1 to 8, 25 and 26.
#[unsafe(no_mangle)]
pub extern "C" fn pool_record_size(plan: &[u8]) -> u64
    ensures { result ≡ stored_size plan.now }
{
    pool_sizes::record_size(plan)
}

// A run stored: refusals 1 to 8, 25, 26, 10 to 13, 29, 19 and 20.
// As it is: what it shares with `pool_count` is that each hands the C interface's parameters to one call.
#[unsafe(no_mangle)]
pub extern "C" fn pool_record(
    plan: &[u8],
    figures: &[u8],
    coins: &[u8],
    triples: &mut [u8],
    file: &mut [u8],
) -> u64
    ensures answer { result ≡ code_of (record_answer plan.now figures.now coins.now triples.old (length file.old)) }
    ensures triples { triples.new ≡ record_spent plan.now figures.now coins.now triples.old (length file.old) }
    ensures file { file.new ≡ record_after plan.now figures.now coins.now triples.old file.old }
{
    plan_codes::code(record_write::record(plan, figures, coins, triples, file))
}

// All bodies of a record, as the bench reads it: refusals 1 to 8, 25, 26, 28 and 19.
#[unsafe(no_mangle)]
pub extern "C" fn pool_record_read(plan: &[u8], file: &[u8], numbers: &mut [u8]) -> u64
    ensures answer { result ≡ code_of (bench_read_answer plan.now file.now (length numbers.old)) }
    ensures numbers { numbers.new ≡ bench_read_after plan.now file.now numbers.old }
{
    plan_codes::code(record_read::read_all(plan, file, numbers))
}

// One seat's body of a record, as its plant reads it: refusals 1 to 8, 25, 26, 28, 9 and 19.
// As it is: what it shares with `pool_record_read` is that each hands the C interface's parameters to one call.
#[unsafe(no_mangle)]
pub extern "C" fn pool_record_read_seat(
    plan: &[u8],
    file: &[u8],
    seat: u16,
    numbers: &mut [u8],
) -> u64
    ensures answer { result ≡ code_of (plant_read_answer plan.now file.now seat (length numbers.old)) }
    ensures numbers { numbers.new ≡ plant_read_after plan.now file.now seat numbers.old }
{
    plan_codes::code(record_read::read_seat(plan, file, seat, numbers))
}

// The bytes of the list of views: refusals 1 to 8, 25, 26, 9 and 30.
#[unsafe(no_mangle)]
pub extern "C" fn pool_count_size(plan: &[u8], set: u16) -> u64
    ensures { result ≡ views_size plan.now set }
{
    pool_views::count_size(plan, set)
}

// Each view of a set that the others' coins lead to, with the number of settings that do: refusals 1 to 8, 25, 26, 9 to 13, 30 and 19. The coins
// are the members' alone.
#[unsafe(no_mangle)]
pub extern "C" fn pool_count(
    plan: &[u8],
    set: u16,
    figures: &[u8],
    coins: &[u8],
    rows: &mut [u8],
) -> u64
    ensures answer { result ≡ code_of (count_answer plan.now set figures.now coins.now (length rows.old)) }
    ensures rows { rows.new ≡ count_after plan.now set figures.now coins.now rows.old }
{
    plan_codes::code(count_call::count(plan, set, figures, coins, rows))
}

// The line charge, by party: refusals 1 to 8, 25, 26, 31 and 19.
#[unsafe(no_mangle)]
pub extern "C" fn pool_charge(plan: &[u8], price: u32, parts: &mut [u8]) -> u64
    ensures answer { result ≡ billed_of (charged_of (charge_answer plan.now price (length parts.old)) (bill_of (plan_of plan.now) price)) }
    ensures parts { parts.new ≡ charge_after plan.now price parts.old }
{
    pool_answers::answer(charge_call::charge(plan, price, parts))
}
