// The bench program's text: the lines of a bench run, or of its refusal.
#![tactic(auto)]

ghost use Rattle.std.specs.Prelude.{◌≡◌, ◌*◌, ◌/◌, ◌<◌, ◌≤◌, length, take, min};
ghost use Rattle.numbers.specs.Bytes.{width, number_at};
ghost use Rattle.plan.specs.File.{plan_of};
ghost use Rattle.plan_coalition.specs.Coalitions.{members};
ghost use Rattle.run_protocol.specs.Rounds.{view_count};
ghost use Rattle.bench_lines.specs.Report.{input_width, lent, coin_bytes, unreadable, report};
ghost use Rattle.bench_text.specs.Texts.{Put, Reported};
ghost use Rattle.bench_report.specs.Answers.{answered, listed};

use bench_text::Text;
use plan::{PlanFile, Refusal};

// The text of a bench run that is given a buffer for the view.
#[tactic(auto, using(crate::proofs::Answering::benching_lines))]
fn put_benched(
    text: &mut Text,
    plan: &PlanFile,
    set: u16,
    figures: &[u8],
    coins: &[u8],
    triples: &mut [u8],
    view: &mut [u8],
)
    requires view_len { length view.old ≡ width * view_count (plan_of plan.now.bytes.now) (members set) }
    ensures same { text.new.room.ghost_name ≡ text.old.room.ghost_name }
    ensures put { Put (answered plan.now.bytes.now set figures.now coins.now triples.old) text.old.written text.old.room.now text.new.room.now text.new.written }
{
    match run_bench::bench(plan.bytes, set, figures, coins, triples, view) {
        Ok(_) => bench_lines::put_run(text, plan, set, view),
        Err(r) => bench_lines::put_refused(text, r),
    }
}

// The bytes of coins among so many past the figures: all, or where the plan has gates of kind 7, no more than its full count of coins.
#[tactic(auto, using(crate::proofs::Answering::splitting))]
fn coin_bytes(plan: &PlanFile, rest: &[u8]) -> usize
    ensures { result ≡ min (coin_bytes (plan_of plan.now.bytes.now) rest.now) (length rest.now) }
{
    if plan_counts::tally_of(plan, 0).spends == 0 {
        return rest.len();
    }
    (numbers::WIDTH * plan_counts::coin_count(plan)).min(rest.len())
}

// The text of a bench run of a plan that passes: the list's first numbers, as many as a run of it has figures, are these, then come coins, then
// triples. Of a set that passes the view has room.
// As it is: text, plan, set and list go from `put_answer`, which reads the plan, through `put_planned`, which makes room for the view, to here, where
// the list is split; a struct of them would be made in the first and taken apart here.
#[tactic(auto, using(crate::proofs::Answering::splitting))]
fn put_listed(text: &mut Text, plan: &PlanFile, set: u16, list: &mut [u8], view: &mut [u8; 2097152])
    ensures same { text.new.room.ghost_name ≡ text.old.room.ghost_name }
    ensures put { Put (listed plan.now.bytes.now set list.old) text.old.written text.old.room.now text.new.room.now text.new.written }
{
    let h = plan.header;
    if !plan_coalition::set_ok(h.n, h.t, set) {
        return bench_lines::put_refused(text, Refusal::Coalition);
    }
    let size = numbers::WIDTH * run_bench::checking::view_count(plan, set);
    let m = (numbers::WIDTH * plan_counts::input_count(plan)).min(list.len());
    let all = &list[..];
    let e = m + coin_bytes(plan, &all[m..]);
    let (given, triples) = list.split_at_mut(e);
    let given = &given[..];
    put_benched(
        text,
        plan,
        set,
        &given[..m],
        &given[m..],
        triples,
        &mut view[..size],
    );
}

// The same, with room for the view.
// As it is: the room stands in a function that does nothing else with it, since the check goes too deep in a longer one over so long an array.
fn put_planned(text: &mut Text, plan: &PlanFile, set: u16, list: &mut [u8])
    ensures same { text.new.room.ghost_name ≡ text.old.room.ghost_name }
    ensures put { Put (listed plan.now.bytes.now set list.old) text.old.written text.old.room.now text.new.room.now text.new.written }
{
    let mut view = [0u8; 2097152];
    put_listed(text, plan, set, list, &mut view);
}

// The text of a bench run.
#[tactic(auto, using(crate::proofs::Answering::reading_plan))]
fn put_answer(text: &mut Text, bytes: &[u8], set: u16, list: &mut [u8])
    ensures same { text.new.room.ghost_name ≡ text.old.room.ghost_name }
    ensures put { Put (listed bytes.now set list.old) text.old.written text.old.room.now text.new.room.now text.new.written }
{
    match plan_reading::read(bytes) {
        Ok(plan) => put_planned(text, &plan, set, list),
        Err(r) => bench_lines::put_refused(text, r),
    }
}

// ---- the numbers after the set

// The bytes of a number there.
#[tactic(auto, using(crate::proofs::Answering::widening))]
fn width_of(plan: &[u8]) -> usize
    ensures { record { eq : result ≡ input_width plan.now; some : 1 ≤ result } }
{
    if (3..=4).contains(&numbers::byte(plan, 4)) {
        4
    } else {
        2
    }
}

// Number i of a list of such numbers.
#[tactic(auto, using(crate::proofs::Answering::widening))]
fn reading(plan: &[u8], list: &[u8], i: usize) -> u64
    requires { i < length list.now / input_width plan.now }
    ensures { result ≡ number_at (input_width plan.now) list.now (input_width plan.now * i) }
{
    if width_of(plan) == 4 {
        numbers::read(list, i)
    } else {
        numbers::word(list, 2 * i)
    }
}

// Writes such a list in front of the room as one that is lent, and answers how many bytes it has.
#[tactic(auto, using(crate::proofs::Answering::widening))]
fn widen(plan: &[u8], list: &[u8], room: &mut [u8]) -> usize
    requires list_len_bound { length list.now ≤ 32768 }
    requires room_len { length room.old ≡ 65536 }
    ensures { record { eq : take result room.new ≡ lent plan.now list.now; le : result ≤ length room.new } }
{
    let n = list.len() / width_of(plan);
    for i in 0..n {
        numbers::write(room, i, reading(plan, list, i));
    }
    numbers::WIDTH * n
}

// The text of a bench run of such a list.
#[tactic(auto, using(crate::proofs::Answering::lending))]
fn put_numbers(text: &mut Text, plan: &[u8], set: u16, list: &[u8])
    requires { length list.now ≤ 32768 }
    ensures same { text.new.room.ghost_name ≡ text.old.room.ghost_name }
    ensures put { Put (listed plan.now set (lent plan.now list.now)) text.old.written text.old.room.now text.new.room.now text.new.written }
{
    let mut room = [0u8; 65536];
    let e = widen(plan, list, &mut room);
    put_answer(text, plan, set, &mut room[..e]);
}

// ---- the input

// Whether an input is over 32,768 bytes, too short for its plan and set, or has bytes left over after its last number.
// As it is: the answer is `unreadable`, a definition; an Option of the plan, set and list would need a contract that states each of them too.
#[tactic(auto, using(crate::proofs::Answering::unreading))]
fn is_unreadable(input: &[u8]) -> bool
    ensures { result ≡ unreadable input.now }
{
    if 32768 < input.len() {
        return true;
    }
    let end = 2 + numbers::word(input, 0) as usize;
    let rest = end + 2;
    if input.len() < rest {
        return true;
    }
    (input.len() - rest) % width_of(&input[2..end]) != 0
}

// Puts the text for an input that can be read, or its refusal.
#[tactic(auto, using(crate::proofs::Answering::reporting))]
fn put_report(text: &mut Text, input: &[u8])
    ensures same { text.new.room.ghost_name ≡ text.old.room.ghost_name }
    ensures put { Put (report input.now) text.old.written text.old.room.now text.new.room.now text.new.written }
{
    if is_unreadable(input) {
        bench_lines::put_refused(text, Refusal::Magic);
        return;
    }
    let start = 2;
    let end = start + numbers::word(input, 0) as usize;
    let set = numbers::word(input, end) as u16;
    put_numbers(text, &input[start..end], set, &input[end + 2..]);
}

// Writes the bench program's text for an input, as far as there is room, and answers how many bytes it wrote.
#[tactic(auto, using(crate::proofs::Answering::reporting))]
pub fn report(input: &[u8], text: &mut [u8]) -> usize
    ensures { Reported (report input.now) text.old text.new result }
{
    let mut page = Text {
        room: text,
        written: 0,
    };
    put_report(&mut page, input);
    page.written
}
