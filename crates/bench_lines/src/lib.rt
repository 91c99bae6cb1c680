// The lines of a bench run, or of its refusal. Those of a run are read off the view's numbers, which stand member by member: its
// inputs, its coins, its mail by rounds, its results.
#![tactic(auto)]

ghost use Rattle.std.specs.Prelude.{◌≡◌, cond, ◌<◌, ◌≤◌, length, take, drop};
ghost use mathlib.Core.List.{[], ◌∷◌, flat_map};
ghost use Rattle.numbers.specs.Bytes.{numbers};
ghost use Rattle.plan.specs.Refusals.{number_of, place_of};
ghost use Rattle.plan.specs.Plans.{last_call, out_wires_of, sent_count};
ghost use Rattle.plan.specs.File.{plan_of, out_at};
ghost use Rattle.plan_coalition.specs.Coalitions.{in_set, members};
ghost use Rattle.bench_text.specs.Decimals.{line};
ghost use Rattle.bench_text.specs.Texts.{Put};
ghost use Rattle.bench_lines.specs.Report.{refused_word, sent_word, plan_line};
ghost use Rattle.bench_lines.specs.Placed.{round_lines_in, own_count, member_lines_in, part_at, member_part, results_at, out_line_in, out_lines_in, run_lines_in};

use bench_text::Text;
use plan::{PlanFile, Refusal};
use plan_counts::Seat;

// The line of a refusal.
#[tactic(auto, using(crate::proofs::Printed::fewing), unfolding(crate::specs::Report::refused_word))]
pub fn put_refused(text: &mut Text, r: Refusal)
    ensures same { text.new.room.ghost_name ≡ text.old.room.ghost_name }
    ensures put { Put (line refused_word (number_of r ∷ place_of r ∷ [])) text.old.written text.old.room.now text.new.room.now text.new.written }
{
    text.put_line(b"refused", &[plan_codes::number(r), plan_codes::place(r)]);
}

// The line of the plan: n, t and p, and how many gates and outs it has.
#[tactic(auto, using(crate::proofs::Printed::fewing), unfolding(crate::specs::Report::plan_word))]
fn put_plan(text: &mut Text, plan: &PlanFile)
    ensures same { text.new.room.ghost_name ≡ text.old.room.ghost_name }
    ensures put { Put (plan_line (plan_of plan.now.bytes.now)) text.old.written text.old.room.now text.new.room.now text.new.written }
{
    let h = plan.header;
    let xs = [
        h.n as u64,
        h.t as u64,
        h.field.p,
        h.gates as u64,
        h.outs as u64,
    ];
    text.put_line(b"plan", &xs);
}

// The line of the elements sent.
#[tactic(auto, using(crate::proofs::Printed::fewing), unfolding(crate::specs::Report::sent_word))]
fn put_sent(text: &mut Text, plan: &PlanFile)
    ensures same { text.new.room.ghost_name ≡ text.old.room.ghost_name }
    ensures put { Put (line sent_word (sent_count (plan_of plan.now.bytes.now) ∷ [])) text.old.written text.old.room.now text.new.room.now text.new.written }
{
    text.put_line(b"sent", &[plan_sizes::sent_count(plan) as u64]);
}

// How many inputs and coins of its own a party has.
#[tactic(auto, using(crate::proofs::Printed::membering))]
fn own_count(plan: &PlanFile, i: usize) -> usize
    ensures { record { eq : result ≡ own_count (plan_of plan.now.bytes.now) i; le : result ≤ 44032 } }
{
    plan_counts::own_input_count(plan, i) + plan_counts::own_coin_count(plan, i)
}

// How many of the outs before out o are party i's.
#[tactic(auto, using(crate::proofs::Printed::earlier))]
fn outs_before(plan: &PlanFile, i: usize, o: usize) -> usize
    requires o_le_outs { o ≤ plan.now.header.outs }
    ensures { record { eq : result ≡ length (out_wires_of i (take o (plan_of plan.now.bytes.now).outs)); le : result ≤ 64 } }
{
    let mut count = 0;
    for k in 0..o {
        let out = plan::out_at(plan.bytes, k);
        count += usize::from(i == out.party);
    }
    count
}

// What a coalition saw of a run.
#[derive(Clone, Copy)]
struct Seen<'a> {
    plan: &'a PlanFile<'a>,
    set: u16,
    view: &'a [u8],
}

impl Seen<'_> {
    // The mail of each round to party i, which stands in the view from number `from` on.
    #[tactic(auto, using(crate::proofs::Printed::rounding), unfolding(crate::specs::Report::round_word))]
    fn put_rounds(&self, text: &mut Text, i: usize, from: usize)
        requires from_bound { from ≤ 8000000 }
        ensures same { text.new.room.ghost_name ≡ text.old.room.ghost_name }
        ensures put { Put (round_lines_in (plan_of self.now.plan.now.bytes.now) i (drop from (numbers self.now.view.now)) 0 (last_call (plan_of self.now.plan.now.bytes.now))) text.old.written text.old.room.now text.new.room.now text.new.written }
    {
        let seat = Seat::new(self.plan, i);
        let rounds = seat.last_call();
        let mut place = from;
        for round in 0..rounds {
            let count = plan_sizes::mail_by(&seat, round + 1);
            text.put_list_line(b"round", round as u64, self.view, place, count);
            place += count;
        }
    }

    // Party i's lines, when its view begins at number `from`.
    #[tactic(auto, using(crate::proofs::Printed::membering), unfolding(crate::specs::Report::view_word))]
    fn put_member(&self, text: &mut Text, i: usize, from: usize)
        requires from_bound { from ≤ 1097728 }
        ensures same { text.new.room.ghost_name ≡ text.old.room.ghost_name }
        ensures put { Put (member_lines_in (plan_of self.now.plan.now.bytes.now) i (drop from (numbers self.now.view.now))) text.old.written text.old.room.now text.new.room.now text.new.written }
    {
        let count = own_count(self.plan, i);
        text.put_list_line(b"view", i as u64, self.view, from, count);
        self.put_rounds(text, i, from + count);
    }

    // Where party i's view begins: after those of the members below it.
    #[tactic(auto, using(crate::proofs::Printed::parting))]
    fn part_at(&self, i: usize) -> usize
        requires i_bound { i ≤ 16 }
        ensures { record { eq : result ≡ part_at (plan_of self.now.plan.now.bytes.now) self.now.set i; le : result ≤ 1097728 } }
    {
        let mut at = 0;
        for j in 1..i {
            at += run_bench::checking::member_view_count(self.plan, self.set, j);
        }
        at
    }

    // Party i's lines, where it is a member.
    #[tactic(auto, using(crate::proofs::Printed::partying))]
    fn put_party(&self, text: &mut Text, i: usize)
        ensures same { text.new.room.ghost_name ≡ text.old.room.ghost_name }
        ensures put { Put (cond (in_set self.now.set i) (member_part (plan_of self.now.plan.now.bytes.now) self.now.set (numbers self.now.view.now) i) []) text.old.written text.old.room.now text.new.room.now text.new.written }
    {
        if plan_coalition::is_member(self.set, i) {
            self.put_member(text, i, self.part_at(i));
        }
    }

    // The lines of all members, ascending.
    #[tactic(auto, using(crate::proofs::Printed::calling))]
    fn put_members(&self, text: &mut Text)
        ensures same { text.new.room.ghost_name ≡ text.old.room.ghost_name }
        ensures put { Put (flat_map (member_part (plan_of self.now.plan.now.bytes.now) self.now.set (numbers self.now.view.now)) (members self.now.set)) text.old.written text.old.room.now text.new.room.now text.new.written }
    {
        for i in 1..=16 {
            self.put_party(text, i);
        }
    }

    // Where party i's results begin in the view.
    #[tactic(auto, using(crate::proofs::Printed::placing))]
    fn results_at(&self, i: usize) -> usize
        requires i_bound { i ≤ 16 }
        ensures { record { eq : result ≡ results_at (plan_of self.now.plan.now.bytes.now) self.now.set i; le : result ≤ 1166336 } }
    {
        let outs = plan_sizes::own_out_count(self.plan, i);
        let count = run_bench::checking::view_count_of(self.plan, i);
        self.part_at(i) + (count - outs)
    }

    // The line of out o, where it is a member's.
    #[tactic(auto, using(crate::proofs::Printed::outing), unfolding(crate::specs::Report::out_word))]
    fn put_out(&self, text: &mut Text, o: usize)
        requires o_lt_outs { o < self.now.plan.now.header.outs }
        ensures same { text.new.room.ghost_name ≡ text.old.room.ghost_name }
        ensures put { Put (out_line_in (plan_of self.now.plan.now.bytes.now) self.now.set (numbers self.now.view.now) o (take o (plan_of self.now.plan.now.bytes.now).outs) (out_at self.now.plan.now.bytes.now o)) text.old.written text.old.room.now text.new.room.now text.new.written }
    {
        let i = plan::out_at(self.plan.bytes, o).party;
        if plan_coalition::is_member(self.set, i) {
            let before = outs_before(self.plan, i, o);
            let place = self.results_at(i) + before;
            text.put_line(
                b"out",
                &[o as u64, i as u64, numbers::read(self.view, place)],
            );
        }
    }

    // The lines of the members' outs, with their numbers in the plan.
    #[tactic(auto, using(crate::proofs::Printed::outing_all_outs))]
    fn put_outs(&self, text: &mut Text)
        ensures same { text.new.room.ghost_name ≡ text.old.room.ghost_name }
        ensures put { Put (out_lines_in (plan_of self.now.plan.now.bytes.now) self.now.set (numbers self.now.view.now) 0 [] (plan_of self.now.plan.now.bytes.now).outs) text.old.written text.old.room.now text.new.room.now text.new.written }
    {
        for o in 0..self.plan.header.outs {
            self.put_out(text, o);
        }
    }
}

// The lines of a run, off the view of its members.
#[tactic(auto, using(crate::proofs::Printed::all_lines))]
pub fn put_run(text: &mut Text, plan: &PlanFile, set: u16, view: &[u8])
    ensures same { text.new.room.ghost_name ≡ text.old.room.ghost_name }
    ensures put { Put (run_lines_in (plan_of plan.now.bytes.now) set (numbers view.now)) text.old.written text.old.room.now text.new.room.now text.new.written }
{
    let seen = Seen { plan, set, view };
    put_plan(text, plan);
    seen.put_members(text);
    seen.put_outs(text);
    put_sent(text, plan);
}
