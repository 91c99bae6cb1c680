// The draws of the matched preparing run: those of the lowest party that is no member are moved by the changes of the wires that are spent.
ghost use Rattle.std.specs.Prelude.{◌≡◌, true, cond, ◌+◌, ◌*◌, ◌/◌, ◌<◌, ◌≤◌, length, get_or, take};
ghost use mathlib.Core.List.{map, flat_map};
ghost use Rattle.numbers.specs.Bytes.{width, numbers, all_below};
ghost use Rattle.field.specs.Mod.{add};
ghost use Rattle.field.specs.Field.{Below2, Is};
ghost use Rattle.plan.specs.File.{plan_of, gate_at};
ghost use Rattle.match_joint.specs.Joint.{wire_change, spent_wires, moved_draws};
ghost use Rattle.match_prepared.specs.PreparedParts.{Put, moved_at};

use field::Field;
use plan::{Gate, PlanFile};

// The values of all wires in both runs of a plan, elements all.
#[derive(Clone, Copy)]
pub struct Values<'a> {
    pub plan: &'a PlanFile<'a>,
    pub before: &'a [u64],
    pub after: &'a [u64],
    pub ghost first: { all_below plan.now.header.field.p before.now ≡ true },
    pub ghost second: { all_below plan.now.header.field.p after.now ≡ true },
}

impl Values<'_> {
    // By how much a wire changes.
    #[tactic(auto, using(crate::proofs::DrawLaws::changing))]
    fn change(&self, w: usize) -> u64
        ensures { Is self.now.plan.now.header.field.p (wire_change (plan_of self.now.plan.now.bytes.now) self.now.before.now self.now.after.now w) result }
    {
        let f = self.plan.header.field;
        f.sub(
            run_ideal::wire(self.after, w),
            run_ideal::wire(self.before, w),
        )
    }

    // Writes the changes of the wires that gate g spends a triple on, from place k on; answers the place after them.
    #[tactic(auto, using(crate::proofs::DrawLaws::putting))]
    fn put(&self, gate: Gate, k: usize, changes: &mut [u64]) -> usize
        requires { k + 2 ≤ length changes.old }
        ensures { Put k (map (wire_change (plan_of self.now.plan.now.bytes.now) self.now.before.now self.now.after.now) (spent_wires gate)) changes.old changes.new result }
    {
        match gate {
            Gate::Spend(a, b) => {
                changes[k] = self.change(a);
                changes[k + 1] = self.change(b);
                k + 2
            }
            _ => k,
        }
    }

    // Writes the changes of all wires that are spent, in front of what the room holds beyond; answers how many there are.
    #[tactic(auto, using(crate::proofs::DrawLaws::putting_all))]
    pub fn spent_changes(&self, changes: &mut [u64]) -> usize
        requires { length changes.old ≡ 2048 }
        ensures { Put 0 (map (wire_change (plan_of self.now.plan.now.bytes.now) self.now.before.now self.now.after.now) (flat_map spent_wires (plan_of self.now.plan.now.bytes.now).gates)) changes.old changes.new result }
    {
        let mut k = 0;
        for g in 0..self.plan.header.gates {
            k = self.put(self.plan.gate(g), k, changes);
        }
        k
    }
}

// A draw, which takes the wire's change where it is the moved party's.
fn moved(f: Field, draw: u64, change: u64, moves: bool) -> u64
    requires { Below2 f.p draw change }
    ensures { Is f.p (cond moves (add f.p draw change) draw) result }
{
    if moves { f.add(draw, change) } else { draw }
}

// Writes the draws of n parties for as many random wires as there are changes: party `low`'s take the changes.
#[tactic(auto, using(crate::proofs::DrawLaws::moving))]
pub fn move_draws(f: Field, n: usize, low: usize, changes: &[u64], draws: &[u8], out: &mut [u8])
    requires n_value { 1 ≤ n }
    requires changes_value { all_below f.p changes.now ≡ true }
    requires draws_value { all_below f.p (numbers draws.now) ≡ true }
    requires room { n * length changes.now ≤ length out.old / width }
    ensures { take (n * length changes.now) (numbers out.new) ≡ moved_draws f.p n low changes.now (numbers draws.now) }
{
    for i in 0..n * changes.len() {
        let draw = numbers::read(draws, i);
        let moved = moved(f, draw, changes[i / n], i % n + 1 == low);
        numbers::write(out, i, moved);
    }
}
