// Refusals 9 to 13, 30 and 19 of the call that counts views, in their order, and the sizes of its list.
ghost use Rattle.std.specs.Prelude.{◌≡◌, cond, ◌≤◌};
ghost use Rattle.plan.specs.Refusals.{first_of};
ghost use Rattle.plan.specs.Plans.{own_coin_count};
ghost use Rattle.plan.specs.File.{plan_of};
ghost use Rattle.plan_coalition.specs.Coalitions.{in_set};
ghost use Rattle.count_laws.specs.Settings.{member_coins};
ghost use Rattle.count_laws.specs.CountCalls.{row_width, member_checks, counting_checks};
ghost use Rattle.count_call.specs.Counting.{counted_settings};

use plan::{PlanFile, Refusal};

// ---- sizes

// Party i's coins, where it is a member.
fn coins_of(plan: &PlanFile, set: u16, i: usize) -> usize
    ensures { record { eq : result ≡ cond (in_set set i) (own_coin_count (plan_of plan.now.bytes.now) i) 0; le : result ≤ 43008 } }
{
    if plan_coalition::is_member(set, i) {
        plan_counts::own_coin_count(plan, i)
    } else {
        0
    }
}

// How many coins are the members'.
#[tactic(auto, using(crate::proofs::SizeLaws::gathering))]
pub fn member_coins(plan: &PlanFile, set: u16) -> usize
    ensures { record { eq : result ≡ member_coins (plan_of plan.now.bytes.now) set; le : result ≤ 688128 } }
{
    let mut k: usize = 0;
    for i in 1..=16 {
        k += coins_of(plan, set, i);
    }
    k
}

// The settings of the others' coins that are counted; 65,537 where 30 falls: there are more than 65,536, or a gate is of kind 6 or 7.
#[tactic(auto, using(crate::proofs::SizeLaws::sizing))]
pub fn settings(plan: &PlanFile, set: u16) -> usize
    ensures { record { eq : result ≡ counted_settings (plan_of plan.now.bytes.now) set; le : result ≤ 65537 } }
{
    let tally = plan_counts::tally_of(plan, 0);
    if tally.randoms + tally.spends != 0 {
        return 65537;
    }
    let all = plan_counts::coin_count(plan);
    let own = member_coins(plan, set);
    let ways = plan.header.field.p.saturating_pow((all - own) as u32);
    ways.min(65537) as usize
}

// The numbers of a row: a view's, and its count.
#[tactic(auto, using(crate::proofs::SizeLaws::sizing))]
pub fn row_width(plan: &PlanFile, set: u16) -> usize
    ensures { record { eq : result ≡ row_width (plan_of plan.now.bytes.now) set; le : result ≤ 1097729 } }
{
    run_bench::checking::view_count(plan, set) + 1
}

// ---- checks

// What the views are counted of: a plan, a set, the inputs, and the members' coins.
#[derive(Clone, Copy)]
pub struct Given<'a> {
    pub plan: &'a PlanFile<'a>,
    pub set: u16,
    pub inputs: &'a [u8],
    pub coins: &'a [u8],
}

impl Given<'_> {
    // Refusals 10 to 13, of the members' coins alone.
    #[tactic(auto, using(crate::proofs::CheckLaws::listing))]
    fn check_lists(&self) -> Result<(), Refusal>
        ensures { result ≡ first_of (member_checks (plan_of self.now.plan.now.bytes.now) self.now.set self.now.inputs.now self.now.coins.now) }
    {
        let p = self.plan.header.field.p;
        seat_admission::check_inputs(self.inputs, plan_counts::input_count(self.plan), p)?;
        seat_admission::check_coins(self.coins, member_coins(self.plan, self.set), p)
    }

    // All of them; `room` is the length of the buffer to be written.
    #[tactic(auto, using(crate::proofs::CheckLaws::checking))]
    pub fn check(&self, room: usize) -> Result<(), Refusal>
        ensures { result ≡ first_of (counting_checks (plan_of self.now.plan.now.bytes.now) self.now.set self.now.inputs.now self.now.coins.now room) }
    {
        if !plan_coalition::set_ok(self.plan.header.n, self.plan.header.t, self.set) {
            return Err(Refusal::Coalition);
        }
        self.check_lists()?;
        let k = settings(self.plan, self.set);
        if 65536 < k {
            return Err(Refusal::Settings);
        }
        if room != numbers::WIDTH * (row_width(self.plan, self.set) * k) {
            return Err(Refusal::BufferLength);
        }
        Ok(())
    }
}
