// The size of the list of views.
#![tactic(auto, using(crate::proofs::Viewed::viewing))]

ghost use Rattle.std.specs.Prelude.{IfOk, ◌≡◌, ◌<◌};
ghost use Rattle.plan.specs.File.{plan_of};
ghost use Rattle.plan_codes.specs.Values.{Answered};
ghost use Rattle.count_laws.specs.CountCalls.{count_size, count_size_answer};
ghost use Rattle.pool_views.specs.ViewSizes.{views_size};

use plan::Refusal;

fn views_bytes(bytes: &[u8], set: u16) -> Result<usize, Refusal>
    ensures is { Answered result (count_size_answer bytes.now set) (count_size (plan_of bytes.now) set) }
    ensures small { IfOk result (λ s. s < 72057594037927936) }
{
    let plan = plan_reading::read(bytes)?;
    if !plan_coalition::set_ok(plan.header.n, plan.header.t, set) {
        return Err(Refusal::Coalition);
    }
    let k = count_call::checking::settings(&plan, set);
    if 65536 < k {
        return Err(Refusal::Settings);
    }
    Ok(numbers::WIDTH * (count_call::checking::row_width(&plan, set) * k))
}

// The bytes of the list of views: refusals 1 to 8, 25, 26, 9 and 30.
pub fn count_size(plan: &[u8], set: u16) -> u64
    ensures { result ≡ views_size plan.now set }
{
    plan_codes::answer(views_bytes(plan, set))
}
