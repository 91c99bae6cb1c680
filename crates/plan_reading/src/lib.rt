// A plan file read and checked: refusals 1 to 8, 25 and 26.
#![tactic(auto)]

ghost use Rattle.std.specs.Prelude.{ℕ, option_map, Bool, Ok, Err, IfOk, IfErr, ◌≡◌, true, ◌&&◌, not, ◌<◌, eqb, ltb, leb, length, take, drop};
ghost use Rattle.numbers.specs.Tables.{first_failing};
ghost use Rattle.plan.specs.Refusals.{first_of};
ghost use Rattle.plan.specs.Plans.{is_kind, multiplying};
ghost use Rattle.plan.specs.File.{magic, same_bytes, between, parties_ok, threshold_ok, field_above, gate_ok, out_ok, n_at, p_at, gate_count_at, out_count_at, field_at, out_place, point_place, gate_kept, out_kept, majority_kept, point_apart, point_kept, points_placed, layout_ok, majority_check, points_check, plan_checks, plan_check};
ghost use Rattle.plan.specs.Planned.{HeaderOf, Planned};

use field::Field;
use plan::{Gate, Gates, Header, MAGIC, Output, PlanFile, Refusal};

// Whether gate g keeps its kind's rule: it reads only wires below g, and its constant is below p.
#[tactic(auto, using(plan::proofs::Ranges::contains_is), unfolding(plan::specs::File::gate_ok))]
fn gate_ok(n: usize, p: u64, g: usize, gate: Gate) -> bool
    ensures { result ≡ gate_ok n p g gate }
{
    match gate {
        Gate::Input(party) => (1..=n).contains(&party),
        Gate::Add(a, b) | Gate::Multiply(a, b) | Gate::Spend(a, b) => a < g && b < g,
        Gate::Scale(a, c) | Gate::Offset(a, c) => a < g && c < p,
        Gate::Random => true,
    }
}

// Whether an out names a party and a wire of the plan.
#[tactic(auto, using(crate::proofs::Ways::ruling))]
fn out_ok(n: usize, gates: usize, out: Output) -> bool
    ensures { result ≡ out_ok n gates out }
{
    (1..=n).contains(&out.party) && out.wire < gates
}

// The first of n indices at which a test fails.
// As it is: `(0..n).find(|i| !ok(*i))` was tried. The closure's contract, as it is inferred, asks that `ok` may be called at every number, and `ok` may be at
// those below n alone; with a `requires` and an `ensures` of its own the closure is longer than this loop.
fn first_failing<F: Fn(usize) -> bool>(n: usize, ok: F) -> Option<usize>
    requires { (i : ℕ) → i < n → F.pre ok i }
    ensures { (test : ℕ → Bool) → ((i : ℕ) (t : Bool) → i < n → F.post ok i t → t ≡ test i) → result ≡ first_failing test n }
{
    for i in 0..n {
        if !ok(i) {
            return Some(i);
        }
    }
    None
}

// How many gates of a plan may spend a triple.
const SPEND_LIMIT: usize = 341;

// Whether a gate spends one.
#[tactic(auto, unfolding(plan::specs::Plans::is_kind, plan::specs::Plans::kind_of))]
fn spends(gate: Gate) -> bool
    ensures { result ≡ is_kind 7 gate }
{
    matches!(gate, Gate::Spend(_, _))
}

// The first gate that breaks its kind's rule, or is one too many of those that spend a triple.
#[tactic(auto, using(crate::proofs::Reading::gates))]
fn first_bad_gate(plan: &[u8]) -> Option<usize>
    requires { layout_ok plan.now ≡ true }
    ensures { result ≡ first_failing (gate_kept plan.now) (gate_count_at plan.now) }
{
    let n = plan::byte(plan, 5);
    let p = plan::field(plan, 0) as u64;
    let gates = Gates::new(plan);
    let mut spent = 0;
    for g in 0..gates.count {
        let gate = gates.gate(g);
        spent += usize::from(spends(gate));
        if !gate_ok(n, p, g, gate) || SPEND_LIMIT < spent {
            return Some(g);
        }
    }
    None
}

// The first out that names no party or no wire of the plan.
#[tactic(auto, using(crate::proofs::Reading::outs))]
fn first_bad_out(plan: &[u8]) -> Option<usize>
    ensures { result ≡ first_failing (out_kept plan.now) (out_count_at plan.now) }
{
    let n = plan::byte(plan, 5);
    let gates = plan::field(plan, 2);
    let outs = plan::field(plan, 4);
    first_failing(outs, |o| out_ok(n, gates, plan::out_at(plan, o)))
}

// ---- refusal 25

#[tactic(auto, unfolding(plan::specs::Plans::multiplying, plan::specs::Plans::is_kind, plan::specs::Plans::kind_of))]
fn multiplies(gate: Gate) -> bool
    ensures { result ≡ multiplying gate }
{
    matches!(gate, Gate::Multiply(_, _) | Gate::Spend(_, _))
}

// The first gate that multiplies where 2t is not below n.
#[tactic(auto, using(crate::proofs::Ways::majorities))]
fn first_lacking(plan: &[u8]) -> Option<usize>
    ensures { result ≡ first_failing (majority_kept plan.now) (gate_count_at plan.now) }
{
    let n = plan::byte(plan, 5);
    let t = plan::byte(plan, 6);
    if 2 * t < n {
        return None;
    }
    first_failing(
        plan::field(plan, 2),
        |g| !multiplies(plan::gate_at(plan, g)),
    )
}

#[tactic(auto, using(crate::proofs::Ways::majorities))]
pub fn check_majority(plan: &[u8]) -> Result<(), Refusal>
    ensures { result ≡ majority_check plan.now }
{
    if first_lacking(plan).is_some() {
        return Err(Refusal::Majority);
    }
    Ok(())
}

// ---- refusal 26

// The first party whose point is that of party i + 1, of those before it.
#[tactic(auto, using(crate::proofs::Ways::pointing))]
fn earlier(plan: &[u8], i: usize) -> Option<usize>
    requires { i < 256 }
    ensures { result ≡ first_failing (point_apart plan.now i) i }
{
    let x = plan::point_at(plan, i);
    first_failing(i, |j| plan::point_at(plan, j) != x)
}

// Whether the point of party i + 1 is from 1 to p - 1 and no earlier party's.
#[tactic(auto, using(crate::proofs::Ways::pointing))]
fn point_ok(plan: &[u8], p: u64, i: usize) -> bool
    requires i_bound { i < 256 }
    requires p_value { p ≡ p_at plan.now }
    ensures { result ≡ point_kept plan.now i }
{
    let x = plan::point_at(plan, i);
    0 < x && x < p && earlier(plan, i).is_none()
}

// The first party whose point breaks its rule; points 1 to n keep it where p is above n.
#[tactic(auto, using(crate::proofs::Ways::pointing))]
fn first_bad_point(plan: &[u8]) -> Option<usize>
    ensures { result ≡ first_failing (point_kept plan.now) (n_at plan.now) }
{
    let n = plan::byte(plan, 5);
    let p = plan::field(plan, 0);
    let l = plan::layout_of(plan);
    if l.point == 0 && n < p {
        return None;
    }
    seek_point(plan, n, p as u64)
}

#[tactic(auto, using(crate::proofs::Ways::pointing))]
fn seek_point(plan: &[u8], n: usize, p: u64) -> Option<usize>
    requires n_bound { n < 256 }
    requires p_value { p ≡ p_at plan.now }
    ensures { result ≡ first_failing (point_kept plan.now) n }
{
    first_failing(n, |i| point_ok(plan, p, i))
}

// ---- refusals 3 to 6, by n, t, p and how many gates and outs there are

// As it is: `parties_ok` and `gates_fit` are the same method of two ranges, and nothing else; each is named by its rule.
#[tactic(auto, using(plan::proofs::Ranges::contains_is))]
pub fn parties_ok(n: usize) -> bool
    ensures { result ≡ parties_ok n }
{
    (1..=15).contains(&n)
}

pub fn threshold_ok(n: usize, t: usize) -> bool
    ensures { result ≡ threshold_ok n t }
{
    t < n
}

#[tactic(auto, using(plan::proofs::Ranges::contains_is))]
pub fn gates_fit(gates: usize) -> bool
    ensures { result ≡ between 1 1024 gates }
{
    (1..=1024).contains(&gates)
}

pub fn outs_fit(outs: usize) -> bool
    ensures { result ≡ leb outs 64 }
{
    outs <= 64
}

// The field of a prime above n and below 2^31.
#[tactic(auto, using(crate::proofs::Ways::reads))]
pub fn field_above(n: usize, p: u32) -> Option<Field>
    ensures { option_map (λ f. f.p) result ≡ field_above n p }
{
    if p as usize <= n {
        return None;
    }
    Field::new(p)
}

// ---- reading a plan

// Whether a plan has room for its contents and begins with the letters POOL.
#[tactic(auto, using(crate::proofs::Reading::letters))]
pub fn begins(plan: &[u8]) -> bool
    ensures { result ≡ (leb 18 (length plan.now) && same_bytes (take 4 plan.now) magic) }
{
    18 <= plan.len() && plan[..4] == MAGIC[..]
}

// Whether byte 7, the offsets, the counts and the length are those of the version's layout.
#[tactic(auto, using(crate::proofs::Ways::laying))]
fn layout_ok(plan: &[u8]) -> bool
    ensures { result ≡ layout_ok plan.now }
{
    plan::byte(plan, 7) == 0
        && plan::field(plan, 1) == plan::gate_place(plan, 0)
        && gates_fit(plan::field(plan, 2))
        && outs_placed(plan)
}

// Whether the outs follow the gates, and the points the outs.
#[tactic(auto, using(crate::proofs::Ways::laying))]
fn outs_placed(plan: &[u8]) -> bool
    ensures { result ≡ (eqb (field_at plan.now 3) (out_place plan.now 0) && (leb (out_count_at plan.now) 64 && points_placed plan.now)) }
{
    plan::field(plan, 3) == plan::out_place(plan, 0)
        && outs_fit(plan::field(plan, 4))
        && points_placed(plan)
}

// Whether the points, in a version that has them, follow the outs, and nothing else does.
#[tactic(auto, using(crate::proofs::Ways::placing))]
fn points_placed(plan: &[u8]) -> bool
    ensures { result ≡ points_placed plan.now }
{
    let l = plan::layout_of(plan);
    (l.point == 0 || plan::field(plan, 5) == plan::point_place(plan, 0)) && ends(plan)
}

// Whether the file ends where n points end.
#[tactic(auto, using(crate::proofs::Ways::placing))]
fn ends(plan: &[u8]) -> bool
    ensures { result ≡ eqb (length plan.now) (point_place plan.now (n_at plan.now)) }
{
    plan.len() == plan::point_place(plan, plan::byte(plan, 5))
}

// Refusals 1 to 4.
#[tactic(auto, using(crate::proofs::Ways::contents))]
fn check_contents(plan: &[u8]) -> Result<(), Refusal>
    ensures { result ≡ first_of (take 4 (plan_checks plan.now)) }
{
    if !begins(plan) {
        return Err(Refusal::Magic);
    }
    if !(1..=4).contains(&plan::byte(plan, 4)) {
        return Err(Refusal::Version);
    }
    let n = plan::byte(plan, 5);
    if !parties_ok(n) {
        return Err(Refusal::Parties);
    }
    if !threshold_ok(n, plan::byte(plan, 6)) {
        return Err(Refusal::Threshold);
    }
    Ok(())
}

// Refusals 25 and 26.
// As it is: this ends as `check_majority` does, but for the search and the refusal. One function of both would take them as parameters, and have nothing
// left to do but a test.
#[tactic(auto, using(crate::proofs::Ways::last))]
fn check_last(plan: &[u8]) -> Result<(), Refusal>
    ensures { result ≡ first_of (drop 8 (plan_checks plan.now)) }
{
    check_majority(plan)?;
    if first_bad_point(plan).is_some() {
        return Err(Refusal::Points);
    }
    Ok(())
}

// Refusals 6 to 8, 25 and 26.
#[tactic(auto, using(crate::proofs::Ways::body))]
fn check_body(plan: &[u8]) -> Result<(), Refusal>
    ensures { result ≡ first_of (drop 5 (plan_checks plan.now)) }
{
    if !layout_ok(plan) {
        return Err(Refusal::Layout);
    }
    if let Some(g) = first_bad_gate(plan) {
        return Err(Refusal::GateRule(g));
    }
    if let Some(o) = first_bad_out(plan) {
        return Err(Refusal::OutputRule(o));
    }
    check_last(plan)
}

// Refusals 5 to 8, 25 and 26, and the contents.
#[tactic(auto, using(crate::proofs::Reading::reads))]
fn read_on(plan: &[u8]) -> Result<Header, Refusal>
    ensures passed { IfOk result (λ h. HeaderOf plan.now h × (first_of (drop 4 (plan_checks plan.now)) ≡ Ok tt)) }
    ensures refused { IfErr result (λ r. first_of (drop 4 (plan_checks plan.now)) ≡ Err r) }
{
    let n = plan::byte(plan, 5);
    let p = plan::field(plan, 0);
    let Some(field) = field_above(n, p as u32) else {
        return Err(Refusal::Modulus);
    };
    check_body(plan)?;
    Ok(Header {
        n,
        t: plan::byte(plan, 6),
        field,
        gates: plan::field(plan, 2),
        outs: plan::field(plan, 4),
        rule: plan::rule_for(plan::byte(plan, 4)),
    })
}

// The contents of a plan.
#[tactic(auto, using(crate::proofs::Reading::reads))]
fn header(plan: &[u8]) -> Result<Header, Refusal>
    ensures passed { IfOk result (λ h. Planned plan.now h) }
    ensures refused { IfErr result (λ r. plan_check plan.now ≡ Err r) }
{
    check_contents(plan)?;
    read_on(plan)
}

// Reads a plan: the file with its contents, or the first refusal of 1 to 8, 25 and 26 that falls on it.
#[tactic(auto, using(crate::proofs::Reading::reads))]
pub fn read(plan: &[u8]) -> Result<PlanFile<'_>, Refusal>
    ensures passed { IfOk result (λ f. f.bytes.now ≡ plan.now) }
    ensures refused { IfErr result (λ r. plan_check plan.now ≡ Err r) }
{
    let header = header(plan)?;
    Ok(PlanFile {
        bytes: plan,
        header,
    })
}

// Checks a plan: the first refusal of 1 to 8, 25 and 26 that falls on it.
#[tactic(auto, using(crate::proofs::Reading::reads))]
pub fn check(plan: &[u8]) -> Result<(), Refusal>
    ensures { result ≡ plan_check plan.now }
{
    read(plan).map(|_| ())
}
