// Refusals as numbers, and the answer of a C call.
#![tactic(auto)]

ghost use Rattle.std.specs.Prelude.{IfOk, ◌≡◌, ◌≤◌, ◌<◌, ◌+◌, ◌*◌};
ghost use Rattle.plan.specs.Refusals.{number_of, place_of, code_of};
ghost use Rattle.plan_codes.specs.Values.{answer_of};

use plan::Refusal;

// A refusal's number.
// As it is: the C interface answers in numbers, and its header has these.
#[tactic(auto, unfolding(plan::specs::Refusals::number_of))]
pub fn number(r: Refusal) -> u64
    ensures { record { eq : result ≡ number_of r; le : result ≤ 31 } }
{
    match r {
        Refusal::CircuitText => 23,
        Refusal::SheetText => 27,
        Refusal::TooLarge => 24,
        Refusal::Magic => 1,
        Refusal::Version => 2,
        Refusal::Parties => 3,
        Refusal::Threshold => 4,
        Refusal::Modulus => 5,
        Refusal::Layout => 6,
        Refusal::GateRule(_) => 7,
        Refusal::OutputRule(_) => 8,
        Refusal::Majority => 25,
        Refusal::Points => 26,
        Refusal::Price => 31,
        Refusal::Record => 28,
        Refusal::Coalition => 9,
        Refusal::InputCount => 10,
        Refusal::InputValue(_) => 11,
        Refusal::CoinCount => 12,
        Refusal::CoinValue(_) => 13,
        Refusal::Triples => 29,
        Refusal::Settings => 30,
        Refusal::StateCount => 14,
        Refusal::StateValue => 15,
        Refusal::Finished => 16,
        Refusal::MailCount => 17,
        Refusal::MailValue(_) => 18,
        Refusal::BufferLength => 19,
        Refusal::OffPolynomial(_) => 20,
        Refusal::InputsDiffer(_) => 21,
        Refusal::OutputsDiffer(_) => 22,
    }
}

// A refusal's place, 0 unless named.
// As it is: the C interface answers in numbers.
#[tactic(auto, unfolding(plan::specs::Refusals::place_of))]
pub fn place(r: Refusal) -> u64
    ensures { result ≡ place_of r }
{
    match r {
        Refusal::GateRule(i)
        | Refusal::OutputRule(i)
        | Refusal::InputValue(i)
        | Refusal::CoinValue(i)
        | Refusal::MailValue(i)
        | Refusal::OffPolynomial(i)
        | Refusal::InputsDiffer(i)
        | Refusal::OutputsDiffer(i) => i as u64,
        _ => 0,
    }
}

// The answer of a C call: bits 0 to 7 are the refusal's number, bits 8 to 39 its place; 0 where there is none.
#[tactic(auto, unfolding(plan::specs::Refusals::code_of))]
pub fn code(c: Result<(), Refusal>) -> u64
    ensures { result ≡ code_of c }
{
    match c {
        Ok(()) => 0,
        Err(r) => number(r) + 256 * (place(r) % 4294967296),
    }
}

// An answer with a value, which stands above the low byte.
pub fn value(v: usize) -> u64
    requires { v < 72057594037927936 }
    ensures { result ≡ 256 * v }
{
    256 * (v as u64)
}

// The answer of a C call that has a value: the value, or the refusal.
#[tactic(auto, unfolding(crate::specs::Values::answer_of))]
pub fn answer(r: Result<usize, Refusal>) -> u64
    requires { IfOk r (λ v. v < 72057594037927936) }
    ensures { result ≡ answer_of r }
{
    match r {
        Ok(v) => value(v),
        Err(r) => code(Err(r)),
    }
}
