// The answers of the bench and of the line charge, whose values stand above the low byte.
#![tactic(auto, using(crate::proofs::Answers::answering))]

ghost use Rattle.std.specs.Prelude.{◌≡◌};
ghost use Rattle.pool_answers.specs.Answers.{answer_of};

use plan::Refusal;

// The answer of a call that has a number: the number as its value, in 32 bits, or the refusal.
pub fn answer(r: Result<u64, Refusal>) -> u64
    ensures { result ≡ answer_of r }
{
    plan_codes::answer(r.map(|v| (v % 4294967296) as usize))
}

// The bench's answer, of the elements sent.
pub fn sent(b: Result<usize, Refusal>) -> u64
    ensures { result ≡ answer_of b }
{
    answer(b.map(|n| n as u64))
}
