// The matching of coins of two runs together: of a preparing run, and of the main run that spends its triples.
#![tactic(auto)]

pub mod checking;
mod draws;
mod matching;
mod triples;

ghost use Rattle.std.specs.Prelude.{Err, ◌≡◌, length};
ghost use Rattle.match_prepared.specs.PreparedCalls.{prepared_answer, prepared_after};
ghost use Rattle.match_prepared.specs.PreparedParts.{earlier};

use checking::PreparedPair;
use match_agreement::InputPair;
use plan::Refusal;

// The refusal of a preparing plan, or that of its main plan where its check comes before.
#[tactic(auto, using(crate::proofs::TurnLaws::taking_earlier))]
fn earlier(first: Refusal, second: Result<(), Refusal>) -> Refusal
    ensures { Err result ≡ earlier (Err first) second }
{
    if let Err(refusal) = second {
        if plan_codes::number(refusal) < plan_codes::number(first) {
            return refusal;
        }
    }
    first
}

// Matches the draws and the coins of a preparing run, and the coins of the main run that spends its triples, of a first list of inputs to a second one,
// for the coalition of a set: `matched` takes the joint list with which the second list gives the coalition the views of both runs that the first one
// gives with `coins`. A joint list has the preparing plan's draws, its coins, and the main plan's coins. Answers the first refusal of 1 to 8, 25, 26, 9
// to 13, 29, 19, 21 and 22 that falls on it, each tried on the preparing plan first, and then `matched` is not written.
// As it is: the C interface lends the plans, the set and the lists one by one, and a struct of them would be taken apart here.
#[tactic(auto, using(crate::proofs::CallLaws::calling))]
pub fn match_prepared(
    preparing: &[u8],
    plan: &[u8],
    set: u16,
    first: &[u8],
    second: &[u8],
    coins: &[u8],
    matched: &mut [u8],
) -> Result<(), Refusal>
    ensures answer { result ≡ prepared_answer preparing.now plan.now set first.now second.now coins.now (length matched.old) }
    ensures coins { matched.new ≡ prepared_after preparing.now plan.now set first.now second.now coins.now matched.old }
{
    let made = match plan_reading::read(preparing) {
        Ok(made) => made,
        Err(refusal) => return Err(earlier(refusal, plan_reading::check(plan))),
    };
    let file = plan_reading::read(plan)?;
    let pair = PreparedPair {
        preparing: &made,
        lists: InputPair {
            plan: &file,
            set,
            first,
            second,
        },
    };
    match_pair(&pair, coins, matched)
}

// The same where both plans are read.
#[tactic(auto, using(crate::proofs::CallLaws::calling))]
fn match_pair(pair: &PreparedPair, coins: &[u8], matched: &mut [u8]) -> Result<(), Refusal>
    ensures answer { result ≡ prepared_answer pair.now.preparing.now.bytes.now pair.now.lists.plan.now.bytes.now pair.now.lists.set pair.now.lists.first.now pair.now.lists.second.now coins.now (length matched.old) }
    ensures coins { matched.new ≡ prepared_after pair.now.preparing.now.bytes.now pair.now.lists.plan.now.bytes.now pair.now.lists.set pair.now.lists.first.now pair.now.lists.second.now coins.now matched.old }
{
    pair.check(coins, matched.len())?;
    matching::matched(pair, coins, matched);
    Ok(())
}
