// The matching of coins: the coins with which a second list of inputs gives a coalition the same view.
#![tactic(auto, using(crate::proofs::PairLaws::pairing_up))]

pub mod working;

ghost use Rattle.std.specs.Prelude.{◌≡◌, length};
ghost use Rattle.match_agreement.specs.MatchCalls.{match_answer, matched_after};

use match_agreement::InputPair;
use plan::Refusal;

// Matches the coins of a first list of inputs to a second one, for the coalition of a set: `matched` takes the coins with which the second
// list gives the coalition the view that the first one gives with `coins`. Answers the first refusal of 1 to 8, 25, 26, 9 to 13, 29, 19, 21 and 22 that
// falls on it, and then `matched` is not written.
pub fn pair(
    plan: &[u8],
    set: u16,
    first: &[u8],
    second: &[u8],
    coins: &[u8],
    matched: &mut [u8],
) -> Result<(), Refusal>
    ensures answer { result ≡ match_answer plan.now set first.now second.now coins.now (length matched.old) }
    ensures coins { matched.new ≡ matched_after plan.now set first.now second.now coins.now matched.old }
{
    let file = plan_reading::read(plan)?;
    let lists = InputPair {
        plan: &file,
        set,
        first,
        second,
    };
    pair_of(&lists, coins, matched)
}

// The same where the plan is read.
fn pair_of(lists: &InputPair, coins: &[u8], matched: &mut [u8]) -> Result<(), Refusal>
    ensures answer { result ≡ match_answer lists.now.plan.now.bytes.now lists.now.set lists.now.first.now lists.now.second.now coins.now (length matched.old) }
    ensures coins { matched.new ≡ matched_after lists.now.plan.now.bytes.now lists.now.set lists.now.first.now lists.now.second.now coins.now matched.old }
{
    lists.check(coins, matched.len())?;
    working::matched(lists, coins, matched);
    Ok(())
}
