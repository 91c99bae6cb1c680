// The joint list of the matched runs, where the checks pass: the draws of the preparing run are moved, and both runs are then matched by the ordinary
// rules, the main runs each with the triples of its own preparing run.
ghost use Rattle.std.specs.Prelude.{◌≡◌, ◌*◌, ◌≤◌, length};
ghost use Rattle.numbers.specs.Bytes.{width, numbers, bytes_of};
ghost use Rattle.plan.specs.Plans.{input_count, coin_count};
ghost use Rattle.plan.specs.File.{plan_of};
ghost use Rattle.plan_coalition.specs.Coalitions.{members};
ghost use Rattle.match_joint.specs.Joint.{matched_joint};
ghost use Rattle.match_prepared.specs.PreparedParts.{Jointly};
ghost use Rattle.match_prepared.specs.MatchingParts.{new_draws, new_coins, new_main, Parted};

use crate::checking::PreparedPair;
use crate::draws::Values;
use crate::triples;
use match_agreement::InputPair;

// Two lists of inputs with the parts of a joint list: the draws and the coins of the preparing run, and the coins of the main run.
#[derive(Clone, Copy)]
struct Parts<'a> {
    pair: PreparedPair<'a>,
    draws: &'a [u8],
    coins: &'a [u8],
    main: &'a [u8],
    ghost parted: { Parted pair.preparing.now.bytes.now pair.lists.plan.now.bytes.now pair.lists.set pair.lists.first.now pair.lists.second.now draws.now coins.now main.now },
}

impl Parts<'_> {
    // Writes the draws of the matched preparing run.
    #[tactic(auto, using(crate::proofs::MatchingLaws::drawing))]
    fn move_draws(&self, out: &mut [u8])
        requires { length out.old ≡ width * input_count (plan_of self.now.pair.preparing.now.bytes.now) }
        ensures { out.new ≡ bytes_of (new_draws self.now.pair.lists.plan.now.bytes.now self.now.pair.lists.set self.now.pair.lists.first.now self.now.pair.lists.second.now self.now.draws.now) }
    {
        let lists = self.pair.lists;
        let h = lists.plan.header;
        let mut before = [0u64; 1024];
        let mut after = [0u64; 1024];
        let mut changes = [0u64; 2048];
        run_ideal::values(lists.plan, lists.first, &mut before);
        run_ideal::values(lists.plan, lists.second, &mut after);
        let values = Values {
            plan: lists.plan,
            before: &before[..h.gates],
            after: &after[..h.gates],
        };
        let k = values.spent_changes(&mut changes);
        let low = match_call::working::lowest(lists.set, h.n);
        crate::draws::move_draws(h.field, h.n, low, &changes[..k], self.draws, out);
    }

    // Writes its coins, by the moved draws.
    fn match_preparing(&self, moved: &[u8], out: &mut [u8])
        requires moved_value { moved.now ≡ bytes_of (new_draws self.now.pair.lists.plan.now.bytes.now self.now.pair.lists.set self.now.pair.lists.first.now self.now.pair.lists.second.now self.now.draws.now) }
        requires out_len { length out.old ≡ width * coin_count (plan_of self.now.pair.preparing.now.bytes.now) }
        ensures { out.new ≡ bytes_of (new_coins self.now.pair.preparing.now.bytes.now self.now.pair.lists.plan.now.bytes.now self.now.pair.lists.set self.now.pair.lists.first.now self.now.pair.lists.second.now self.now.draws.now self.now.coins.now) }
    {
        let lists = InputPair {
            plan: self.pair.preparing,
            set: self.pair.lists.set,
            first: self.draws,
            second: moved,
        };
        match_call::working::matched_with(&lists, self.coins, &[], &[], out);
    }

    // Writes the main run's coins, by the moved draws and the preparing run's new coins: each run spends the triples of its own preparing run.
    #[tactic(auto, using(crate::proofs::MatchingLaws::spending_triples))]
    fn match_main(&self, moved: &[u8], coins: &[u8], out: &mut [u8])
        requires moved_value { moved.now ≡ bytes_of (new_draws self.now.pair.lists.plan.now.bytes.now self.now.pair.lists.set self.now.pair.lists.first.now self.now.pair.lists.second.now self.now.draws.now) }
        requires coins_value { coins.now ≡ bytes_of (new_coins self.now.pair.preparing.now.bytes.now self.now.pair.lists.plan.now.bytes.now self.now.pair.lists.set self.now.pair.lists.first.now self.now.pair.lists.second.now self.now.draws.now self.now.coins.now) }
        requires out_len { length out.old ≡ width * coin_count (plan_of self.now.pair.lists.plan.now.bytes.now) }
        ensures { out.new ≡ bytes_of (new_main self.now.pair.preparing.now.bytes.now self.now.pair.lists.plan.now.bytes.now self.now.pair.lists.set self.now.pair.lists.first.now self.now.pair.lists.second.now self.now.draws.now self.now.coins.now self.now.main.now) }
    {
        let plan = self.pair.preparing;
        let used = numbers::WIDTH * plan.header.gates * plan.header.n;
        let mut first = [0u8; 61440];
        let mut second = [0u8; 61440];
        triples::write_triples(plan, self.draws, self.coins, &mut first[..used]);
        triples::write_triples(plan, moved, coins, &mut second[..used]);
        match_call::working::matched_with(
            &self.pair.lists,
            self.main,
            &first[..used],
            &second[..used],
            out,
        );
    }
}

// Writes the joint list of the matched runs, of two lists of inputs and a joint list that pass the checks.
pub fn matched(pair: &PreparedPair, coins: &[u8], out: &mut [u8])
    requires { Jointly pair.now.preparing.now.bytes.now pair.now.lists.plan.now.bytes.now pair.now.lists.set pair.now.lists.first.now pair.now.lists.second.now coins.now (length out.old) }
    ensures { out.new ≡ bytes_of (matched_joint (plan_of pair.now.preparing.now.bytes.now) (plan_of pair.now.lists.plan.now.bytes.now) (members pair.now.lists.set) (numbers pair.now.lists.first.now) (numbers pair.now.lists.second.now) (numbers coins.now)) }
{
    let a = numbers::WIDTH * plan_counts::input_count(pair.preparing);
    let b = a + numbers::WIDTH * plan_counts::coin_count(pair.preparing);
    let parts = Parts {
        pair: *pair,
        draws: &coins[..a],
        coins: &coins[a..b],
        main: &coins[b..],
    };
    let (front, main) = out.split_at_mut(b);
    let (moved, made) = front.split_at_mut(a);
    parts.move_draws(moved);
    parts.match_preparing(moved, made);
    parts.match_main(moved, made, main);
}
