// The points of a set's members, and the coins of a gate's dealings moved by delta's coefficients.
#![tactic(auto)]

pub mod truncation;

ghost use Rattle.std.specs.Prelude.{◌≡◌, true, [], ◌∷◌, suc, ◌+◌, ◌-◌, ◌*◌, ◌<◌, ◌≤◌, length, get_or, take, drop};
ghost use Rattle.numbers.specs.Tables.{tab};
ghost use Rattle.numbers.specs.Bytes.{numbers, all_below};
ghost use Rattle.field.specs.Field.{Below2, Is};
ghost use Rattle.plan.specs.File.{gate_ok, majority_ok};
ghost use Rattle.plan_coalition.specs.Coalitions.{in_set, members};
ghost use Rattle.run_dealings.specs.Rows.{products_of, draws_of, Sized, Rowed, Standing};
ghost use Rattle.match_moves.specs.Moves.{member_points, moved, change_of, moved_blocks, Movable, Lent, Written, Advanced};
ghost use Rattle.match_moves.specs.Truncations.{coins_in, gate_block, Truncating};

use field::Sums;
use plan::{Gate, Header, Rule};
use truncation::Truncation;

// ---- the members

// Entry i of a list; 0 past its end.
#[tactic(auto, using(crate::proofs::MoveLaws::gathering))]
fn entry(list: &[u64], i: usize) -> u64
    ensures { result ≡ get_or list.now i 0 }
{
    if i < list.len() { list[i] } else { 0 }
}

// The points of a set's members, ascending, in front of the room; how many they are.
// As it is: the room is lent, since there is no heap, and its length is answered, since of a room whose part is handed out nothing can be said.
#[tactic(auto, using(crate::proofs::MoveLaws::gathering))]
pub fn members(set: u16, points: &[u64], room: &mut [u64]) -> usize
    requires { length room.old ≡ 16 }
    ensures { record { eq : take result room.new ≡ member_points points.now set; count : result ≡ length (members set); le : result ≤ 16 } }
{
    let mut k = 0;
    for i in 1..17 {
        room[k] = entry(points, i - 1);
        k += usize::from(plan_coalition::is_member(set, i));
    }
    k
}

// ---- the coins

// How a matching moves the coins of a run: from a first list of inputs to a second one, by delta's coefficients of X to X^t, but for the coins of
// a set's members. `before` and `after` are both runs' tables of shares; `truncation` has what the coins of a multiply by truncation move by besides.
#[derive(Clone, Copy)]
pub struct Mover<'a> {
    pub header: Header,
    pub sums: Sums,
    pub set: u16,
    pub delta: &'a [u64],
    pub first: &'a [u8],
    pub second: &'a [u8],
    pub coins: &'a [u8],
    pub before: &'a [u64],
    pub after: &'a [u64],
    pub truncation: &'a Truncation<'a>,
    pub ghost sized: { Sized header },
    pub ghost summed: { sums.field.p ≡ header.field.p },
    pub ghost movable: { Movable header.field.p header.t delta.now first.now second.now },
    pub ghost truncating: { Truncating header truncation.now.bases.field.p truncation.now.bases.t truncation.now.bases.points.now truncation.now.spares.now },
}

impl Mover<'_> {
    // Writes as many coins as there are coefficients, each moved by d times its own, with one remainder for each and no division.
    // As it is: `at` is a place of both lists, of the coins that are read and of those that are written, so no struct of one of them can hold it.
    #[tactic(auto, using(crate::proofs::MoveLaws::moving))]
    fn shift(&self, d: u64, coefficients: &[u64], at: usize, out: &mut [u8])
        requires d_lt_p { d < self.now.header.field.p }
        requires coefficients_value { all_below self.now.header.field.p coefficients.now ≡ true }
        requires lent { Lent self.now.header.field.p at (length coefficients.now) self.now.coins.now out.old }
        ensures { Written at (length coefficients.now) (moved self.now.header.field.p d coefficients.now (take (length coefficients.now) (drop at (numbers self.now.coins.now)))) out.old out.new }
    {
        let sums = self.sums;
        let coins = self.coins;
        for (j, e) in coefficients.iter().enumerate() {
            let coin = numbers::read(coins, at + j);
            let sum = sums.add_product(coin, d, *e);
            numbers::write(out, at + j, sums.reduced(sum));
        }
    }

    // Writes k coins as they are.
    #[tactic(auto, using(crate::proofs::TruncationLaws::keeping))]
    fn keep(&self, k: usize, at: usize, out: &mut [u8])
        requires lent { Lent self.now.header.field.p at k self.now.coins.now out.old }
        ensures { Written at k (take k (drop at (numbers self.now.coins.now))) out.old out.new }
    {
        let coins = self.coins;
        for j in 0..k {
            numbers::write(out, at + j, numbers::read(coins, at + j));
        }
    }

    // Writes the coins of a dealer that deals one number in the first run and another in the second: a member's as they are, another's moved by the change.
    #[tactic(auto, using(crate::proofs::MoveLaws::moving_dealing))]
    fn dealing(&self, dealer: usize, before: u64, after: u64, at: usize, out: &mut [u8])
        requires before_lt_p { (before < self.now.header.field.p) × (after < self.now.header.field.p) }
        requires lent { Lent self.now.header.field.p at (length self.now.delta.now) self.now.coins.now out.old }
        ensures { Written at (length self.now.delta.now) (moved self.now.header.field.p (change_of self.now.header.field.p (in_set self.now.set dealer) before after) self.now.delta.now (take (length self.now.delta.now) (drop at (numbers self.now.coins.now)))) out.old out.new }
    {
        if plan_coalition::is_member(self.set, dealer) {
            self.keep(self.delta.len(), at, out);
        } else {
            let change = self.header.field.sub(after, before);
            self.shift(change, self.delta, at, out);
        }
    }

    // Writes the moved coins of the dealings by parties 1, 2, .. of these numbers in both runs; answers the place after them.
    // As it is: one index into both lists. `before.iter().zip(after).enumerate()` was tried: that loop has no index for the invariant to name, and
    // with the count of the turns taken in its place the check didn't find that a turn's numbers are the lists' entries there.
    #[tactic(auto, using(crate::proofs::MoveLaws::moving_blocks))]
    fn dealings(&self, before: &[u64], after: &[u64], at: usize, out: &mut [u8]) -> usize
        requires lengths { (length before.now ≤ 15) × (length after.now ≡ length before.now) }
        requires before_below { all_below self.now.header.field.p before.now ≡ true }
        requires after_below { all_below self.now.header.field.p after.now ≡ true }
        requires lent { Lent self.now.header.field.p at (length self.now.delta.now * length before.now) self.now.coins.now out.old }
        ensures { Advanced at (length self.now.delta.now * length before.now) (moved_blocks self.now.header.field.p (length self.now.delta.now) self.now.set self.now.delta.now (tab suc (length before.now)) before.now after.now (drop at (numbers self.now.coins.now))) out.old out.new result }
    {
        let mut place = at;
        for i in 0..before.len() {
            self.dealing(i + 1, before[i], after[i], place, out);
            place += self.delta.len();
        }
        place
    }

    // What a multiply gate's dealers deal in a run: each one's own product of its two shares.
    #[tactic(auto, using(crate::proofs::GateMoveLaws::moving_products))]
    fn products(&self, a: usize, b: usize, table: &[u64]) -> [u64; 15]
        requires t_bound { 2 * self.now.header.t < self.now.header.n }
        requires rowed { Rowed self.now.header.field.p self.now.header.n a table.now }
        requires rowed_2 { Rowed self.now.header.field.p self.now.header.n b table.now }
        ensures { record { eq : take (self.now.header.t + self.now.header.t + 1) result ≡ products_of self.now.header.field.p self.now.header.n (self.now.header.t + self.now.header.t + 1) a b table.now; below : all_below self.now.header.field.p (take (self.now.header.t + self.now.header.t + 1) result) ≡ true } }
    {
        let h = self.header;
        run_dealings::products(self.sums, h.n, h.t + h.t + 1, a, b, table)
    }

    // Writes the moved coins of a multiply gate's dealings; answers the place after them.
    #[tactic(auto, using(crate::proofs::GateMoveLaws::moving_products))]
    fn multiply(&self, a: usize, b: usize, at: usize, out: &mut [u8]) -> usize
        requires t_bound { 2 * self.now.header.t < self.now.header.n }
        requires rowed { (Rowed self.now.header.field.p self.now.header.n a self.now.before.now) × (Rowed self.now.header.field.p self.now.header.n b self.now.before.now) }
        requires rowed_2 { (Rowed self.now.header.field.p self.now.header.n a self.now.after.now) × (Rowed self.now.header.field.p self.now.header.n b self.now.after.now) }
        requires lent { Lent self.now.header.field.p at (length self.now.delta.now * (self.now.header.t + self.now.header.t + 1)) self.now.coins.now out.old }
        ensures { Advanced at (length self.now.delta.now * (self.now.header.t + self.now.header.t + 1)) (moved_blocks self.now.header.field.p (length self.now.delta.now) self.now.set self.now.delta.now (tab suc (self.now.header.t + self.now.header.t + 1)) (products_of self.now.header.field.p self.now.header.n (self.now.header.t + self.now.header.t + 1) a b self.now.before.now) (products_of self.now.header.field.p self.now.header.n (self.now.header.t + self.now.header.t + 1) a b self.now.after.now) (drop at (numbers self.now.coins.now))) out.old out.new result }
    {
        let m = self.header.t + self.header.t + 1;
        let first = self.products(a, b, self.before);
        let second = self.products(a, b, self.after);
        self.dealings(&first[..m], &second[..m], at, out)
    }

    // Writes the moved coins of a random wire's dealings; answers the place after them.
    #[tactic(auto, using(crate::proofs::GateMoveLaws::moving_draws))]
    fn random(&self, next: usize, at: usize, out: &mut [u8]) -> usize
        requires { Lent self.now.header.field.p at (length self.now.delta.now * self.now.header.n) self.now.coins.now out.old }
        ensures { Advanced at (length self.now.delta.now * self.now.header.n) (moved_blocks self.now.header.field.p (length self.now.delta.now) self.now.set self.now.delta.now (tab suc self.now.header.n) (draws_of self.now.header.n (drop next (numbers self.now.first.now))) (draws_of self.now.header.n (drop next (numbers self.now.second.now))) (drop at (numbers self.now.coins.now))) out.old out.new result }
    {
        let n = self.header.n;
        let first = run_dealings::draws(n, numbers::rest(self.first, next));
        let second = run_dealings::draws(n, numbers::rest(self.second, next));
        self.dealings(&first[..n], &second[..n], at, out)
    }

    // Writes the moved coins of a gate, which takes its inputs from place `next` of both lists on; answers the place after them.
    #[tactic(auto, using(crate::proofs::GateMoveLaws::moving_gate))]
    pub fn gate(&self, g: usize, gate: Gate, next: usize, at: usize, out: &mut [u8]) -> usize
        requires gate_value { gate_ok self.now.header.n self.now.header.field.p g gate ≡ true }
        requires gate_value_2 { majority_ok self.now.header.n self.now.header.t gate ≡ true }
        requires standing { Standing self.now.header.field.p self.now.header.n g self.now.before.now }
        requires standing_2 { Standing self.now.header.field.p self.now.header.n g self.now.after.now }
        requires lent { Lent self.now.header.field.p at (coins_in self.now.header gate) self.now.coins.now out.old }
        ensures { Advanced at (coins_in self.now.header gate) (gate_block self.now.header self.now.set self.now.truncation.now.lowest self.now.delta.now self.now.truncation.now.spares.now self.now.truncation.now.bases.points.now gate self.now.before.now self.now.after.now (drop next (numbers self.now.first.now)) (drop next (numbers self.now.second.now)) (drop at (numbers self.now.coins.now))) out.old out.new result }
    {
        match gate {
            Gate::Input(party) => {
                let x = numbers::read(self.first, next);
                let y = numbers::read(self.second, next);
                self.dealing(party, x, y, at, out);
                at + self.delta.len()
            }
            Gate::Multiply(a, b) => match self.header.rule {
                Rule::Reduction => self.multiply(a, b, at, out),
                Rule::Truncation => self.truncated(a, b, at, out),
            },
            Gate::Random => self.random(next, at, out),
            _ => at,
        }
    }
}
