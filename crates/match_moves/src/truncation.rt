// The coins of a multiply by truncation: the dealing of 0 by the lowest party that is no member takes up the change of the product, but for its value
// times delta; by that each masked product changes.
ghost use Rattle.std.specs.Prelude.{◌≡◌, true, ◌+◌, ◌-◌, ◌*◌, ◌<◌, ◌≤◌, length, take, drop};
ghost use Rattle.numbers.specs.Bytes.{numbers, all_below};
ghost use Rattle.field.specs.Field.{Is};
ghost use Rattle.plan.specs.declared.Rule.TheVariants as rule;
ghost use Rattle.run_dealings.specs.Rows.{Rowed};
ghost use Rattle.match_moves.specs.Moves.{Lent, Written, Advanced};
ghost use Rattle.match_moves.specs.Truncations.{changes_of, change_by, gain_of, gains_of, zero_row, mask_change_of, party_row, party_rows, truncated_coins, fitted_by, Fitted};

use crate::{Mover, entry};
use plan::{Header, Rule};
use sharing_matrix::Bases;

// What the coins move by besides delta's coefficients: the lowest party that is no member, delta's values at the parties' points, and the basis
// polynomials of the first 2t + 1 points.
#[derive(Clone, Copy)]
pub struct Truncation<'a> {
    pub lowest: usize,
    pub spares: &'a [u64],
    pub bases: Bases<'a>,
}

// How many points the bases have; none where no gate of the plan truncates.
#[tactic(auto, using(crate::proofs::TruncationLaws::counting))]
fn fitted_dealers(header: Header) -> usize
    requires { header.t < 16 }
    ensures { result ≡ fitted_by header.rule header.n header.t }
{
    match header.rule {
        Rule::Reduction => 0,
        Rule::Truncation => {
            if 2 * header.t < header.n {
                header.t + header.t + 1
            } else {
                0
            }
        }
    }
}

impl<'a> Truncation<'a> {
    // The bases are written where there is room.
    #[tactic(auto, using(crate::proofs::TruncationLaws::preparing))]
    pub fn new(
        header: Header,
        lowest: usize,
        spares: &'a [u64],
        points: &'a [u64],
        room: &'a mut [u64],
    ) -> Self
        requires t_bound { header.t < 16 }
        requires points_len { (length points.now ≡ header.n) × (header.n ≤ 15) }
        requires points_value { all_below header.field.p points.now ≡ true }
        requires room_len { length room.old ≡ 225 }
        ensures given { (result.lowest ≡ lowest) × (result.spares.now ≡ spares.now) }
        ensures fitted { Fitted header points.now result.bases.field.p result.bases.t result.bases.points.now }
    {
        let m = fitted_dealers(header);
        let degree = m.saturating_sub(1);
        let used = (degree + 1) * m;
        Truncation {
            lowest,
            spares,
            bases: Bases::new(header.field, degree, &points[..m], &mut room[..used]),
        }
    }
}

impl Mover<'_> {
    // By how much the products of the first 2t + 1 parties change.
    #[tactic(auto, using(crate::proofs::TruncationLaws::changing))]
    fn product_changes(&self, a: usize, b: usize) -> [u64; 15]
        requires t_bound { 2 * self.now.header.t < self.now.header.n }
        requires rowed { (Rowed self.now.header.field.p self.now.header.n a self.now.before.now) × (Rowed self.now.header.field.p self.now.header.n b self.now.before.now) }
        requires rowed_2 { (Rowed self.now.header.field.p self.now.header.n a self.now.after.now) × (Rowed self.now.header.field.p self.now.header.n b self.now.after.now) }
        ensures { record { eq : take (self.now.header.t + self.now.header.t + 1) result ≡ changes_of self.now.header.field.p self.now.header.n (self.now.header.t + self.now.header.t + 1) a b self.now.before.now self.now.after.now; below : all_below self.now.header.field.p (take (self.now.header.t + self.now.header.t + 1) result) ≡ true } }
    {
        let h = self.header;
        let first = self.products(a, b, self.before);
        let second = self.products(a, b, self.after);
        run_dealings::row_by(h.t + h.t + 1, |i| h.field.sub(second[i], first[i]))
    }

    // The change of the product as a polynomial: 2t + 1 coefficients.
    #[tactic(auto, using(crate::proofs::TruncationLaws::fitting))]
    fn product_change(&self, a: usize, b: usize) -> [u64; 15]
        requires by { self.now.header.rule ≡ rule.Truncation }
        requires t_bound { 2 * self.now.header.t < self.now.header.n }
        requires rowed { (Rowed self.now.header.field.p self.now.header.n a self.now.before.now) × (Rowed self.now.header.field.p self.now.header.n b self.now.before.now) }
        requires rowed_2 { (Rowed self.now.header.field.p self.now.header.n a self.now.after.now) × (Rowed self.now.header.field.p self.now.header.n b self.now.after.now) }
        ensures { record { eq : take (self.now.header.t + self.now.header.t + 1) result ≡ change_by self.now.header.field.p (self.now.header.t + self.now.header.t + 1) self.now.truncation.now.bases.points.now (changes_of self.now.header.field.p self.now.header.n (self.now.header.t + self.now.header.t + 1) a b self.now.before.now self.now.after.now); below : all_below self.now.header.field.p (take (self.now.header.t + self.now.header.t + 1) result) ≡ true } }
    {
        let m = self.header.t + self.header.t + 1;
        let changes = self.product_changes(a, b);
        let mut change = [0u64; 15];
        self.truncation.bases.fit(&changes[..m], &mut change[..m]);
        change
    }

    // What coin j of a dealing of 0 gains that takes up the change.
    #[tactic(auto, using(crate::proofs::TruncationLaws::gaining))]
    fn gain(&self, change: &[u64], j: usize) -> u64
        requires change_value { all_below self.now.header.field.p change.now ≡ true }
        requires j_in_bounds { j + 1 < length change.now }
        ensures { Is self.now.header.field.p (gain_of self.now.header.field.p self.now.delta.now change.now j) result }
    {
        let f = self.header.field;
        f.sub(f.mul(change[0], entry(self.delta, j)), change[j + 1])
    }

    // The same of its 2t coins.
    #[tactic(auto, using(crate::proofs::TruncationLaws::gaining))]
    fn gains(&self, change: &[u64]) -> [u64; 15]
        requires t_bound { 2 * self.now.header.t < self.now.header.n }
        requires change_len { length change.now ≡ self.now.header.t + self.now.header.t + 1 }
        requires change_value { all_below self.now.header.field.p change.now ≡ true }
        ensures { record { eq : take (self.now.header.t + self.now.header.t) result ≡ gains_of self.now.header.field.p (self.now.header.t + self.now.header.t) self.now.delta.now change.now; below : all_below self.now.header.field.p (take (self.now.header.t + self.now.header.t) result) ≡ true } }
    {
        run_dealings::row_by(self.header.t + self.header.t, |j| self.gain(change, j))
    }

    // Writes the coins of party i + 1's dealing of 0.
    #[tactic(auto, using(crate::proofs::TruncationLaws::zeroing))]
    fn zero(&self, i: usize, gains: &[u64], at: usize, out: &mut [u8])
        requires i_lt_n { i < self.now.header.n }
        requires gains_value { all_below self.now.header.field.p gains.now ≡ true }
        requires gains_len { length gains.now ≡ self.now.header.t + self.now.header.t }
        requires lent { Lent self.now.header.field.p at (self.now.header.t + self.now.header.t) self.now.coins.now out.old }
        ensures { Written at (self.now.header.t + self.now.header.t) (zero_row self.now.header.field.p self.now.header.t self.now.truncation.now.lowest gains.now (drop at (numbers self.now.coins.now)) i) out.old out.new }
    {
        if i + 1 == self.truncation.lowest {
            self.shift(1, gains, at, out);
        } else {
            self.keep(self.header.t + self.header.t, at, out);
        }
    }

    // By how much the coins of party i + 1's dealing of its masked product move, where the product changes by e: by e times delta at its point.
    // A member's coins stay.
    #[tactic(auto, using(crate::proofs::TruncationLaws::masking))]
    fn mask_change(&self, i: usize, e: u64) -> u64
        requires i_lt_n { i < self.now.header.n }
        requires e_lt_p { e < self.now.header.field.p }
        ensures { Is self.now.header.field.p (mask_change_of self.now.header.field.p self.now.set self.now.truncation.now.spares.now e i) result }
    {
        if plan_coalition::is_member(self.set, i + 1) {
            0
        } else {
            self.header.field.mul(e, self.truncation.spares[i])
        }
    }

    // Writes party i + 1's coins.
    #[tactic(auto, using(crate::proofs::TruncationLaws::moving_party))]
    fn party(&self, i: usize, e: u64, gains: &[u64], at: usize, out: &mut [u8])
        requires i_lt_n { i < self.now.header.n }
        requires e_lt_p { e < self.now.header.field.p }
        requires gains_value { all_below self.now.header.field.p gains.now ≡ true }
        requires gains_len { length gains.now ≡ self.now.header.t + self.now.header.t }
        requires lent { Lent self.now.header.field.p at (3 * self.now.header.t) self.now.coins.now out.old }
        ensures { Written at (3 * self.now.header.t) (party_row self.now.header.field.p self.now.header.t self.now.set self.now.truncation.now.lowest self.now.delta.now self.now.truncation.now.spares.now e gains.now (drop at (numbers self.now.coins.now)) i) out.old out.new }
    {
        let t = self.header.t;
        self.zero(i, gains, at, out);
        self.shift(self.mask_change(i, e), self.delta, at + (t + t), out);
    }

    // Writes the coins of all parties, where the product changes by e and the gains are the taking party's; answers the place after them.
    #[tactic(auto, using(crate::proofs::TruncationLaws::moving_parties))]
    fn parties(&self, e: u64, gains: &[u64], at: usize, out: &mut [u8]) -> usize
        requires e_lt_p { e < self.now.header.field.p }
        requires gains_value { all_below self.now.header.field.p gains.now ≡ true }
        requires gains_len { length gains.now ≡ self.now.header.t + self.now.header.t }
        requires lent { Lent self.now.header.field.p at (3 * self.now.header.t * self.now.header.n) self.now.coins.now out.old }
        ensures { Advanced at (3 * self.now.header.t * self.now.header.n) (party_rows self.now.header.field.p self.now.header.n self.now.header.t self.now.set self.now.truncation.now.lowest self.now.delta.now self.now.truncation.now.spares.now e gains.now (drop at (numbers self.now.coins.now))) out.old out.new result }
    {
        let mut place = at;
        for i in 0..self.header.n {
            self.party(i, e, gains, place, out);
            place += 3 * self.header.t;
        }
        place
    }

    // Writes the moved coins of a multiply by truncation; answers the place after them.
    #[tactic(auto, using(crate::proofs::TruncationLaws::moving_truncated))]
    pub fn truncated(&self, a: usize, b: usize, at: usize, out: &mut [u8]) -> usize
        requires by { self.now.header.rule ≡ rule.Truncation }
        requires t_bound { 2 * self.now.header.t < self.now.header.n }
        requires rowed { (Rowed self.now.header.field.p self.now.header.n a self.now.before.now) × (Rowed self.now.header.field.p self.now.header.n b self.now.before.now) }
        requires rowed_2 { (Rowed self.now.header.field.p self.now.header.n a self.now.after.now) × (Rowed self.now.header.field.p self.now.header.n b self.now.after.now) }
        requires lent { Lent self.now.header.field.p at (3 * self.now.header.t * self.now.header.n) self.now.coins.now out.old }
        ensures { Advanced at (3 * self.now.header.t * self.now.header.n) (truncated_coins self.now.header.field.p self.now.header.n self.now.header.t self.now.set self.now.truncation.now.lowest self.now.delta.now self.now.truncation.now.spares.now (change_by self.now.header.field.p (self.now.header.t + self.now.header.t + 1) self.now.truncation.now.bases.points.now (changes_of self.now.header.field.p self.now.header.n (self.now.header.t + self.now.header.t + 1) a b self.now.before.now self.now.after.now)) (drop at (numbers self.now.coins.now))) out.old out.new result }
    {
        let t = self.header.t;
        let change = self.product_change(a, b);
        let gains = self.gains(&change[..t + t + 1]);
        self.parties(change[0], &gains[..t + t], at, out)
    }
}
