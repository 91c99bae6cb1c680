// Openings: a value from the shares of the first t + 1 parties, and the first share that is not on their polynomial.
#![tactic(auto)]

ghost use Rattle.std.specs.Prelude.{◌≡◌, true, ◌+◌, ◌*◌, ◌<◌, ◌≤◌, length};
ghost use Rattle.numbers.specs.Bytes.{all_below};
ghost use Rattle.field.specs.Field.{Is};
ghost use Rattle.sharing_laws.specs.Interp.{weights, dot};
ghost use Rattle.sharing_laws.specs.Sharing.{opened, first_off, opening_rows};
ghost use Rattle.sharing_openings.specs.Openable.{Openable, Checkable};

use field::Field;

// The weights with which each party's share is found from the first t + 1 shares, a row for each party.
// As it is: field, t and points go together into this function, `first_off` and `opened` too; no caller keeps the three beyond one call, so a struct of
// them would be made for each call alone. `Checker` is for who keeps them.
#[tactic(auto, using(crate::proofs::Rows::writing))]
pub fn opening_rows(f: Field, t: usize, points: &[u64], rows: &mut [u64])
    requires points_value { all_below f.p points.now ≡ true }
    requires t_in_bounds { t < length points.now }
    requires rows_len { length rows.old ≡ (t + 1) * length points.now }
    ensures { rows.new ≡ opening_rows f.p t points.now }
{
    let k = t + 1;
    for (party, x) in points.iter().enumerate() {
        let at = k * party;
        sharing::weights(f, *x, &points[..k], &mut rows[at..at + k]);
    }
}

// The check of openings among given points, of which the first t + 1 open a value: `rows` are their opening rows.
#[derive(Clone, Copy)]
pub struct Checker<'a> {
    pub field: Field,
    pub t: usize,
    pub points: &'a [u64],
    pub rows: &'a [u64],
    pub ghost checkable: { Checkable field.p t points.now rows.now },
}

impl<'a> Checker<'a> {
    // Its rows are written into the room.
    #[tactic(auto, using(crate::proofs::Rows::writing))]
    pub fn new(field: Field, t: usize, points: &'a [u64], room: &'a mut [u64]) -> Self
        requires points_value { all_below field.p points.now ≡ true }
        requires t_in_bounds { t < length points.now }
        requires points_len_bound { length points.now ≤ 65536 }
        requires room_len { length room.old ≡ (t + 1) * length points.now }
        ensures field_value { result.field ≡ field }
        ensures t_value { result.t ≡ t }
        ensures points_value { result.points.now ≡ points.now }
    {
        opening_rows(field, t, points, room);
        Checker {
            field,
            t,
            points,
            rows: room,
        }
    }

    // The first party whose share is not on the polynomial through the first t + 1 shares.
    #[tactic(auto, using(crate::proofs::Rows::checking))]
    pub fn first_off(&self, shares: &[u64]) -> Option<usize>
        requires shares_value { all_below self.now.field.p shares.now ≡ true }
        requires shares_len { length shares.now ≡ length self.now.points.now }
        ensures { result ≡ first_off self.now.field.p self.now.t self.now.points.now shares.now }
    {
        let k = self.t + 1;
        for (party, share) in shares.iter().enumerate() {
            let at = k * party;
            if sharing::dot(self.field, &self.rows[at..at + k], shares) != *share {
                return Some(party);
            }
        }
        None
    }
}

// The same from the points alone.
#[tactic(auto, using(crate::proofs::Openings::offing))]
pub fn first_off(f: Field, t: usize, points: &[u64], shares: &[u64]) -> Option<usize>
    requires { Openable f.p t points.now shares.now }
    ensures { result ≡ first_off f.p t points.now shares.now }
{
    let mut room = [0u64; 225];
    let used = (t + 1) * points.len();
    Checker::new(f, t, points, &mut room[..used]).first_off(shares)
}

// The opening of a value from the shares at the first t + 1 points.
#[tactic(auto, using(crate::proofs::Openings::opening))]
pub fn opened(f: Field, t: usize, points: &[u64], shares: &[u64]) -> u64
    requires { Openable f.p t points.now shares.now }
    ensures { Is f.p (opened f.p t points.now shares.now) result }
{
    let mut room = [0u64; 15];
    let k = t + 1;
    sharing::weights(f, 0, &points[..k], &mut room[..k]);
    sharing::dot(f, &room[..k], shares)
}
