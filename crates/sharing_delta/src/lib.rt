// Delta: the polynomial that is 1 at 0 and vanishes at the members' points.
#![tactic(auto)]

ghost use Rattle.std.specs.Prelude.{◌≡◌, true, [], ◌∷◌, ◌+◌, ◌*◌, ◌<◌, ◌≤◌, length};
ghost use Rattle.numbers.specs.Bytes.{all_below};
ghost use Rattle.field.specs.Field.{Below2};
ghost use Rattle.sharing_laws.specs.Poly.{carried, padded};
ghost use Rattle.sharing_laws.specs.Interp.{delta};

use field::Field;

// The polynomial 1.
#[tactic(auto, using(crate::proofs::Factors::clearing))]
pub fn one(out: &mut [u64])
    requires { 0 < length out.old }
    ensures { out.new ≡ padded (length out.old) (1 ∷ []) }
{
    out.fill(0);
    out[0] = 1;
}

// Multiplies a polynomial by a + b·X, in place: the coefficients that there is room for.
#[tactic(auto, using(crate::proofs::Factors::carrying))]
pub fn times(f: Field, a: u64, b: u64, out: &mut [u64])
    requires below2 { Below2 f.p a b }
    requires out_value { all_below f.p out.old ≡ true }
    ensures { out.new ≡ carried f.p a b 0 out.old }
{
    let mut before: u64 = 0;
    for coefficient in out.iter_mut() {
        let x = *coefficient;
        *coefficient = (a * x + b * before) % f.p;
        before = x;
    }
}

// The vanishing polynomial of the members' points: 1 at 0, and 0 at each of them. The product of 1 - X / c over the members c.
#[tactic(auto, using(crate::proofs::Factors::growing))]
pub fn vanishing(f: Field, members: &[u64], out: &mut [u64])
    requires members_value { all_below f.p members.now ≡ true }
    requires members_in_bounds { length members.now + 1 ≤ length out.old }
    ensures { out.new ≡ padded (length out.old) (delta f.p members.now) }
{
    one(out);
    for member in members.iter().rev() {
        times(f, 1, f.neg(f.inverse(*member)), out);
    }
}
