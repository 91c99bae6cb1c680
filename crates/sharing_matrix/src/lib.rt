// The basis polynomials of given points, the polynomial with given values at them, and the matrix that takes a polynomial's values to those of its
// coefficients up to X^t.
#![tactic(auto)]

ghost use Rattle.std.specs.Prelude.{◌≡◌, true, cond, ◌+◌, ◌*◌, ◌<◌, ◌≤◌, eqb, length, take, get_or};
ghost use Rattle.numbers.specs.Bytes.{all_below};
ghost use Rattle.field.specs.Mod.{mul, sub};
ghost use Rattle.field.specs.Field.{Below2, Is};
ghost use Rattle.sharing_laws.specs.Poly.{sum_of, scale, carried, padded};
ghost use Rattle.sharing_laws.specs.Interp.{apart, dot};
ghost use Rattle.sharing_laws.specs.Basis.{fitted, row};
ghost use Rattle.sharing_matrix.specs.Matrix.{low_basis, bases, matrix, applied, Few, Based, Ruled};

use field::{Field, Sums};

// ---- the basis polynomials

// Multiplies a polynomial by X - y, and a denominator by x - y, which it answers. Where y is x itself nothing changes.
#[tactic(auto, using(crate::proofs::Factors::factoring))]
fn factor(f: Field, x: u64, y: u64, below: u64, out: &mut [u64]) -> u64
    requires below2 { Below2 f.p x y }
    requires below_value { below < f.p }
    requires out_value { all_below f.p out.old ≡ true }
    ensures polynomial { out.new ≡ cond (eqb x y) out.old (carried f.p (sub f.p 0 y) 1 0 out.old) }
    ensures denominator { Is f.p (mul f.p below (apart f.p x x y)) result }
{
    if x == y {
        return below;
    }
    sharing_delta::times(f, f.neg(y), 1, out);
    f.mul(below, f.sub(x, y))
}

// The first coefficients of the basis polynomial of x, as many as there is room for: the product of X - y over the other points y, by one inverse.
#[tactic(auto, using(crate::proofs::Factors::basing))]
fn low_basis(f: Field, points: &[u64], x: u64, out: &mut [u64])
    requires points_value { all_below f.p points.now ≡ true }
    requires x_lt_p { x < f.p }
    requires out_len { 0 < length out.old }
    ensures { out.new ≡ low_basis f.p (length out.old) points.now x }
{
    sharing_delta::one(out);
    let mut below: u64 = 1;
    for y in points.iter().rev() {
        below = factor(f, x, *y, below, out);
    }
    sharing_delta::times(f, f.inverse(below), 0, out);
}

// The coefficients up to X^t of all points' basis polynomials, one after the other.
#[tactic(auto, using(crate::proofs::Tables::laying))]
fn write_bases(f: Field, t: usize, points: &[u64], out: &mut [u64])
    requires few { Few f.p t points.now }
    requires out_len { length out.old ≡ (t + 1) * length points.now }
    ensures { out.new ≡ bases f.p t points.now }
{
    let k = t + 1;
    for (i, x) in points.iter().enumerate() {
        let at = k * i;
        low_basis(f, points, *x, &mut out[at..at + k]);
    }
}

// Adds c times a polynomial to another one that has as many coefficients.
#[tactic(auto, using(crate::proofs::Fitting::adding))]
fn add_multiple(f: Field, c: u64, polynomial: &[u64], out: &mut [u64])
    requires c_lt_p { c < f.p }
    requires polynomial_value { all_below f.p polynomial.now ≡ true }
    requires out_value { all_below f.p out.old ≡ true }
    requires lengths { length out.old ≡ length polynomial.now }
    ensures { out.new ≡ sum_of f.p out.old (scale f.p c polynomial.now) }
{
    for (j, coefficient) in out.iter_mut().enumerate() {
        *coefficient = (*coefficient + c * polynomial[j]) % f.p;
    }
}

// The basis polynomials of at most 15 points, with their coefficients up to X^t.
#[derive(Clone, Copy)]
pub struct Bases<'a> {
    pub field: Field,
    pub t: usize,
    pub points: &'a [u64],
    pub table: &'a [u64],
    pub ghost based: { Based field.p t points.now table.now },
}

impl<'a> Bases<'a> {
    // They are written into the room.
    #[tactic(auto, using(crate::proofs::Tables::making))]
    pub fn new(field: Field, t: usize, points: &'a [u64], room: &'a mut [u64]) -> Self
        requires few { Few field.p t points.now }
        requires room_len { length room.old ≡ (t + 1) * length points.now }
        ensures field_value { result.field ≡ field }
        ensures t_value { result.t ≡ t }
        ensures points_value { result.points.now ≡ points.now }
    {
        write_bases(field, t, points, room);
        Bases {
            field,
            t,
            points,
            table: room,
        }
    }

    // The coefficients up to X^t of the polynomial with these values at the points.
    #[tactic(auto, using(crate::proofs::Fitting::fitting))]
    pub fn fit(&self, values: &[u64], out: &mut [u64])
        requires values_value { all_below self.now.field.p values.now ≡ true }
        requires values_len { length values.now ≡ length self.now.points.now }
        requires out_len { length out.old ≡ self.now.t + 1 }
        ensures { out.new ≡ padded (self.now.t + 1) (take (self.now.t + 1) (fitted self.now.field.p self.now.points.now values.now)) }
    {
        let k = self.t + 1;
        out.fill(0);
        for (i, v) in values.iter().enumerate() {
            let at = k * i;
            add_multiple(self.field, *v, &self.table[at..at + k], out);
        }
    }

    // The matrix' row at x: the values there of the basis polynomials up to X^t.
    #[tactic(auto, using(crate::proofs::Ruling::valuing))]
    pub fn row(&self, x: u64, out: &mut [u64])
        requires x_lt_p { x < self.now.field.p }
        requires out_len { length out.old ≡ length self.now.points.now }
        ensures { out.new ≡ row self.now.field.p self.now.t self.now.points.now x }
    {
        let k = self.t + 1;
        for (j, entry) in out.iter_mut().enumerate() {
            let at = k * j;
            *entry = sharing::value(self.field, &self.table[at..at + k], x);
        }
    }
}

// ---- the matrix

#[tactic(auto, using(crate::proofs::Ruling::ruling))]
fn write_matrix(bases: &Bases, out: &mut [u64])
    requires out_len { length out.old ≡ length bases.now.points.now * length bases.now.points.now }
    ensures { out.new ≡ matrix bases.now.field.p bases.now.t bases.now.points.now }
{
    let n = bases.points.len();
    for (i, x) in bases.points.iter().enumerate() {
        let at = n * i;
        bases.row(*x, &mut out[at..at + n]);
    }
}

// The matrix that takes the values at the points of a polynomial to those of its coefficients up to X^t.
#[derive(Clone, Copy)]
pub struct Matrix<'a> {
    pub sums: Sums,
    pub t: usize,
    pub points: &'a [u64],
    pub rows: &'a [u64],
    pub ghost ruled: { Ruled sums.field.p t points.now rows.now },
}

impl<'a> Matrix<'a> {
    // Its rows are written into the room.
    #[tactic(auto, using(crate::proofs::Ruling::building))]
    pub fn new(field: Field, t: usize, points: &'a [u64], room: &'a mut [u64]) -> Self
        requires few { Few field.p t points.now }
        requires room_len { length room.old ≡ length points.now * length points.now }
        ensures field_value { result.sums.field.p ≡ field.p }
        ensures t_value { result.t ≡ t }
        ensures points_value { result.points.now ≡ points.now }
    {
        let mut table = [0u64; 225];
        let used = (t + 1) * points.len();
        write_matrix(&Bases::new(field, t, points, &mut table[..used]), room);
        Matrix {
            sums: Sums::new(field),
            t,
            points,
            rows: room,
        }
    }

    // The row at point i.
    #[tactic(auto, using(crate::proofs::Ruling::finding))]
    pub fn row(&self, i: usize) -> &'a [u64]
        requires i_in_bounds { i < length self.now.points.now }
        ensures { result.now ≡ row self.now.sums.field.p self.now.t self.now.points.now (get_or self.now.points.now i 0) }
    {
        let n = self.points.len();
        let at = n * i;
        let rows = self.rows;
        &rows[at..at + n]
    }

    // What the row at point i makes of these values.
    #[tactic(auto, using(crate::proofs::Ruling::weighing))]
    pub fn share(&self, i: usize, values: &[u64]) -> u64
        requires i_in_bounds { i < length self.now.points.now }
        requires values_value { all_below self.now.sums.field.p values.now ≡ true }
        requires values_len { length values.now ≡ length self.now.points.now }
        ensures { Is self.now.sums.field.p (dot self.now.sums.field.p (row self.now.sums.field.p self.now.t self.now.points.now (get_or self.now.points.now i 0)) values.now) result }
    {
        sharing::dot_by(self.sums, self.row(i), values)
    }

    // What all rows make of them.
    #[tactic(auto, using(crate::proofs::Ruling::applying))]
    pub fn shares(&self, values: &[u64], out: &mut [u64])
        requires values_value { all_below self.now.sums.field.p values.now ≡ true }
        requires values_len { length values.now ≡ length self.now.points.now }
        requires out_len { length out.old ≡ length self.now.points.now }
        ensures { out.new ≡ applied self.now.sums.field.p self.now.t self.now.points.now values.now }
    {
        for (i, share) in out.iter_mut().enumerate() {
            *share = self.share(i, values);
        }
    }
}

// What the matrix makes of these values, without its rows.
#[tactic(auto, using(crate::proofs::Ruling::dealing))]
pub fn apply(f: Field, t: usize, points: &[u64], values: &[u64], out: &mut [u64])
    requires few { Few f.p t points.now }
    requires values_value { all_below f.p values.now ≡ true }
    requires values_len { length values.now ≡ length points.now }
    requires out_len { length out.old ≡ length points.now }
    ensures { out.new ≡ applied f.p t points.now values.now }
{
    let mut table = [0u64; 225];
    let mut coefficients = [0u64; 15];
    let k = t + 1;
    let used = k * points.len();
    Bases::new(f, t, points, &mut table[..used]).fit(values, &mut coefficients[..k]);
    sharing::deal(f, &coefficients[..k], points, out);
}
