// Dealings of a run, for all receiving parties at once: the rows of inputs and of multiply gates.
#![tactic(auto)]

ghost use Rattle.std.specs.Prelude.{ℕ, ◌≡◌, true, ◌+◌, ◌-◌, ◌*◌, ◌/◌, ◌<◌, ◌≤◌, length, take, drop, get_or, replicate};
ghost use mathlib.Core.List.{◌∷◌, map, flat_map};
ghost use Rattle.numbers.specs.Tables.{tab};
ghost use Rattle.numbers.specs.Bytes.{width, numbers, all_below};
ghost use Rattle.field.specs.Mod.{add};
ghost use Rattle.field.specs.Field.{Is};
ghost use Rattle.sharing_laws.specs.Poly.{eval, padded};
ghost use Rattle.sharing_laws.specs.Interp;
ghost use Rattle.sharing_laws.specs.Sharing.{opened};
ghost use Rattle.sharing_matrix.specs.Matrix.{applied};
ghost use Rattle.run_protocol.specs.Shares.{triples_taken};
ghost use Rattle.plan.specs.Plans.{coin_owners_at};
ghost use Rattle.plan.specs.File.{plan_of};
ghost use Rattle.run_dealings.specs.Rows.{terms, powers, power_rows, products_of, shared_by, draws_of, masked_of, mixed_at, summed_at, truncated_at, triple_in, differences_of, spent_of, Powered, Dealers, Weighted, Cutting, Coined, Spaced, Rowed, Spending};
ghost use Rattle.run_dealings.specs.Columns.{pieces_by, column_at, column_sum, share_at, mixed_coefficient, mixture_of, summed_coefficient, total_of, with_column, with_columns};

use field::{Field, Sums};
use plan::{Gate, PlanFile, Rule};
use sharing_matrix::Matrix;

// ---- what is worked out once for a plan

// The powers 1, x, x², .. of a point, as many as there is room for.
#[tactic(auto, using(crate::proofs::PowerLaws::powering))]
pub fn powers(f: Field, x: u64, row: &mut [u64])
    requires x_lt_p { x < f.p }
    ensures { row.new ≡ powers f.p x (length row.old) }
{
    let mut power: u64 = 1;
    for place in row.iter_mut() {
        *place = power;
        power = f.mul(power, x);
    }
}

// The powers of the points, k of each.
#[tactic(auto, using(crate::proofs::PowerLaws::writing))]
fn power_rows(f: Field, k: usize, points: &[u64], rows: &mut [u64])
    requires points_value { all_below f.p points.now ≡ true }
    requires rows_len { length rows.old ≡ k * length points.now }
    ensures { rows.new ≡ power_rows f.p k points.now }
{
    for (party, x) in points.iter().enumerate() {
        let at = k * party;
        powers(f, *x, &mut rows[at..at + k]);
    }
}

// How many coefficients a dealing of t coins is worked with; those above the coins are 0. With multiply gates t is below 8, and each count
// is a constant where the columns are worked, so that the loop over the coefficients is unrolled.
fn terms(t: usize) -> usize
    ensures { result ≡ terms t }
{
    match t {
        0..4 => t + 1,
        4..8 => 8,
        _ => 16,
    }
}

// How many dealers there are: 2t + 1, or all parties where these are fewer.
#[tactic(auto, using(crate::proofs::DealingLaws::counting_dealers))]
fn dealers(t: usize, points: &[u64]) -> usize
    requires { t < 16 }
    ensures { Dealers t points.now result }
{
    points.len().min(t + t + 1)
}

// The power rows of the points, and the weights at 0 of the dealers' points, for all dealings of a plan.
#[tactic(auto, using(crate::proofs::DealingLaws::preparing))]
pub fn prepare(f: Field, t: usize, points: &[u64], rows: &mut [u64], weights: &mut [u64])
    requires t_in_bounds { (t < length points.now) × (length points.now ≤ 15) }
    requires points_value { all_below f.p points.now ≡ true }
    requires in_bounds { 240 ≤ length rows.old }
    requires in_bounds_2 { 15 ≤ length weights.old }
    ensures powered { Powered f.p (terms t) points.now rows.new }
    ensures weighted { Weighted f.p t points.now weights.new }
    ensures rows_unchanged { drop (terms t * length points.now) rows.new ≡ drop (terms t * length points.now) rows.old }
    ensures weights_unchanged { drop (length (take (t + t + 1) points.now)) weights.new ≡ drop (length (take (t + t + 1) points.now)) weights.old }
{
    let k = terms(t);
    let m = dealers(t, points);
    let e = k * points.len();
    power_rows(f, k, points, &mut rows[..e]);
    sharing::weights(f, 0, &points[..m], &mut weights[..m]);
}

// ---- the polynomials of dealings

// Coefficient i of a dealing's polynomial: the dealt value, then t coins from one place of the list on, then 0.
// As it is: the coins, the place in them and t go together into this function and the two below; the place moves on with each dealing, so a struct of
// them would be made anew for each.
#[tactic(auto, using(crate::proofs::PolynomialLaws::coefficients))]
fn coefficient(value: u64, coins: &[u8], at: usize, t: usize, i: usize) -> u64
    requires { at + t ≤ length coins.now / width }
    ensures { result ≡ get_or (value ∷ take t (drop at (numbers coins.now))) i 0 }
{
    if i == 0 {
        value
    } else if t < i {
        0
    } else {
        numbers::number(coins, at + (i - 1))
    }
}

// The polynomial of a dealing, with as many coefficients as there is room for.
#[tactic(auto, using(crate::proofs::PolynomialLaws::padding))]
fn polynomial(value: u64, coins: &[u8], at: usize, t: usize, out: &mut [u64])
    requires t_in_bounds { at + t ≤ length coins.now / width }
    requires t_in_bounds_2 { t < length out.old }
    ensures { out.new ≡ padded (length out.old) (value ∷ take t (drop at (numbers coins.now))) }
{
    for (i, c) in out.iter_mut().enumerate() {
        *c = coefficient(value, coins, at, t, i);
    }
}

// Dealings of values, with t coins of a list each: those of dealing d begin at number at + step * d.
#[derive(Clone, Copy)]
pub struct Dealt<'a> {
    pub values: &'a [u64],
    pub coins: &'a [u8],
    pub t: usize,
    pub at: usize,
    pub step: usize,
}

// The polynomials of dealings, k coefficients each, one after the other.
#[tactic(auto, using(crate::proofs::PolynomialLaws::sharing))]
fn polynomials(dealt: &Dealt, k: usize, out: &mut [u64])
    requires t_lt_k { dealt.now.t < k }
    requires values_in_bounds { dealt.now.at + dealt.now.step * length dealt.now.values.now + dealt.now.t ≤ length dealt.now.coins.now / width + dealt.now.step }
    requires out_len { length out.old ≡ k * length dealt.now.values.now }
    ensures { out.new ≡ flat_map (padded k) (shared_by dealt.now.t dealt.now.step dealt.now.values.now (drop dealt.now.at (numbers dealt.now.coins.now))) }
{
    for (d, value) in dealt.values.iter().enumerate() {
        let from = k * d;
        let at = dealt.at + dealt.step * d;
        polynomial(*value, dealt.coins, at, dealt.t, &mut out[from..from + k]);
    }
}

// Coefficient i of the sum of the polynomials of dealings.
#[tactic(auto, using(crate::proofs::SumLaws::summing))]
fn summed_coefficient(f: Field, dealt: &Dealt, i: usize) -> u64
    requires values_value { all_below f.p dealt.now.values.now ≡ true }
    requires spaced { Spaced f.p dealt.now.t dealt.now.step (length dealt.now.values.now) dealt.now.at (numbers dealt.now.coins.now) }
    ensures { Is f.p (summed_coefficient f.p (shared_by dealt.now.t dealt.now.step dealt.now.values.now (drop dealt.now.at (numbers dealt.now.coins.now))) i) result }
{
    let coins = dealt.coins;
    let mut sum: u64 = 0;
    for (d, value) in dealt.values.iter().enumerate() {
        let at = dealt.at + dealt.step * d;
        sum = f.add(sum, coefficient(*value, coins, at, dealt.t, i));
    }
    sum
}

// The sum of the polynomials of dealings.
#[tactic(auto, using(crate::proofs::SumLaws::filling_sum))]
fn sum_polynomials(f: Field, dealt: &Dealt, out: &mut [u64])
    requires values_value { all_below f.p dealt.now.values.now ≡ true }
    requires spaced { Spaced f.p dealt.now.t dealt.now.step (length dealt.now.values.now) dealt.now.at (numbers dealt.now.coins.now) }
    ensures { out.new ≡ total_of f.p (length out.old) (shared_by dealt.now.t dealt.now.step dealt.now.values.now (drop dealt.now.at (numbers dealt.now.coins.now))) }
{
    for (i, c) in out.iter_mut().enumerate() {
        *c = summed_coefficient(f, dealt, i);
    }
}

// ---- rows

// A row by a rule, where it is lent.
pub fn fill_row<F: Fn(usize) -> u64>(row: &mut [u64], rule: F)
    requires { (j : ℕ) → j < length row.old → F.pre rule j }
    ensures { (entry : ℕ → ℕ) → ((j r : ℕ) → j < length row.old → F.post rule j r → r ≡ entry j) → row.new ≡ tab entry (length row.old) }
{
    for (j, entry) in row.iter_mut().enumerate() {
        *entry = rule(j);
    }
}

// The same: n entries, and zeros after them.
// As it is: there is no heap, so that a row that is given has room for the 15 parties of the largest plan, and who takes it knows n.
pub fn row_by<F: Fn(usize) -> u64>(n: usize, rule: F) -> [u64; 15]
    requires n_bound { n ≤ 15 }
    requires callable { (j : ℕ) → j < n → F.pre rule j }
    ensures { (entry : ℕ → ℕ) → ((j r : ℕ) → j < n → F.post rule j r → r ≡ entry j) → (take n result ≡ tab entry n) × (drop n result ≡ replicate (15 - n) 0) }
{
    let mut row = [0u64; 15];
    fill_row(&mut row[..n], rule);
    row
}

// ---- multiply gates

// What the first m parties deal: each one's share of wire a times its share of wire b, without a division.
#[tactic(auto, using(crate::proofs::RowLaws::row_reading))]
pub fn products(sums: Sums, n: usize, m: usize, a: usize, b: usize, table: &[u64]) -> [u64; 15]
    requires m_le_n { (m ≤ n) × (n ≤ 15) }
    requires rowed { Rowed sums.field.p n a table.now }
    requires rowed_2 { Rowed sums.field.p n b table.now }
    ensures result_value { take m result ≡ products_of sums.field.p n m a b table.now }
    ensures result_value_2 { drop m result ≡ replicate (15 - m) 0 }
{
    let left = n * a;
    let right = n * b;
    row_by(
        m,
        |j| sharing::dot_by(sums, &[table[left + j]], &[table[right + j]]),
    )
}

// The sum of two rows, entry by entry.
fn add_rows(f: Field, left: &[u64], right: &[u64], row: &mut [u64])
    requires left_value { all_below f.p left.now ≡ true }
    requires right_value { all_below f.p right.now ≡ true }
    requires lengths { length left.now ≡ length right.now }
    requires row_len { length row.old ≡ length left.now }
    ensures { row.new ≡ tab (λ j. add f.p (get_or left.now j 0) (get_or right.now j 0)) (length left.now) }
{
    fill_row(row, |j| f.add(left[j], right[j]));
}

// ---- random wires

// The draws of a random wire, with which the inputs begin.
pub fn draws(n: usize, inputs: &[u8]) -> [u64; 15]
    requires { n ≤ 15 }
    ensures { take n result ≡ draws_of n (numbers inputs.now) }
{
    row_by(n, |j| numbers::read(inputs, j))
}

// ---- triples

// Number j of party d's next triple, d counted from 0: each party has as many numbers of the list, of which `at` are spent.
#[tactic(auto, using(crate::proofs::SpendLaws::reading))]
fn triple_number(n: usize, triples: &[u8], at: usize, d: usize, j: usize) -> u64
    requires triples_in_bounds { at + j < length (numbers triples.now) / n }
    requires d_lt_n { d < n }
    ensures { result ≡ triple_in n (numbers triples.now) at d j }
{
    let each = triples.len() / numbers::WIDTH / n;
    numbers::read(triples, each * d + (at + j))
}

// ---- how dealings are worked

// How a product is worked by degree reduction: on the grid of all pieces, or by the sum of the dealers' polynomials, where no piece is seen.
#[derive(Clone, Copy)]
pub enum Way {
    Grid,
    Sum,
}

// What the dealings of a plan are worked with: t coins each, the parties' points, their power rows, and the weights at 0 of the dealers' points.
#[derive(Clone, Copy)]
pub struct Dealings<'a> {
    pub sums: Sums,
    pub way: Way,
    pub t: usize,
    pub points: &'a [u64],
    pub rows: &'a [u64],
    pub weights: &'a [u64],
    pub ghost threshold: { t < 16 },
    pub ghost parties: { length points.now ≤ 15 },
    pub ghost powered: { Powered sums.field.p (terms t) points.now rows.now },
    pub ghost dealers: { length weights.now ≤ length points.now },
    pub ghost weights_below: { all_below sums.field.p weights.now ≡ true },
}

// What the dealers of a product deal: their polynomials one after the other, with as many coefficients each as a dealing has.
#[derive(Clone, Copy)]
struct Product<'a> {
    dealings: &'a Dealings<'a>,
    polynomials: &'a [u64],
    ghost few: { dealings.now.t < 8 },
    ghost room: { terms dealings.now.t * length dealings.now.weights.now ≤ length polynomials.now },
    ghost below: { all_below dealings.now.sums.field.p polynomials.now ≡ true },
}

impl Product<'_> {
    // Column j of a grid, row the dealer and column the receiver: the receiver's pieces of the polynomials, by the powers of its point, each
    // weighed and summed where it is dealt.
    // As it is: the sums are built here with the prime's range as a constant. `piece` of run_views builds them so too; no private function is seen
    // by both crates, and a public one of field would be there for these two.
    #[inline(always)]
    #[tactic(auto, using(crate::proofs::ColumnLaws::columning))]
    fn column<const WIDE: bool>(&self, powers: &[u64], j: usize, grid: &mut [[u64; 15]; 15]) -> u64
        requires wide_value { WIDE ≡ self.now.dealings.now.sums.wide }
        requires powers_len { length powers.now ≡ terms self.now.dealings.now.t }
        requires powers_value { all_below self.now.dealings.now.sums.field.p powers.now ≡ true }
        requires j_bound { j < 15 }
        ensures is { Is self.now.dealings.now.sums.field.p (column_sum self.now.dealings.now.sums.field.p self.now.dealings.now.weights.now (pieces_by self.now.dealings.now.sums.field.p (length powers.now) powers.now self.now.polynomials.now (length self.now.dealings.now.weights.now))) result }
        ensures grid_after { grid.new ≡ with_column j (pieces_by self.now.dealings.now.sums.field.p (length powers.now) powers.now self.now.polynomials.now (length self.now.dealings.now.weights.now)) grid.old }
    {
        let sums = Sums {
            field: self.dealings.sums.field,
            wide: WIDE,
            reciprocal: self.dealings.sums.reciprocal,
        };
        let weights = self.dealings.weights;
        let polynomials = self.polynomials;
        let k = powers.len();
        let mut sum: u64 = 0;
        for (d, weight) in weights.iter().enumerate() {
            let at = k * d;
            let piece = sharing::dot_by(sums, powers, &polynomials[at..at + k]);
            grid[d][j] = piece;
            sum = sums.add_product(sum, *weight, piece);
        }
        sums.reduced(sum)
    }

    // The columns of all receivers, by their power rows of K powers each, and every column's sum, in a row that is lent.
    #[inline(always)]
    #[tactic(auto, using(crate::proofs::ColumnLaws::gridding))]
    fn columns<const WIDE: bool, const K: usize>(
        &self,
        grid: &mut [[u64; 15]; 15],
        sums: &mut [u64],
    )
        requires wide_value { WIDE ≡ self.now.dealings.now.sums.wide }
        requires k_value { K ≡ terms self.now.dealings.now.t }
        requires sums_in_bounds { length self.now.dealings.now.points.now ≤ length sums.old }
        ensures sums_after { take (length self.now.dealings.now.points.now) sums.new ≡ map (share_at self.now.dealings.now.sums.field.p K self.now.dealings.now.weights.now self.now.polynomials.now) self.now.dealings.now.points.now }
        ensures grid_after { grid.new ≡ with_columns (column_at self.now.dealings.now.sums.field.p K self.now.dealings.now.points.now self.now.polynomials.now (length self.now.dealings.now.weights.now)) (length self.now.dealings.now.points.now) grid.old }
    {
        let points = self.dealings.points;
        let rows = self.dealings.rows;
        for j in 0..points.len() {
            let at = K * j;
            sums[j] = self.column::<WIDE>(&rows[at..at + K], j, grid);
        }
    }

    // Every receiver's share: the polynomials are dealt into the grid, and each receiver's column is weighed and summed there. The prime's range and
    // the count of coefficients are constants in each call.
    #[inline(never)]
    #[tactic(auto, using(crate::proofs::DealingLaws::sharing_by))]
    fn gridded(&self, row: &mut [u64])
        requires { length self.now.dealings.now.points.now ≤ length row.old }
        ensures { take (length self.now.dealings.now.points.now) row.new ≡ map (share_at self.now.dealings.now.sums.field.p (terms self.now.dealings.now.t) self.now.dealings.now.weights.now self.now.polynomials.now) self.now.dealings.now.points.now }
    {
        let mut grid = [[0u64; 15]; 15];
        match (self.dealings.sums.wide, terms(self.dealings.t)) {
            (true, 1) => self.columns::<true, 1>(&mut grid, row),
            (true, 2) => self.columns::<true, 2>(&mut grid, row),
            (true, 3) => self.columns::<true, 3>(&mut grid, row),
            (true, 4) => self.columns::<true, 4>(&mut grid, row),
            (true, _) => self.columns::<true, 8>(&mut grid, row),
            (false, 1) => self.columns::<false, 1>(&mut grid, row),
            (false, 2) => self.columns::<false, 2>(&mut grid, row),
            (false, 3) => self.columns::<false, 3>(&mut grid, row),
            (false, 4) => self.columns::<false, 4>(&mut grid, row),
            (false, _) => self.columns::<false, 8>(&mut grid, row),
        }
    }

    // Coefficient i of the weighted sum of the polynomials, k coefficients each.
    // As it is: the place moves on with the dealers. Read at `k * d + i`, by the dealer's number, it was tried: a match of 15 parties over a prime
    // below 2^16 took 1.29 ms in place of 1.20 ms.
    #[tactic(auto, using(crate::proofs::MixtureLaws::mixing))]
    fn mixed_coefficient(&self, k: usize, i: usize) -> u64
        requires k_value { k ≡ terms self.now.dealings.now.t }
        requires i_lt_k { i < k }
        ensures { Is self.now.dealings.now.sums.field.p (mixed_coefficient self.now.dealings.now.sums.field.p k self.now.dealings.now.weights.now self.now.polynomials.now i) result }
    {
        let sums = self.dealings.sums;
        let polynomials = self.polynomials;
        let mut sum: u64 = 0;
        let mut at: usize = i;
        for weight in self.dealings.weights {
            sum = sums.add_product(sum, *weight, polynomials[at]);
            at += k;
        }
        sums.reduced(sum)
    }

    // The weighted sum of the polynomials.
    #[tactic(auto, using(crate::proofs::MixtureLaws::filling_mixture))]
    fn mix(&self, out: &mut [u64])
        requires { length out.old ≡ terms self.now.dealings.now.t }
        ensures { out.new ≡ mixture_of self.now.dealings.now.sums.field.p (length out.old) self.now.dealings.now.weights.now self.now.polynomials.now }
    {
        let k = out.len();
        for (i, c) in out.iter_mut().enumerate() {
            *c = self.mixed_coefficient(k, i);
        }
    }

    // Every receiver's share, by the sum of the polynomials, which is dealt.
    #[tactic(auto, using(crate::proofs::MixtureLaws::mixed_sharing))]
    fn mixed(&self, row: &mut [u64])
        requires { length self.now.dealings.now.points.now ≤ length row.old }
        ensures { take (length self.now.dealings.now.points.now) row.new ≡ map (share_at self.now.dealings.now.sums.field.p (terms self.now.dealings.now.t) self.now.dealings.now.weights.now self.now.polynomials.now) self.now.dealings.now.points.now }
    {
        let k = terms(self.dealings.t);
        let mut mixed = [0u64; 16];
        self.mix(&mut mixed[..k]);
        self.dealings.dealing(&mixed[..k], row);
    }
}

impl<'a> Dealings<'a> {
    // Rows and weights are written where they are lent.
    #[tactic(auto, using(crate::proofs::DealingLaws::made_ready))]
    pub fn new(
        way: Way,
        field: Field,
        t: usize,
        points: &'a [u64],
        rows: &'a mut [u64],
        weights: &'a mut [u64],
    ) -> Self
        requires t_in_bounds { (t < length points.now) × (length points.now ≤ 15) }
        requires points_value { all_below field.p points.now ≡ true }
        requires rows_in_bounds { 240 ≤ length rows.old }
        requires weights_in_bounds { 15 ≤ length weights.old }
        ensures field { result.sums.field.p ≡ field.p }
        ensures plan { (result.t ≡ t) × (result.points.now ≡ points.now) }
        ensures weights_value { result.weights.now ≡ Interp.weights field.p 0 (take (t + t + 1) points.now) }
    {
        prepare(field, t, points, rows, weights);
        let dealers = dealers(t, points);
        Dealings {
            sums: Sums::new(field),
            way,
            t,
            points,
            rows,
            weights: &weights[..dealers],
        }
    }

    // The power row of point j.
    #[tactic(auto, using(crate::proofs::DealingLaws::finding_row))]
    pub fn power_row(&self, j: usize) -> &'a [u64]
        requires { j < length self.now.points.now }
        ensures { record {
          long : length result.now ≡ terms self.now.t;
          some : self.now.t < length result.now;
          few : length result.now ≤ 16;
          are : result.now ≡ powers self.now.sums.field.p (get_or self.now.points.now j 0) (length result.now);
        } }
    {
        let k = terms(self.t);
        let at = k * j;
        let rows = self.rows;
        &rows[at..at + k]
    }

    // The pieces of a dealing: the polynomial's values at the points, by their power rows.
    #[tactic(auto, using(crate::proofs::DealingLaws::dealing))]
    fn dealing(&self, polynomial: &[u64], row: &mut [u64])
        requires polynomial_len { length polynomial.now ≡ terms self.now.t }
        requires polynomial_value { all_below self.now.sums.field.p polynomial.now ≡ true }
        requires row_in_bounds { length self.now.points.now ≤ length row.old }
        ensures { take (length self.now.points.now) row.new ≡ map (eval self.now.sums.field.p polynomial.now) self.now.points.now }
    {
        let sums = self.sums;
        let rows = self.rows;
        let k = polynomial.len();
        for j in 0..self.points.len() {
            let at = k * j;
            row[j] = sharing::dot_by(sums, &rows[at..at + k], polynomial);
        }
    }

    // An input gate's row: the input is dealt.
    #[tactic(auto, using(crate::proofs::DealingLaws::inputs))]
    pub fn input_row(&self, x: u64, coins: &[u8], at: usize, row: &mut [u64])
        requires x_lt_p { x < self.now.sums.field.p }
        requires coined { Coined self.now.sums.field.p self.now.t 1 at (numbers coins.now) }
        requires row_in_bounds { length self.now.points.now ≤ length row.old }
        ensures { take (length self.now.points.now) row.new ≡ map (eval self.now.sums.field.p (x ∷ take self.now.t (drop at (numbers coins.now)))) self.now.points.now }
    {
        let k = terms(self.t);
        let mut dealt = [0u64; 16];
        polynomial(x, coins, at, self.t, &mut dealt[..k]);
        self.dealing(&dealt[..k], row);
    }

    // The row of these dealings where each receiver's pieces are summed: the sum of the polynomials is dealt.
    #[tactic(auto, using(crate::proofs::SumLaws::summed_sharing))]
    fn summed_row(&self, dealt: &Dealt, row: &mut [u64])
        requires t_value { dealt.now.t ≡ self.now.t }
        requires values_value { all_below self.now.sums.field.p dealt.now.values.now ≡ true }
        requires spaced { Spaced self.now.sums.field.p dealt.now.t dealt.now.step (length dealt.now.values.now) dealt.now.at (numbers dealt.now.coins.now) }
        requires row_in_bounds { length self.now.points.now ≤ length row.old }
        ensures { take (length self.now.points.now) row.new ≡ map (summed_at self.now.sums.field.p (shared_by dealt.now.t dealt.now.step dealt.now.values.now (drop dealt.now.at (numbers dealt.now.coins.now)))) self.now.points.now }
    {
        let k = terms(self.t);
        let mut sum = [0u64; 16];
        sum_polynomials(self.sums.field, dealt, &mut sum[..k]);
        self.dealing(&sum[..k], row);
    }

    // A random wire's row: all parties deal their draws, with which the inputs begin, and each receiver's pieces are summed.
    #[inline(never)]
    #[tactic(auto, using(crate::proofs::SumLaws::drawing))]
    pub fn random_row(&self, inputs: &[u8], coins: &[u8], at: usize, row: &mut [u64])
        requires inputs_value { all_below self.now.sums.field.p (numbers inputs.now) ≡ true }
        requires coined { Coined self.now.sums.field.p self.now.t (length self.now.points.now) at (numbers coins.now) }
        requires row_in_bounds { length self.now.points.now ≤ length row.old }
        ensures { take (length self.now.points.now) row.new ≡ map (summed_at self.now.sums.field.p (shared_by self.now.t self.now.t (draws_of (length self.now.points.now) (numbers inputs.now)) (drop at (numbers coins.now)))) self.now.points.now }
    {
        let n = self.points.len();
        let draws = draws(n, inputs);
        let dealt = Dealt {
            values: &draws[..n],
            coins,
            t: self.t,
            at,
            step: self.t,
        };
        self.summed_row(&dealt, row);
    }

    // What the matrix makes of the products of the parties' shares.
    #[tactic(auto, using(crate::proofs::TruncationLaws::cutting_products))]
    fn cut_products(&self, matrix: &Matrix, a: usize, b: usize, table: &[u64]) -> [u64; 15]
        requires cutting { Cutting self.now.sums.field.p self.now.t self.now.points.now matrix.now }
        requires rowed { Rowed self.now.sums.field.p (length self.now.points.now) a table.now }
        requires rowed_2 { Rowed self.now.sums.field.p (length self.now.points.now) b table.now }
        ensures { take (length self.now.points.now) result ≡ applied self.now.sums.field.p self.now.t self.now.points.now (products_of self.now.sums.field.p (length self.now.points.now) (length self.now.points.now) a b table.now) }
    {
        let n = self.points.len();
        let products = products(self.sums, n, n, a, b, table);
        let mut row = [0u64; 15];
        matrix.shares(&products[..n], &mut row[..n]);
        row
    }

    // Every receiver's sum of the parties' dealings of 0 up to X^t, by their first t coins. A party's coins of a multiply gate are 3t.
    #[tactic(auto, using(crate::proofs::TruncationLaws::masking))]
    fn zeros_row(&self, coins: &[u8], at: usize) -> [u64; 15]
        requires { Coined self.now.sums.field.p (3 * self.now.t) (length self.now.points.now) at (numbers coins.now) }
        ensures { take (length self.now.points.now) result ≡ map (summed_at self.now.sums.field.p (shared_by self.now.t (3 * self.now.t) (replicate (length self.now.points.now) 0) (drop at (numbers coins.now)))) self.now.points.now }
    {
        let zeros = [0u64; 15];
        let dealt = Dealt {
            values: &zeros[..self.points.len()],
            coins,
            t: self.t,
            at,
            step: 3 * self.t,
        };
        let mut row = [0u64; 15];
        self.summed_row(&dealt, &mut row);
        row
    }

    // A multiply gate's row by truncation. No piece is seen in it, so there is no grid; nor is a coin in it of the masked shares' dealings.
    #[inline(never)]
    #[tactic(auto, using(crate::proofs::TruncationLaws::truncating))]
    pub fn truncated_row(
        &self,
        matrix: &Matrix,
        a: usize,
        b: usize,
        coins: &[u8],
        at: usize,
        table: &[u64],
        row: &mut [u64],
    )
        requires cutting { Cutting self.now.sums.field.p self.now.t self.now.points.now matrix.now }
        requires coined { Coined self.now.sums.field.p (3 * self.now.t) (length self.now.points.now) at (numbers coins.now) }
        requires rowed { Rowed self.now.sums.field.p (length self.now.points.now) a table.now }
        requires rowed_2 { Rowed self.now.sums.field.p (length self.now.points.now) b table.now }
        requires row_len { length row.old ≡ length self.now.points.now }
        ensures { take (length self.now.points.now) row.new ≡ map (truncated_at self.now.sums.field.p self.now.t self.now.points.now (products_of self.now.sums.field.p (length self.now.points.now) (length self.now.points.now) a b table.now) (shared_by self.now.t (3 * self.now.t) (replicate (length self.now.points.now) 0) (drop at (numbers coins.now)))) self.now.points.now }
    {
        let n = self.points.len();
        let products = self.cut_products(matrix, a, b, table);
        let zeros = self.zeros_row(coins, at);
        add_rows(self.sums.field, &products[..n], &zeros[..n], row);
    }

    // The value at point j of a polynomial with twice as many coefficients as a power row has powers: the upper half is worked by the same row, and takes
    // the power that comes next.
    #[tactic(auto, using(crate::proofs::MaskLaws::halving))]
    fn whole_value(&self, polynomial: &[u64], j: usize) -> u64
        requires points_value { all_below self.now.sums.field.p self.now.points.now ≡ true }
        requires polynomial_len { length polynomial.now ≡ terms self.now.t + terms self.now.t }
        requires polynomial_value { all_below self.now.sums.field.p polynomial.now ≡ true }
        requires j_in_bounds { j < length self.now.points.now }
        ensures { Is self.now.sums.field.p (eval self.now.sums.field.p polynomial.now (get_or self.now.points.now j 0)) result }
    {
        let sums = self.sums;
        let row = self.power_row(j);
        let k = row.len();
        let low = sharing::dot_by(sums, row, &polynomial[..k]);
        let high = sharing::dot_by(sums, row, &polynomial[k..]);
        let next = sums.field.mul(row[k - 1], self.points[j]);
        sharing::dot_by(sums, &[1, next], &[low, high])
    }

    // At each party's point the value of the sum of the parties' dealings of 0, whole: by their 2t coins.
    #[tactic(auto, using(crate::proofs::MaskLaws::masking))]
    fn masks(&self, coins: &[u8], at: usize) -> [u64; 15]
        requires t_bound { self.now.t < 8 }
        requires points_value { all_below self.now.sums.field.p self.now.points.now ≡ true }
        requires coined { Coined self.now.sums.field.p (3 * self.now.t) (length self.now.points.now) at (numbers coins.now) }
        ensures { take (length self.now.points.now) result ≡ map (summed_at self.now.sums.field.p (shared_by (self.now.t + self.now.t) (3 * self.now.t) (replicate (length self.now.points.now) 0) (drop at (numbers coins.now)))) self.now.points.now }
    {
        let n = self.points.len();
        let k = terms(self.t);
        let step = 3 * self.t;
        let zeros = [0u64; 15];
        let dealt = Dealt {
            values: &zeros[..n],
            coins,
            t: self.t + self.t,
            at,
            step,
        };
        let mut sum = [0u64; 16];
        sum_polynomials(self.sums.field, &dealt, &mut sum[..k + k]);
        let whole = &sum[..k + k];
        row_by(n, |j| self.whole_value(whole, j))
    }

    // All parties' masked products: each one's product of its shares of wires a and b, and its mask.
    #[tactic(auto, using(crate::proofs::MaskLaws::masked))]
    pub fn masked(&self, a: usize, b: usize, coins: &[u8], at: usize, table: &[u64]) -> [u64; 15]
        requires t_bound { self.now.t < 8 }
        requires points_value { all_below self.now.sums.field.p self.now.points.now ≡ true }
        requires coined { Coined self.now.sums.field.p (3 * self.now.t) (length self.now.points.now) at (numbers coins.now) }
        requires rowed { Rowed self.now.sums.field.p (length self.now.points.now) a table.now }
        requires rowed_2 { Rowed self.now.sums.field.p (length self.now.points.now) b table.now }
        ensures { take (length self.now.points.now) result ≡ masked_of self.now.sums.field.p self.now.t self.now.points.now a b table.now (drop at (numbers coins.now)) }
    {
        let n = self.points.len();
        let products = products(self.sums, n, n, a, b, table);
        let masks = self.masks(coins, at);
        let mut row = [0u64; 15];
        add_rows(self.sums.field, &products[..n], &masks[..n], &mut row[..n]);
        row
    }

    // All parties' differences of wire w and number j of their next triples.
    #[tactic(auto, using(crate::proofs::SpendLaws::differing))]
    pub fn differences(
        &self,
        w: usize,
        j: usize,
        triples: &[u8],
        at: usize,
        table: &[u64],
    ) -> [u64; 15]
        requires spending { Spending self.now.sums.field.p (length self.now.points.now) 3 at (numbers triples.now) }
        requires j_bound { j < 3 }
        requires rowed { Rowed self.now.sums.field.p (length self.now.points.now) w table.now }
        ensures { take (length self.now.points.now) result ≡ differences_of self.now.sums.field.p (length self.now.points.now) w j (numbers triples.now) at table.now }
    {
        let f = self.sums.field;
        let n = self.points.len();
        let row = n * w;
        let mut differences = [0u64; 15];
        for d in 0..n {
            differences[d] = f.sub(table[row + d], triple_number(n, triples, at, d, j));
        }
        differences
    }

    // What they open to.
    #[tactic(auto, using(crate::proofs::SpendLaws::opening))]
    fn opened_difference(&self, w: usize, j: usize, triples: &[u8], at: usize, table: &[u64]) -> u64
        requires t_in_bounds { self.now.t < length self.now.points.now }
        requires points_value { all_below self.now.sums.field.p self.now.points.now ≡ true }
        requires spending { Spending self.now.sums.field.p (length self.now.points.now) 3 at (numbers triples.now) }
        requires j_bound { j < 3 }
        requires rowed { Rowed self.now.sums.field.p (length self.now.points.now) w table.now }
        ensures { Is self.now.sums.field.p (opened self.now.sums.field.p self.now.t self.now.points.now (differences_of self.now.sums.field.p (length self.now.points.now) w j (numbers triples.now) at table.now)) result }
    {
        let shares = self.differences(w, j, triples, at, table);
        let n = self.points.len();
        sharing_openings::opened(self.sums.field, self.t, self.points, &shares[..n])
    }

    // The row of a gate that spends a triple: all parties open their differences of both wires, and each works its share of the product.
    #[inline(never)]
    #[tactic(auto, using(crate::proofs::SpendLaws::multiplying))]
    pub fn spent_row(
        &self,
        a: usize,
        b: usize,
        triples: &[u8],
        at: usize,
        table: &[u64],
        row: &mut [u64],
    )
        requires t_in_bounds { self.now.t < length self.now.points.now }
        requires points_value { all_below self.now.sums.field.p self.now.points.now ≡ true }
        requires spending { Spending self.now.sums.field.p (length self.now.points.now) 3 at (numbers triples.now) }
        requires rowed { Rowed self.now.sums.field.p (length self.now.points.now) a table.now }
        requires rowed_2 { Rowed self.now.sums.field.p (length self.now.points.now) b table.now }
        requires row_in_bounds { length self.now.points.now ≤ length row.old }
        ensures { take (length self.now.points.now) row.new ≡ spent_of self.now.sums.field.p self.now.t self.now.points.now a b (numbers triples.now) at table.now }
    {
        let f = self.sums.field;
        let n = self.points.len();
        let left = n * a;
        let right = n * b;
        let d = self.opened_difference(a, 0, triples, at, table);
        let e = self.opened_difference(b, 1, triples, at, table);
        for i in 0..n {
            let c = triple_number(n, triples, at, i, 2);
            row[i] = seat_messages::spent_share(f, c, table[left + i], table[right + i], d, e);
        }
    }

    // The row of these dealings, where room is lent for their polynomials.
    // As it is: the way is kept with the dealings. A closure would be a type parameter of `Dealings` and of each struct that keeps one, and its contract
    // would be the one that both methods have.
    #[tactic(auto, using(crate::proofs::DealingLaws::weighing))]
    fn weighed_in(&self, dealt: &Dealt, room: &mut [u64], row: &mut [u64])
        requires t_bound { self.now.t < 8 }
        requires room_in_bounds { terms self.now.t * length self.now.weights.now ≤ length room.old }
        requires t_value { dealt.now.t ≡ self.now.t }
        requires values_len { length dealt.now.values.now ≡ length self.now.weights.now }
        requires values_value { all_below self.now.sums.field.p dealt.now.values.now ≡ true }
        requires spaced { Spaced self.now.sums.field.p dealt.now.t dealt.now.step (length dealt.now.values.now) dealt.now.at (numbers dealt.now.coins.now) }
        requires row_in_bounds { length self.now.points.now ≤ length row.old }
        ensures { take (length self.now.points.now) row.new ≡ map (mixed_at self.now.sums.field.p self.now.weights.now (shared_by dealt.now.t dealt.now.step dealt.now.values.now (drop dealt.now.at (numbers dealt.now.coins.now)))) self.now.points.now }
    {
        let k = terms(self.t);
        let used = k * self.weights.len();
        polynomials(dealt, k, &mut room[..used]);
        let product = Product {
            dealings: self,
            polynomials: &room[..used],
        };
        match self.way {
            Way::Grid => product.gridded(row),
            Way::Sum => product.mixed(row),
        }
    }

    // The row of these dealings: each receiver's pieces are weighed and summed. The room of a large plan is as much to clear as a small plan's product is
    // work, so a small plan has less.
    #[tactic(auto, using(crate::proofs::DealingLaws::rooming))]
    pub fn weighed_row(&self, dealt: &Dealt, row: &mut [u64])
        requires t_bound { self.now.t < 8 }
        requires t_value { dealt.now.t ≡ self.now.t }
        requires values_len { length dealt.now.values.now ≡ length self.now.weights.now }
        requires values_value { all_below self.now.sums.field.p dealt.now.values.now ≡ true }
        requires spaced { Spaced self.now.sums.field.p dealt.now.t dealt.now.step (length dealt.now.values.now) dealt.now.at (numbers dealt.now.coins.now) }
        requires row_in_bounds { length self.now.points.now ≤ length row.old }
        ensures { take (length self.now.points.now) row.new ≡ map (mixed_at self.now.sums.field.p self.now.weights.now (shared_by dealt.now.t dealt.now.step dealt.now.values.now (drop dealt.now.at (numbers dealt.now.coins.now)))) self.now.points.now }
    {
        if self.t < 4 && self.points.len() <= 5 {
            self.weighed_in(dealt, &mut [0; 20], row)
        } else {
            self.weighed_in(dealt, &mut [0; 120], row)
        }
    }

    // A multiply gate's row: that of the dealings of the dealers' products.
    #[tactic(auto, using(crate::proofs::DealingLaws::multiplying))]
    pub fn multiply_row(
        &self,
        a: usize,
        b: usize,
        coins: &[u8],
        at: usize,
        table: &[u64],
        row: &mut [u64],
    )
        requires t_bound { self.now.t < 8 }
        requires coined { Coined self.now.sums.field.p self.now.t (length self.now.weights.now) at (numbers coins.now) }
        requires rowed { Rowed self.now.sums.field.p (length self.now.points.now) a table.now }
        requires rowed_2 { Rowed self.now.sums.field.p (length self.now.points.now) b table.now }
        requires row_in_bounds { length self.now.points.now ≤ length row.old }
        ensures { take (length self.now.points.now) row.new ≡ map (mixed_at self.now.sums.field.p self.now.weights.now (shared_by self.now.t self.now.t (products_of self.now.sums.field.p (length self.now.points.now) (length self.now.weights.now) a b table.now) (drop at (numbers coins.now)))) self.now.points.now }
    {
        let dealers = self.weights.len();
        let products = products(self.sums, self.points.len(), dealers, a, b, table);
        let dealt = Dealt {
            values: &products[..dealers],
            coins,
            t: self.t,
            at,
            step: self.t,
        };
        self.weighed_row(&dealt, row);
    }
}

// ---- coins

// The coins that a gate takes from the list of all.
pub fn coins_taken(plan: &PlanFile, gate: Gate) -> usize
    ensures { record { eq : result ≡ length (coin_owners_at (plan_of plan.now.bytes.now) gate); most : result ≤ 630 } }
{
    let t = plan.header.t;
    match gate {
        Gate::Input(_) => t,
        Gate::Multiply(_, _) => match plan.header.rule {
            Rule::Reduction => t * (t + t + 1),
            Rule::Truncation => 3 * t * plan.header.n,
        },
        Gate::Random => t * plan.header.n,
        _ => 0,
    }
}

// The numbers of each party's triples that a gate takes.
#[tactic(auto, using(crate::proofs::SpendLaws::taking_triples))]
pub fn triples_taken(gate: Gate) -> usize
    ensures { record { eq : result ≡ triples_taken gate; most : result ≤ 3 } }
{
    match gate {
        Gate::Spend(_, _) => 3,
        _ => 0,
    }
}
