// Runs the code of sharing over primes, counts of parties and thresholds, and compares with sums made another way: polynomials are
// evaluated by powers, an opening is to give the first coefficient, a damaged share is to be found, a vanishing polynomial is to be 1
// at 0, 0 at its members and nowhere else of the points, and the matrix is to cut a polynomial. Prints how many comparisons of each kind agreed, and how many were made.
#![tactic(auto, using(crate::proofs::Laws::testing))]

ghost use Rattle.std.specs.Prelude.{◌≡◌, ◌<◌, ◌≤◌, true};
ghost use Rattle.sharing_openings.specs.Openable.{Openable};
ghost use Rattle.numbers.specs.Bytes.{all_below};

use field::Field;
use sharing_matrix::Matrix;

const PRIMES: [u32; 10] = [17, 19, 31, 101, 257, 4099, 32749, 65521, 65537, 2147483647];

// How many comparisons agreed, of how many.
#[derive(Clone, Copy, Default)]
struct Count {
    right: u64,
    all: u64,
}

impl Count {
    fn note(&mut self, same: bool) {
        self.right = self.right.wrapping_add(u64::from(same));
        self.all = self.all.wrapping_add(1);
    }

    fn tell(self, name: &[u8]) {
        io::write_all(1, name);
        io::print_decimal(1, self.right);
        io::write_all(1, b" of ");
        io::print_decimal(1, self.all);
        io::write_all(1, b"\n");
    }
}

#[derive(Clone, Copy, Default)]
struct Counts {
    values: Count,
    openings: Count,
    checks: Count,
    interpolations: Count,
    vanishings: Count,
    truncations: Count,
}

// Whether every number is below p.
// As it is: `all` with a closure was tried, and its `ensures` speaks of the iterator's turns, from which neither tactic found the definition.
fn all_below(p: u64, xs: &[u64]) -> bool
    ensures { result ≡ all_below p xs.now }
{
    for x in xs {
        if p <= *x {
            return false;
        }
    }
    true
}

// Numbers below p that look like chance.
fn chance(p: u64, seed: u64, out: &mut [u64])
    requires { 0 < p }
{
    let mut s = seed % 2147483647;
    for x in out.iter_mut() {
        s = (s * 48271 + 11) % 2147483647;
        *x = s % p;
    }
}

// step, 2 step, 3 step, .. modulo p.
fn multiples(f: Field, step: u64, out: &mut [u64])
    requires { step < 2147483648 }
{
    let mut at: u64 = 0;
    for x in out.iter_mut() {
        at = (at + step) % f.p;
        *x = at;
    }
}

// The value of a polynomial by powers of x.
fn by_powers(f: Field, coefficients: &[u64], x: u64) -> u64 {
    let p = f.p;
    let y = x % p;
    let mut sum: u64 = 0;
    let mut power: u64 = 1;
    for a in coefficients {
        sum = (sum + *a % p * power) % p;
        power = power * y % p;
    }
    sum
}

// The shares of a polynomial, each compared with its value by powers.
// As it is: field, polynomial and points go together into three tests of a dealing and one of a vanishing polynomial. A struct of them would be made for
// two calls in `scenario` and one in `vanishings`, beside the shares, which one of them writes.
fn values(f: Field, polynomial: &[u64], points: &[u64], shares: &[u64], count: &mut Count) {
    for (x, share) in points.iter().zip(shares) {
        count.note(by_powers(f, polynomial, *x) == *share);
    }
}

fn dealings(f: Field, polynomial: &[u64], points: &[u64], shares: &mut [u64], count: &mut Count) {
    if all_below(f.p, polynomial) && all_below(f.p, points) && shares.len() == points.len() {
        sharing::deal(f, polynomial, points, shares);
        values(f, polynomial, points, shares, count);
    } else {
        count.note(false);
    }
}

// Whether a value can be opened, and the check be made.
// As it is: field, t, points and shares go together here and below, but shares are made wrong and right again between the tests, so a struct that lends
// them would be made anew for each.
fn openable(f: Field, t: usize, points: &[u64], shares: &[u64]) -> bool
    ensures { result ≡ true → Openable f.p t points.now shares.now }
{
    all_below(f.p, points)
        && all_below(f.p, shares)
        && t < points.len()
        && points.len() <= 15
        && shares.len() == points.len()
}

fn openings(f: Field, t: usize, points: &[u64], shares: &[u64], secret: u64, count: &mut Count) {
    count.note(
        openable(f, t, points, shares) && sharing_openings::opened(f, t, points, shares) == secret,
    );
}

// Whether the check finds a share at this place, or nothing.
fn finds(f: Field, t: usize, points: &[u64], shares: &[u64], place: Option<usize>) -> bool {
    openable(f, t, points, shares) && sharing_openings::first_off(f, t, points, shares) == place
}

// Where one wrong share is found: a share past the first t + 1 is found itself, and a wrong one among the first t + 1 makes the next share found.
fn damaged_place(t: usize, n: usize, k: usize) -> Option<usize> {
    if t < k {
        Some(k)
    } else if t < n && t + 1 < n {
        Some(t + 1)
    } else {
        None
    }
}

// The check of right shares, and of each share in turn made wrong.
fn checks(f: Field, t: usize, points: &[u64], shares: &mut [u64], count: &mut Count) {
    count.note(finds(f, t, points, shares, None));
    for k in 0..shares.len() {
        let kept = shares[k];
        shares[k] = (kept % f.p + 1) % f.p;
        count.note(finds(f, t, points, shares, damaged_place(t, shares.len(), k)));
        shares[k] = kept;
    }
}

// The value at z from all shares, compared with the polynomial's value by powers.
fn interpolation(
    f: Field,
    polynomial: &[u64],
    points: &[u64],
    shares: &[u64],
    z: u64,
    room: &mut [u64],
    count: &mut Count,
) {
    if all_below(f.p, points) && z < f.p && room.len() == points.len() {
        sharing::weights(f, z, points, room);
        count.note(weighed(f, room, shares) == Some(by_powers(f, polynomial, z)));
    } else {
        count.note(false);
    }
}

fn weighed(f: Field, weights: &[u64], shares: &[u64]) -> Option<u64> {
    if all_below(f.p, weights)
        && all_below(f.p, shares)
        && weights.len() <= shares.len()
        && weights.len() <= 15
    {
        Some(sharing::dot(f, weights, shares))
    } else {
        None
    }
}

// The values of a polynomial, which are to be 1 at 0, and 0 at just the first m points; and its coefficients, which are to be 0 past the first m + 1.
fn vanishes(f: Field, polynomial: &[u64], points: &[u64], m: usize, count: &mut Count) {
    count.note(by_powers(f, polynomial, 0) == 1);
    for (i, x) in points.iter().enumerate() {
        count.note((i < m) == (by_powers(f, polynomial, *x) == 0));
    }
    for (i, a) in polynomial.iter().enumerate() {
        if m < i {
            count.note(*a == 0);
        }
    }
}

// The vanishing polynomial of the first m points.
fn vanishings(f: Field, m: usize, points: &[u64], room: &mut [u64], count: &mut Count) {
    if m <= points.len() && m < room.len() && all_below(f.p, &points[..m]) {
        sharing_delta::vanishing(f, &points[..m], room);
        vanishes(f, room, points, m, count);
    } else {
        count.note(false);
    }
}

// What the matrix makes of the shares, with its rows and without them, compared with the values of the first t + 1 coefficients by powers.
fn truncations(
    f: Field,
    t: usize,
    polynomial: &[u64],
    points: &[u64],
    shares: &[u64],
    room: &mut [u64],
    count: &mut Count,
) {
    let n = points.len();
    if t < polynomial.len()
        && n <= 15
        && t <= 14
        && all_below(f.p, points)
        && all_below(f.p, shares)
        && shares.len() == n
        && room.len() == n
    {
        let mut rows = [0u64; 225];
        sharing_matrix::apply(f, t, points, shares, room);
        values(f, &polynomial[..t + 1], points, room, count);
        Matrix::new(f, t, points, &mut rows[..n * n]).shares(shares, room);
        values(f, &polynomial[..t + 1], points, room, count);
    } else {
        count.note(false);
    }
}

// All comparisons of one dealing, at points and with coefficients that are written here.
fn scenario(
    f: Field,
    t: usize,
    points: &mut [u64],
    polynomial: &mut [u64],
    shares: &mut [u64],
    room: &mut [u64],
    wide: &mut [u64],
    counts: &mut Counts,
) {
    multiples(f, 1 + f.p % 16, points);
    chance(f.p, f.p, polynomial);
    let secret = polynomial.first().copied().unwrap_or(0);
    dealings(f, polynomial, points, shares, &mut counts.values);
    openings(f, t, points, shares, secret, &mut counts.openings);
    checks(f, t, points, shares, &mut counts.checks);
    interpolation(
        f,
        polynomial,
        points,
        shares,
        secret,
        room,
        &mut counts.interpolations,
    );
    vanishings(f, t, points, wide, &mut counts.vanishings);
}

// The comparisons of a dealing by a polynomial with as many coefficients as there are points.
fn full(
    f: Field,
    t: usize,
    points: &[u64],
    polynomial: &mut [u64],
    shares: &mut [u64],
    room: &mut [u64],
    counts: &mut Counts,
) {
    chance(f.p, 3, polynomial);
    dealings(f, polynomial, points, shares, &mut counts.values);
    truncations(
        f,
        t,
        polynomial,
        points,
        shares,
        room,
        &mut counts.truncations,
    );
}

// n parties with threshold t.
fn parties(f: Field, n: usize, t: usize, counts: &mut Counts)
    requires t_lt_n { (t < n) × (n ≤ 15) }
{
    let mut points = [0u64; 15];
    let mut polynomial = [0u64; 15];
    let mut shares = [0u64; 15];
    let mut room = [0u64; 15];
    let mut wide = [0u64; 16];
    scenario(
        f,
        t,
        &mut points[..n],
        &mut polynomial[..t + 1],
        &mut shares[..n],
        &mut room[..n],
        &mut wide,
        counts,
    );
    full(
        f,
        t,
        &points[..n],
        &mut wide[..n],
        &mut shares[..n],
        &mut room[..n],
        counts,
    );
}

fn main() {
    let mut counts = Counts::default();
    for p in PRIMES {
        if let Some(f) = Field::new(p) {
            for n in 1..16 {
                for t in 0..n {
                    parties(f, n, t, &mut counts);
                }
            }
        }
    }
    counts.values.tell(b"values ");
    counts.openings.tell(b"openings ");
    counts.checks.tell(b"checks ");
    counts.interpolations.tell(b"interpolations ");
    counts.vanishings.tell(b"vanishings ");
    counts.truncations.tell(b"truncations ");
}
