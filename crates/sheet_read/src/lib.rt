// The readers of a formula sheet: sum, product and bracket call each other. They make the gates as they read; a gate past the
// end of `out` is not written, so that one reading serves to check and count, and a second one to write.
#![tactic(auto)]

ghost use Rattle.std.specs.Prelude.{◌≡◌, Some, None, suc, ◌+◌, ◌*◌, ◌<◌, ◌≤◌, ◌-◌, length, get_or, set};
ghost use Rattle.std.specs.Prelude.{◌||◌, nat_eq};
ghost use Rattle.std.specs.List.{position};
ghost use Rattle.text_decimals.specs.Reading.{blanks_end, decimal_at, Within};
ghost use Rattle.sheet_text.specs.Sheets.{is_letter, atom_at, product_at, sum_at, sheet_at};
ghost use Rattle.sheet_read.specs.Working.{free_or, capped_next, join_wire, join_out};
ghost use Rattle.sheet_read.specs.Reading.{Ahead, Reads, Sheet, Place, Inside, Letter, Leaf, leaf_at, number_part, number_file, name_part, name_table, closed_part, level_operator, joined_side};

use plan::Gate;

// What is read of a part: the wire that holds its value, the gates so far, and the place past it.
#[derive(Clone, Copy)]
pub struct Part {
    pub wire: usize,
    pub gates: usize,
    pub at: usize,
}

// A formula sheet that is read: its text, how many parties there are, and the prime.
#[derive(Clone, Copy)]
struct Formula<'a> {
    text: &'a [u8],
    n: u32,
    p: u32,
}

// What joins two sides.
#[derive(Clone, Copy)]
pub enum Operator {
    Times,
    Plus,
    Minus,
}

// What is read part by part: a sum's parts are products, a product's are brackets.
#[derive(Clone, Copy)]
enum Level {
    Sum,
    Product,
}

// ---- names: a table of numbers, each one more than a name's; 0 where there is none
// As it is: the table is a slice that the caller lends, and no map, since there is no heap. It holds numbers and no `Option`: two tables of 1,025
// `Option<usize>` and the room for a plan, which stand together in a compilation, take 43,324 bytes, and pool.h states 40,960 of stack.

// The place of a name, or the first free one.
fn place(names: &[usize], x: usize) -> Option<usize>
    ensures { result ≡ position (λ y. nat_eq y x || nat_eq y 0) names.now }
{
    names.iter().position(|y| *y == x || *y == 0)
}

// The same; past the end where there is neither.
#[tactic(auto, using(crate::proofs::Names::holding))]
pub fn find(names: &[usize], x: usize) -> usize
    ensures { result ≡ free_or x names.now }
{
    place(names, x).unwrap_or(names.len())
}

// Holds a name in the table: its place.
#[tactic(auto, using(crate::proofs::Names::holding))]
fn hold(names: &mut [usize], x: usize) -> usize
    ensures place { result ≡ free_or x names.old }
    ensures table { names.new ≡ set names.old (free_or x names.old) x }
{
    let i = find(names, x);
    if i < names.len() {
        names[i] = x;
    }
    i
}

// ---- gates

// One gate more; a count stops at 1,025.
#[inline(always)]
#[tactic(auto, using(crate::proofs::Gates::joining))]
fn next(g: usize) -> usize
    ensures { result ≡ capped_next g }
{
    g.min(1024) + 1
}

// The gates that join a left side, whose value wire l holds, to a right side: the wire of their value.
#[inline(always)]
#[tactic(auto, using(crate::proofs::Gates::joining))]
fn operate(operator: Operator, p: u32, l: usize, r: Part, out: &mut [u8]) -> usize
    ensures wire { result ≡ join_wire operator r.gates }
    ensures file { out.new ≡ join_out operator p l r.wire r.gates out.old }
{
    let version = plan_file::version_for(p);
    let g = r.gates;
    match operator {
        Operator::Times => {
            plan_file::put_gate(out, version, g, Gate::Multiply(l, r.wire));
            g
        }
        Operator::Plus => {
            plan_file::put_gate(out, version, g, Gate::Add(l, r.wire));
            g
        }
        Operator::Minus => {
            let h = next(g);
            let less_one = (p as u64).saturating_sub(1);
            plan_file::put_gate(out, version, g, Gate::Scale(r.wire, less_one));
            plan_file::put_gate(out, version, h, Gate::Add(l, g));
            h
        }
    }
}

// A right side joined to the left one, whose value wire l holds.
#[inline(always)]
#[tactic(auto, using(crate::proofs::Gates::joining))]
fn join(operator: Operator, p: u32, l: usize, r: Part, out: &mut [u8]) -> Part
    ensures part { result ≡ joined_side operator r }
    ensures file { out.new ≡ join_out operator p l r.wire r.gates out.old }
{
    let wire = operate(operator, p, l, r, out);
    let gates = next(wire);
    Part {
        wire,
        gates,
        at: r.at,
    }
}

// ---- names and numbers

// As it is: no `u8::is_ascii_lowercase`. The byte is the u64 of `numbers::byte`, and in a name's number it is added as one.
#[tactic(auto, unfolding(sheet_text::specs::Sheets::is_letter))]
fn is_letter(b: u64) -> bool
    ensures { result ≡ is_letter b }
{
    (97..=122).contains(&b)
}

// ---- the readers

impl Level {
    // The operator between two parts, at a place.
    #[inline(always)]
    #[tactic(auto, using(crate::proofs::Gates::joining))]
    fn operator(self, s: &[u8], at: usize) -> Option<Operator>
        ensures { result ≡ level_operator self (get_or s.now at 0) }
    {
        match (self, numbers::byte(s, at)) {
            (Level::Product, 42) => Some(Operator::Times),
            (Level::Sum, 43) => Some(Operator::Plus),
            (Level::Sum, 45) => Some(Operator::Minus),
            _ => None,
        }
    }
}

// The place past a byte and the blanks after it.
#[inline(always)]
fn after(s: &[u8], at: usize) -> usize
    requires { at < length s.now }
    ensures { Within s.now (at + 1) (blanks_end s.now (at + 1)) result }
{
    text_decimals::blanks(s, at + 1)
}

// The closing bracket after what stands in brackets.
#[inline(always)]
#[tactic(auto, using(crate::proofs::Readers::reading))]
fn close(s: &[u8], at: usize, r: Part) -> Option<Part>
    requires { Inside s.now at r }
    ensures part { result ≡ closed_part s.now r }
    ensures ahead { Ahead s.now at result }
{
    if numbers::byte(s, r.at) != 41 {
        return None;
    }
    let past = after(s, r.at);
    Some(Part {
        wire: r.wire,
        gates: r.gates,
        at: past,
    })
}

// As it is: the gates so far, the table and the file go from reader to reader as three parameters. A struct that borrows table and file would be no
// plainer: each reader's contract would say besides that it still borrows the same two. `Place` stands in three contracts: that a place is within the text
// is a fact of the text too, which a struct of place and depth would not have.
impl Formula<'_> {
    // A number below p.
    #[tactic(auto, using(crate::proofs::Leaves::leaving))]
    fn number(&self, at: usize, g: usize, out: &mut [u8]) -> Option<Part>
        requires { at ≤ length self.now.text.now }
        ensures part { result ≡ number_part self.now.text.now g (decimal_at self.now.p self.now.text.now at) }
        ensures file { out.new ≡ number_file self.now.p g out.old (decimal_at self.now.p self.now.text.now at) }
        ensures ahead { Ahead self.now.text.now at result }
    {
        let (v, e) = text_decimals::decimal(self.text, at, self.p as u64)?;
        let version = plan_file::version_for(self.p);
        let h = next(g);
        plan_file::put_gate(out, version, g, Gate::Scale(0, 0));
        plan_file::put_gate(out, version, h, Gate::Offset(g, v));
        let gates = next(h);
        let at = text_decimals::blanks(self.text, e);
        Some(Part { wire: h, gates, at })
    }

    // A letter b stands at the place: the party that follows it, 1 to n.
    #[tactic(auto, using(crate::proofs::Leaves::leaving))]
    fn name(&self, at: usize, b: u64, g: usize, names: &mut [usize]) -> Option<Part>
        requires { Letter self.now.text.now at b }
        ensures part { result ≡ name_part self.now.text.now b g names.old (decimal_at (suc self.now.n) self.now.text.now (suc at)) }
        ensures table { names.new ≡ name_table b names.old (decimal_at (suc self.now.n) self.now.text.now (suc at)) }
        ensures ahead { Ahead self.now.text.now at result }
    {
        let (v, e) = text_decimals::decimal(self.text, at + 1, self.n as u64 + 1)?;
        if v == 0 {
            return None;
        }
        let wire = hold(names, (256 * v + b + 1) as usize);
        let at = text_decimals::blanks(self.text, e);
        Some(Part { wire, gates: g, at })
    }

    // A name or a number, where no bracket stands.
    #[inline(always)]
    #[tactic(auto, using(crate::proofs::Leaves::leaving))]
    fn leaf(&self, at: usize, b: u64, g: usize, names: &mut [usize], out: &mut [u8]) -> Option<Part>
        requires { Leaf self.now.text.now at b }
        ensures { Reads self.now.text.now at (leaf_at self.now.n self.now.p self.now.text.now at) self.now.p g names.old out.old result names.new out.new }
    {
        if is_letter(b) {
            return self.name(at, b, g, names);
        }
        self.number(at, g, out)
    }

    // A name, a number, or a sum in brackets, nested to a depth of 16.
    #[inline(always)]
    #[tactic(auto, using(crate::proofs::Readers::reading))]
    #[cycle(bracket_product_sum)]
    fn bracket(
        &self,
        at: usize,
        depth: usize,
        g: usize,
        names: &mut [usize],
        out: &mut [u8],
    ) -> Option<Part>
        requires { Place self.now.text.now at depth }
        ensures { Reads self.now.text.now at (atom_at (16 - depth) self.now.n self.now.p self.now.text.now at) self.now.p g names.old out.old result names.new out.new }
    {
        let b = numbers::byte(self.text, at);
        if b != 40 {
            return self.leaf(at, b, g, names, out);
        }
        if 16 <= depth {
            return None;
        }
        let from = after(self.text, at);
        let inner = self.sum(from, depth + 1, g, names, out)?;
        close(self.text, at, inner)
    }

    // A product: a bracket, and as long as a * follows, one more.
    // As it is: a loop for each level, and no reader that takes the level: bracket and product are then compiled into sum, and a bracket in the text is one
    // call. A reader of both levels, compiled as two calls, takes half as long again on deep brackets.
    // As it is: a `while let`, and no `for`, since no index is counted: the loop ends where no operator follows.
    #[inline(always)]
    #[tactic(auto, using(crate::proofs::Readers::reading))]
    #[cycle(bracket_product_sum)]
    fn product(
        &self,
        at: usize,
        depth: usize,
        g: usize,
        names: &mut [usize],
        out: &mut [u8],
    ) -> Option<Part>
        requires { Place self.now.text.now at depth }
        ensures { Reads self.now.text.now at (product_at (16 - depth) self.now.n self.now.p self.now.text.now at) self.now.p g names.old out.old result names.new out.new }
    {
        let mut left = self.bracket(at, depth, g, names, out)?;
        while let Some(operator) = Level::Product.operator(self.text, left.at) {
            let from = after(self.text, left.at);
            let right = self.bracket(from, depth, left.gates, names, out)?;
            left = join(operator, self.p, left.wire, right, out);
        }
        Some(left)
    }

    // A sum: a product, and as long as a + or a - follows, one more.
    #[tactic(auto, using(crate::proofs::Readers::reading))]
    #[cycle(bracket_product_sum)]
    fn sum(
        &self,
        at: usize,
        depth: usize,
        g: usize,
        names: &mut [usize],
        out: &mut [u8],
    ) -> Option<Part>
        requires { Place self.now.text.now at depth }
        ensures { Reads self.now.text.now at (sum_at (16 - depth) self.now.n self.now.p self.now.text.now at) self.now.p g names.old out.old result names.new out.new }
    {
        let mut left = self.product(at, depth, g, names, out)?;
        while let Some(operator) = Level::Sum.operator(self.text, left.at) {
            let from = after(self.text, left.at);
            let right = self.product(from, depth, left.gates, names, out)?;
            left = join(operator, self.p, left.wire, right, out);
        }
        Some(left)
    }
}

// A whole sheet, its gates after so many others.
#[tactic(auto, using(crate::proofs::Readers::reading))]
pub fn read_sheet(
    s: &[u8],
    n: u32,
    p: u32,
    g: usize,
    names: &mut [usize],
    out: &mut [u8],
) -> Option<Part>
    ensures { Sheet (sheet_at n p s.now) p g names.old out.old result names.new out.new }
{
    let formula = Formula { text: s, n, p };
    let from = text_decimals::blanks(s, 0);
    let part = formula.sum(from, 0, g, names, out)?;
    if part.at != s.len() {
        return None;
    }
    Some(part)
}
