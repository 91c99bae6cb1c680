// The view of a coalition's members, written to the lent buffer number by number: a member's inputs, its coins, its mail and
// its results.
#![tactic(auto)]

ghost use Rattle.std.specs.Prelude.{ℕ, List, IfSome, IfNone, ◌≡◌, cond, ◌+◌, ◌-◌, ◌*◌, ◌/◌, ◌^◌, ◌<◌, ◌≤◌, length, take, drop, get_or};
ghost use mathlib.Core.List.{[], ◌∷◌, map, flat_map};
ghost use Rattle.numbers.specs.Tables.{tab};
ghost use Rattle.numbers.specs.Bytes.{width, numbers, bytes_of};
ghost use Rattle.field.specs.Field.{Is, is_wide};
ghost use Rattle.sharing_laws.specs.Poly.{eval};
ghost use Rattle.sharing_laws.specs.Basis.{row};
ghost use Rattle.plan.specs.Plans.{point_of, is_input_of, input_wires, out_wires, input_owners_at, coin_owners_at, own_of, own_inputs, own_coins};
ghost use Rattle.plan.specs.declared.Gate.{Gate};
ghost use Rattle.plan.specs.declared.Gate.TheVariants.{Multiply};
ghost use Rattle.plan.specs.declared.Rule.TheVariants.{Reduction, Truncation};
ghost use Rattle.plan.specs.File.{plan_of, gate_place, gate_at};
ghost use Rattle.plan_coalition.specs.Coalitions.{in_set, members};
ghost use Rattle.run_protocol.specs.Rounds.{view_count};
ghost use Rattle.run_protocol.specs.Shares.{triples_taken, share_table};
ghost use Rattle.run_protocol.specs.Tables.{table_view_of, triples_of};
ghost use Rattle.run_dealings.specs.Rows.{rows_of, draws_of, shared_by, mixed_at, Fitted, Cutting, Ruling, Spending, Given};
ghost use Rattle.run_views.specs.Flat.{share_in, first_in, outs_in, opened_in, pieces_of, multiply_in, openings_in, pieces_in, mail_in, view_in, gathered, taken_by, Stands, Multiplies, Spends, Seen, Owns, PowerRow, Ran};
ghost use Rattle.run_views.specs.Writing.{Put};

use crate::writer::Writer;
use field::Sums;
use plan::{Gate, Gates, PlanFile, Rule};
use run_dealings::{Dealings, Dealt, Way};
use run_tables::RunPlan;
use sharing_matrix::Matrix;

mod writer;

// ---- the lent buffer

impl Writer<'_> {
    // One number, where there is room.
    #[inline]
    #[tactic(auto, using(crate::proofs::WriteLaws::putting))]
    fn put(&mut self, v: u64)
        ensures { Put (v ∷ []) self.old self.new }
    {
        if self.at < self.out.len() / numbers::WIDTH {
            numbers::write(self.out, self.at, v);
            self.at += 1;
        }
    }

    // So many numbers of a lent list, from number `from` on.
    #[tactic(auto, using(crate::proofs::ViewLaws::copying))]
    fn put_part(&mut self, list: &[u8], from: usize, count: usize)
        requires count_in_bounds { from + count ≤ length list.now / width }
        ensures { Put (take count (drop from (numbers list.now))) self.old self.new }
    {
        for j in 0..count {
            self.put(numbers::number(list, from + j));
        }
    }

    // Each number of a row.
    #[tactic(auto, using(crate::proofs::ViewLaws::copying))]
    fn put_row(&mut self, row: &[u64])
        ensures { Put row.now self.old self.new }
    {
        for v in row {
            self.put(*v);
        }
    }
}

// ---- the run

// A run that is seen: its plan, what its dealings are worked with, all inputs, coins and triples, and its table of shares.
#[derive(Clone, Copy)]
struct Run<'a> {
    plan: &'a PlanFile<'a>,
    dealings: &'a Dealings<'a>,
    matrix: Option<Matrix<'a>>,
    inputs: &'a [u8],
    coins: &'a [u8],
    triples: &'a [u8],
    table: &'a [u64],
    ghost fitted: { Fitted plan.now.bytes.now plan.now.header dealings.now.sums.field.p dealings.now.t dealings.now.points.now dealings.now.weights.now },
    ghost ruled: { Ruling plan.now.header.rule dealings.now.sums.field.p dealings.now.t dealings.now.points.now matrix },
    ghost ran: { Ran (plan_of plan.now.bytes.now) plan.now.header (numbers inputs.now) (numbers coins.now) (numbers triples.now) table.now },
    ghost lent: { (length inputs.now < 2 ^ 63) × (length coins.now < 2 ^ 63) },
}

// Whether gate g is an input of party j. Its kind tells apart the gates that are no inputs before the whole gate is read.
#[tactic(auto, using(crate::proofs::ViewLaws::sorting))]
fn is_input_at(gates: &Gates, g: usize, j: usize) -> bool
    requires g_lt_gates { g < gates.now.count }
    requires le_j { 1 ≤ j }
    ensures { result ≡ is_input_of j (gate_at gates.now.bytes.now g) }
{
    gates.kind(g) == plan_counts::INPUT && plan_counts::is_input_of(j, gates.gate(g))
}

impl Run<'_> {
    // Party i's share of wire w.
    // As it is: i is any party, a dealer or a member, and three contracts say that it is 1 or more; a struct of a run and a party, as `Member` is,
    // would be made for each share that is read.
    #[inline]
    #[tactic(auto, using(crate::proofs::ViewLaws::reading))]
    fn share(&self, i: usize, w: usize) -> u64
        requires le_i { 1 ≤ i }
        requires i_le_n { i ≤ self.now.plan.now.header.n }
        requires w_lt_gates { w < self.now.plan.now.header.gates }
        ensures is { result ≡ share_in self.now.plan.now.header.n self.now.table.now i w }
        ensures below { result < self.now.plan.now.header.field.p }
    {
        self.table[self.plan.header.n * w + (i - 1)]
    }

    // Wire w's opening, from the shares of the first t + 1 parties.
    #[tactic(auto, using(crate::proofs::ViewLaws::opening))]
    fn opening(&self, w: usize) -> u64
        requires { w < self.now.plan.now.header.gates }
        ensures { Is self.now.plan.now.header.field.p (opened_in (plan_of self.now.plan.now.bytes.now) self.now.plan.now.header self.now.table.now w) result }
    {
        let h = self.plan.header;
        let a = h.n * w;
        let e = a + h.n;
        sharing_openings::opened(h.field, h.t, self.dealings.points, &self.table[a..e])
    }

    // Party i's shares of party j's inputs.
    #[tactic(auto, using(crate::proofs::ViewLaws::sifting))]
    fn put_inputs_of(&self, j: usize, i: usize, out: &mut Writer)
        requires le_j { 1 ≤ j }
        requires le_i { 1 ≤ i }
        requires i_le_n { i ≤ self.now.plan.now.header.n }
        ensures { Put (map (share_in self.now.plan.now.header.n self.now.table.now i) (input_wires (plan_of self.now.plan.now.bytes.now) j)) out.old out.new }
    {
        let gates = self.plan.gates();
        for g in 0..self.plan.header.gates {
            if is_input_at(&gates, g, j) {
                out.put(self.share(i, g));
            }
        }
    }

    // A number for each of party i's outs, by its wire.
    #[tactic(auto, using(crate::proofs::ViewLaws::outing))]
    fn put_outs<F: Fn(usize) -> u64>(&self, i: usize, value: F, out: &mut Writer)
        requires { (w : ℕ) → w < self.now.plan.now.header.gates → F.pre value w }
        ensures { (f : ℕ → ℕ) → ((w v : ℕ) → w < self.now.plan.now.header.gates → F.post value w v → v ≡ f w) → Put (map f (out_wires (plan_of self.now.plan.now.bytes.now) i)) out.old out.new }
    {
        for k in 0..self.plan.header.outs {
            let o = plan::out_at(self.plan.bytes, k);
            if i == o.party {
                out.put(value(o.wire));
            }
        }
    }

    // What each gate puts, by the places at which its inputs, its coins and each party's triple begin.
    #[tactic(auto, using(crate::proofs::ViewLaws::gathering))]
    fn put_gates<F: Fn(Gate, usize, usize, usize, &mut Writer)>(&self, put: F, out: &mut Writer)
        requires { (gate : Gate) (i from spent : ℕ) (w : _) → Stands self.now.plan.now.bytes.now self.now.plan.now.header.gates gate → i + length (input_owners_at (plan_of self.now.plan.now.bytes.now) gate) ≤ length self.now.inputs.now / width → from + length (coin_owners_at (plan_of self.now.plan.now.bytes.now) gate) ≤ length self.now.coins.now / width
            → Spending self.now.plan.now.header.field.p self.now.plan.now.header.n (triples_taken gate) spent (numbers self.now.triples.now) → F.pre put gate i from spent w }
        ensures { (f : Gate → ℕ → ℕ → ℕ → List ℕ) → ((gate : Gate) (i from spent : ℕ) (w w' : _) → F.post put gate i from spent w tt w' → Put (f gate i from spent) w.now w'.now)
            → Put (gathered f (plan_of self.now.plan.now.bytes.now) 0 0 0 (plan_of self.now.plan.now.bytes.now).gates) out.old out.new }
    {
        let gates = self.plan.gates();
        let mut i = 0;
        let mut from = 0;
        let mut spent = 0;
        for g in 0..self.plan.header.gates {
            let gate = gates.gate(g);
            put(gate, i, from, spent, out);
            i += run_ideal::inputs_taken(self.plan, gate);
            from += run_dealings::coins_taken(self.plan, gate);
            spent += run_dealings::triples_taken(gate);
        }
    }

    // Party i's view, where it is a member.
    #[tactic(auto, using(crate::proofs::JoinLaws::membering))]
    fn write_member(&self, set: u16, i: usize, out: &mut Writer)
        requires set_bound { set < 2 ^ self.now.plan.now.header.n }
        requires le_i { 1 ≤ i }
        requires i_bound { i ≤ 16 }
        ensures { Put (cond (in_set set i) (view_in (plan_of self.now.plan.now.bytes.now) self.now.plan.now.header self.now.table.now (numbers self.now.inputs.now) (numbers self.now.coins.now) (numbers self.now.triples.now) i) []) out.old out.new }
    {
        if plan_coalition::is_member(set, i) {
            Member { run: self, i }.write_view(out);
        }
    }
}

// ---- the pieces

// The mail of a run's gates to party i, with the powers of its point.
#[derive(Clone, Copy)]
struct Pieces<'a> {
    run: &'a Run<'a>,
    i: usize,
    powers: &'a [u64],
    ghost among: { (1 ≤ i) × (i ≤ run.now.plan.now.header.n) },
    ghost row: { PowerRow run.now.plan.now.header (point_of (plan_of run.now.plan.now.bytes.now) i) powers.now },
}

impl Pieces<'_> {
    // The piece of dealing d of these.
    // As it is: the sums are built here with the prime's range as a constant, as `column` of run_dealings builds them; no private function is seen by
    // both crates, and a public one of field would be there for these two.
    #[tactic(auto, using(crate::proofs::ViewLaws::dealing))]
    fn piece<const WIDE: bool>(&self, dealt: &Dealt, d: usize) -> u64
        requires wide_value { WIDE ≡ is_wide self.now.run.now.plan.now.header.field.p }
        requires seen { Seen self.now.run.now.plan.now.header.field.p (length self.now.powers.now) dealt.now.values.now dealt.now.t dealt.now.at dealt.now.step (numbers dealt.now.coins.now) }
        requires d_in_bounds { d < length dealt.now.values.now }
        ensures { Is self.now.run.now.plan.now.header.field.p (eval self.now.run.now.plan.now.header.field.p (get_or dealt.now.values.now d 0 ∷ take dealt.now.t (drop (dealt.now.at + dealt.now.step * d) (numbers dealt.now.coins.now))) (point_of (plan_of self.now.run.now.plan.now.bytes.now) self.now.i)) result }
    {
        let sums = Sums {
            field: self.run.plan.header.field,
            wide: WIDE,
            reciprocal: self.run.dealings.sums.reciprocal,
        };
        let t = dealt.t;
        let from = dealt.at + dealt.step * d;
        let powers = &self.powers[..t + 1];
        let mut sum = sums.add_product(0, powers[0], dealt.values[d]);
        for j in 0..t {
            let coin = numbers::number(dealt.coins, from + j);
            sum = sums.add_product(sum, powers[j + 1], coin);
        }
        sums.reduced(sum)
    }

    // The pieces of these dealings.
    #[tactic(auto, using(crate::proofs::ViewLaws::pieces))]
    fn put_by<const WIDE: bool>(&self, dealt: &Dealt, out: &mut Writer)
        requires wide_value { WIDE ≡ is_wide self.now.run.now.plan.now.header.field.p }
        requires seen { Seen self.now.run.now.plan.now.header.field.p (length self.now.powers.now) dealt.now.values.now dealt.now.t dealt.now.at dealt.now.step (numbers dealt.now.coins.now) }
        ensures { Put (pieces_of self.now.run.now.plan.now.header.field.p dealt.now.values.now dealt.now.t (numbers dealt.now.coins.now) dealt.now.at dealt.now.step (point_of (plan_of self.now.run.now.plan.now.bytes.now) self.now.i)) out.old out.new }
    {
        // By copies: what is written to `out` cannot change them, so nothing is read anew for each piece.
        let pieces = *self;
        let dealt = *dealt;
        for d in 0..dealt.values.len() {
            out.put(pieces.piece::<WIDE>(&dealt, d));
        }
    }

    // The same; the prime's range is a constant in each call.
    #[tactic(auto, using(crate::proofs::ViewLaws::pieces))]
    fn put(&self, dealt: &Dealt, out: &mut Writer)
        requires { Seen self.now.run.now.plan.now.header.field.p (length self.now.powers.now) dealt.now.values.now dealt.now.t dealt.now.at dealt.now.step (numbers dealt.now.coins.now) }
        ensures { Put (pieces_of self.now.run.now.plan.now.header.field.p dealt.now.values.now dealt.now.t (numbers dealt.now.coins.now) dealt.now.at dealt.now.step (point_of (plan_of self.now.run.now.plan.now.bytes.now) self.now.i)) out.old out.new }
    {
        if self.run.dealings.sums.wide {
            self.put_by::<true>(dealt, out)
        } else {
            self.put_by::<false>(dealt, out)
        }
    }

    // The pieces of the dealers' products of their shares of two wires, when the first dealer's coins begin at number `from`.
    #[tactic(auto, using(crate::proofs::ViewLaws::product_pieces))]
    fn put_products(&self, a: usize, b: usize, from: usize, out: &mut Writer)
        requires multiplies { Multiplies self.now.run.now.plan.now.header a b }
        requires from_in_bounds { from + taken_by Reduction self.now.run.now.plan.now.header ≤ length (numbers self.now.run.now.coins.now) }
        ensures { Put (multiply_in Reduction self.now.run.now.plan.now.header (plan_of self.now.run.now.plan.now.bytes.now).points self.now.run.now.table.now (numbers self.now.run.now.coins.now) (point_of (plan_of self.now.run.now.plan.now.bytes.now) self.now.i) a b from) out.old out.new }
    {
        let h = self.run.plan.header;
        let m = h.t + h.t + 1;
        let products = run_dealings::products(self.run.dealings.sums, h.n, m, a, b, self.run.table);
        let dealt = Dealt {
            values: &products[..m],
            coins: self.run.coins,
            t: h.t,
            at: from,
            step: h.t,
        };
        self.put(&dealt, out);
    }

    // All parties' pieces of the party's truncated share: the matrix' row weighs, for each party, its pieces of the masked products.
    #[tactic(auto, using(crate::proofs::ViewLaws::truncating))]
    fn put_truncated(&self, matrix: &Matrix, masked: &Dealt, out: &mut Writer)
        requires cutting { Cutting self.now.run.now.dealings.now.sums.field.p self.now.run.now.dealings.now.t self.now.run.now.dealings.now.points.now matrix.now }
        requires t_bound { self.now.run.now.plan.now.header.t < 8 }
        requires t_value { masked.now.t ≡ self.now.run.now.plan.now.header.t }
        requires masked_len { length masked.now.values.now ≡ self.now.run.now.plan.now.header.n }
        requires seen { Seen self.now.run.now.plan.now.header.field.p (length self.now.powers.now) masked.now.values.now masked.now.t masked.now.at masked.now.step (numbers masked.now.coins.now) }
        ensures { Put (map (mixed_at self.now.run.now.plan.now.header.field.p (row self.now.run.now.plan.now.header.field.p self.now.run.now.plan.now.header.t (plan_of self.now.run.now.plan.now.bytes.now).points (point_of (plan_of self.now.run.now.plan.now.bytes.now) self.now.i)) (shared_by masked.now.t masked.now.step masked.now.values.now (drop masked.now.at (numbers masked.now.coins.now)))) (plan_of self.now.run.now.plan.now.bytes.now).points) out.old out.new }
    {
        let dealings = self.run.dealings;
        let weighed = Dealings {
            sums: dealings.sums,
            way: Way::Sum,
            t: dealings.t,
            points: dealings.points,
            rows: dealings.rows,
            weights: matrix.row(self.i - 1),
        };
        let mut pieces = [0u64; 15];
        weighed.weighed_row(masked, &mut pieces);
        out.put_row(&pieces[..self.run.plan.header.n]);
    }

    // The pieces of zeros and of masked products, and those of the truncated share, when the first party's coins begin at number `from`.
    #[tactic(auto, using(crate::proofs::ViewLaws::truncation_pieces))]
    fn put_truncation(&self, matrix: &Matrix, a: usize, b: usize, from: usize, out: &mut Writer)
        requires multiplies { Multiplies self.now.run.now.plan.now.header a b }
        requires rule_value { self.now.run.now.plan.now.header.rule ≡ Truncation }
        requires cutting { Cutting self.now.run.now.dealings.now.sums.field.p self.now.run.now.dealings.now.t self.now.run.now.dealings.now.points.now matrix.now }
        requires from_in_bounds { from + taken_by Truncation self.now.run.now.plan.now.header ≤ length (numbers self.now.run.now.coins.now) }
        ensures { Put (multiply_in Truncation self.now.run.now.plan.now.header (plan_of self.now.run.now.plan.now.bytes.now).points self.now.run.now.table.now (numbers self.now.run.now.coins.now) (point_of (plan_of self.now.run.now.plan.now.bytes.now) self.now.i) a b from) out.old out.new }
    {
        let h = self.run.plan.header;
        let coins = self.run.coins;
        let none = [0u64; 15];
        let zeros = Dealt {
            values: &none[..h.n],
            coins,
            t: h.t + h.t,
            at: from,
            step: 3 * h.t,
        };
        let products = self.run.dealings.masked(a, b, coins, from, self.run.table);
        let masked = Dealt {
            values: &products[..h.n],
            coins,
            t: h.t,
            at: from + (h.t + h.t),
            step: 3 * h.t,
        };
        self.put(&zeros, out);
        self.put(&masked, out);
        self.put_truncated(matrix, &masked, out);
    }

    // The mail of a multiply gate's steps, when the gate's coins begin at number `from`.
    #[tactic(auto, using(crate::proofs::ViewLaws::gate_pieces))]
    fn put_multiply(&self, a: usize, b: usize, from: usize, out: &mut Writer)
        requires multiplies { Multiplies self.now.run.now.plan.now.header a b }
        requires from_in_bounds { from + taken_by self.now.run.now.plan.now.header.rule self.now.run.now.plan.now.header ≤ length (numbers self.now.run.now.coins.now) }
        ensures { Put (multiply_in self.now.run.now.plan.now.header.rule self.now.run.now.plan.now.header (plan_of self.now.run.now.plan.now.bytes.now).points self.now.run.now.table.now (numbers self.now.run.now.coins.now) (point_of (plan_of self.now.run.now.plan.now.bytes.now) self.now.i) a b from) out.old out.new }
    {
        match self.run.matrix {
            None => self.put_products(a, b, from, out),
            Some(matrix) => self.put_truncation(&matrix, a, b, from, out),
        }
    }

    // The pieces of all draws, when the first one is number `next` of the inputs and its coins begin at number `from`.
    #[tactic(auto, using(crate::proofs::ViewLaws::draw_pieces))]
    fn put_draws(&self, next: usize, from: usize, out: &mut Writer)
        requires { from + self.now.run.now.plan.now.header.t * self.now.run.now.plan.now.header.n ≤ length (numbers self.now.run.now.coins.now) }
        ensures { Put (pieces_of self.now.run.now.plan.now.header.field.p (draws_of self.now.run.now.plan.now.header.n (drop next (numbers self.now.run.now.inputs.now))) self.now.run.now.plan.now.header.t (numbers self.now.run.now.coins.now) from self.now.run.now.plan.now.header.t (point_of (plan_of self.now.run.now.plan.now.bytes.now) self.now.i)) out.old out.new }
    {
        let h = self.run.plan.header;
        let draws = run_dealings::draws(h.n, numbers::rest(self.run.inputs, next));
        let dealt = Dealt {
            values: &draws[..h.n],
            coins: self.run.coins,
            t: h.t,
            at: from,
            step: h.t,
        };
        self.put(&dealt, out);
    }

    // What all parties open where their next triples are spent: each one's differences of wires a and b.
    #[tactic(auto, using(crate::proofs::ViewLaws::openings))]
    fn put_openings(&self, a: usize, b: usize, spent: usize, out: &mut Writer)
        requires spends { Spends self.now.run.now.plan.now.header a b }
        requires spending { Spending self.now.run.now.plan.now.header.field.p self.now.run.now.plan.now.header.n 3 spent (numbers self.now.run.now.triples.now) }
        ensures { Put (openings_in self.now.run.now.plan.now.header.field.p self.now.run.now.plan.now.header.n self.now.run.now.table.now (numbers self.now.run.now.triples.now) a b spent) out.old out.new }
    {
        let run = self.run;
        let left = run
            .dealings
            .differences(a, 0, run.triples, spent, run.table);
        let right = run
            .dealings
            .differences(b, 1, run.triples, spent, run.table);
        for j in 0..run.plan.header.n {
            out.put_row(&[left[j], right[j]]);
        }
    }

    // The mail of a gate's steps, when its inputs begin at number `next`, its coins at number `from`, and each party's triple at number `spent`.
    #[tactic(auto, using(crate::proofs::ViewLaws::gate_pieces))]
    fn put_steps(&self, gate: Gate, next: usize, from: usize, spent: usize, out: &mut Writer)
        requires stands { Stands self.now.run.now.plan.now.bytes.now self.now.run.now.plan.now.header.gates gate }
        requires gate_in_bounds { from + length (coin_owners_at (plan_of self.now.run.now.plan.now.bytes.now) gate) ≤ length self.now.run.now.coins.now / width }
        requires spending { Spending self.now.run.now.plan.now.header.field.p self.now.run.now.plan.now.header.n (triples_taken gate) spent (numbers self.now.run.now.triples.now) }
        ensures { Put (pieces_in self.now.run.now.plan.now.header (plan_of self.now.run.now.plan.now.bytes.now).points self.now.run.now.table.now (numbers self.now.run.now.inputs.now) (numbers self.now.run.now.coins.now) (numbers self.now.run.now.triples.now) (point_of (plan_of self.now.run.now.plan.now.bytes.now) self.now.i) gate next from spent) out.old out.new }
    {
        match gate {
            Gate::Multiply(a, b) => self.put_multiply(a, b, from, out),
            Gate::Random => self.put_draws(next, from, out),
            Gate::Spend(a, b) => self.put_openings(a, b, spent, out),
            _ => (),
        }
    }
}

// ---- a party

// A part of what a gate takes of a list: so many numbers from number `at` on.
#[derive(Clone, Copy)]
struct Part {
    at: usize,
    count: usize,
}

const NONE: Part = Part { at: 0, count: 0 };

// A party of a run, whose view is written.
#[derive(Clone, Copy)]
struct Member<'a> {
    run: &'a Run<'a>,
    i: usize,
    ghost among: { (1 ≤ i) × (i ≤ run.now.plan.now.header.n) },
}

impl Member<'_> {
    // The party's of blocks of so many numbers, one for each party.
    fn block(&self, count: usize) -> Part
        requires { count ≤ 42 }
        ensures { record { at : result.at ≡ count * (self.now.i - 1); count : result.count ≡ count } }
    {
        Part {
            at: count * (self.i - 1),
            count,
        }
    }

    // Of the inputs that a gate takes, the party's own: a random wire has a draw of each party.
    #[tactic(auto, using(crate::proofs::ViewLaws::owning))]
    fn own_inputs(&self, gate: Gate) -> Part
        ensures { Owns self.now.i (input_owners_at (plan_of self.now.run.now.plan.now.bytes.now) gate) result.at result.count }
    {
        match gate {
            Gate::Input(party) => if party == self.i {
                Part { at: 0, count: 1 }
            } else {
                NONE
            },
            Gate::Random => self.block(1),
            _ => NONE,
        }
    }

    // Of the coins that a multiply gate takes, the party's own: of its product, or of zero and of its masked product.
    #[tactic(auto, using(crate::proofs::ViewLaws::owning))]
    fn own_multiply(&self) -> Part
        ensures { Owns self.now.i (coin_owners_at (plan_of self.now.run.now.plan.now.bytes.now) (Multiply 0 0)) result.at result.count }
    {
        let t = self.run.plan.header.t;
        match self.run.plan.header.rule {
            Rule::Reduction => if self.i <= t + t + 1 {
                self.block(t)
            } else {
                NONE
            },
            Rule::Truncation => self.block(3 * t),
        }
    }

    // Of the coins that a gate takes, the party's own.
    #[tactic(auto, using(crate::proofs::ViewLaws::owning))]
    fn own_coins(&self, gate: Gate) -> Part
        ensures { Owns self.now.i (coin_owners_at (plan_of self.now.run.now.plan.now.bytes.now) gate) result.at result.count }
    {
        let t = self.run.plan.header.t;
        match gate {
            Gate::Input(party) => if party == self.i {
                Part { at: 0, count: t }
            } else {
                NONE
            },
            Gate::Multiply(_, _) => self.own_multiply(),
            Gate::Random => self.block(t),
            _ => NONE,
        }
    }

    // The party's own of the inputs that a gate takes, which begin at number `next`.
    #[tactic(auto, using(crate::proofs::ViewLaws::own_parts))]
    fn put_inputs(&self, gate: Gate, next: usize, out: &mut Writer)
        requires { next + length (input_owners_at (plan_of self.now.run.now.plan.now.bytes.now) gate) ≤ length self.now.run.now.inputs.now / width }
        ensures { Put (own_of self.now.i (input_owners_at (plan_of self.now.run.now.plan.now.bytes.now) gate) (drop next (numbers self.now.run.now.inputs.now))) out.old out.new }
    {
        let own = self.own_inputs(gate);
        out.put_part(self.run.inputs, next + own.at, own.count);
    }

    // The party's own of the coins that a gate takes, which begin at number `from`.
    #[tactic(auto, using(crate::proofs::ViewLaws::own_parts))]
    fn put_coins(&self, gate: Gate, from: usize, out: &mut Writer)
        requires { from + length (coin_owners_at (plan_of self.now.run.now.plan.now.bytes.now) gate) ≤ length self.now.run.now.coins.now / width }
        ensures { Put (own_of self.now.i (coin_owners_at (plan_of self.now.run.now.plan.now.bytes.now) gate) (drop from (numbers self.now.run.now.coins.now))) out.old out.new }
    {
        let own = self.own_coins(gate);
        out.put_part(self.run.coins, from + own.at, own.count);
    }

    // The party's own inputs.
    #[tactic(auto, using(crate::proofs::ViewLaws::own_gates))]
    fn write_inputs(&self, out: &mut Writer)
        ensures { Put (own_inputs (plan_of self.now.run.now.plan.now.bytes.now) self.now.i (numbers self.now.run.now.inputs.now)) out.old out.new }
    {
        self.run.put_gates(
            |gate, next, _from, _spent, out| self.put_inputs(gate, next, out),
            out,
        );
    }

    // The party's own coins.
    #[tactic(auto, using(crate::proofs::ViewLaws::own_gates))]
    fn write_coins(&self, out: &mut Writer)
        ensures { Put (own_coins (plan_of self.now.run.now.plan.now.bytes.now) self.now.i (numbers self.now.run.now.coins.now)) out.old out.new }
    {
        self.run.put_gates(
            |gate, _next, from, _spent, out| self.put_coins(gate, from, out),
            out,
        );
    }

    // The mail of round 0: the party's shares of all inputs, by the party that gave them.
    #[tactic(auto, using(crate::proofs::ViewLaws::rounding))]
    fn write_first(&self, out: &mut Writer)
        ensures { Put (first_in (plan_of self.now.run.now.plan.now.bytes.now) self.now.run.now.plan.now.header.n self.now.run.now.table.now self.now.i) out.old out.new }
    {
        for j in 0..self.run.plan.header.n {
            self.run.put_inputs_of(j + 1, self.i, out);
        }
    }

    // The mail of the last round: all parties' shares of the party's outs.
    #[tactic(auto, using(crate::proofs::ViewLaws::rounding))]
    fn write_outs(&self, out: &mut Writer)
        ensures { Put (outs_in (plan_of self.now.run.now.plan.now.bytes.now) self.now.run.now.plan.now.header.n self.now.run.now.table.now self.now.i) out.old out.new }
    {
        for j in 0..self.run.plan.header.n {
            self.run.put_outs(self.i, |w| self.run.share(j + 1, w), out);
        }
    }

    // The party's results.
    #[tactic(auto, using(crate::proofs::ViewLaws::resulting))]
    fn write_results(&self, out: &mut Writer)
        ensures { Put (map (opened_in (plan_of self.now.run.now.plan.now.bytes.now) self.now.run.now.plan.now.header self.now.run.now.table.now) (out_wires (plan_of self.now.run.now.plan.now.bytes.now) self.now.i)) out.old out.new }
    {
        self.run.put_outs(self.i, |w| self.run.opening(w), out);
    }

    // The mail of all gates' steps, by the powers of the party's point.
    #[tactic(auto, using(crate::proofs::ViewLaws::stepping))]
    fn put_pieces(&self, powers: &[u64], out: &mut Writer)
        requires { PowerRow self.now.run.now.plan.now.header (point_of (plan_of self.now.run.now.plan.now.bytes.now) self.now.i) powers.now }
        ensures { Put (gathered (pieces_in self.now.run.now.plan.now.header (plan_of self.now.run.now.plan.now.bytes.now).points self.now.run.now.table.now (numbers self.now.run.now.inputs.now) (numbers self.now.run.now.coins.now) (numbers self.now.run.now.triples.now) (point_of (plan_of self.now.run.now.plan.now.bytes.now) self.now.i)) (plan_of self.now.run.now.plan.now.bytes.now) 0 0 0 (plan_of self.now.run.now.plan.now.bytes.now).gates) out.old out.new }
    {
        let pieces = Pieces {
            run: self.run,
            i: self.i,
            powers,
        };
        self.run.put_gates(
            |gate, next, from, spent, out| pieces.put_steps(gate, next, from, spent, out),
            out,
        );
    }

    // The mail of all gates' steps. Truncation has dealings with 2t coins, and takes more powers of the point than the run has.
    #[tactic(auto, using(crate::proofs::ViewLaws::stepping))]
    fn write_steps(&self, out: &mut Writer)
        ensures { Put (gathered (pieces_in self.now.run.now.plan.now.header (plan_of self.now.run.now.plan.now.bytes.now).points self.now.run.now.table.now (numbers self.now.run.now.inputs.now) (numbers self.now.run.now.coins.now) (numbers self.now.run.now.triples.now) (point_of (plan_of self.now.run.now.plan.now.bytes.now) self.now.i)) (plan_of self.now.run.now.plan.now.bytes.now) 0 0 0 (plan_of self.now.run.now.plan.now.bytes.now).gates) out.old out.new }
    {
        let dealings = self.run.dealings;
        let j = self.i - 1;
        match self.run.plan.header.rule {
            Rule::Reduction => self.put_pieces(dealings.power_row(j), out),
            Rule::Truncation => {
                let mut row = [0u64; 16];
                run_dealings::powers(self.run.plan.header.field, dealings.points[j], &mut row);
                self.put_pieces(&row, out);
            }
        }
    }

    // All mail to the party.
    #[tactic(auto, using(crate::proofs::JoinLaws::joining))]
    fn write_mail(&self, out: &mut Writer)
        ensures { Put (mail_in (plan_of self.now.run.now.plan.now.bytes.now) self.now.run.now.plan.now.header self.now.run.now.table.now (numbers self.now.run.now.inputs.now) (numbers self.now.run.now.coins.now) (numbers self.now.run.now.triples.now) self.now.i) out.old out.new }
    {
        self.write_first(out);
        self.write_steps(out);
        self.write_outs(out);
    }

    // The party's view.
    #[tactic(auto, using(crate::proofs::JoinLaws::joining))]
    fn write_view(&self, out: &mut Writer)
        ensures { Put (view_in (plan_of self.now.run.now.plan.now.bytes.now) self.now.run.now.plan.now.header self.now.run.now.table.now (numbers self.now.run.now.inputs.now) (numbers self.now.run.now.coins.now) (numbers self.now.run.now.triples.now) self.now.i) out.old out.new }
    {
        self.write_inputs(out);
        self.write_coins(out);
        self.write_mail(out);
        self.write_results(out);
    }
}

// ---- views

// The views of a set's members, ascending, from the table of shares of the run; the set names no party above n.
#[tactic(auto, using(crate::proofs::JoinLaws::viewing))]
pub fn write_views(
    run: &RunPlan,
    set: u16,
    inputs: &[u8],
    coins: &[u8],
    triples: &[u8],
    table: &[u64],
    out: &mut [u8],
)
    requires given { Given (plan_of run.now.plan.now.bytes.now) inputs.now coins.now triples.now }
    requires table_value { table.now ≡ rows_of (plan_of run.now.plan.now.bytes.now).points (share_table (plan_of run.now.plan.now.bytes.now) (numbers inputs.now) (numbers coins.now) (triples_of (plan_of run.now.plan.now.bytes.now) (numbers triples.now))) }
    requires set_bound { set < 2 ^ run.now.plan.now.header.n }
    requires out_len { length out.old ≡ width * view_count (plan_of run.now.plan.now.bytes.now) (members set) }
    ensures { out.new ≡ bytes_of (flat_map (table_view_of (plan_of run.now.plan.now.bytes.now) (numbers inputs.now) (numbers coins.now) (triples_of (plan_of run.now.plan.now.bytes.now) (numbers triples.now))) (members set)) }
{
    let seen = Run {
        plan: run.plan,
        dealings: &run.dealings,
        matrix: run.matrix,
        inputs,
        coins,
        triples,
        table,
    };
    let mut writer = Writer { out, at: 0 };
    for i in 1..=16 {
        seen.write_member(set, i, &mut writer);
    }
}
