// The table of shares of a run: a row for each wire, in it every party's share. Gates are worked one after the other, all parties at once.
#![tactic(auto)]

ghost use Rattle.std.specs.Prelude.{ℕ, List, ◌≡◌, true, [], ◌+◌, ◌-◌, ◌*◌, ◌/◌, ◌<◌, ◌≤◌, length, take, drop, get_or};
ghost use Rattle.numbers.specs.Tables.{tab};
ghost use Rattle.numbers.specs.Bytes.{numbers, all_below};
ghost use Rattle.field.specs.Mod.{add, mul};
ghost use Rattle.plan.specs.File.{plan_of, gate_at};
ghost use Rattle.run_protocol.specs.Shares.{triples_taken, share_table};
ghost use Rattle.run_protocol.specs.Tables.{Tabled};
ghost use Rattle.run_dealings.specs.Rows.{rows_of, Fitted, Ruling, Standing, Taking, Spending, Worked, Stepped, Given};

use plan::{Gate, PlanFile, Rule};
use run_dealings::{Dealings, Way, fill_row};
use sharing_matrix::Matrix;

// A plan with what its dealings are worked with.
#[derive(Clone, Copy)]
pub struct RunPlan<'a> {
    pub plan: &'a PlanFile<'a>,
    pub dealings: Dealings<'a>,
    pub matrix: Option<Matrix<'a>>,
    pub ghost fitted: { Fitted plan.now.bytes.now plan.now.header dealings.sums.field.p dealings.t dealings.points.now dealings.weights.now },
    pub ghost ruled: { Ruling plan.now.header.rule dealings.sums.field.p dealings.t dealings.points.now matrix },
}

// The matrix that a plan's rule takes, its rows written where they are lent.
#[tactic(auto, using(crate::proofs::StepLaws::placing))]
fn matrix_for<'a>(plan: &PlanFile, points: &'a [u64], room: &'a mut [u64]) -> Option<Matrix<'a>>
    requires points_value { points.now ≡ (plan_of plan.now.bytes.now).points }
    requires room_in_bounds { 225 ≤ length room.old }
    ensures { Ruling plan.now.header.rule plan.now.header.field.p plan.now.header.t points.now result }
{
    let h = plan.header;
    let used = h.n * h.n;
    match h.rule {
        Rule::Reduction => None,
        Rule::Truncation => Some(Matrix::new(h.field, h.t, points, &mut room[..used])),
    }
}

impl<'a> RunPlan<'a> {
    // Rows, weights and the matrix are written where they are lent.
    #[tactic(auto, using(crate::proofs::StepLaws::placing))]
    pub fn new(
        plan: &'a PlanFile<'a>,
        way: Way,
        points: &'a [u64],
        rows: &'a mut [u64],
        weights: &'a mut [u64],
        matrix: &'a mut [u64],
    ) -> Self
        requires points_value { points.now ≡ (plan_of plan.now.bytes.now).points }
        requires rows_in_bounds { 240 ≤ length rows.old }
        requires weights_in_bounds { 15 ≤ length weights.old }
        requires matrix_in_bounds { 225 ≤ length matrix.old }
        ensures { result.plan.now ≡ plan.now }
    {
        let h = plan.header;
        let dealings = Dealings::new(way, h.field, h.t, points, rows, weights);
        let matrix = matrix_for(plan, points, matrix);
        RunPlan {
            plan,
            dealings,
            matrix,
        }
    }

    // The row of gate g's wire, where it is lent, from the rows of the wires below it.
    // As it is: inputs, coins, triples and table go together from `fill` on, but two runs may be worked by one `RunPlan`, each with its own lists, and the table is
    // written; a struct of them and of their places would be made for each gate.
    #[tactic(auto, using(crate::proofs::GateLaws::working))]
    fn gate_row(
        &self,
        gate: Gate,
        g: usize,
        inputs: &[u8],
        i: usize,
        coins: &[u8],
        at: usize,
        triples: &[u8],
        spent: usize,
        table: &[u64],
        row: &mut [u64],
    )
        requires g_lt_gates { g < self.now.plan.now.header.gates }
        requires gate_value { gate ≡ gate_at self.now.plan.now.bytes.now g }
        requires inputs_value { all_below self.now.plan.now.header.field.p (numbers inputs.now) ≡ true }
        requires taking { Taking (plan_of self.now.plan.now.bytes.now) (gate_at self.now.plan.now.bytes.now g) at (numbers coins.now) }
        requires spending { Spending self.now.plan.now.header.field.p self.now.plan.now.header.n (triples_taken (gate_at self.now.plan.now.bytes.now g)) spent (numbers triples.now) }
        requires standing { Standing self.now.plan.now.header.field.p self.now.plan.now.header.n g table.now }
        requires row_len { length row.old ≡ self.now.plan.now.header.n }
        ensures { Worked (plan_of self.now.plan.now.bytes.now) self.now.plan.now.header.n (gate_at self.now.plan.now.bytes.now g) g (drop i (numbers inputs.now)) (drop at (numbers coins.now)) (numbers triples.now) spent table.now row.new }
    {
        let f = self.plan.header.field;
        let n = self.plan.header.n;
        let dealings = &self.dealings;
        match gate {
            Gate::Input(_) => dealings.input_row(numbers::read(inputs, i), coins, at, row),
            Gate::Add(a, b) => fill_row(row, |j| f.add(table[n * a + j], table[n * b + j])),
            Gate::Scale(a, c) => fill_row(row, |j| f.mul(table[n * a + j], c)),
            Gate::Offset(a, c) => fill_row(row, |j| f.add(table[n * a + j], c)),
            Gate::Multiply(a, b) => match &self.matrix {
                None => dealings.multiply_row(a, b, coins, at, table, row),
                Some(matrix) => dealings.truncated_row(matrix, a, b, coins, at, table, row),
            },
            Gate::Random => dealings.random_row(numbers::rest(inputs, i), coins, at, row),
            Gate::Spend(a, b) => dealings.spent_row(a, b, triples, spent, table, row),
        }
    }

    // Works gate g for all parties: sets the row of its wire, from the rows of the wires below it. Its inputs stand from place i on, its coins from
    // place `at` on, and `spent` numbers of each party's triples are spent.
    #[tactic(auto, using(crate::proofs::FillLaws::stepping))]
    pub fn step(
        &self,
        gate: Gate,
        g: usize,
        inputs: &[u8],
        i: usize,
        coins: &[u8],
        at: usize,
        triples: &[u8],
        spent: usize,
        table: &mut [u64],
    )
        requires g_lt_gates { g < self.now.plan.now.header.gates }
        requires gate_value { gate ≡ gate_at self.now.plan.now.bytes.now g }
        requires inputs_value { all_below self.now.plan.now.header.field.p (numbers inputs.now) ≡ true }
        requires taking { Taking (plan_of self.now.plan.now.bytes.now) (gate_at self.now.plan.now.bytes.now g) at (numbers coins.now) }
        requires spending { Spending self.now.plan.now.header.field.p self.now.plan.now.header.n (triples_taken (gate_at self.now.plan.now.bytes.now g)) spent (numbers triples.now) }
        requires standing { Standing self.now.plan.now.header.field.p self.now.plan.now.header.n g table.old }
        requires gates_in_bounds { self.now.plan.now.header.n * self.now.plan.now.header.gates ≤ length table.old }
        ensures { Stepped (plan_of self.now.plan.now.bytes.now) self.now.plan.now.header.n (gate_at self.now.plan.now.bytes.now g) g (drop i (numbers inputs.now)) (drop at (numbers coins.now)) (numbers triples.now) spent table.old table.new }
    {
        let n = self.plan.header.n;
        let (below, rest) = table.split_at_mut(n * g);
        self.gate_row(
            gate,
            g,
            inputs,
            i,
            coins,
            at,
            triples,
            spent,
            below,
            &mut rest[..n],
        );
    }

    // The table of a run: every party's share of every wire, gate by gate, in front of what the table holds beyond. It is the table for all functions that
    // have the lent triples at the points.
    // As it is: inputs, coins, triples and table go on one by one, as in step. A struct of the lists would leave the table beside it, a `&mut`, and each clause
    // that step requires speaks of one of the four.
    #[tactic(auto, using(crate::proofs::FillLaws::filling_table))]
    pub fn fill(&self, inputs: &[u8], coins: &[u8], triples: &[u8], table: &mut [u64])
        requires given { Given (plan_of self.now.plan.now.bytes.now) inputs.now coins.now triples.now }
        requires gates_in_bounds { self.now.plan.now.header.n * self.now.plan.now.header.gates ≤ length table.old }
        ensures table_after { (tf : List (ℕ → ℕ)) → Tabled (plan_of self.now.plan.now.bytes.now) (numbers triples.now) tf → take (self.now.plan.now.header.n * self.now.plan.now.header.gates) table.new ≡ rows_of (plan_of self.now.plan.now.bytes.now).points (share_table (plan_of self.now.plan.now.bytes.now) (numbers inputs.now) (numbers coins.now) tf) }
        ensures table_unchanged { drop (self.now.plan.now.header.n * self.now.plan.now.header.gates) table.new ≡ drop (self.now.plan.now.header.n * self.now.plan.now.header.gates) table.old }
    {
        let mut i: usize = 0;
        let mut at: usize = 0;
        let mut spent: usize = 0;
        let gates = self.plan.gates();
        for g in 0..self.plan.header.gates {
            let gate = gates.gate(g);
            self.step(gate, g, inputs, i, coins, at, triples, spent, table);
            i += run_ideal::inputs_taken(self.plan, gate);
            at += run_dealings::coins_taken(self.plan, gate);
            spent += run_dealings::triples_taken(gate);
        }
    }
}
