// A party's results: its own outs, opened from the mail of the last round.
#![tactic(auto)]

ghost use Rattle.std.specs.Prelude.{◌≡◌, true, ◌+◌, ◌*◌, ◌/◌, ◌<◌, ◌≤◌, length, take};
ghost use Rattle.numbers.specs.Bytes.{width, numbers, all_below};
ghost use Rattle.field.specs.Field.{Is};
ghost use Rattle.sharing_laws.specs.Interp.{dot};
ghost use Rattle.plan.specs.File.{plan_of};
ghost use Rattle.seat_messages.specs.Messages.{from_each};
ghost use Rattle.seat_results.specs.Opened.{Openings, opened_by, opened_outs};

use plan::{Header, PlanFile};

// Of mail in which each of n parties sent `own` numbers, number j of each.
// As it is: an array, since there is no heap, and without a count, since the caller gives n.
#[tactic(auto, using(crate::proofs::ResultLaws::copying))]
pub fn from_each(n: usize, own: usize, j: usize, mail: &[u8]) -> [u64; 15]
    requires n_bound { n ≤ 15 }
    requires own_bound { own ≤ 65536 }
    requires j_lt_own { j < own }
    ensures { take n result ≡ from_each n own j (numbers mail.now) }
{
    let mut shares = [0u64; 15];
    for i in 0..n {
        shares[i] = numbers::read(mail, own * i + j);
    }
    shares
}

// The opening of own out j by the weights at 0.
#[tactic(auto, using(crate::proofs::ResultLaws::opening_one))]
fn opening(h: Header, weights: &[u64], own: usize, j: usize, mail: &[u8]) -> u64
    requires openings { Openings h weights.now mail.now }
    requires own_bound { own ≤ 65536 }
    requires j_lt_own { j < own }
    ensures { Is h.field.p (dot h.field.p weights.now (from_each h.n own j (numbers mail.now))) result }
{
    let shares = from_each(h.n, own, j, mail);
    sharing::dot(h.field, weights, &shares[..h.n])
}

// Writes the openings of all own outs, as many as there is room for.
#[tactic(auto, using(crate::proofs::ResultLaws::opening_all))]
fn open_outs(h: Header, weights: &[u64], mail: &[u8], out: &mut [u8])
    requires openings { Openings h weights.now mail.now }
    requires out_len_bound { length out.old ≤ width * 65536 }
    ensures { numbers out.new ≡ opened_by h.field.p weights.now h.n (length out.old / width) (numbers mail.now) }
{
    let own = out.len() / numbers::WIDTH;
    for j in 0..own {
        numbers::write(out, j, opening(h, weights, own, j, mail));
    }
}

// Writes the party's results: each own out opened from the shares at the first t + 1 points.
#[tactic(auto, using(crate::proofs::ResultLaws::resulting))]
pub fn results(plan: &PlanFile, mail: &[u8], out: &mut [u8])
    requires mail_value { all_below (plan_of plan.now.bytes.now).p (numbers mail.now) ≡ true }
    requires out_len_bound { length out.old ≤ width * 65536 }
    ensures { numbers out.new ≡ opened_outs (plan_of plan.now.bytes.now) (length out.old / width) (numbers mail.now) }
{
    let points = seat_messages::points_of(plan);
    let mut weights = [0u64; 15];
    let top = plan.header.t + 1;
    sharing::weights(plan.header.field, 0, &points[..top], &mut weights[..top]);
    open_outs(plan.header, &weights[..top], mail, out);
}
