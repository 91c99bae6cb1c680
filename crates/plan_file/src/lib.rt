// A plan file that is written, in a version's layout: the contents, gates, outs and points, and refusals 3 to 6 by what decides them in the file of a
// plan that is made. A write past the end changes nothing.
#![tactic(auto)]

ghost use Rattle.std.specs.Prelude.{◌≡◌, ◌&&◌, cond, eqb, leb, [], ◌∷◌, ◌+◌, ◌*◌, ◌<◌, ◌≤◌, suc, length};
ghost use Rattle.numbers.specs.Tables.{tab};
ghost use Rattle.numbers.specs.Bytes.{bytes_from};
ghost use Rattle.plan.specs.Refusals.{first_of};
ghost use Rattle.plan.specs.File.{magic, layout_for, between};
ghost use Rattle.plan_file.specs.Bodies.{written, bytes_each, open_from, gate_bytes, out_bytes, points_bytes, place_in, out_start, started, counted, contents, file_size, version_for, content_checks, field_limit};

use plan::{Gate, MAGIC, Output, Refusal};

// ---- refusals 3 to 6

#[tactic(auto, using(crate::proofs::Writing::checking))]
fn counts_ok(gates: usize, outs: usize) -> bool
    ensures { result ≡ (between 1 1024 gates && leb outs 64) }
{
    plan_reading::gates_fit(gates) && plan_reading::outs_fit(outs)
}

#[tactic(auto, using(crate::proofs::Writing::checking))]
pub fn check(n: u32, t: u32, p: u32, gates: usize, outs: usize) -> Result<(), Refusal>
    ensures { result ≡ first_of (content_checks n t p gates outs) }
{
    if !plan_reading::parties_ok(n as usize) {
        return Err(Refusal::Parties);
    }
    if !plan_reading::threshold_ok(n as usize, t as usize) {
        return Err(Refusal::Threshold);
    }
    // As it is: `.is_none()` was tried. The two ends after it were left open by a lemma on what it answers; the pattern gives them the field itself.
    let Some(_) = plan_reading::field_above(n as usize, p) else {
        return Err(Refusal::Modulus);
    };
    if !counts_ok(gates, outs) {
        return Err(Refusal::Layout);
    }
    Ok(())
}

// ---- the version, and what stands where in it
// As it is: the bounds on gates, outs and n stand where they are used. Each function takes other ones of the version, n, gates and outs, so a struct
// of these four would be made for one or two of its fields.

// The version of a plan that is made.
// As it is: a version is the file's byte, as it is in `plan::layout_for`, which takes any number; an enum would take fewer.
#[tactic(auto, using(crate::proofs::Writing::sizing))]
pub fn version_for(p: u32) -> usize
    ensures { result ≡ version_for p }
{
    if p < 65536 { 1 } else { 3 }
}

// Where gate g stands.
#[tactic(auto, using(crate::proofs::Writing::sizing))]
fn place_in(version: usize, g: usize) -> usize
    requires { g ≤ 1024 }
    ensures { record { eq : result ≡ place_in version g; high : result ≤ 10272 } }
{
    let l = plan::layout_for(version);
    l.head + (2 + 2 * l.field) * g
}

// Where out o stands after so many gates.
#[tactic(auto, using(crate::proofs::Writing::sizing))]
pub fn out_start(version: usize, gates: usize, o: usize) -> usize
    requires { record { gates : gates ≤ 1024; o : o ≤ 64 } }
    ensures { record { eq : result ≡ out_start version gates o; high : result ≤ 10464 } }
{
    place_in(version, gates) + 3 * o
}

// The bytes of a file.
#[tactic(auto, using(crate::proofs::Writing::sizing))]
pub fn file_size(version: usize, n: usize, gates: usize, outs: usize) -> usize
    requires { record { n : n ≤ 15; gates : gates ≤ 1024; outs : outs ≤ 64 } }
    ensures { record { eq : result ≡ file_size version n gates outs; few : result ≤ 10524 } }
{
    out_start(version, gates, outs) + plan::layout_for(version).point * n
}

// ---- bytes

// Where there is room for all, their number is a constant in each caller, and no function is called to copy them.
#[inline(always)]
#[tactic(auto, using(crate::proofs::Writing::writing))]
fn put(out: &mut [u8], at: usize, bytes: &[u8])
    ensures { out.new ≡ written out.old at bytes.now }
{
    if at < out.len() {
        if bytes.len() <= out.len() - at {
            out[at..at + bytes.len()].copy_from_slice(bytes);
        } else {
            put_front(out, at, bytes);
        }
    }
}

// The same where the list ends in them.
#[inline(always)]
#[tactic(auto, using(crate::proofs::Writing::writing))]
fn put_front(out: &mut [u8], at: usize, bytes: &[u8])
    requires { at < length out.old }
    ensures { out.new ≡ written out.old at bytes.now }
{
    let room = bytes.len().min(out.len() - at);
    out[at..at + room].copy_from_slice(&bytes[..room]);
}

// The low bytes of a number.
// As it is: the widths that a layout has are told apart, so that each is a constant.
#[inline(always)]
#[tactic(auto, using(crate::proofs::Writing::writing))]
fn put_number(out: &mut [u8], at: usize, width: usize, v: usize)
    requires { width ≤ 4 }
    ensures { out.new ≡ written out.old at (bytes_from width v) }
{
    let bytes = v.to_le_bytes();
    match width {
        2 => put(out, at, &bytes[..2]),
        4 => put(out, at, &bytes[..4]),
        _ => put(out, at, &bytes[..width]),
    }
}

// ---- the contents

// Bytes 0 to 7: the letters, the version, n and t.
#[tactic(auto, using(crate::proofs::Writing::writing))]
fn put_start(out: &mut [u8], version: usize, n: u32, t: u32)
    requires { record { known : version < 256; n : n < 256; t : t < 256 } }
    ensures { out.new ≡ written out.old 0 (started version n t) }
{
    put(out, 0, &MAGIC);
    put(out, 4, &[version as u8, n as u8, t as u8, 0]);
}

// Field k of the contents, a number as in `plan::field`.
#[tactic(auto, using(crate::proofs::Writing::writing))]
fn put_field(out: &mut [u8], version: usize, k: usize, v: usize)
    requires { k < 6 }
    ensures { out.new ≡ written out.old (8 + (layout_for version).field * k) (bytes_from (layout_for version).field v) }
{
    let l = plan::layout_for(version);
    put_number(out, 8 + l.field * k, l.field, v);
}

// Fields k and k + 1.
#[tactic(auto, using(crate::proofs::Writing::writing))]
fn put_offset(out: &mut [u8], version: usize, k: usize, at: usize, count: usize)
    requires { k < 5 }
    ensures { out.new ≡ written out.old (8 + (layout_for version).field * k) (bytes_each (layout_for version).field (at ∷ count ∷ [])) }
{
    put_field(out, version, k, at);
    put_field(out, version, k + 1, count);
}

// The points' offset, in a version that has points.
// As it is: `out` and the version stand in each function here. A struct of both would hold the `&mut`: each clause, here and where a plan is written,
// would say `self.new.out.now` for `out.new`, and that the version and the lent list are the same as before.
#[tactic(auto, using(crate::proofs::Writing::writing))]
fn put_points_offset(out: &mut [u8], version: usize, at: usize)
    ensures { out.new ≡ written out.old (8 + (layout_for version).field * 5) (bytes_each (layout_for version).field (cond (eqb (layout_for version).point 0) [] (at ∷ []))) }
{
    let l = plan::layout_for(version);
    if l.point != 0 {
        put_field(out, version, 5, at);
    }
}

// The offsets and counts, after p.
// As it is: buffer, version, gates and outs are four parameters here and in put_contents alone. A struct of version, gates and outs would be made
// by each caller of file_size, out_start and put_out, of which the last two take no outs.
#[tactic(auto, using(crate::proofs::Writing::writing))]
fn put_counts(out: &mut [u8], version: usize, gates: usize, outs: usize)
    requires { record { gates : gates ≤ 1024; outs : outs ≤ 64 } }
    ensures { out.new ≡ written out.old (8 + (layout_for version).field) (counted version gates outs) }
{
    put_offset(out, version, 1, place_in(version, 0), gates);
    put_offset(out, version, 3, out_start(version, gates, 0), outs);
    put_points_offset(out, version, out_start(version, gates, outs));
}

#[tactic(auto, using(crate::proofs::Writing::writing))]
pub fn put_contents(
    out: &mut [u8],
    version: usize,
    n: u32,
    t: u32,
    p: u32,
    gates: usize,
    outs: usize,
)
    requires { record { known : version < 256; n : n < 256; t : t < 256; fits : p < field_limit version; gates : gates ≤ 1024; outs : outs ≤ 64 } }
    ensures { out.new ≡ written out.old 0 (contents version n t p gates outs) }
{
    put_start(out, version, n, t);
    put_field(out, version, 0, p as usize);
    put_counts(out, version, gates, outs);
}

// ---- gates, outs and points

// A gate by its kind, a and b.
#[tactic(auto, using(crate::proofs::Writing::writing))]
fn put_fields(out: &mut [u8], version: usize, g: usize, kind: u8, a: usize, b: usize)
    ensures { out.new ≡ written out.old (place_in version g) (kind ∷ 0 ∷ bytes_each (layout_for version).field (a ∷ b ∷ [])) }
{
    let l = plan::layout_for(version);
    let size = 2 + 2 * l.field;
    // a gate has six bytes or more
    if out.len() / 6 < g {
        return;
    }
    let at = l.head + size * g;
    put(out, at, &[kind, 0]);
    put_number(out, at + 2, l.field, a);
    put_number(out, at + 2 + l.field, l.field, b);
}

// Gate g.
// As it is: the kinds are numbers since they are the bytes that are written.
#[tactic(auto, unfolding(crate::specs::Bodies::gate_bytes, plan::specs::Plans::kind_of, plan::specs::Plans::operands_of))]
pub fn put_gate(out: &mut [u8], version: usize, g: usize, gate: Gate)
    ensures { out.new ≡ written out.old (place_in version g) (gate_bytes version gate) }
{
    match gate {
        Gate::Input(party) => put_fields(out, version, g, 1, party, 0),
        Gate::Add(a, b) => put_fields(out, version, g, 2, a, b),
        Gate::Scale(a, c) => put_fields(out, version, g, 3, a, c as usize),
        Gate::Offset(a, c) => put_fields(out, version, g, 4, a, c as usize),
        Gate::Multiply(a, b) => put_fields(out, version, g, 5, a, b),
        Gate::Random => put_fields(out, version, g, 6, 0, 0),
        Gate::Spend(a, b) => put_fields(out, version, g, 7, a, b),
    }
}

// Out o, after so many gates.
#[tactic(auto, using(crate::proofs::Writing::writing))]
pub fn put_out(out: &mut [u8], version: usize, gates: usize, o: usize, x: Output)
    requires { record { party : x.party < 256; few : gates ≤ 1024; place : o ≤ 64 } }
    ensures { out.new ≡ written out.old (out_start version gates o) (out_bytes x) }
{
    let at = out_start(version, gates, o);
    put(out, at, &[x.party as u8]);
    put_number(out, at + 1, 2, x.wire);
}

// The point of party i + 1, from where the points stand on.
// As it is: `put_field` with another place and width; one function of both would take these two, which are all that either works out.
#[tactic(auto, using(crate::proofs::Writing::writing))]
pub fn put_point(out: &mut [u8], version: usize, at: usize, i: usize, x: u64)
    requires { record { at : at ≤ 10464; i : i < 256 } }
    ensures { out.new ≡ written out.old (at + (layout_for version).point * i) (bytes_from (layout_for version).point x) }
{
    let l = plan::layout_for(version);
    put_number(out, at + l.point * i, l.point, x as usize);
}

// Points 1 to n.
#[tactic(auto, using(crate::proofs::Writing::pointing))]
pub fn put_first_points(out: &mut [u8], version: usize, at: usize, n: usize)
    requires { record { at : at ≤ 10464; few : n ≤ 15 } }
    ensures { out.new ≡ written out.old at (points_bytes version (tab suc n)) }
{
    for i in 0..n {
        put_point(out, version, at, i, i as u64 + 1);
    }
}
