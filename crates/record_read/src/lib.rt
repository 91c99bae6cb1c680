// The two readers of a run record. Numbers are shown as stored: no share is checked.
#![tactic(auto)]

ghost use Rattle.std.specs.Prelude.{◌≡◌, ◌&&◌, ◌+◌, ◌-◌, ◌*◌, ◌≤◌, eqb, length, take, drop};
ghost use Rattle.numbers.specs.Bytes.{number_at};
ghost use Rattle.plan.specs.Refusals.{first_of, need};
ghost use Rattle.plan.specs.declared.Refusal.TheVariants.{Record};
ghost use Rattle.plan.specs.File.{plan_of};
ghost use Rattle.record_laws.specs.Records.{record_ok, bench_read_answer, bench_read_after, plant_read_answer, plant_read_after};
ghost use Rattle.record_read.specs.SeatChecks.{seat_checks, Listed};

use plan::{PlanFile, Refusal};

// Whether the contents of party k + 1 are this offset and this length.
#[tactic(auto, using(crate::proofs::Contents::contents))]
fn content_is(file: &[u8], k: usize, at: usize, size: usize) -> bool
    requires { 8 * k + 8 ≤ length file.now }
    ensures { result ≡ (eqb (number_at 4 file.now (8 * k)) at && eqb (number_at 4 file.now (8 * k + 4)) size) }
{
    let offset = numbers::read(file, 2 * k) as usize;
    let bytes = numbers::read(file, 2 * k + 1) as usize;
    offset == at && bytes == size
}

// Refusal 28: the contents tile the file, parties ascending, and each body has the length that the plan gives.
#[tactic(auto, using(crate::proofs::Contents::tiling))]
fn check_record(plan: &PlanFile, file: &[u8]) -> Result<(), Refusal>
    ensures { result ≡ need Record (record_ok (plan_of plan.now.bytes.now) file.now) }
{
    let mut at = 8 * plan.header.n;
    if file.len() < at {
        return Err(Refusal::Record);
    }
    for k in 0..plan.header.n {
        let size = record_write::body_size(plan, k + 1);
        if !content_is(file, k, at, size) {
            return Err(Refusal::Record);
        }
        at += size;
    }
    if file.len() != at {
        return Err(Refusal::Record);
    }
    Ok(())
}

// The offset that the contents give for the body of party i.
#[tactic(auto, using(crate::proofs::Contents::contents))]
fn body_start(file: &[u8], i: usize) -> usize
    requires { Listed file.now i }
    ensures { result ≡ number_at 4 file.now (8 * (i - 1)) }
{
    numbers::read(file, 2 * i - 2) as usize
}

// Copies the bytes from an offset on, as many as there is room for.
// As it is: byte by byte. `copy_from_slice` of lists whose lengths are not known calls memmove, and of the C library a program for C has only to bring
// memcpy and memset.
#[tactic(auto, using(crate::proofs::Contents::copying))]
fn copy(file: &[u8], at: usize, out: &mut [u8])
    requires { at + length out.old ≤ length file.now }
    ensures { out.new ≡ take (length out.old) (drop at file.now) }
{
    for (i, byte) in out.iter_mut().enumerate() {
        *byte = file[at + i];
    }
}

// The bench's reader of a plan that passes.
#[tactic(auto, using(crate::proofs::Readers::reading_all))]
fn read_all_on(plan: &PlanFile, file: &[u8], out: &mut [u8]) -> Result<(), Refusal>
    ensures answer { result ≡ bench_read_answer plan.now.bytes.now file.now (length out.old) }
    ensures out { out.new ≡ bench_read_after plan.now.bytes.now file.now out.old }
{
    check_record(plan, file)?;
    let at = 8 * plan.header.n;
    if out.len() != file.len() - at {
        return Err(Refusal::BufferLength);
    }
    copy(file, at, out);
    Ok(())
}

// The bench's reader: fills `out` with all bodies, in stored order; or answers the first refusal of the plan, 28 or 19, and then `out` is not written.
#[tactic(auto, using(crate::proofs::Readers::reading_all))]
pub fn read_all(bytes: &[u8], file: &[u8], out: &mut [u8]) -> Result<(), Refusal>
    ensures answer { result ≡ bench_read_answer bytes.now file.now (length out.old) }
    ensures out { out.new ≡ bench_read_after bytes.now file.now out.old }
{
    let plan = plan_reading::read(bytes)?;
    read_all_on(&plan, file, out)
}

// Refusals 28, 9 and 19 of a plant's reader; `room` is the length of the buffer to be written.
#[tactic(auto, using(crate::proofs::Readers::checking_seat))]
fn check_seat(plan: &PlanFile, file: &[u8], i: usize, room: usize) -> Result<(), Refusal>
    ensures { result ≡ first_of (seat_checks (plan_of plan.now.bytes.now) file.now i room) }
{
    let seated = (1..=plan.header.n).contains(&i);
    check_record(plan, file)?;
    if !seated {
        return Err(Refusal::Coalition);
    }
    if room != record_write::body_size(plan, i) {
        return Err(Refusal::BufferLength);
    }
    Ok(())
}

// A plant's reader of a plan that passes.
#[tactic(auto, using(crate::proofs::Readers::reading_seat))]
fn read_seat_on(plan: &PlanFile, file: &[u8], i: usize, out: &mut [u8]) -> Result<(), Refusal>
    ensures answer { result ≡ plant_read_answer plan.now.bytes.now file.now i (length out.old) }
    ensures out { out.new ≡ plant_read_after plan.now.bytes.now file.now i out.old }
{
    check_seat(plan, file, i, out.len())?;
    copy(file, body_start(file, i), out);
    Ok(())
}

// A plant's reader: fills `out` with the body of the party of this seat number; or answers the first refusal of the plan, 28, 9 or 19, and then
// `out` is not written. Of the record's bodies no other is read: what it answers and writes depends on the contents, this body and the length.
// As it is: what it shares with `read_all` is the line that reads the plan.
#[tactic(auto, using(crate::proofs::Readers::reading_seat))]
pub fn read_seat(bytes: &[u8], file: &[u8], seat: u16, out: &mut [u8]) -> Result<(), Refusal>
    ensures answer { result ≡ plant_read_answer bytes.now file.now seat (length out.old) }
    ensures out { out.new ≡ plant_read_after bytes.now file.now seat out.old }
{
    let plan = plan_reading::read(bytes)?;
    read_seat_on(&plan, file, seat as usize, out)
}
