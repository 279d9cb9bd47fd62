ghost use Rattle.std.specs.Prelude.{◌≡◌, ◌<◌, ◌≤◌, ◌+◌, ◌-◌, ◌*◌, ◌^◌, min, [], ℕ, List, length, take, drop, IfOk, OnOk, MatchOption};
ghost use Rattle.std.specs.Int.{w64, from_be_bytes};
ghost use Rattle.sc_outside.specs.Causes.{HasCause};
ghost use Rattle.sc_journal.specs.Disk.{Observed};
ghost use Rattle.sc_journal.specs.Opening.{Faulted};
ghost use Rattle.sc_journal.specs.Reading.{IsGate, IsRead, IsTaken};
ghost use Rattle.sc_journal.specs.declared.reading.Gate.TheVariants.{Open};

use crate::sealed::LENGTH_BYTES;
use crate::{Disk, OpenFault, TakeRecords};
use sc_outside::Failed;
use std::alloc::Global;

/// The bytes of a gate and a length.
const FRONT_BYTES: usize = 9;

/// The records that a file begins with.
#[derive(Clone, Copy, Debug)]
pub(crate) struct Found {
    /// The number of them.
    pub count: u64,
    /// The place of the gate behind them.
    pub place: u64,
    /// That gate isn't open.
    pub whole: bool,
}

/// What stands at a gate of a file.
#[derive(Clone, Copy, Debug)]
pub(crate) enum Gate {
    /// The gate isn't open.
    Shut,
    /// The gate is open, and behind it stands no whole record with a gate after it.
    Broken,
    /// The gate is open, and behind it stands a record with a payload of so many bytes.
    Open { size: u64 },
}

/// The number of eight bytes that begins here.
fn number_at(bytes: &[u8]) -> Option<u64>
    ensures { MatchOption result (length bytes.now < 8) (λ n. (8 ≤ length bytes.now) × (n ≡ from_be_bytes w64 (take 8 bytes.now))) }
{
    if bytes.len() < LENGTH_BYTES {
        return None;
    }
    let (front, _) = bytes.split_at(LENGTH_BYTES);
    Some(u64::from_be_bytes([
        front[0], front[1], front[2], front[3], front[4], front[5], front[6], front[7],
    ]))
}

/// What stands at a gate from which on a file has `left` bytes, of which these are the first nine or all.
fn gate_of(front: &[u8], left: u64) -> Gate
    ensures gate { (rest : List ℕ) → front.now ≡ take 9 rest → left ≡ length rest → 0 < left → IsGate result rest }
    ensures within { (size : ℕ) → result ≡ Open size → size + 9 < left }
{
    let [gate, behind @ ..] = front else {
        return Gate::Shut;
    };
    if *gate != 1 {
        return Gate::Shut;
    }
    match number_at(behind) {
        Some(size) if size < left.saturating_sub(FRONT_BYTES as u64) => Gate::Open { size },
        _ => Gate::Broken,
    }
}

/// Reads from a place on until the buffer is full, and answers how many bytes. They are fewer only where the disk has no more.
fn fill<D: Disk>(disk: &mut D, at: u64, buf: &mut [u8]) -> Result<usize, Failed>
    requires { at + length buf.old < 2 ^ 64 }
    ensures length { length buf.new ≡ length buf.old }
    ensures count { IfOk result (λ n. n ≤ length buf.new) }
    ensures bytes { D.tells disk.new → IfOk result (λ n. take n buf.new ≡ take n (drop at (D.reads disk.old))) }
    ensures all { D.tells disk.new → IfOk result (λ n. n ≡ min (length buf.new) (length (D.reads disk.old) - at)) }
    ensures observed { Observed D.tells D.reads D.may_leave D.clock D.left_since disk.old disk.new }
    ensures cause { HasCause (D.faults disk.old) (D.faults disk.new) result }
{
    let mut filled = 0;
    'filling: while filled < buf.len() {
        let count = disk.read_at(at + filled as u64, &mut buf[filled..])?;
        if count == 0 {
            return Ok(filled);
        }
        filled += count;
    }
    Ok(filled)
}

/// Reads what stands at the gate at this place of a file of `end` bytes.
fn read_gate<D: Disk>(disk: &mut D, place: u64, end: u64) -> Result<Gate, Failed>
    requires { place < end }
    ensures gate { D.tells disk.new → end ≡ length (D.reads disk.old) → IfOk result (λ gate. IsGate gate (drop place (D.reads disk.old))) }
    ensures within { IfOk result (λ gate. (size : ℕ) → gate ≡ Open size → place + 9 + size < end) }
    ensures observed { Observed D.tells D.reads D.may_leave D.clock D.left_since disk.old disk.new }
    ensures cause { HasCause (D.faults disk.old) (D.faults disk.new) result }
{
    let left = end - place;
    let mut front = [0; FRONT_BYTES];
    let wanted = left.min(FRONT_BYTES as u64) as usize;
    let count = fill(disk, place, &mut front[..wanted])?;
    Ok(gate_of(&front[..count], left))
}

/// Reads what stands at the gate at this place of a file of `end` bytes, and the payload of its record if there is one.
fn read_record<D: Disk>(
    disk: &mut D,
    place: u64,
    end: u64,
    payload: &mut Vec<u8>,
) -> Result<Gate, OpenFault>
    requires { place < end }
    ensures gate { D.tells disk.new → end ≡ length (D.reads disk.old) → IfOk result (λ gate. IsRead gate payload.new.items (drop place (D.reads disk.old))) }
    ensures size { IfOk result (λ gate. (size : ℕ) → gate ≡ Open size → size ≡ length payload.new.items) }
    ensures within { IfOk result (λ gate. (size : ℕ) → gate ≡ Open size → place + 9 + size < end) }
    ensures observed { Observed D.tells D.reads D.may_leave D.clock D.left_since disk.old disk.new }
    ensures cause { Faulted result (D.faults disk.old) (D.faults disk.new) }
{
    let gate = read_gate(disk, place, end)?;
    let Gate::Open { size } = gate else {
        return Ok(gate);
    };
    payload.clear();
    payload.resize(size as usize, 0)?;
    let count = fill(disk, place + FRONT_BYTES as u64, payload.as_mut_slice())?;
    if count < payload.len() {
        return Ok(Gate::Broken);
    }
    Ok(gate)
}

/// Reads a file of `end` bytes record by record, up to the first gate that isn't open or has no whole record behind it, and
/// has each record taken. It holds one record at a time.
pub(crate) fn read_records<D: Disk, T: TakeRecords>(
    alloc: Global,
    disk: &mut D,
    end: u64,
    taker: &mut T,
) -> Result<Found, OpenFault>
    requires some { 1 < end }
    requires new { T.took taker.old [] }
    ensures taken { IfOk result (λ found. IsTaken T.took taker.new found (D.tells disk.new × (end ≡ length (D.reads disk.old))) (D.reads disk.old)) }
    ensures few { IfOk result (λ found. 9 * found.count ≤ found.place) }
    ensures observed { Observed D.tells D.reads D.may_leave D.clock D.left_since disk.old disk.new }
    ensures cause { Faulted result (D.faults disk.old) (D.faults disk.new) }
{
    let mut place = 0;
    let mut count = 0;
    let mut payload = Vec::new(alloc);
    'records: loop {
        match read_record(disk, place, end, &mut payload)? {
            Gate::Open { size } => {
                taker.take(alloc, &payload)?;
                place += FRONT_BYTES as u64 + size;
                count += 1;
            }
            Gate::Shut => {
                return Ok(Found {
                    count,
                    place,
                    whole: true,
                });
            }
            Gate::Broken => {
                return Ok(Found {
                    count,
                    place,
                    whole: false,
                });
            }
        }
    }
}
