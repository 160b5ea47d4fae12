//! The line of a fault.
ghost use Rattle.std.specs.Prelude.{◌≡◌, ◌++◌, [], ◌∷◌, OnOk, OnErr};
ghost use Rattle.std.specs.Io.KnownBytes.{Appends};
ghost use Rattle.bar_base.specs.Faults.{HasCause};
ghost use Rattle.bar_base.specs.Outside.{AppendsPrefix};
ghost use Rattle.zint_answers.specs.FaultLine.{fault_front, fault_line, fault_text};
ghost use Rattle.zint_answers.specs.declared.fault.Fault.TheVariants as fault_variants;

use crate::detail::{check_detail, limit_detail, place_detail, segment_detail, size_detail};
use crate::fault::Fault;
use crate::refusal::Refusal;
use arrayvec::ArrayVec;
use bar_base::{Failed, Sink, write_all};
use itoa::Buffer;

/// Writes the line of a fault: `error`, the status, and the detail. It takes no memory; `Failed` has written a prefix of the line, and
/// is answered only where a fault was counted.
pub fn write_fault<S: Sink>(sink: &mut S, fault: &Fault) -> Result<(), Failed>
    ensures whole { OnOk result (Appends (S.held sink.old) (S.held sink.new) (fault_line fault.now)) }
    ensures part { OnErr result (AppendsPrefix (S.held sink.old) (S.held sink.new) (fault_line fault.now)) }
    ensures rest { S.rest sink.new ≡ S.rest sink.old }
    ensures cause { HasCause (S.faults sink.old) (S.faults sink.new) result }
{
    let status = fault.status();
    match fault {
        Fault::NoMemory => write_line(sink, status, b"memory"),
        Fault::Unread => write_line(sink, status, b"read"),
        Fault::Unwritten => write_line(sink, status, b"write"),
        Fault::Refused(refusal) => write_refusal(sink, refusal),
    }
}

/// Writes the line of a refusal.
fn write_refusal<S: Sink>(sink: &mut S, refusal: &Refusal) -> Result<(), Failed>
    ensures whole { OnOk result
        (Appends (S.held sink.old) (S.held sink.new) (fault_line (fault_variants.Refused refusal.now))) }
    ensures part { OnErr result
        (AppendsPrefix (S.held sink.old) (S.held sink.new) (fault_line (fault_variants.Refused refusal.now))) }
    ensures rest { S.rest sink.new ≡ S.rest sink.old }
    ensures cause { HasCause (S.faults sink.old) (S.faults sink.new) result }
{
    let status = refusal.status();
    match refusal {
        Refusal::Usage => write_line(sink, status, b"usage"),
        Refusal::TooLong(limit, unit) => {
            write_line(sink, status, limit_detail(*limit, *unit).as_slice())
        }
        Refusal::BadData(kind, place) => {
            write_line(sink, status, place_detail(*kind, *place).as_slice())
        }
        Refusal::BadSegment(kind, place, segment) => write_line(
            sink,
            status,
            segment_detail(*kind, *place, *segment).as_slice(),
        ),
        Refusal::BadCheck {
            given,
            place,
            wanted,
        } => write_line(
            sink,
            status,
            check_detail(*given, *place, *wanted).as_slice(),
        ),
        Refusal::BadOption(text) => write_line(sink, status, text.as_bytes()),
        Refusal::NoFit(misfit) => write_line(sink, status, size_detail(*misfit).as_slice()),
        Refusal::BadImage(fault) => write_line(sink, status, fault.detail().as_slice()),
        Refusal::BadSymbol(fault) => write_line(sink, status, fault.detail().as_slice()),
    }
}

/// The front of a fault's line: the word `error` and the status.
#[tactic(auto, unfolding(crate::specs::FaultLine::fault_front))]
fn fault_front(status: u8) -> ArrayVec<u8, 64>
    ensures { result.items ≡ fault_front status }
{
    let mut buffer = Buffer::new();
    let mut front: ArrayVec<u8, 64> = ArrayVec::new();
    front.try_extend_from_slice(b"error ").unwrap();
    front
        .try_extend_from_slice(buffer.format(status).as_bytes())
        .unwrap();
    front.try_extend_from_slice(b": ").unwrap();
    front
}

/// Writes the line of a status and a detail.
#[tactic(auto, using(bar_base::proofs::Appended::appended))]
fn write_line<S: Sink>(sink: &mut S, status: u8, detail: &[u8]) -> Result<(), Failed>
    ensures whole { OnOk result (Appends (S.held sink.old) (S.held sink.new) (fault_text status detail.now)) }
    ensures part { OnErr result (AppendsPrefix (S.held sink.old) (S.held sink.new) (fault_text status detail.now)) }
    ensures rest { S.rest sink.new ≡ S.rest sink.old }
    ensures cause { HasCause (S.faults sink.old) (S.faults sink.new) result }
{
    let front = fault_front(status);
    write_all(sink, front.as_slice())?;
    write_all(sink, detail)?;
    write_all(sink, b"\n")?;
    Ok(())
}
