//! The line that the tool itself writes to the errors.
ghost use Rattle.std.specs.Prelude.{◌≡◌, ◌<◌, ◌≤◌, ◌++◌, IfOk, codes, decimal};
ghost use Rattle.op_base.specs.Rule.{HasText};
ghost use Rattle.op_listing.specs.Digits.{eight_digits};
ghost use Rattle.op_rv.specs.declared.fault.FaultKind.{FaultKind};
ghost use Rattle.op_tool.specs.Compiles.{RefusalHasText};
ghost use Rattle.op_tool.specs.Effects.{line, ReportIs};
ghost use Rattle.op_tool.specs.ImageRun.{fault_front, fault_line};
ghost use Rattle.op_tool.specs.Owes.{Reports, ReportsBadImage, ReportsError, ReportsRefusal};

use crate::{CompileError, Finish};
use op_base::{NoMemory, Put, Refusal, Sink, rule_text};
use op_emu::FaultKind;
use op_listing::eight_digits;
use std::alloc::Global;

/// Writes a line to the errors, as the last act of a call that answers so.
pub(crate) fn report<E: Sink>(err: &mut E, line: &[u8], finish: Finish) -> Finish
    ensures says { ReportIs finish line.now result (E.written err.old) (E.written err.new) (E.faults err.old) (E.faults err.new) }
    ensures counts { E.faults err.old ≤ E.faults err.new }
{
    match err.put(line) {
        Put::Done => finish,
        Put::Failed => Finish::WriteFault,
    }
}

/// The line of a refusal in this file.
fn refusal_line(alloc: Global, file: &[u8], refusal: Refusal) -> Result<Vec<u8>, NoMemory>
    requires { HasText refusal.rule }
    ensures { IfOk result (λ line. Reports file.now refusal.place refusal.rule line.items) }
{
    let Refusal { rule, place } = refusal;
    let text = rule_text(rule);
    let rest = format!(in alloc;
        ":{}:{}: V{} {}\n",
        place.line, place.col, rule.number, text
    )?;
    let mut line = Vec::from_slice(alloc, b"opc: ")?;
    line.extend_from_slice(file)?;
    line.extend_from_slice(rest.as_bytes())?;
    Ok(line)
}

/// Writes the line of a refusal in this file.
pub(crate) fn report_refusal<E: Sink>(
    alloc: Global,
    file: &[u8],
    refusal: Refusal,
    err: &mut E,
) -> Finish
    requires { HasText refusal.rule }
    ensures says { ReportsRefusal file.now refusal result (E.written err.old) (E.written err.new) (E.faults err.old) (E.faults err.new) }
    ensures counts { E.faults err.old ≤ E.faults err.new }
{
    match refusal_line(alloc, file, refusal) {
        Ok(line) => report(
            err,
            line.as_slice(),
            Finish::Refused(refusal.rule, refusal.place),
        ),
        Err(NoMemory) => report_no_memory(err),
    }
}

/// Writes the line of an error in compiling.
pub(crate) fn report_error<E: Sink>(alloc: Global, error: CompileError, err: &mut E) -> Finish
    requires { RefusalHasText error }
    ensures says { ReportsError error result (E.written err.old) (E.written err.new) (E.faults err.old) (E.faults err.new) }
    ensures counts { E.faults err.old ≤ E.faults err.new }
{
    match error {
        CompileError::Refused(refusal, file) => {
            report_refusal(alloc, file.as_slice(), refusal, err)
        }
        CompileError::ReadFault => report(err, b"opc: read fault\n", Finish::ReadFault),
        CompileError::Limit => report(err, b"opc: image too large\n", Finish::Limit),
        CompileError::NoMemory => report_no_memory(err),
    }
}

/// Writes that the allocator had no room, as the last act of a call that answers so.
pub fn report_no_memory<E: Sink>(err: &mut E) -> Finish
    ensures says { ReportIs Finish.NoMemory (line (codes "opc: out of memory")) result (E.written err.old) (E.written err.new) (E.faults err.old) (E.faults err.new) }
    ensures counts { E.faults err.old ≤ E.faults err.new }
{
    report(err, b"opc: out of memory\n", Finish::NoMemory)
}

/// Writes which condition an image fails first.
pub(crate) fn report_bad_image<E: Sink>(alloc: Global, condition: u8, err: &mut E) -> Finish
    ensures says { ReportsBadImage condition result (E.written err.old) (E.written err.new) (E.faults err.old) (E.faults err.new) }
    ensures counts { E.faults err.old ≤ E.faults err.new }
{
    match format!(in alloc; "opc: bad image: Elf{}\n", condition) {
        Ok(line) => report(err, line.as_bytes(), Finish::BadImage(condition)),
        Err(_) => report_no_memory(err),
    }
}

/// The end of the line of a fault at this address: eight hexadecimal digits.
fn fault_end(pc: u32) -> [u8; 9]
    ensures { result ≡ line (eight_digits pc) }
{
    let [a, b, c, d, e, f, g, h] = eight_digits(pc);
    [a, b, c, d, e, f, g, h, b'\n']
}

/// The front of the line of a fault of this kind.
fn fault_front(kind: FaultKind) -> &'static [u8]
    ensures { result.now ≡ fault_front kind }
{
    match kind {
        FaultKind::Fetch => b"opc: fault Fetch at ",
        FaultKind::Illegal => b"opc: fault Illegal at ",
        FaultKind::Load => b"opc: fault Load at ",
        FaultKind::Store => b"opc: fault Store at ",
        FaultKind::Call => b"opc: fault Call at ",
        FaultKind::Break => b"opc: fault Break at ",
    }
}

/// Writes which fault a run came to. It takes no memory.
pub(crate) fn report_fault<E: Sink>(kind: FaultKind, pc: u32, err: &mut E) -> Finish
    ensures says { ReportIs (Finish.Faulted kind pc) (fault_line kind pc) result (E.written err.old) (E.written err.new) (E.faults err.old) (E.faults err.new) }
    ensures counts { E.faults err.old ≤ E.faults err.new }
{
    match err.put(fault_front(kind)) {
        Put::Done => report(err, &fault_end(pc), Finish::Faulted(kind, pc)),
        Put::Failed => Finish::WriteFault,
    }
}
