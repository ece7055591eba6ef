//! How a string is spelled.
ghost use Rattle.std.specs.Prelude.{◌≡◌, ◌++◌, IfOk};
ghost use Rattle.op_print.specs.Spelling.{quoted, quoted_byte};

use op_base::NoMemory;
use std::alloc::Global;

/// Puts a byte within quotes.
fn push_quoted(spelled: &mut Vec<u8>, byte: u8) -> Result<(), NoMemory>
    ensures { IfOk result (λ _. spelled.new.items ≡ spelled.old.items ++ quoted_byte byte) }
{
    match byte {
        b'\'' => spelled.extend_from_slice(b"''")?,
        b'\r' => spelled.extend_from_slice(b"'#13'")?,
        b'\n' => spelled.extend_from_slice(b"'#10'")?,
        _ => spelled.push(byte)?,
    }
    Ok(())
}

/// The parts that stand for this text: they begin and end with quotes.
#[tactic(auto, unfolding(crate::specs::Spelling::quoted))]
pub fn quoted(alloc: Global, text: &[u8]) -> Result<Vec<u8>, NoMemory>
    ensures { IfOk result (λ spelled. spelled.items ≡ quoted text.now) }
{
    let mut spelled = Vec::from_slice(alloc, b"'")?;
    for byte in text {
        push_quoted(&mut spelled, *byte)?;
    }
    spelled.push(b'\'')?;
    Ok(spelled)
}
