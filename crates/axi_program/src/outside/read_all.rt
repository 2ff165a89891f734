//! Reading a source to its end.

ghost use Rattle.std.specs.Prelude.{◌≤◌, vec_len, IfOk, IsErrOf};
ghost use Rattle.axi_program.specs.Faults.{Rose};
ghost use Rattle.axi_program.specs.DeviceBytes.{IsWhole, IsOver, IsRest};

use super::source::Source;
use std::alloc::Global;

/// Why an input isn't had whole.
#[derive(Debug, Clone, Copy, PartialEq, Eq)]
pub enum InputFault {
    /// More bytes came than the limit.
    TooLong,
    /// A read failed.
    ReadFault,
    /// Memory was wanting.
    NoMemory,
}

/// How many bytes one read asks for.
const CHUNK: usize = 4096;

/// All bytes of a source, which are at most `limit`.
///
/// # Errors
///
/// More bytes came than `limit`, a read failed, or memory was wanting. The source has lost the bytes
/// that were read then.
pub fn read_all<S: Source>(
    alloc: Global,
    source: &mut S,
    limit: usize,
) -> Result<Vec<u8>, InputFault>
    ensures whole { IfOk result (λ text. IsWhole (S.left source.old) (S.left source.new) text.items) }
    ensures within { IfOk result (λ text. vec_len text ≤ limit) }
    ensures too_long { IsErrOf result InputFault.TooLong → IsOver limit (S.left source.old) }
    ensures read_fault { IsErrOf result InputFault.ReadFault → Rose (S.faults source.old) (S.faults source.new) }
    ensures count { S.faults source.old ≤ S.faults source.new }
    ensures rest { IsRest (S.left source.old) (S.left source.new) }
{
    let mut text = Vec::new(alloc);
    let mut chunk = [0; CHUNK];
    loop {
        let count = match source.read(&mut chunk) {
            Ok(count) => count,
            Err(_) => return Err(InputFault::ReadFault),
        };
        if count == 0 {
            return Ok(text);
        }
        if limit - text.len() < count {
            return Err(InputFault::TooLong);
        }
        if text.extend_from_slice(&chunk[..count]).is_err() {
            return Err(InputFault::NoMemory);
        }
    }
}
