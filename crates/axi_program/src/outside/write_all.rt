//! Writing a piece whole.

ghost use Rattle.std.specs.Prelude.{OnOk, OnErr};
ghost use Rattle.std.specs.Io.KnownBytes.{Appends};
ghost use Rattle.axi_program.specs.Faults.{HasCause};
ghost use Rattle.axi_program.specs.DeviceBytes.{AppendsPrefix};

use super::sink::Sink;
use super::source::Failed;

/// Writes a piece whole: offers it, and then its rest while less was taken.
///
/// # Errors
///
/// A write failed. What was taken of the piece until then is its front.
pub fn write_piece<K: Sink>(sink: &mut K, piece: &[u8]) -> Result<(), Failed>
    ensures ok { OnOk result (Appends (K.written sink.old) (K.written sink.new) piece.now) }
    ensures err { OnErr result (AppendsPrefix (K.written sink.old) (K.written sink.new) piece.now) }
    ensures cause { HasCause (K.faults sink.old) (K.faults sink.new) result }
{
    let mut done = 0;
    while done < piece.len() {
        done += sink.write(&piece[done..])?;
    }
    Ok(())
}
