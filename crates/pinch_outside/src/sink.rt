//! Where bytes are written to.
ghost use Rattle.std.specs.Prelude.{◌<◌, List, ℕ, Option, length, OnOk};
ghost use Rattle.std.specs.Io.KnownBytes.{Appends, WriteAppends};
ghost use Rattle.pinch_outside.specs.Faults.{HasCause};
ghost use Rattle.pinch_outside.specs.Sink.{WritesSome, AppendsFront};

/// A write was refused.
#[derive(Clone, Copy, Debug, PartialEq, Eq)]
pub struct SinkFault;

/// Where bytes are written to, in order.
pub trait Sink {
    /// All that was written, where it is known.
    ghost written: { Self → Option (List ℕ) };

    /// How often a write was refused.
    ghost faults: { Self → ℕ };

    /// Writes a front of the bytes, of at least one, and says how many. An `Err` comes only where the sink counted a
    /// fault, and then nothing was written.
    fn write(&mut self, bytes: &[u8]) -> Result<usize, SinkFault>
        requires { 0 < length bytes.now }
        ensures count { WritesSome result bytes.now }
        ensures written { WriteAppends (written self.old) (written self.new) result bytes.now }
        ensures cause { HasCause (faults self.old) (faults self.new) result };
}

/// Writes all the bytes, or a front of them where a write is refused.
pub fn write_all_of<K: Sink>(sink: &mut K, bytes: &[u8]) -> Result<(), SinkFault>
    ensures whole { OnOk result (Appends (K.written sink.old) (K.written sink.new) bytes.now) }
    ensures front { AppendsFront (K.written sink.old) (K.written sink.new) bytes.now }
    ensures cause { HasCause (K.faults sink.old) (K.faults sink.new) result }
{
    let mut rest = bytes;
    while !rest.is_empty() {
        let count = sink.write(rest)?;
        rest = &rest[count..];
    }
    Ok(())
}
