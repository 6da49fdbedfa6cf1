//! Writing a whole text to a sink.

ghost use Rattle.std.specs.Prelude.{ℕ, List, OnOk, OnErr};
ghost use Rattle.std.specs.Io.KnownBytes.{Appends};
ghost use Rattle.view_ports.specs.Faults.{HasCause};
ghost use Rattle.view_ports.specs.Exchanges.{IsPrefixOf};

use crate::ports::{PortFault, Sink};

/// Writes the whole text, by as many writes as the sink asks for: mostly by one.
pub fn write_all<K: Sink>(sink: &mut K, text: &[u8]) -> Result<(), PortFault>
    ensures ok { OnOk result (Appends (K.held sink.old) (K.held sink.new) text.now) }
    ensures err { OnErr result ((part : List ℕ) × IsPrefixOf part text.now
        × Appends (K.held sink.old) (K.held sink.new) part) }
    ensures cause { HasCause (K.faults sink.old) (K.faults sink.new) result }
{
    let mut done = 0;
    while done < text.len() {
        done += sink.write(&text[done..])?;
    }
    Ok(())
}
