//! Gives a text to a sink, in whatever pieces it takes them.
ghost use Rattle.std.specs.Prelude.{◌≡◌, OnOk, OnErr};
ghost use Rattle.std.specs.Io.KnownBytes.{Appends};
ghost use Rattle.ks_edge.specs.Causes.{Rose};
ghost use Rattle.ks_run_output.specs.Bytes.{AppendsFront};

use ks_edge::{Failed, Sink};

/// Writes the whole text, unless the sink fails.
pub fn write_output<K: Sink>(out: &mut K, text: &[u8]) -> Result<(), Failed>
    ensures whole { OnOk result (Appends (K.held out.old) (K.held out.new) text.now) }
    ensures front { OnErr result (AppendsFront (K.held out.old) (K.held out.new) text.now) }
    ensures kept { OnOk result (K.faults out.new ≡ K.faults out.old) }
    ensures fault { OnErr result (Rose (K.faults out.old) (K.faults out.new)) }
{
    let mut at = 0;
    while at < text.len() {
        at += out.put(&text[at..])?;
    }
    Ok(())
}
