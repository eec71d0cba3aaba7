// Writing a text to a sink.
ghost use Rattle.std.specs.Prelude.{◌≡◌, ◌≤◌, ◌++◌, OnOk, OnErr};
ghost use Rattle.shake_streams.specs.Past.{with_bytes};
ghost use Rattle.shake_streams.specs.Moves.{Known, SendsFront, TakesFront, HasFailed};

use crate::traits::{Failed, Sink};

/// Sends the whole text. A fault ends it, and then some front of the text went out and no call comes
/// behind.
pub fn write_all<K: Sink>(sink: &mut K, text: &[u8]) -> Result<(), Failed>
    ensures ok { OnOk result
        (Known (λ bytes. bytes ++ text.now) (K.written sink.old) (K.written sink.new)) }
    ensures took { OnOk result (K.taken sink.new ≡ with_bytes (K.taken sink.old) text.now) }
    ensures took_front { OnErr result (TakesFront text.now (K.taken sink.old) (K.taken sink.new)) }
    ensures front { SendsFront text.now (K.written sink.old) (K.written sink.new) }
    ensures later { K.faults sink.old ≤ K.faults sink.new }
    ensures failed { OnErr result (HasFailed (K.faults sink.old) (K.faults sink.new)) }
{
    let mut sent = 0;
    'pieces: while sent < text.len() {
        match sink.push(&text[sent..]) {
            Ok(n) => sent += n,
            Err(Failed) => return Err(Failed),
        }
    }
    Ok(())
}
