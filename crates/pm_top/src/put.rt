//! Writing a text to a sink.
ghost use Rattle.std.specs.Prelude.{◌≡◌, ◌<◌, ◌≤◌, OnOk, OnErr, length};
ghost use Rattle.pm_outside.specs.Outside.{Appends, AppendsPrefix, Rose};

use pm_outside::{PutFault, Sink};

// How many bytes a put takes at most.
const PIECE: usize = 4_096;

/// Puts the text in pieces of 4,096 bytes, the last one shorter.
pub fn put_text<S: Sink>(sink: &mut S, text: &[u8]) -> Result<(), PutFault>
    ensures all { OnOk result (Appends (S.written sink.old) (S.written sink.new) text.now) }
    ensures prefix { OnErr result
        (AppendsPrefix (S.written sink.old) (S.written sink.new) text.now) }
    ensures piece { OnErr result (0 < length text.now) }
    ensures failed { OnErr result (Rose (S.faults sink.old) (S.faults sink.new)) }
    ensures unfailed { OnOk result (S.faults sink.new ≡ S.faults sink.old) }
    ensures faults { S.faults sink.old ≤ S.faults sink.new }
{
    let mut rest = text;
    'pieces: while !rest.is_empty() {
        let (piece, after) = rest.split_at(rest.len().min(PIECE));
        sink.put(piece)?;
        rest = after;
    }
    Ok(())
}
