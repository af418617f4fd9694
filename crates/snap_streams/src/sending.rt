//! `write_all`: sends a text whole; `say`: sends a text as far as its sink takes it.
ghost use Rattle.std.specs.Prelude.{◌≡◌, false, OnOk};
ghost use Rattle.snap_streams.specs.Sent.{Says, Sends, unsent};

use crate::byte_sink::ByteSink;
use thiserror::Error;

/// A text was not sent whole: its sink failed, or took nothing.
#[derive(Clone, Copy, Debug, PartialEq, Eq, Error)]
#[error("the sink took the first {count} bytes, and no more")]
pub struct Unsent {
    /// How many bytes of the text the sink has taken.
    pub count: u64,
}

/// Writes all of `text` to `sink`.
///
/// # Errors
///
/// `Unsent` where `sink` fails or takes nothing; `sink` has taken the first `count` bytes of `text`
/// then.
pub fn write_all<W: ByteSink>(sink: &mut W, text: &[u8]) -> Result<(), Unsent>
    requires { (W.state sink.old).failed ≡ false }
    ensures sends { Sends unsent result text.now (W.state sink.old) (W.state sink.new) }
    ensures well { OnOk result ((W.state sink.new).failed ≡ false) }
    ensures goes_on { OnOk result ((W.state sink.old).stalled ≡ false →
        (W.state sink.new).stalled ≡ false) }
{
    let mut sent = 0;
    while sent < text.len() {
        match sink.write(&text[sent..]) {
            Ok(0) => return Err(Unsent { count: sent as u64 }),
            Ok(count) => sent += count,
            Err(_) => return Err(Unsent { count: sent as u64 }),
        }
    }
    Ok(())
}

/// Writes `text` to `sink` as far as `sink` takes it, and drops the rest.
pub fn say<W: ByteSink>(text: &[u8], sink: &mut W)
    requires { (W.state sink.old).failed ≡ false }
    ensures { Says text.now (W.state sink.old) (W.state sink.new) }
{
    let _said = write_all(sink, text);
}
