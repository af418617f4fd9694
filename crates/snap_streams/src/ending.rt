//! `end`: the end of a program whose output may have lost its reader.
ghost use Rattle.std.specs.Prelude.{◌≡◌, false};
ghost use Rattle.snap_streams.specs.Ended.{SaysAtEnd, ended_status, is_gone, text_at_end};

use crate::byte_sink::ByteSink;
use crate::messages::Messages;
use crate::piped::Piped;
use crate::sending::say;

/// The status of a program that `SIGPIPE` ends, as a shell tells it.
const GONE: u8 = 141;

/// Writes `messages` to `device`, or that there was no memory to keep them, and returns `status`.
/// Where the reader of `output` has gone away, nothing is written, and the status of a program that
/// `SIGPIPE` ends is returned.
pub fn end<W, E: ByteSink>(status: u8, output: &Piped<W>, messages: &Messages, device: &mut E) -> u8
    requires { (E.state device.old).failed ≡ false }
    ensures status { result ≡ ended_status output.now.failure status }
    ensures says { SaysAtEnd (is_gone output.now.failure)
        (text_at_end messages.now.failed messages.now.text.items)
        (E.state device.old) (E.state device.new) }
{
    if output.has_lost_reader() {
        return GONE;
    }
    say(messages.text(), device);
    status
}
