//! How many frames a stream holds for an address.
ghost use Rattle.std.specs.Prelude.{◌≡◌, length};
ghost use Rattle.framing.specs.Frames.{sound_frames, frames_for, is_for};

use super::Framer;

/// The sound frames of a whole stream that are for one address.
pub fn count_frames(stream: &[u8], address: u8) -> usize
    ensures { result ≡ length (frames_for address (sound_frames stream.now)) }
{
    let mut framer = Framer::new();
    let mut count = 0;
    // a loop and a count: a chain's closure would change the machine that it captures, and the check then does not
    // find what came of it
    for byte in stream {
        if framer.take(*byte) && is_for(framer.frame(), address) {
            count += 1;
        }
    }
    count
}

/// A body begins with the address that it is for.
fn is_for(body: &[u8], address: u8) -> bool
    ensures { result ≡ is_for address body.now }
{
    body.first() == Some(&address)
}
