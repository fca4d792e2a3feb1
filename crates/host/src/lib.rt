//! What the outstation's host, a program in C, calls. include/civ.h declares it.
#![tactic(auto)]

ghost use Rattle.std.specs.Prelude.{◌≡◌, length};
ghost use Rattle.framing.specs.Frames.{sound_frames, frames_for};

/// How many sound frames for an address a stream holds.
#[unsafe(no_mangle)]
pub extern "C" fn civ_count_frames(stream: &[u8], address: u8) -> usize
    ensures { result ≡ length (frames_for address (sound_frames stream.now)) }
{
    framing::count_frames(stream, address)
}
