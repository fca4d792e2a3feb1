// Streams that hold a sound frame for 96, and streams that hold none.
use super::*;

// How many sound frames for 96 a stream holds.
fn held(stream: &[u8]) -> usize {
    count_frames(stream, 0x96)
}

#[test]
fn the_last_pair_begins_the_body(rt: HostRuntime) {
    assert_eq!(rt; held(&[0xFE, 0xFE, 0xFE, 0x96, 0xE0, 0x03, 0xFD]), 1);
    assert_eq!(rt;
        held(&[0xFE, 0xFE, 0x96, 0xFC, 0xFE, 0xFE, 0x96, 0xE0, 0x04, 0xFD]),
        1
    );
    assert_eq!(rt;
        held(&[0xFE, 0xFE, 0x96, 0xE0, 0xFE, 0xFE, 0x96, 0xE1, 0x04, 0xFD]),
        1
    );
}

#[test]
fn bodies_that_are_not_sound(rt: HostRuntime) {
    assert_eq!(rt;
        held(&[0xFE, 0xFE, 0x96, 0xE0, 0xFE, 0x03, 0xFD]),
        0,
        "FE inside"
    );
    assert_eq!(rt;
        held(&[0xFE, 0xFE, 0x96, 0x30, 0x03, 0xFD]),
        0,
        "no controller"
    );
    assert_eq!(rt; held(&[0xFE, 0xFE, 0x96, 0xE0, 0xFB, 0xFD]), 0, "an answer");
    assert_eq!(rt; held(&[0xFE, 0xFE, 0x96, 0xE0, 0xFD]), 0, "no command");
    assert_eq!(rt;
        held(&[0xFE, 0xFE, 0x96, 0xE0, 0x03, 0xFC, 0xFD]),
        0,
        "jammed"
    );
    assert_eq!(rt; held(&[0xFE, 0x96, 0xE0, 0x03, 0xFD]), 0, "no pair");
    assert_eq!(rt;
        held(&[0xFE, 0xFE, 0x94, 0xE0, 0x03, 0xFD]),
        0,
        "for another"
    );
}

// FE FE, a body of some length for 96, and FD.
fn framed(len: usize) -> [u8; 44] {
    let mut stream = [0u8; 44];
    stream[0] = MARK;
    stream[1] = MARK;
    stream[2] = 0x96;
    stream[3] = 0xE0;
    if len < 42 {
        stream[2 + len] = END;
    }
    stream
}

#[test]
fn the_longest_body(rt: HostRuntime) {
    assert_eq!(rt; held(&framed(40)), 1);
    assert_eq!(rt; held(&framed(41)), 0);
}

#[test]
fn a_frame_has_its_body(rt: HostRuntime) {
    let mut framer = Framer::new();
    for byte in [0xFC, 0xFE, 0xFE, 0x96, 0xE0, 0x04] {
        assert!(rt; !framer.take(byte));
    }
    assert!(rt; framer.take(0xFD));
    assert_eq!(rt; framer.frame(), &[0x96, 0xE0, 0x04][..]);
}
