// What is printed of some texts.
use crate::report::{Given, report};

#[test]
fn frames_are_listed(rt: HostRuntime) {
    let text = b"FEFE96E003FD # read\nfe fe 96 fc fe fe 96 e0 04 fd FEFE96E0FBFD";
    assert_eq!(rt;
        report(Given::Whole(text)).as_slice(),
        b"96 E0 03\n96 E0 04\nframes 2\n".as_slice()
    );
    assert_eq!(rt;
        report(Given::Whole(b"")).as_slice(),
        b"frames 0\n".as_slice()
    );
}

#[test]
fn bad_text_is_told(rt: HostRuntime) {
    assert_eq!(rt;
        report(Given::Whole(b"FEFE96E003FD 0 0")).as_slice(),
        b"BAD 14\n".as_slice()
    );
    assert_eq!(rt;
        report(Given::Whole(b"FE F")).as_slice(),
        b"BAD 4\n".as_slice()
    );
}

#[test]
fn text_that_goes_on_is_bad(rt: HostRuntime) {
    assert_eq!(rt;
        report(Given::Whole(&[b' '; 4096])).as_slice(),
        b"frames 0\n".as_slice()
    );
    assert_eq!(rt;
        report(Given::Cut(&[b' '; 4096])).as_slice(),
        b"BAD 4096\n".as_slice()
    );
    assert_eq!(rt;
        report(Given::Cut(&[b'-'; 4096])).as_slice(),
        b"BAD 0\n".as_slice()
    );
}
