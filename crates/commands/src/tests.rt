// Bodies from E0 to 96 and what they ask, answers and their replies.
use super::*;
use std::process::Abort;
use std::test::Fail;

// A body tells a receiver to set a setting to a number.
fn check_writes(rt: &impl Abort, body: &[u8], setting: Setting, number: u64) {
    assert_eq!(rt; decode(body), Ok(Instruction::Write { setting, number }));
}

fn check_reads(rt: &impl Abort, body: &[u8], setting: Setting) {
    assert_eq!(rt; decode(body), Ok(Instruction::Read(setting)));
}

// A body has a fault with a cause and a place.
fn check_fault(rt: &impl Abort, body: &[u8], cause: u8, place: usize) {
    let expected = FaultReport {
        cause,
        place,
        layer: 0,
        slot: 2,
    };
    assert_eq!(rt;
        decode(body).map_err(|fault| fault.report(2)),
        Err(expected)
    );
}

#[test]
fn lawful_numbers(rt: HostRuntime) {
    assert!(rt; is_lawful(Setting::MODE, 1503));
    assert!(rt; !is_lawful(Setting::MODE, 901));
    assert!(rt; !is_lawful(Setting::AGC, 0));
    assert!(rt; is_lawful(Setting::NOISE_REDUCTION, 1));
    assert!(rt; !is_lawful(Setting { number: 15 }, 0));
}

#[test]
fn data_make_a_writing(rt: HostRuntime) {
    check_reads(&rt, &[0x96, 0xE0, 0x03], Setting::FREQUENCY);
    check_writes(
        &rt,
        &[0x96, 0xE0, 0x05, 0x00, 0x05, 0x23, 0x14, 0x00],
        Setting::FREQUENCY,
        14_230_500,
    );
    check_reads(&rt, &[0x96, 0xE0, 0x11], Setting::ATTENUATOR);
    check_writes(&rt, &[0x96, 0xE0, 0x11, 0x20], Setting::ATTENUATOR, 20);
    check_reads(&rt, &[0x96, 0xE0, 0x14, 0x01], Setting::AF_GAIN);
    check_writes(
        &rt,
        &[0x96, 0xE0, 0x14, 0x01, 0x02, 0x55],
        Setting::AF_GAIN,
        255,
    );
    check_writes(
        &rt,
        &[0x96, 0xE0, 0x0D, 0x00, 0x00, 0x20],
        Setting::OFFSET,
        200_000,
    );
}

#[test]
fn a_mode_byte_alone_means_filter_1(rt: HostRuntime) {
    check_writes(&rt, &[0x96, 0xE0, 0x06, 0x02], Setting::MODE, 201);
    check_writes(&rt, &[0x96, 0xE0, 0x06, 0x15, 0x03], Setting::MODE, 1503);
    check_fault(&rt, &[0x96, 0xE0, 0x06, 0x09], 24, 3);
    check_fault(&rt, &[0x96, 0xE0, 0x06, 0x02, 0x04], 24, 3);
    check_fault(&rt, &[0x96, 0xE0, 0x06], 22, 3);
}

#[test]
fn unknown_commands(rt: HostRuntime) {
    check_fault(&rt, &[0x96, 0xE0, 0x1C, 0x00], 21, 2);
    check_fault(&rt, &[0x96, 0xE0, 0x14], 21, 3);
    check_fault(&rt, &[0x96, 0xE0, 0x14, 0x04], 21, 3);
    check_fault(&rt, &[0x96, 0xE0, 0x07, 0xC0], 21, 3);
    check_fault(&rt, &[0x96, 0xE0], 21, 2);
}

#[test]
fn wrong_lengths(rt: HostRuntime) {
    check_fault(&rt, &[0x96, 0xE0, 0x03, 0x00], 22, 4);
    check_fault(&rt, &[0x96, 0xE0, 0x05], 22, 3);
    check_fault(&rt, &[0x96, 0xE0, 0x05, 0x00, 0x00, 0x00, 0x00], 22, 7);
    check_fault(&rt, &[0x96, 0xE0, 0x16, 0x12, 0x01, 0x01], 22, 6);
    check_fault(&rt, &[0x96, 0xE0, 0x07, 0x00, 0x00], 22, 5);
}

#[test]
fn numbers_that_are_no_numbers_or_not_lawful(rt: HostRuntime) {
    check_fault(&rt, &[0x96, 0xE0, 0x14, 0x01, 0x02, 0x56], 24, 4);
    check_fault(&rt, &[0x96, 0xE0, 0x14, 0x01, 0x0A, 0x5F], 23, 4);
    check_fault(&rt, &[0x96, 0xE0, 0x14, 0x01, 0x02, 0x5F], 23, 5);
    check_fault(
        &rt,
        &[0x96, 0xE0, 0x05, 0x00, 0x05, 0xA3, 0x1F, 0x00],
        23,
        5,
    );
    check_fault(&rt, &[0x96, 0xE0, 0x0F, 0x13], 24, 3);
}

#[test]
fn vfo_commands(rt: HostRuntime) {
    assert_eq!(rt;
        decode(&[0x96, 0xE0, 0x07]),
        Ok(Instruction::Vfo(VfoCommand::Select))
    );
    assert_eq!(rt;
        decode(&[0x96, 0xE0, 0x07, 0x01]),
        Ok(Instruction::Vfo(VfoCommand::Show(Shown::VfoB)))
    );
    assert_eq!(rt;
        decode(&[0x96, 0xE0, 0x07, 0xB0]),
        Ok(Instruction::Vfo(VfoCommand::Exchange))
    );
}

// A writing has the data part of the body, and its place.
#[test]
fn a_writing_borrows_its_data(rt: HostRuntime) -> Result<(), Fail> {
    let Request::Write {
        setting,
        data,
        place,
    } = parse(&[0x96, 0xE0, 0x16, 0x40, 0xFF])?
    else {
        return Err(Fail::new("no writing"));
    };
    assert_eq!(rt; setting, Setting::NOISE_REDUCTION);
    assert_eq!(rt; data, &[0xFF][..]);
    assert_eq!(rt; place, 4);
    Ok(())
}

fn check_reply(rt: &impl Abort, answer: Answer, bytes: &[u8]) -> Result<(), Fail> {
    let reply = compose(0xE0, 0x96, answer)?;
    assert_eq!(rt; reply.as_slice(), bytes);
    Ok(())
}

#[test]
fn answers_have_replies(rt: HostRuntime) -> Result<(), Fail> {
    check_reply(&rt, Answer::Done, &[0xFE, 0xFE, 0xE0, 0x96, 0xFB, 0xFD])?;
    check_reply(&rt, Answer::Failed, &[0xFE, 0xFE, 0xE0, 0x96, 0xFA, 0xFD])?;
    let frequency = Answer::Number {
        setting: Setting::FREQUENCY,
        number: 14_230_500,
    };
    check_reply(
        &rt,
        frequency,
        &[
            0xFE, 0xFE, 0xE0, 0x96, 0x03, 0x00, 0x05, 0x23, 0x14, 0x00, 0xFD,
        ],
    )?;
    let squelch = Answer::Number {
        setting: Setting::SQUELCH,
        number: 128,
    };
    check_reply(
        &rt,
        squelch,
        &[0xFE, 0xFE, 0xE0, 0x96, 0x14, 0x03, 0x01, 0x28, 0xFD],
    )
}

// Why an answer with a number has no reply, if it has none.
fn unanswerable(setting: Setting, number: u64) -> Option<Unanswerable> {
    compose(0xE0, 0x96, Answer::Number { setting, number }).err()
}

#[test]
fn answers_that_have_none(rt: HostRuntime) {
    let fifteen = Setting { number: 15 };
    assert_eq!(rt; unanswerable(fifteen, 0), Some(Unanswerable::NoSuchSetting));
    assert_eq!(rt;
        unanswerable(Setting::FREQUENCY, 10_000_000_000),
        Some(Unanswerable::DoesNotFit)
    );
    assert_eq!(rt; unanswerable(Setting::FREQUENCY, 9_999_999_999), None);
}
