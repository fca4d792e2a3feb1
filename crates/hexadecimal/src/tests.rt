use super::*;
use std::process::Abort;
use std::test::Fail;

// The text reads to these bytes.
fn reads(rt: &impl Abort, text: &[u8], bytes: &[u8]) -> Result<(), Fail> {
    let read = read(text)?;
    assert_eq!(rt; read.as_slice(), bytes);
    Ok(())
}

// The text is bad, at this position.
fn bad_at(rt: &impl Abort, text: &[u8], position: usize) {
    assert_eq!(rt; read(text).err(), Some(BadText { position }));
}

#[test]
fn pairs_and_remarks(rt: HostRuntime) -> Result<(), Fail> {
    reads(
        &rt,
        b"FEFE96E0 03 FD # remark\n0a",
        &[0xFE, 0xFE, 0x96, 0xE0, 0x03, 0xFD, 0x0A],
    )?;
    reads(&rt, b"# remark\r\t7f", &[0x7F])?;
    reads(&rt, b"", &[])
}

#[test]
fn broken_rules(rt: HostRuntime) {
    bad_at(&rt, b"FE F", 4);
    bad_at(&rt, b"F E", 1);
    bad_at(&rt, b"F#", 1);
    bad_at(&rt, b"G", 0);
}

#[test]
fn longest_text(rt: HostRuntime) -> Result<(), Fail> {
    let blanks = [b' '; 4097];
    reads(&rt, &blanks[0..4096], &[])?;
    bad_at(&rt, &blanks, 4096);
    assert_eq!(rt; read_overlong(&blanks[0..4096]).position, 4096);
    assert_eq!(rt; read_overlong(b"G").position, 0);
    Ok(())
}

#[test]
fn lines(rt: HostRuntime) {
    let mut memory = [b'.'; 8];
    assert_eq!(rt; write_line(&[0xFE, 0x0A], &mut memory), Ok(6));
    assert_eq!(rt; &memory, b"FE 0A\n..");
    let mut small = [b'.'; 5];
    assert_eq!(rt; write_line(&[0xFE, 0x0A], &mut small), Err(NoRoom));
    assert_eq!(rt; &small, b".....");
    assert_eq!(rt; write_line(&[], &mut small), Ok(1));
    assert_eq!(rt; &small, b"\n....");
}

#[test]
fn decimals(rt: HostRuntime) {
    let mut memory = [b'.'; 4];
    assert_eq!(rt; write_decimal(0, &mut memory), Ok(1));
    assert_eq!(rt; &memory, b"0...");
    assert_eq!(rt; write_decimal(9, &mut memory), Ok(1));
    assert_eq!(rt; write_decimal(10, &mut memory), Ok(2));
    assert_eq!(rt; &memory, b"10..");
    assert_eq!(rt; write_decimal(4096, &mut memory), Ok(4));
    assert_eq!(rt; write_decimal(40960, &mut memory), Err(NoRoom));
    assert_eq!(rt; &memory, b"4096");
}
