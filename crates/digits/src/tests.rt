use super::*;

const FREQUENCY: [u8; 5] = [0x00, 0x05, 0x23, 0x14, 0x00];

#[test]
fn bytes_have_numbers(rt: HostRuntime) {
    assert_eq!(rt; byte_number(0x99), 99);
    assert_eq!(rt; byte_number(0x0A), 255);
    assert_eq!(rt; byte_number(0xA0), 255);
}

#[test]
fn fields_are_read(rt: HostRuntime) {
    assert_eq!(rt; read_field(Order::LowFirst, &FREQUENCY), Ok(14_230_500));
    assert_eq!(rt;
        read_field(Order::LowFirst, &[0x00, 0x00, 0x20]),
        Ok(200_000)
    );
    assert_eq!(rt; read_field(Order::HighFirst, &[0x02, 0x55]), Ok(255));
    assert_eq!(rt; read_field(Order::LowFirst, &[]), Ok(0));
    assert_eq!(rt; read_field(Order::HighFirst, &[]), Ok(0));
}

#[test]
fn first_stray_byte_is_named(rt: HostRuntime) {
    let field = [0x12, 0x3A, 0x56, 0xF0];
    let stray = Unreadable::NotDigits { place: 1 };
    assert_eq!(rt; read_field(Order::LowFirst, &field), Err(stray));
    assert_eq!(rt; read_field(Order::HighFirst, &field), Err(stray));
}

#[test]
fn six_bytes_are_too_long(rt: HostRuntime) {
    let mut field = [0xFF; 6];
    assert_eq!(rt;
        read_field(Order::LowFirst, &field),
        Err(Unreadable::TooLong)
    );
    assert_eq!(rt;
        read_field(Order::HighFirst, &field),
        Err(Unreadable::TooLong)
    );
    assert_eq!(rt;
        write_field(Order::LowFirst, 1, &mut field),
        Err(Unwritable::TooLong)
    );
    assert_eq!(rt;
        write_field(Order::HighFirst, 1, &mut field),
        Err(Unwritable::TooLong)
    );
    assert_eq!(rt; field, [0xFF; 6]);
}

#[test]
fn fields_are_written(rt: HostRuntime) {
    let mut five = [0xFF; 5];
    assert_eq!(rt; write_field(Order::LowFirst, 14_230_500, &mut five), Ok(()));
    assert_eq!(rt; five, FREQUENCY);
    let mut two = [0xFF; 2];
    assert_eq!(rt; write_field(Order::HighFirst, 255, &mut two), Ok(()));
    assert_eq!(rt; two, [0x02, 0x55]);
}

#[test]
fn large_numbers_do_not_fit(rt: HostRuntime) {
    let mut five = [0xFF; 5];
    assert_eq!(rt;
        write_field(Order::LowFirst, 10_000_000_000, &mut five),
        Err(Unwritable::DoesNotFit)
    );
    assert_eq!(rt; five, [0xFF; 5]);
    assert_eq!(rt;
        write_field(Order::LowFirst, 9_999_999_999, &mut five),
        Ok(())
    );
    assert_eq!(rt; five, [0x99; 5]);
    assert_eq!(rt; write_field(Order::LowFirst, 0, &mut []), Ok(()));
    assert_eq!(rt;
        write_field(Order::LowFirst, 1, &mut []),
        Err(Unwritable::DoesNotFit)
    );
}
