// The numeral writer.
use numeral::errors::NumeralError;
use numeral::writer::write_numeral;

#[test]
fn writes_at_the_front(rt: HostRuntime) {
    let mut place = [b'.'; 12];
    assert_eq!(rt; write_numeral(0, &mut place), Ok(1));
    assert_eq!(rt; &place, b"0...........");
    assert_eq!(rt; write_numeral(65535, &mut place), Ok(5));
    assert_eq!(rt; &place, b"65535.......");
    assert_eq!(rt; write_numeral(10, &mut place), Ok(2));
    assert_eq!(rt; &place, b"10535.......");
    assert_eq!(rt; write_numeral(2_147_483_648, &mut place), Ok(10));
    assert_eq!(rt; &place, b"2147483648..");
}

#[test]
fn refuses_and_changes_nothing(rt: HostRuntime) {
    let mut place = [b'.'; 4];
    assert_eq!(rt;
        write_numeral(2_147_483_649, &mut place),
        Err(NumeralError::OverBound)
    );
    assert_eq!(rt;
        write_numeral(u32::MAX, &mut place),
        Err(NumeralError::OverBound)
    );
    assert_eq!(rt;
        write_numeral(10000, &mut place),
        Err(NumeralError::PlaceTooShort)
    );
    assert_eq!(rt; &place, b"....");
    assert_eq!(rt; write_numeral(9999, &mut place), Ok(4));
    assert_eq!(rt; &place, b"9999");
    assert_eq!(rt; write_numeral(0, &mut []), Err(NumeralError::PlaceTooShort));
}
