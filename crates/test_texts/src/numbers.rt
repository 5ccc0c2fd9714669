// Worked rows: the units that the text of a number is.
use dec_text::{Length, NumberFault, fixed};

#[test]
fn numbers_with_three_decimals(rt: HostRuntime) {
    for (text, units) in [
        ("1048.576", Ok(1048576)),
        ("1048.5764", Ok(1048576)),
        ("1048.5765", Err(NumberFault::TooLarge)),
        ("-0.0005", Ok(-1)),
        ("+.5", Ok(500)),
        ("5.", Ok(5000)),
        ("1.000000e+01", Ok(10000)),
        ("1e-9", Ok(0)),
        ("0e999999999999", Ok(0)),
        ("1e4", Err(NumberFault::TooLarge)),
        ("nan", Err(NumberFault::NotANumber(0))),
        (".", Err(NumberFault::NotANumber(1))),
        ("1e", Err(NumberFault::NotANumber(2))),
        ("1.2.3", Err(NumberFault::NotANumber(3))),
        ("", Err(NumberFault::NotANumber(0))),
        ("1e+", Err(NumberFault::NotANumber(3))),
        ("-.e", Err(NumberFault::NotANumber(2))),
    ] {
        let bytes = text.as_bytes();
        assert!(rt; bytes.len() < 100);
        assert_eq!(rt; fixed(bytes, 3, Length::Millimetre), units, "{text}");
    }
    for (text, units) in [
        ("1", Ok(25400)),
        ("0.00002", Ok(1)),
        ("41.2825", Ok(1048576)),
        ("41.28254", Err(NumberFault::TooLarge)),
    ] {
        let bytes = text.as_bytes();
        assert!(rt; bytes.len() < 100);
        assert_eq!(rt; fixed(bytes, 3, Length::Inch), units, "{text}");
    }
}
