//! Rows of decimal numerals: the value of each in millionths, or its first fault.

use gap_base::{NumeralFault, Rounded, read_numeral};

fn exact(value: i128) -> Result<Rounded, NumeralFault> {
    Ok(Rounded { value, exact: true })
}

fn rounded(value: i128) -> Result<Rounded, NumeralFault> {
    Ok(Rounded {
        value,
        exact: false,
    })
}

#[test]
fn values_in_millionths(rt: HostRuntime) {
    let rows: [(&str, Result<Rounded, NumeralFault>); 18] = [
        (".5", exact(500000)),
        ("5.", exact(5000000)),
        ("+1e-3", exact(1000)),
        ("0.0000005", rounded(1)),
        ("-0.0000005", rounded(-1)),
        ("0.00000049", rounded(0)),
        ("-1.5E+2", exact(-150000000)),
        ("0.0000015", rounded(2)),
        ("0.0000025", rounded(3)),
        ("-0", exact(0)),
        ("1e-40", rounded(0)),
        ("0e-40", exact(0)),
        ("1e24", exact(1_000_000_000_000_000_000_000_000_000_000)),
        ("1.1e24", rounded(1_000_000_000_000_000_000_000_000_000_000)),
        ("-1e40", rounded(-1_000_000_000_000_000_000_000_000_000_000)),
        (
            "0000000000000000000000000000000000000000123456.7890125",
            rounded(123456789013),
        ),
        (
            "999999999999999999999999999999",
            rounded(1_000_000_000_000_000_000_000_000_000_000),
        ),
        (
            "0000000000000000000000000000000000000000000000000000000000000012",
            exact(12000000),
        ),
    ];
    for (text, want) in rows {
        assert_eq!(rt; read_numeral(text.as_bytes()), want, "at {text}");
    }
}

#[test]
fn faults_in_their_order(rt: HostRuntime) {
    let rows: [(&str, NumeralFault); 15] = [
        ("1e", NumeralFault::Shape),
        ("", NumeralFault::Shape),
        (".", NumeralFault::Shape),
        ("+", NumeralFault::Shape),
        ("--1", NumeralFault::Shape),
        ("1.2.3", NumeralFault::Shape),
        ("e5", NumeralFault::Shape),
        ("1e+", NumeralFault::Shape),
        ("1x", NumeralFault::Shape),
        (
            "00000000000000000000000000000000000000000000000000000000000000012",
            NumeralFault::Shape,
        ),
        (
            "1234567890123456789012345678901",
            NumeralFault::TooManyDigits,
        ),
        (
            "1234567890123456.789012345678900e99",
            NumeralFault::TooManyDigits,
        ),
        ("1e41", NumeralFault::Exponent),
        ("0e-41", NumeralFault::Exponent),
        (
            "1e99999999999999999999999999999999999999999999999",
            NumeralFault::Exponent,
        ),
    ];
    for (text, want) in rows {
        assert_eq!(rt; read_numeral(text.as_bytes()), Err(want), "at {text}");
    }
}
