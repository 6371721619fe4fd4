use ssz_decimal::{number, number_of_8_bits, number_of_64_bits};

// A text and its number, by Python's int(); None where a digit would be lost in printing it again.
const NUMBERS: [(&[u8], Option<u128>); 9] = [
    (b"0", Some(0)),
    (b"549755813889", Some(549755813889)),
    (b"340282366920938463463374607431768211455", Some(u128::MAX)),
    (b"340282366920938463463374607431768211456", None),
    (b"", None),
    (b"01", None),
    (b"00", None),
    (b"+1", None),
    (b"1x", None),
];

#[test]
fn numbers(rt: HostRuntime) {
    for (word, wanted) in &NUMBERS {
        assert!(rt; number(word) == *wanted);
    }
}

#[test]
fn greatest_numbers(rt: HostRuntime) {
    assert!(rt; number_of_64_bits(b"18446744073709551615") == Some(u64::MAX));
    assert!(rt; number_of_64_bits(b"18446744073709551616").is_none());
    assert!(rt; number_of_8_bits(b"255") == Some(255));
    assert!(rt; number_of_8_bits(b"256").is_none());
}
