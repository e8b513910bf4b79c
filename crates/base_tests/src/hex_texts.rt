//! The vectors of RFC 4648 for hex text, and digits that are none.
use hex_digits::{decode, encode_lower};

#[test]
fn vectors(rt: HostRuntime) {
    let mut text = [0; 12];
    encode_lower(b"foobar", &mut text);
    assert_eq!(rt; &text, b"666f6f626172");
    let mut four = [0; 4];
    encode_lower(b"fo", &mut four);
    assert_eq!(rt; &four, b"666f");
    let mut two = [0; 2];
    encode_lower(b"f", &mut two);
    assert_eq!(rt; &two, b"66");
    let mut bytes = [0; 6];
    assert!(rt; decode(b"666F6F626172", &mut bytes));
    assert_eq!(rt; &bytes, b"foobar");
    let mut none = [0; 0];
    encode_lower(b"", &mut none);
    assert!(rt; decode(b"", &mut none));
    let mut one = [0; 1];
    assert!(rt; !decode(b"6g", &mut one));
    assert!(rt; decode(b"fF", &mut one));
    assert_eq!(rt; one[0], 255);
}
