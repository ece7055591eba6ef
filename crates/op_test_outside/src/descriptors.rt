use op_low::{DescKind, class_fields, class_name, type_kind, type_part, type_parts, type_size};

/// A string, a record of two strings at 0 and 8, an array of three strings, and a class named TFoo with the record's fields.
const CONSTANTS: [u8; 88] = [
    1, 0, 0, 0, 4, 0, 0, 0, 0, 0, 0, 0, 4, 0, 0, 0, 12, 0, 0, 0, 2, 0, 0, 0, 0, 0, 0, 0, 0, 0, 0,
    0, 8, 0, 0, 0, 0, 0, 0, 0, 5, 0, 0, 0, 12, 0, 0, 0, 3, 0, 0, 0, 4, 0, 0, 0, 0, 0, 0, 0, 12, 0,
    0, 0, 255, 255, 255, 255, 16, 0, 0, 0, 0, 0, 0, 0, 0, 0, 0, 0, 4, 0, 0, 0, 84, 70, 111, 111,
];

// Their readers take only what is proved to be a descriptor, which bytes of a file are not.
#[test]
fn descriptors_are_read(rt: HostRuntime) {
    let constants = &CONSTANTS;
    let kinds = (
        type_kind(constants, 0),
        type_kind(constants, 12),
        type_kind(constants, 40),
    );
    assert!(rt; matches!(kinds, (DescKind::Chars, DescKind::Fields, DescKind::Repeat)));
    let field = type_part(constants, 12, 1);
    let element = type_part(constants, 40, 2);
    let numbers = [
        type_size(constants, 12),
        type_parts(constants, 12),
        field.offset,
        field.inner,
        type_parts(constants, 40),
        element.offset,
        element.inner,
        class_fields(constants, 60),
    ];
    assert!(rt; numbers == [12, 2, 8, 0, 3, 8, 0, 12]);
    assert!(rt; class_name(constants, 60) == b"TFoo".as_slice());
}
