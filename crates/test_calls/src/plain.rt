//! Words, names, numbers, lists, arithmetic and bytes.

use base_lists::ListVec;
use base_names::{is_name, is_reserved, is_word, may_begin_word, may_continue_word};
use base_numerals::{Numeral, read_numeral};
use base_words::conditions::{Flags, add_with_carry, compare_flags, holds, result_flags};
use base_words::memory::{Width, read_value, write_value, write_words};
use base_words::operations::{
    add, bit_clear, moved_address, multiply, rotate_right, rotated_right_carry, shift_left,
    shift_right, shift_right_signed, shifted_left_carry, shifted_right_carry,
    shifted_right_signed_carry, signed_at_most, signed_less, signed_quotient, signed_remainder,
    subtract, unsigned_quotient, unsigned_remainder,
};
use std::test::Fail;

/// Bytes, and whether they are a word, reserved, and a name.
const WORDS: &[(&[u8], bool, bool, bool)] = &[
    (b"main", true, false, true),
    (b"_", true, false, true),
    (b"TIM2.SR", true, false, true),
    (b"struct", true, true, false),
    (b"structs", true, false, true),
    (b"Struct", true, false, true),
    (b"u16", true, true, false),
    (b"u64", true, false, true),
    (b"sle", true, true, false),
    (b"", false, false, false),
    (b"2main", false, false, false),
    (b"a-b", false, false, false),
    (
        b"aaaaaaaaaaaaaaaaaaaaaaaaaaaaaaaaaaaaaaaaaaaaaaaaaaaaaaaaaaaaaaaa",
        true,
        false,
        true,
    ),
    (
        b"aaaaaaaaaaaaaaaaaaaaaaaaaaaaaaaaaaaaaaaaaaaaaaaaaaaaaaaaaaaaaaaaa",
        true,
        false,
        false,
    ),
];

#[test]
fn words_are_names_or_reserved(rt: HostRuntime) {
    for (bytes, word, reserved, name) in WORDS {
        assert_eq!(rt;
            (is_word(bytes), is_reserved(bytes), is_name(bytes)),
            (*word, *reserved, *name),
            "{bytes:?}"
        );
    }
    assert!(rt; may_begin_word(b'_') && !may_begin_word(b'.'));
    assert!(rt; may_continue_word(b'.') && !may_continue_word(b'-'));
}

const NUMERALS: &[(&[u8], Numeral)] = &[
    (b"0", Numeral::Value(0)),
    (b"00012", Numeral::Value(12)),
    (b"0x000000001F", Numeral::Value(31)),
    (b"0xaBcDeF09", Numeral::Value(0xabcd_ef09)),
    (b"4294967295", Numeral::Value(u32::MAX)),
    (b"4294967296", Numeral::TooWide),
    (b"0x100000000", Numeral::TooWide),
    (b"18446744073709551616", Numeral::TooWide),
    (b"-0", Numeral::Value(0)),
    (b"-1", Numeral::Value(u32::MAX)),
    (b"-0x10", Numeral::Value(0xffff_fff0)),
    (b"-2147483648", Numeral::Value(0x8000_0000)),
    (b"-2147483649", Numeral::TooWide),
    (b"", Numeral::Malformed),
    (b"-", Numeral::Malformed),
    (b"0x", Numeral::Malformed),
    (b"-0x", Numeral::Malformed),
    (b"0XF", Numeral::Malformed),
    (b"0x1G", Numeral::Malformed),
    (b"12ab", Numeral::Malformed),
    (b"99999999999999999999z", Numeral::Malformed),
    (b"1.5", Numeral::Malformed),
    (b"+1", Numeral::Malformed),
    (b"--1", Numeral::Malformed),
    (b" 1", Numeral::Malformed),
];

#[test]
fn reads_numbers(rt: HostRuntime) {
    for (bytes, numeral) in NUMERALS {
        assert!(rt; read_numeral(bytes) == *numeral, "{bytes:?}");
    }
}

#[test]
fn lists_keep_their_items(rt: HostRuntime) -> Result<(), Fail> {
    let empty: ListVec<u16> = ListVec::new(Vec::new(rt.alloc()));
    assert!(rt; empty.is_empty());
    let list = ListVec::new(vec![in rt.alloc(); 3u16, 1, 2]?);
    assert!(rt; !list.is_empty());
    assert_eq!(rt; list.len(), 3);
    assert_eq!(rt; list.as_slice(), [3, 1, 2].as_slice());
    assert_eq!(rt; list.into_vec().as_slice(), [3, 1, 2].as_slice());
    Ok(())
}

const LEAST: u32 = 0x8000_0000;

const MINUS_ONE: u32 = 0xffff_ffff;

#[test]
fn arithmetic_at_its_corners(rt: HostRuntime) {
    let rows = [
        (unsigned_quotient(5, 0), 0),
        (signed_quotient(LEAST, MINUS_ONE), LEAST),
        (shift_left(5, 32), 0),
        (shift_left(5, 256), 5),
        (signed_remainder(LEAST, MINUS_ONE), 0),
        (unsigned_remainder(5, 0), 5),
        (signed_quotient(0xffff_fff9, 2), 0xffff_fffd),
        (signed_remainder(0xffff_fff9, 2), MINUS_ONE),
        (add(MINUS_ONE, 2), 1),
        (subtract(1, 2), MINUS_ONE),
        (multiply(0x1_0000, 0x1_0001), 0x1_0000),
        (moved_address(0x2000_0000, -4), 0x1fff_fffc),
        (bit_clear(0xff, 0x0f), 0xf0),
        (shift_right(LEAST, 31), 1),
        (shift_right_signed(LEAST, 31), MINUS_ONE),
        (shift_right_signed(LEAST, 255), MINUS_ONE),
        (rotate_right(1, 1), LEAST),
        (rotate_right(7, 32), 7),
    ];
    for (found, wanted) in rows {
        assert_eq!(rt; found, wanted);
    }
}

#[test]
fn conditions_and_carries(rt: HostRuntime) {
    let (sum, flags) = add_with_carry(0x7fff_ffff, 0, true);
    let expected = Flags {
        negative: true,
        is_zero: false,
        carry: false,
        overflow: true,
    };
    assert!(rt; (sum, flags) == (LEAST, expected));
    let rows = [
        (holds(11, compare_flags(MINUS_ONE, 1)), true),
        (holds(3, compare_flags(MINUS_ONE, 1)), false),
        (holds(0, result_flags(flags, 0)), true),
        (signed_less(LEAST, 0), true),
        (signed_at_most(0, LEAST), false),
        (shifted_left_carry(1, 32, false), true),
        (shifted_right_carry(LEAST, 32, false), true),
        (shifted_right_signed_carry(LEAST, 200, false), true),
        (rotated_right_carry(1, 1, false), true),
        (rotated_right_carry(1, 256, false), false),
    ];
    for (found, wanted) in rows {
        assert_eq!(rt; found, wanted);
    }
}

#[test]
fn bytes_are_written_and_read(rt: HostRuntime) {
    let mut memory = [0u8; 12];
    write_value(&mut memory, 1, Width::Half, 0x1234_5678);
    write_words(&mut memory, 4, &[0x0a0b_0c0d, 2]);
    let expected = [0, 0x78, 0x56, 0, 0x0d, 0x0c, 0x0b, 0x0a, 2, 0, 0, 0];
    assert_eq!(rt; memory.as_slice(), expected.as_slice());
    assert_eq!(rt; read_value(&memory, 4, Width::Word), 0x0a0b_0c0d);
    assert_eq!(rt; read_value(&memory, 7, Width::Half), 0x020a);
    assert_eq!(rt; Width::Half.bytes(), 2);
}
