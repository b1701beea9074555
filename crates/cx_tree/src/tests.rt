//! Values that C11 gives, worked out by hand.
use crate::IntType::{
    Bool, Char, Int, Long, LongLong, Short, SignedChar, UnsignedChar, UnsignedInt, UnsignedLong,
    UnsignedLongLong, UnsignedShort,
};
use crate::Op::{
    Add, BitAnd, BitOr, BitXor, Complement, Divide, Equal, Greater, GreaterEqual, Less, LessEqual,
    Multiply, Negate, NotEqual, Remainder, ShiftLeft, ShiftRight, Subtract,
};
use crate::Platform::{Unix32, Unix64, Win64};
use crate::{arith, bits, convert, greatest, least, promote, usual};

#[test]
fn sums_of_int(rt: HostRuntime) {
    for (op, a, b, want) in [
        (Add, 2147483646, 1, Some(2147483647)),
        (Add, 2147483647, 1, None),
        (Add, -2147483648, -1, None),
        (Subtract, -2147483647, 1, Some(-2147483648)),
        (Subtract, -2147483648, 1, None),
        (Multiply, 1073741823, 2, Some(2147483646)),
        (Multiply, 2147483647, 2, None),
        (Multiply, -1073741824, 2, Some(-2147483648)),
        (Multiply, 46341, 46341, None),
        (Negate, 2147483647, 0, Some(-2147483647)),
        (Negate, -2147483648, 0, None),
        (Complement, 0, 0, Some(-1)),
        (Complement, -2147483648, 0, Some(2147483647)),
    ] {
        for p in [Unix32, Unix64, Win64] {
            assert_eq!(rt; arith(op, Int, p, a, b), want, "{op:?} {a} {b}");
        }
    }
}

#[test]
fn quotients_of_int(rt: HostRuntime) {
    for (op, a, b, want) in [
        (Divide, 7, 2, Some(3)),
        (Divide, -7, 2, Some(-3)),
        (Divide, 7, -2, Some(-3)),
        (Divide, -7, -2, Some(3)),
        (Divide, -2147483648, 1, Some(-2147483648)),
        (Divide, -2147483648, -1, None),
        (Divide, 1, 0, None),
        (Divide, 0, 0, None),
        (Remainder, 7, 2, Some(1)),
        (Remainder, -7, 2, Some(-1)),
        (Remainder, 7, -2, Some(1)),
        (Remainder, -7, -2, Some(-1)),
        (Remainder, -2147483648, -1, None),
        (Remainder, 7, -1, Some(0)),
        (Remainder, 1, 0, None),
    ] {
        assert_eq!(rt; arith(op, Int, Unix64, a, b), want, "{op:?} {a} {b}");
    }
}

#[test]
fn shifts_of_int(rt: HostRuntime) {
    for (op, a, b, want) in [
        (ShiftLeft, 1, 0, Some(1)),
        (ShiftLeft, 1, 30, Some(1073741824)),
        (ShiftLeft, 1, 31, None),
        (ShiftLeft, 1, 32, None),
        (ShiftLeft, 1, -1, None),
        (ShiftLeft, 0, 31, Some(0)),
        (ShiftLeft, 0, 32, None),
        (ShiftLeft, 3, 29, Some(1610612736)),
        (ShiftLeft, 3, 30, None),
        (ShiftLeft, -1, 0, None),
        (ShiftLeft, 1, 18446744073709551616, None),
        (ShiftRight, -8, 1, Some(-4)),
        (ShiftRight, -7, 1, Some(-4)),
        (ShiftRight, -1, 31, Some(-1)),
        (ShiftRight, 2147483647, 30, Some(1)),
        (ShiftRight, 5, 0, Some(5)),
        (ShiftRight, 5, 32, None),
        (ShiftRight, 5, -1, None),
    ] {
        assert_eq!(rt; arith(op, Int, Unix64, a, b), want, "{op:?} {a} {b}");
    }
}

#[test]
fn bits_and_comparisons_of_int(rt: HostRuntime) {
    for (op, a, b, want) in [
        (BitAnd, -1, 255, 255),
        (BitAnd, -2147483648, -1, -2147483648),
        (BitAnd, 12, 10, 8),
        (BitOr, 12, 10, 14),
        (BitOr, -2147483648, 1, -2147483647),
        (BitXor, 12, 10, 6),
        (BitXor, -1, 0, -1),
        (BitXor, -1, -1, 0),
        (Less, -1, 0, 1),
        (Less, 0, 0, 0),
        (LessEqual, 0, 0, 1),
        (LessEqual, 1, 0, 0),
        (Greater, 0, -1, 1),
        (Greater, 0, 0, 0),
        (GreaterEqual, 0, 0, 1),
        (GreaterEqual, -1, 0, 0),
        (Equal, 3, 3, 1),
        (Equal, 3, 4, 0),
        (NotEqual, 3, 4, 1),
        (NotEqual, 3, 3, 0),
    ] {
        assert_eq!(rt; arith(op, Int, Unix64, a, b), Some(want), "{op:?} {a} {b}");
    }
}

#[test]
fn unsigned_results_wrap(rt: HostRuntime) {
    for (op, t, p, a, b, want) in [
        (Add, UnsignedInt, Unix64, 4294967295, 1, 0),
        (Subtract, UnsignedInt, Unix64, 0, 1, 4294967295),
        (Multiply, UnsignedInt, Unix64, 65536, 65536, 0),
        (Negate, UnsignedInt, Unix64, 1, 0, 4294967295),
        (Complement, UnsignedInt, Unix64, 0, 0, 4294967295),
        (ShiftLeft, UnsignedInt, Unix64, 1, 31, 2147483648),
        (ShiftLeft, UnsignedInt, Unix64, 3, 31, 2147483648),
        (ShiftRight, UnsignedInt, Unix64, 4294967295, 31, 1),
        (Divide, UnsignedInt, Unix64, 4294967295, 2, 2147483647),
        (Remainder, UnsignedInt, Unix64, 4294967295, 10, 5),
        (BitOr, UnsignedInt, Unix64, 2147483648, 1, 2147483649),
        (Add, UnsignedLong, Unix32, 4294967295, 1, 0),
        (Add, UnsignedLong, Unix64, 4294967295, 1, 4294967296),
        (Add, UnsignedLong, Win64, 4294967295, 1, 0),
        (Subtract, UnsignedLong, Unix64, 0, 1, 18446744073709551615),
        (Add, UnsignedLongLong, Unix32, 18446744073709551615, 2, 1),
        (
            Multiply,
            UnsignedLongLong,
            Win64,
            18446744073709551615,
            18446744073709551615,
            1,
        ),
        (
            ShiftLeft,
            UnsignedLongLong,
            Unix64,
            18446744073709551615,
            63,
            9223372036854775808,
        ),
    ] {
        assert_eq!(rt;
            arith(op, t, p, a, b),
            Some(want),
            "{op:?} {t:?} {p:?} {a} {b}"
        );
    }
    for (op, t, a, b) in [
        (Divide, UnsignedInt, 1, 0),
        (Remainder, UnsignedLongLong, 1, 0),
        (ShiftLeft, UnsignedInt, 1, 32),
        (ShiftRight, UnsignedLongLong, 1, 64),
        (ShiftLeft, UnsignedInt, 1, -1),
    ] {
        assert_eq!(rt; arith(op, t, Unix64, a, b), None, "{op:?} {t:?} {a} {b}");
    }
}

#[test]
fn long_has_the_width_of_its_platform(rt: HostRuntime) {
    for (op, t, p, a, b, want) in [
        (Add, Long, Unix64, 9223372036854775807, 1, None),
        (Add, Long, Unix64, 2147483647, 1, Some(2147483648)),
        (Add, Long, Win64, 2147483647, 1, None),
        (Add, Long, Unix32, 2147483647, 1, None),
        (Add, LongLong, Win64, 2147483647, 1, Some(2147483648)),
        (Multiply, LongLong, Unix32, 4294967296, 4294967296, None),
        (Negate, LongLong, Unix32, -9223372036854775808, 0, None),
        (Divide, Long, Unix64, -9223372036854775808, -1, None),
        (ShiftLeft, Long, Unix64, 1, 62, Some(4611686018427387904)),
        (ShiftLeft, Long, Unix64, 1, 63, None),
        (ShiftLeft, Long, Win64, 1, 32, None),
        (ShiftRight, Long, Unix64, -9223372036854775808, 63, Some(-1)),
        (
            BitAnd,
            Long,
            Unix64,
            -1,
            -9223372036854775808,
            Some(-9223372036854775808),
        ),
    ] {
        assert_eq!(rt; arith(op, t, p, a, b), want, "{op:?} {t:?} {p:?} {a} {b}");
    }
}

#[test]
fn results_in_a_type_that_is_not_promoted(rt: HostRuntime) {
    for (op, t, a, b, want) in [
        (Add, Bool, 1, 1, Some(1)),
        (Subtract, Bool, 0, 1, Some(1)),
        (Multiply, Bool, 1, 0, Some(0)),
        (BitXor, Bool, 1, 1, Some(0)),
        (Complement, Bool, 1, 0, Some(1)),
        (Add, Char, 100, 100, None),
        (Add, SignedChar, 100, 27, Some(127)),
        (Subtract, Char, -100, 29, None),
        (Add, UnsignedChar, 200, 100, Some(44)),
        (Complement, UnsignedChar, 0, 0, Some(255)),
        (Add, Short, 32767, 1, None),
        (Subtract, UnsignedShort, 0, 1, Some(65535)),
        (ShiftLeft, UnsignedChar, 1, 8, Some(0)),
        (ShiftLeft, SignedChar, 1, 8, None),
        (ShiftLeft, SignedChar, 1, 6, Some(64)),
        (ShiftLeft, UnsignedChar, 1, 32, None),
        (ShiftRight, Char, -128, 31, Some(-1)),
        (Divide, SignedChar, -128, -1, None),
    ] {
        assert_eq!(rt; arith(op, t, Unix64, a, b), want, "{op:?} {t:?} {a} {b}");
    }
}

#[test]
fn results_outside_of_128_bits(rt: HostRuntime) {
    for (op, t, a, b, want) in [
        (Add, Int, i128::MAX, 1, None),
        (Add, UnsignedInt, i128::MAX, i128::MAX, Some(4294967294)),
        (Add, Bool, i128::MAX, 1, Some(1)),
        (
            Subtract,
            UnsignedLongLong,
            i128::MIN,
            1,
            Some(18446744073709551615),
        ),
        (Multiply, UnsignedLongLong, i128::MAX, i128::MAX, Some(1)),
        (Multiply, LongLong, i128::MIN, i128::MIN, None),
        (Multiply, Bool, i128::MIN, i128::MIN, Some(1)),
        (Negate, UnsignedInt, i128::MIN, 0, Some(0)),
        (Divide, UnsignedInt, i128::MIN, -1, Some(0)),
        (Divide, Long, i128::MIN, -1, None),
        (Remainder, UnsignedInt, i128::MIN, -1, Some(0)),
        (Remainder, Bool, i128::MIN, -1, Some(0)),
        (Complement, UnsignedInt, i128::MIN, 0, Some(4294967295)),
    ] {
        assert_eq!(rt; arith(op, t, Unix64, a, b), want, "{op:?} {t:?} {a} {b}");
    }
}

#[test]
fn conversions(rt: HostRuntime) {
    for (t, p, value, want) in [
        (UnsignedChar, Unix64, 300, 44),
        (UnsignedChar, Unix64, -1, 255),
        (SignedChar, Unix64, 200, -56),
        (Char, Unix64, 127, 127),
        (Char, Unix64, 128, -128),
        (Char, Unix64, -129, 127),
        (Bool, Unix64, 5, 1),
        (Bool, Unix64, 256, 1),
        (Bool, Unix64, -1, 1),
        (Bool, Unix64, 0, 0),
        (UnsignedInt, Unix64, -1, 4294967295),
        (Int, Unix64, 4294967296, 0),
        (Int, Unix64, 4294967295, -1),
        (Int, Unix64, 2147483648, -2147483648),
        (Short, Unix64, 65535, -1),
        (Long, Unix64, 4294967296, 4294967296),
        (Long, Win64, 4294967296, 0),
        (UnsignedLong, Unix32, -1, 4294967295),
        (UnsignedLong, Unix64, -1, 18446744073709551615),
        (LongLong, Unix32, 18446744073709551615, -1),
        (LongLong, Unix32, i128::MIN, 0),
    ] {
        assert_eq!(rt; convert(t, p, value), want, "{t:?} {p:?} {value}");
    }
}

#[test]
fn promotions(rt: HostRuntime) {
    for (t, want) in [
        (Bool, Int),
        (Char, Int),
        (SignedChar, Int),
        (UnsignedChar, Int),
        (Short, Int),
        (UnsignedShort, Int),
        (Int, Int),
        (UnsignedInt, UnsignedInt),
        (Long, Long),
        (UnsignedLong, UnsignedLong),
        (LongLong, LongLong),
        (UnsignedLongLong, UnsignedLongLong),
    ] {
        for p in [Unix32, Unix64, Win64] {
            assert_eq!(rt; promote(t, p), want, "{t:?} {p:?}");
        }
    }
}

#[test]
fn common_types(rt: HostRuntime) {
    for (a, b, p, want) in [
        (Char, Char, Unix64, Int),
        (Bool, UnsignedShort, Unix64, Int),
        (Int, UnsignedInt, Unix64, UnsignedInt),
        (Short, UnsignedInt, Unix64, UnsignedInt),
        (Int, Long, Unix32, Long),
        (Long, UnsignedInt, Unix64, Long),
        (Long, UnsignedInt, Win64, UnsignedLong),
        (Long, UnsignedInt, Unix32, UnsignedLong),
        (Int, UnsignedLong, Unix64, UnsignedLong),
        (LongLong, UnsignedInt, Unix32, LongLong),
        (LongLong, UnsignedLong, Unix64, UnsignedLongLong),
        (LongLong, UnsignedLong, Unix32, LongLong),
        (LongLong, UnsignedLong, Win64, LongLong),
        (LongLong, UnsignedLongLong, Unix64, UnsignedLongLong),
        (UnsignedLong, UnsignedLongLong, Unix64, UnsignedLongLong),
    ] {
        assert_eq!(rt; usual(a, b, p), want, "{a:?} {b:?} {p:?}");
        assert_eq!(rt; usual(b, a, p), want, "{b:?} {a:?} {p:?}");
    }
}

#[test]
fn limits(rt: HostRuntime) {
    for (t, p, size, low, high) in [
        (Bool, Unix64, 8, 0, 1),
        (Char, Unix64, 8, -128, 127),
        (SignedChar, Unix64, 8, -128, 127),
        (UnsignedChar, Unix64, 8, 0, 255),
        (Short, Unix64, 16, -32768, 32767),
        (UnsignedShort, Unix64, 16, 0, 65535),
        (Int, Unix32, 32, -2147483648, 2147483647),
        (UnsignedInt, Unix64, 32, 0, 4294967295),
        (Long, Unix32, 32, -2147483648, 2147483647),
        (Long, Unix64, 64, -9223372036854775808, 9223372036854775807),
        (Long, Win64, 32, -2147483648, 2147483647),
        (UnsignedLong, Unix64, 64, 0, 18446744073709551615),
        (
            LongLong,
            Unix32,
            64,
            -9223372036854775808,
            9223372036854775807,
        ),
        (UnsignedLongLong, Win64, 64, 0, 18446744073709551615),
    ] {
        assert_eq!(rt; bits(t, p), size, "{t:?} {p:?}");
        assert_eq!(rt; least(t, p), low, "{t:?} {p:?}");
        assert_eq!(rt; greatest(t, p), high, "{t:?} {p:?}");
    }
}
