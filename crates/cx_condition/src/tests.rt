//! Values of conditions.
use crate::condition::value_of;
use crate::{Value, character_value, integer_constant};
use cx_base::{NoMemory, Place, SharedList, Text};
use cx_tokens::{Kind, Token};
use std::alloc::{AllocError, Global};

fn kind_of(word: &[u8]) -> Kind {
    match word {
        [b'\'', ..] => Kind::Char,
        [b'"', ..] => Kind::String,
        [b'a'..=b'z' | b'A'..=b'Z' | b'_', ..] => Kind::Name,
        [b'0'..=b'9', ..] => Kind::Number,
        [b'@', ..] => Kind::Other,
        _ => Kind::Punct,
    }
}

fn token_of(alloc: Global, word: &[u8], space: bool) -> Result<Token, NoMemory> {
    Ok(Token {
        kind: kind_of(word),
        text: Text::from_slice(alloc, word)?,
        place: Place {
            file: 0,
            line: 1,
            column: 1,
        },
        hide: SharedList::new(),
        space,
        parts: SharedList::new(),
        digraph: false,
    })
}

// The words of a text as tokens. A blank is a separator between two, a backtick none.
fn tokens_of(alloc: Global, text: &[u8]) -> Result<Vec<Token>, NoMemory> {
    let mut tokens = Vec::new(alloc);
    for run in text.split(|byte| *byte == b' ') {
        let mut space = true;
        for word in run.split(|byte| *byte == b'`') {
            if !word.is_empty() {
                tokens.push(token_of(alloc, word, space)?)?;
            }
            space = false;
        }
    }
    Ok(tokens)
}

// A value as C writes it; `none` where there is none.
fn shown(alloc: Global, value: Option<Value>) -> Result<String, AllocError> {
    let Some(value) = value else {
        return format!(in alloc; "none");
    };
    let bits = value.bits;
    if value.is_unsigned {
        return format!(in alloc; "{bits}u");
    }
    if bits >= 9_223_372_036_854_775_808 {
        let below = 0_u64.wrapping_sub(bits);
        return format!(in alloc; "-{below}");
    }
    format!(in alloc; "{bits}")
}

fn answer(alloc: Global, text: &str) -> Result<String, NoMemory> {
    let tokens = tokens_of(alloc, text.as_bytes())?;
    let value = value_of(alloc, &tokens)?;
    Ok(shown(alloc, value)?)
}

// Each operator, and which binds more tightly.
const OPERATORS: [(&str, &str); 48] = [
    ("6 * 7", "42"),
    ("- 7 / 2", "-3"),
    ("- 7 % 2", "-1"),
    ("7 / - 2", "-3"),
    ("7 % - 2", "1"),
    ("6 + 7", "13"),
    ("6 - 7", "-1"),
    ("3 << 2", "12"),
    ("- 5 >> 1", "-3"),
    ("1 < 2", "1"),
    ("2 < 1", "0"),
    ("2 > 1", "1"),
    ("1 > 1", "0"),
    ("1 <= 1", "1"),
    ("2 <= 1", "0"),
    ("1 >= 2", "0"),
    ("1 >= 1", "1"),
    ("3 == 3", "1"),
    ("3 != 3", "0"),
    ("12 & 10", "8"),
    ("12 ^ 10", "6"),
    ("12 | 10", "14"),
    ("2 && 3", "1"),
    ("2 && 0", "0"),
    ("0 || 3", "1"),
    ("0 || 0", "0"),
    ("+ 3", "3"),
    ("- 3", "-3"),
    ("~ 3", "-4"),
    ("! 3", "0"),
    ("! 0u", "1"),
    ("1 ? 2 : 3", "2"),
    ("0 ? 2 : 3", "3"),
    ("2 + 3 * 4", "14"),
    ("2 * 3 + 4", "10"),
    ("1 << 2 + 1", "8"),
    ("1 < 2 << 1", "1"),
    ("1 == 2 < 3", "1"),
    ("2 & 2 == 2", "0"),
    ("3 ^ 1 & 2", "3"),
    ("1 | 3 ^ 2", "1"),
    ("0 && 0 | 1", "0"),
    ("1 || 0 && 0", "1"),
    ("1 || 0 ? 2 : 3", "2"),
    ("- 2 * - 3", "6"),
    ("! 1 + 1", "1"),
    ("( 2 + 3 ) * 4", "20"),
    ("- ( 1 + 2 )", "-3"),
];

// From left to right, and `?:` from right to left; types; what is not evaluated.
const RULES: [(&str, &str); 46] = [
    ("10 - 3 - 2", "5"),
    ("100 / 10 / 5", "2"),
    ("100 / 10 * 5", "50"),
    ("1 << 2 << 3", "32"),
    ("3 > 2 > 1", "0"),
    ("2 == 2 == 1", "1"),
    ("0 ? 1 : 0 ? 2 : 3", "3"),
    ("1 ? 0 ? 1 : 2 : 3", "2"),
    ("- 1 > 0u", "1"),
    ("- 1 < 0u", "0"),
    ("- 1 == 18446744073709551615u", "1"),
    ("( 1 ? - 1 : 0u ) > 0", "1"),
    ("( 0 ? 0u : - 1 ) > 0", "1"),
    ("1 << 64", "0"),
    ("1u << 63", "9223372036854775808u"),
    ("- 1 >> 64", "-1"),
    ("1 >> - 1", "2"),
    ("8 << - 2", "2"),
    ("- 1 << - 1", "-1"),
    ("- 1 << 63", "-9223372036854775808"),
    ("1 << 18446744073709551615u", "0"),
    ("( 0u - 1 ) >> 1", "9223372036854775807u"),
    ("9223372036854775807 + 1", "-9223372036854775808"),
    (
        "( - 9223372036854775807 - 1 ) / - 1",
        "-9223372036854775808",
    ),
    ("( - 9223372036854775807 - 1 ) % - 1", "0"),
    ("4294967296 * 4294967296", "0"),
    ("- 1 / 2u", "9223372036854775807u"),
    ("- 1 % 10u", "5u"),
    ("0 && 1 / 0", "0"),
    ("1 || 1 / 0", "1"),
    ("1 ? 2 : 1 / 0", "2"),
    ("0 ? 1 / 0 : 2", "2"),
    ("1 / 0 && 0", "none"),
    ("1 / 0 || 1", "none"),
    ("1 && 1 / 0", "none"),
    ("0 || 1 % 0", "none"),
    ("1 ? 1 / 0 : 2", "none"),
    ("1 % 0", "none"),
    ("1 / 0 ? 1 : 2", "none"),
    ("! ( 1 / 0 )", "none"),
    ("( 0 && 1 / 0 ) + 5", "5"),
    ("~ 0u", "18446744073709551615u"),
    ("- 1u", "18446744073709551615u"),
    ("1 && 0u", "0"),
    ("1u < 2u", "1"),
    ("1u + 1", "2u"),
];

// Constants and names.
const CONSTANTS: [(&str, &str); 50] = [
    ("0", "0"),
    ("010", "8"),
    ("0777", "511"),
    ("0x1F", "31"),
    ("0Xff", "255"),
    ("7u", "7u"),
    ("7U", "7u"),
    ("7l", "7"),
    ("7LL", "7"),
    ("7ul", "7u"),
    ("7Lu", "7u"),
    ("7llU", "7u"),
    ("7ULL", "7u"),
    ("9223372036854775807", "9223372036854775807"),
    ("9223372036854775808", "9223372036854775808u"),
    ("18446744073709551615", "18446744073709551615u"),
    ("0xffffffffffffffff", "18446744073709551615u"),
    ("18446744073709551616", "none"),
    ("08", "none"),
    ("0x", "none"),
    ("0xg", "none"),
    ("1.0", "none"),
    ("1lL", "none"),
    ("1lul", "none"),
    ("1uu", "none"),
    ("1lll", "none"),
    ("1e5", "none"),
    ("abc", "0"),
    ("sizeof", "0"),
    ("'a'", "97"),
    ("'\\n'", "10"),
    ("'\\''", "39"),
    ("'\"'", "34"),
    ("'\\\\'", "92"),
    ("'\\0'", "0"),
    ("'\\101'", "65"),
    ("'\\377'", "-1"),
    ("'\\351'", "-23"),
    ("'\\xe9'", "-23"),
    ("'\\x00041'", "65"),
    ("'\\400'", "none"),
    ("'\\1234'", "none"),
    ("'\\x100'", "none"),
    ("'\\x'", "none"),
    ("'\\q'", "none"),
    ("'ab'", "none"),
    ("''", "none"),
    ("L`'a'", "97"),
    ("u`'\\177' + U`'b'", "225"),
    ("L + 1", "1"),
];

// What has no reading.
const UNREAD: [&str; 36] = [
    "",
    "1 +",
    "( 1",
    "1 )",
    "1 ? 2",
    "1 ? 2 :",
    "? :",
    "1 : 2",
    "1 ? 2 : 3 : 4",
    "1 ? : 2",
    "1 2",
    "a b",
    "( )",
    "1 = 1",
    "1 , 2",
    "f ( 1 )",
    "sizeof ( int )",
    "\"a\"",
    "@",
    "* 1",
    "& 1",
    "1 ++ 2",
    "1 !",
    "1 ~ 2",
    "( 1 ) ( 2 )",
    "( ( 1 )",
    "( 1 ? 2 ) : 3",
    "+",
    "L 'a'",
    "L`'\\351'",
    "L`'ab'",
    "u8`'a'",
    "L`u`'a'",
    "'a' 'b'",
    "1 [ 2 ]",
    "# 1",
];

#[test]
fn operators_are_evaluated(rt: HostRuntime) {
    for (text, expected) in OPERATORS {
        let answer = answer(rt.alloc(), text).expect(&rt, "memory");
        assert_eq!(rt; answer.as_str(), expected, "at {text}");
    }
}

#[test]
fn rules_are_followed(rt: HostRuntime) {
    for (text, expected) in RULES {
        let answer = answer(rt.alloc(), text).expect(&rt, "memory");
        assert_eq!(rt; answer.as_str(), expected, "at {text}");
    }
}

#[test]
fn constants_have_their_values(rt: HostRuntime) {
    for (text, expected) in CONSTANTS {
        let answer = answer(rt.alloc(), text).expect(&rt, "memory");
        assert_eq!(rt; answer.as_str(), expected, "at {text}");
    }
}

#[test]
fn other_tokens_have_no_value(rt: HostRuntime) {
    for text in UNREAD {
        let answer = answer(rt.alloc(), text).expect(&rt, "memory");
        assert_eq!(rt; answer.as_str(), "none", "at {text}");
    }
}

#[test]
fn constants_are_found(rt: HostRuntime) {
    let found = integer_constant(b"0x1Ful").expect(&rt, "a constant");
    assert_eq!(rt; found.value, 31);
    assert!(rt; found.is_unsigned);
    let byte = character_value(b"'\\x41'").expect(&rt, "a byte");
    assert_eq!(rt; byte, 65);
}
