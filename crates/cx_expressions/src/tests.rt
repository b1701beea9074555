//! Expressions and how they group, worked out from C11 6.5.
use crate::written::write_expr;
use crate::{assignment, conditional, expression};
use cx_reading::{Cursor, Refusal};
use cx_syntax_tree::{Keyword, Lexeme, Punctuator, Terminal};
use std::alloc::{AllocError, Global};

/// Words that are no letter and no digit: a small letter is a name, a capital one the name of a
/// type.
static WORDS: [(&str, Terminal); 52] = [
    ("sizeof", Terminal::Keyword(Keyword::Sizeof)),
    ("int", Terminal::Keyword(Keyword::Int)),
    ("const", Terminal::Keyword(Keyword::Const)),
    ("if", Terminal::Keyword(Keyword::If)),
    ("'c'", Terminal::Char),
    ("\"s\"", Terminal::String),
    ("[", Terminal::Punctuator(Punctuator::OpenSquare)),
    ("]", Terminal::Punctuator(Punctuator::CloseSquare)),
    ("(", Terminal::Punctuator(Punctuator::OpenRound)),
    (")", Terminal::Punctuator(Punctuator::CloseRound)),
    ("{", Terminal::Punctuator(Punctuator::OpenCurly)),
    (".", Terminal::Punctuator(Punctuator::Dot)),
    ("->", Terminal::Punctuator(Punctuator::Arrow)),
    ("++", Terminal::Punctuator(Punctuator::PlusPlus)),
    ("--", Terminal::Punctuator(Punctuator::MinusMinus)),
    ("&", Terminal::Punctuator(Punctuator::Ampersand)),
    ("*", Terminal::Punctuator(Punctuator::Star)),
    ("+", Terminal::Punctuator(Punctuator::Plus)),
    ("-", Terminal::Punctuator(Punctuator::Minus)),
    ("~", Terminal::Punctuator(Punctuator::Tilde)),
    ("!", Terminal::Punctuator(Punctuator::Exclamation)),
    ("/", Terminal::Punctuator(Punctuator::Slash)),
    ("%", Terminal::Punctuator(Punctuator::Percent)),
    ("<<", Terminal::Punctuator(Punctuator::LessLess)),
    (">>", Terminal::Punctuator(Punctuator::GreaterGreater)),
    ("<", Terminal::Punctuator(Punctuator::Less)),
    (">", Terminal::Punctuator(Punctuator::Greater)),
    ("<=", Terminal::Punctuator(Punctuator::LessEqual)),
    (">=", Terminal::Punctuator(Punctuator::GreaterEqual)),
    ("==", Terminal::Punctuator(Punctuator::EqualEqual)),
    ("!=", Terminal::Punctuator(Punctuator::ExclamationEqual)),
    ("^", Terminal::Punctuator(Punctuator::Caret)),
    ("|", Terminal::Punctuator(Punctuator::Bar)),
    ("&&", Terminal::Punctuator(Punctuator::AmpersandAmpersand)),
    ("||", Terminal::Punctuator(Punctuator::BarBar)),
    ("?", Terminal::Punctuator(Punctuator::Question)),
    (":", Terminal::Punctuator(Punctuator::Colon)),
    (";", Terminal::Punctuator(Punctuator::Semicolon)),
    ("=", Terminal::Punctuator(Punctuator::Equal)),
    ("*=", Terminal::Punctuator(Punctuator::StarEqual)),
    ("/=", Terminal::Punctuator(Punctuator::SlashEqual)),
    ("%=", Terminal::Punctuator(Punctuator::PercentEqual)),
    ("+=", Terminal::Punctuator(Punctuator::PlusEqual)),
    ("-=", Terminal::Punctuator(Punctuator::MinusEqual)),
    ("<<=", Terminal::Punctuator(Punctuator::LessLessEqual)),
    (">>=", Terminal::Punctuator(Punctuator::GreaterGreaterEqual)),
    ("&=", Terminal::Punctuator(Punctuator::AmpersandEqual)),
    ("^=", Terminal::Punctuator(Punctuator::CaretEqual)),
    ("|=", Terminal::Punctuator(Punctuator::BarEqual)),
    (",", Terminal::Punctuator(Punctuator::Comma)),
    ("...", Terminal::Punctuator(Punctuator::Ellipsis)),
    ("#", Terminal::Punctuator(Punctuator::Hash)),
];

/// Expressions, how they group (a type is written `T`, written brackets as `{ }`), and how many
/// tokens stand behind them.
static TREES: [(&str, &str, usize); 76] = [
    ("a", "a", 0),
    ("1", "1", 0),
    ("'c'", "'", 0),
    ("\"s\"", "\"", 0),
    ("( a )", "{a}", 0),
    ("( ( a ) )", "{{a}}", 0),
    ("f ( )", "f()", 0),
    ("f ( a )", "f(a)", 0),
    ("f ( a , b = c )", "f(a,(b=c))", 0),
    ("f ( ( a , b ) )", "f({a,b})", 0),
    ("f ( a ) ( b )", "f(a)", 3),
    ("a [ b ] [ c , d ]", "((a[b])[c,d])", 0),
    ("a . b -> c", "((a.b)->c)", 0),
    ("a . T", "(a.T)", 0),
    ("a ++ --", "((a++)--)", 0),
    ("f ( ) . a [ 1 ] ++", "(((f().a)[1])++)", 0),
    ("++ a", "(++a)", 0),
    ("- - a", "(-(-a))", 0),
    ("-- - a", "(--(-a))", 0),
    ("- -- a", "(-(--a))", 0),
    ("* p ++", "(*(p++))", 0),
    ("++ * p", "(++(*p))", 0),
    ("++ a . b", "(++(a.b))", 0),
    ("& a [ 0 ]", "(&(a[1]))", 0),
    ("! ~ + a", "(!(~(+a)))", 0),
    ("sizeof a", "(sizeof a)", 0),
    ("sizeof ( a )", "(sizeof {a})", 0),
    ("sizeof ( T )", "sizeof(T)", 0),
    ("sizeof ( int const * )", "sizeof(T)", 0),
    ("sizeof ( int ) * p", "(sizeof(T)*p)", 0),
    ("sizeof ( a ) * p", "((sizeof {a})*p)", 0),
    ("sizeof ( a ) [ 1 ]", "(sizeof ({a}[1]))", 0),
    ("sizeof sizeof a", "(sizeof (sizeof a))", 0),
    ("sizeof ++ a", "(sizeof (++a))", 0),
    ("sizeof - a", "(sizeof (-a))", 0),
    ("sizeof ( T ) a", "sizeof(T)", 1),
    ("( T ) a", "((T)a)", 0),
    ("( T ) - 1", "((T)(-1))", 0),
    ("( a ) - 1", "({a}-1)", 0),
    ("( T ) ( a ) + b", "(((T){a})+b)", 0),
    ("( T * ) ( int ) a ++", "((T)((T)(a++)))", 0),
    ("- ( T ) a", "(-((T)a))", 0),
    ("a - b - c", "((a-b)-c)", 0),
    ("a - ( b - c )", "(a-{(b-c)})", 0),
    ("a * b + c * d", "((a*b)+(c*d))", 0),
    ("a + b * c - d / e % f", "((a+(b*c))-((d/e)%f))", 0),
    ("a << b + c >> d", "((a<<(b+c))>>d)", 0),
    ("a < b << c <= d", "((a<(b<<c))<=d)", 0),
    ("a == b < c != d", "((a==(b<c))!=d)", 0),
    ("a & b == c", "(a&(b==c))", 0),
    ("a ^ b & c", "(a^(b&c))", 0),
    ("a | b ^ c | d", "((a|(b^c))|d)", 0),
    ("a && b | c", "(a&&(b|c))", 0),
    ("a || b && c || d", "((a||(b&&c))||d)", 0),
    (
        "a || b && c | d ^ e & f == g < h << i + j * k",
        "(a||(b&&(c|(d^(e&(f==(g<(h<<(i+(j*k))))))))))",
        0,
    ),
    (
        "a * b + c << d < e == f & g ^ h | i && j || k",
        "((((((((((a*b)+c)<<d)<e)==f)&g)^h)|i)&&j)||k)",
        0,
    ),
    ("a & & b", "(a&(&b))", 0),
    ("a && & b", "(a&&(&b))", 0),
    ("a ? b : c", "(a?b:c)", 0),
    ("a ? b : c ? d : e", "(a?b:(c?d:e))", 0),
    ("a ? b ? c : d : e", "(a?(b?c:d):e)", 0),
    ("a ? b , c : d", "(a?b,c:d)", 0),
    ("a ? b = c : d", "(a?(b=c):d)", 0),
    ("a || b ? c : d || e", "((a||b)?c:(d||e))", 0),
    ("a = b = c", "(a=(b=c))", 0),
    ("a += b -= c", "(a+=(b-=c))", 0),
    ("* p = a ? b : c", "((*p)=(a?b:c))", 0),
    ("a = b , c = d , e", "(a=b),(c=d),e", 0),
    ("a + b = c", "(a+b)", 2),
    ("( T ) a = b", "((T)a)", 2),
    ("a ? b : c = d", "(a?b:c)", 2),
    ("a b", "a", 1),
    ("a ;", "a", 1),
    ("a ]", "a", 1),
    ("a #", "a", 1),
    ("a * p ...", "(a*p)", 1),
];

/// Tokens in front of which no expression stands.
static NONE: [&str; 24] = [
    "",
    ")",
    "*",
    "+",
    "a +",
    "a ?",
    "a ? b",
    "a ? b :",
    "a ? : b",
    "a =",
    "a ,",
    "f (",
    "f ( a ,",
    "f ( a",
    "( a",
    "( )",
    "( T )",
    "T",
    "int",
    "sizeof",
    "sizeof ( T",
    "a [ ]",
    "a . 1",
    "if",
];

/// The terminal symbol of a word.
fn terminal(word: &str) -> Terminal {
    match word.as_bytes() {
        [letter @ b'a'..=b'z'] => return Terminal::Name(u32::from(*letter)),
        [letter @ b'A'..=b'Z'] => return Terminal::TypeName(u32::from(*letter)),
        [b'0'..=b'9'] => return Terminal::Number,
        _ => {}
    }
    for (text, found) in &WORDS {
        if word == *text {
            return *found;
        }
    }
    Terminal::Foreign
}

/// The tokens of a text whose words are parted by spaces.
fn lexemes(alloc: Global, text: &str) -> Result<Vec<Lexeme>, AllocError> {
    let mut found = Vec::new(alloc);
    let mut at = 0u32;
    for word in text.split(' ') {
        if !word.is_empty() {
            found.push(Lexeme {
                terminal: terminal(word),
                at,
            })?;
            at = at.wrapping_add(1);
        }
    }
    Ok(found)
}

/// Reads an expression, and writes how it groups; and how many tokens are left.
fn read(alloc: Global, text: &str, depth: usize) -> Result<(String, usize), AllocError> {
    let tokens = lexemes(alloc, text)?;
    let mut cursor = Cursor::new(tokens.as_slice());
    let mut out = String::new(alloc);
    match expression(alloc, &mut cursor, depth) {
        Ok(tree) => write_expr(&mut out, &tree, 1000)?,
        Err(Refusal::Syntax) => {
            out.push_str("none")?;
            return Ok((out, 0));
        }
        Err(Refusal::NoMemory) => out.push_str("no memory")?,
    }
    Ok((out, cursor.left()))
}

#[test]
fn groups_as_the_grammar_says(rt: HostRuntime) -> Result<(), AllocError> {
    for (text, want, left) in &TREES {
        let (found, rest) = read(rt.alloc(), text, 64)?;
        assert_eq!(rt; found.as_str(), *want, "{text}");
        assert_eq!(rt; rest, *left, "behind {text}");
    }
    Ok(())
}

#[test]
fn reads_nothing(rt: HostRuntime) -> Result<(), AllocError> {
    for text in &NONE {
        let (found, _) = read(rt.alloc(), text, 64)?;
        assert_eq!(rt; found.as_str(), "none", "{text}");
    }
    Ok(())
}

/// What stops an assignment goes on with an expression, and what stops a conditional with an
/// assignment.
#[test]
fn parts_of_expressions(rt: HostRuntime) -> Result<(), AllocError> {
    let tokens = lexemes(rt.alloc(), "a = b , c")?;
    let mut cursor = Cursor::new(tokens.as_slice());
    assert!(rt; assignment(rt.alloc(), &mut cursor, 3).is_ok());
    assert_eq!(rt; cursor.left(), 2);
    let mut cursor = Cursor::new(tokens.as_slice());
    assert!(rt; conditional(rt.alloc(), &mut cursor, 3).is_ok());
    assert_eq!(rt; cursor.left(), 4);
    Ok(())
}

/// Each bracket and each operator before its operand takes one of the depth, and the assignment
/// itself one.
#[test]
fn depth_is_counted(rt: HostRuntime) -> Result<(), AllocError> {
    for (text, enough) in [
        ("a", 1),
        ("( a )", 2),
        ("- a", 2),
        ("a + b + c", 1),
        ("( ( - a ) )", 4),
    ] {
        let (found, _) = read(rt.alloc(), text, enough)?;
        assert!(rt; found.as_str() != "none", "{text}");
        let (found, _) = read(rt.alloc(), text, enough - 1)?;
        assert_eq!(rt; found.as_str(), "none", "{text}");
    }
    Ok(())
}

/// Chains of 100,000 operators and 50,000 suffixes are read by loops.
#[test]
fn long_chains(rt: HostRuntime) -> Result<(), AllocError> {
    for (word, count) in [("+ a", 100_000), ("++", 50_000), (", a", 50_000)] {
        let mut tokens = lexemes(rt.alloc(), "a")?;
        let more = lexemes(rt.alloc(), word)?;
        for _turn in 0..count {
            for token in more.as_slice() {
                tokens.push(*token)?;
            }
        }
        let mut cursor = Cursor::new(tokens.as_slice());
        assert!(rt; expression(rt.alloc(), &mut cursor, 2).is_ok(), "{word}");
        assert_eq!(rt; cursor.left(), 0, "{word}");
    }
    Ok(())
}
