//! The punctuators of C (C11 6.4.6).
ghost use Rattle.std.specs.Prelude.{◌≡◌};
ghost use Rattle.cx_terminals.specs.Terminals.{looked_up, punctuators};

use crate::table::looked_up;
use cx_syntax_tree::Punctuator;

const PUNCTUATORS: [(&[u8], Punctuator); 48] = [
    (b"[", Punctuator::OpenSquare),
    (b"]", Punctuator::CloseSquare),
    (b"(", Punctuator::OpenRound),
    (b")", Punctuator::CloseRound),
    (b"{", Punctuator::OpenCurly),
    (b"}", Punctuator::CloseCurly),
    (b".", Punctuator::Dot),
    (b"->", Punctuator::Arrow),
    (b"++", Punctuator::PlusPlus),
    (b"--", Punctuator::MinusMinus),
    (b"&", Punctuator::Ampersand),
    (b"*", Punctuator::Star),
    (b"+", Punctuator::Plus),
    (b"-", Punctuator::Minus),
    (b"~", Punctuator::Tilde),
    (b"!", Punctuator::Exclamation),
    (b"/", Punctuator::Slash),
    (b"%", Punctuator::Percent),
    (b"<<", Punctuator::LessLess),
    (b">>", Punctuator::GreaterGreater),
    (b"<", Punctuator::Less),
    (b">", Punctuator::Greater),
    (b"<=", Punctuator::LessEqual),
    (b">=", Punctuator::GreaterEqual),
    (b"==", Punctuator::EqualEqual),
    (b"!=", Punctuator::ExclamationEqual),
    (b"^", Punctuator::Caret),
    (b"|", Punctuator::Bar),
    (b"&&", Punctuator::AmpersandAmpersand),
    (b"||", Punctuator::BarBar),
    (b"?", Punctuator::Question),
    (b":", Punctuator::Colon),
    (b";", Punctuator::Semicolon),
    (b"...", Punctuator::Ellipsis),
    (b"=", Punctuator::Equal),
    (b"*=", Punctuator::StarEqual),
    (b"/=", Punctuator::SlashEqual),
    (b"%=", Punctuator::PercentEqual),
    (b"+=", Punctuator::PlusEqual),
    (b"-=", Punctuator::MinusEqual),
    (b"<<=", Punctuator::LessLessEqual),
    (b">>=", Punctuator::GreaterGreaterEqual),
    (b"&=", Punctuator::AmpersandEqual),
    (b"^=", Punctuator::CaretEqual),
    (b"|=", Punctuator::BarEqual),
    (b",", Punctuator::Comma),
    (b"#", Punctuator::Hash),
    (b"##", Punctuator::HashHash),
];

/// The punctuator with a text. A digraph has the text of its plain form.
pub(crate) fn punctuator(text: &[u8]) -> Option<Punctuator>
    ensures { result ≡ looked_up text.now punctuators }
{
    looked_up(text, &PUNCTUATORS)
}
