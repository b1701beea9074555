//! Punctuators.
ghost use Rattle.std.specs.Prelude.{◌≡◌, Some, None, IfOk, MatchOption};
ghost use Rattle.cx_lex.specs.Shapes.Scanning.{found_rest, found_word, longest, rest_after_begin, table, words_of};

use crate::bytes::first;
use crate::character::Character;
use crate::cursor::Cursor;
use cx_base::{NoMemory, Text};
use std::alloc::Global;

// The punctuators (C11 6.4.6), the longest first, so that the first that stands somewhere is the
// longest that does.
const PUNCTUATORS: [&[u8]; 54] = [
    b"%:%:", b"...", b"<<=", b">>=", b"->", b"++", b"--", b"<<", b">>", b"<=", b">=", b"==", b"!=",
    b"&&", b"||", b"*=", b"/=", b"%=", b"+=", b"-=", b"&=", b"^=", b"|=", b"##", b"<:", b":>",
    b"<%", b"%>", b"%:", b"[", b"]", b"(", b")", b"{", b"}", b".", b"&", b"*", b"+", b"-", b"~",
    b"!", b"/", b"%", b"<", b">", b"^", b"|", b"?", b":", b";", b"=", b",", b"#",
];

/// Passes the longest punctuator that a character begins, where there is one, and answers its
/// bytes.
pub fn punctuator(
    alloc: Global,
    begin: Character,
    cursor: &mut Cursor,
) -> Result<Option<Text>, NoMemory>
    ensures text { IfOk result (λ text. text ≡ found_word (longest table begin cursor.old)) }
    ensures rest { IfOk result
        (λ text. cursor.new ≡ found_rest cursor.old (longest table begin cursor.old)) }
{
    longest_of(alloc, &PUNCTUATORS, begin, cursor)
}

#[tactic(auto, using(crate::proofs::Behinds::longest_none, crate::proofs::Behinds::longest_here, crate::proofs::Behinds::longest_later))]
fn longest_of(
    alloc: Global,
    words: &[&[u8]],
    begin: Character,
    cursor: &mut Cursor,
) -> Result<Option<Text>, NoMemory>
    ensures text { IfOk result
        (λ text. text ≡ found_word (longest (words_of words.now) begin cursor.old)) }
    ensures rest { IfOk result
        (λ text. cursor.new
        ≡ found_rest cursor.old (longest (words_of words.now) begin cursor.old)) }
{
    for word in words {
        if let Some(rest) = rest_after(word, begin, cursor) {
            let text = Text::from_slice(alloc, word)?;
            *cursor = rest;
            return Ok(Some(text));
        }
    }
    Ok(None)
}

// What is left after a word that a character begins, where the word stands there.
#[tactic(auto, unfolding(crate::specs::Shapes::Scanning::rest_after_begin))]
fn rest_after<'a>(word: &[u8], begin: Character, cursor: &Cursor<'a>) -> Option<Cursor<'a>>
    ensures { MatchOption result (rest_after_begin word.now begin cursor.now ≡ None)
        (λ rest. rest_after_begin word.now begin cursor.now ≡ Some rest) }
{
    let Some((byte, more)) = first(word) else {
        return None;
    };
    if byte != begin.code {
        return None;
    }
    cursor.rest_after(more)
}
