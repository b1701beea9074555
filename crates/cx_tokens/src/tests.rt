//! Tests of lists of tokens.
ghost use Rattle.std.specs.Prelude.{IfSome, IsTrue};
ghost use Rattle.cx_tokens.specs.Nodes.{StandsFrom, is_live};

use crate::laws::from_itself;
use crate::{Kind, Node, Token, TokenList, is_digraph, plain_text};
use cx_base::{Duplicate, NoMemory, Place, SharedList, Text};
use std::alloc::{AllocError, Global};
use std::str;

// More nodes than any of these lists has.
const MANY: usize = 40;

fn kind_of(word: &[u8]) -> Kind {
    match word {
        [b'"', ..] => Kind::String,
        [b'a'..=b'z' | b'A'..=b'Z' | b'_', ..] => Kind::Name,
        [b'0'..=b'9', ..] => Kind::Number,
        _ => Kind::Punct,
    }
}

// The token of a word, whose column is its number in the list.
fn token_of(alloc: Global, word: &[u8], column: u32) -> Result<Token, NoMemory> {
    Ok(Token {
        kind: kind_of(word),
        text: Text::from_slice(alloc, word)?,
        place: Place {
            file: 0,
            line: 1,
            column,
        },
        hide: SharedList::new(),
        space: false,
        parts: SharedList::new(),
        digraph: false,
    })
}

// The words of a text, with a blank between, as tokens.
fn list_of(alloc: Global, text: &str) -> Result<TokenList, NoMemory> {
    let mut list = TokenList::new(alloc);
    let mut last = None;
    let mut column: u32 = 0;
    for word in text.as_bytes().split(|byte| *byte == b' ') {
        if word.is_empty() {
            continue;
        }
        column = column.saturating_add(1);
        last = Some(list.insert_after(last, token_of(alloc, word, column)?)?);
    }
    Ok(list)
}

// The node of an index.
fn node_at(list: &TokenList, index: usize) -> Option<Node>
    ensures { IfSome result (λ n. IsTrue (is_live n list.now.nodes)) }
{
    let mut node = list.first()?;
    for _ in 0..index {
        node = list.next(node)?;
    }
    Some(node)
}

// A node, and the one so many nodes after it.
fn run_at(list: &TokenList, index: usize, more: usize) -> Option<(Node, Node)>
    ensures from_live { IfSome result (λ r. IsTrue (is_live r.0 list.now.nodes)) }
    ensures to_live { IfSome result (λ r. IsTrue (is_live r.1 list.now.nodes)) }
    ensures order { IfSome result (λ r. StandsFrom r.0 r.1 list.now.nodes) }
{
    let from = node_at(list, index)?;
    from_itself();
    let mut to = from;
    for _ in 0..more {
        to = list.next(to)?;
    }
    Some((from, to))
}

fn shown_token(alloc: Global, list: &TokenList, node: Node) -> Result<String, AllocError>
    requires { IsTrue (is_live node list.now.nodes) }
{
    let text = str::from_utf8(list.token(node).text.as_slice()).unwrap_or("?");
    match list.partner(node) {
        None => format!(in alloc; "{text} "),
        Some(partner) => format!(in alloc; "{text}{} ", list.token(partner).place.column),
    }
}

// The texts of the tokens, each with the column of its partner, where it has one.
fn shown(alloc: Global, list: &TokenList) -> Result<String, AllocError> {
    let mut shown = String::new(alloc);
    let mut at = list.first();
    for _ in 0..MANY {
        let Some(node) = at else {
            break;
        };
        shown.push_str(&shown_token(alloc, list, node)?)?;
        at = list.next(node);
    }
    Ok(shown)
}

#[test]
fn tokens_are_put_in(rt: HostRuntime) {
    for (index, expected) in [
        (None, "x a b c "),
        (Some(0), "a x b c "),
        (Some(2), "a b c x "),
    ] {
        let mut list = list_of(rt.alloc(), "a b c").expect(&rt, "memory");
        let at = match index {
            None => None,
            Some(index) => node_at(&list, index),
        };
        let token = token_of(rt.alloc(), b"x", 9).expect(&rt, "memory");
        let copy = token.copy().expect(&rt, "memory");
        let node = list.insert_after(at, copy).expect(&rt, "memory");
        assert_eq!(rt; list.token(node).place, token.place);
        let shown = shown(rt.alloc(), &list).expect(&rt, "memory");
        assert_eq!(rt; shown.as_str(), expected);
    }
}

#[test]
fn tokens_are_taken_out(rt: HostRuntime) {
    for (text, index, expected) in [
        ("a", 0, ""),
        ("a b c", 0, "b c "),
        ("a b c", 2, "a b "),
        ("( [ ] )", 1, "(4 ] )1 "),
        ("( [ ] )", 3, "( [3 ]2 "),
    ] {
        let mut list = list_of(rt.alloc(), text).expect(&rt, "memory");
        assert!(rt; list.pair_brackets().is_ok(), "at {text}");
        let node = node_at(&list, index).expect(&rt, "node");
        let place = list.token(node).place;
        assert_eq!(rt; list.erase(node).place, place);
        let shown = shown(rt.alloc(), &list).expect(&rt, "memory");
        assert_eq!(rt; shown.as_str(), expected, "at {text}");
    }
}

#[test]
fn runs_are_replaced(rt: HostRuntime) {
    for (text, index, more, by, expected) in [
        ("a b c", 0, 0, "x y", "x y b c "),
        ("a b c", 1, 1, "x", "a x "),
        ("a b c", 1, 0, "", "a c "),
        ("a b c", 0, 2, "", ""),
        ("a b c", 2, 0, "x y z", "a b x y z "),
        ("( [ ] )", 0, 1, "( )", "( ) ] ) "),
        ("( [ ] )", 1, 1, "x y z", "(4 x y z )1 "),
    ] {
        let mut list = list_of(rt.alloc(), text).expect(&rt, "memory");
        assert!(rt; list.pair_brackets().is_ok(), "at {text}");
        let mut by = list_of(rt.alloc(), by).expect(&rt, "memory");
        assert!(rt; by.pair_brackets().is_ok(), "at {text}");
        let (from, to) = run_at(&list, index, more).expect(&rt, "run");
        list.splice(from, to, &by).expect(&rt, "memory");
        let shown = shown(rt.alloc(), &list).expect(&rt, "memory");
        assert_eq!(rt; shown.as_str(), expected, "at {text}");
    }
}

#[test]
fn brackets_are_paired(rt: HostRuntime) {
    for (text, unpaired, expected) in [
        ("", 0, ""),
        ("a", 0, "a "),
        ("f ( [ ] { } )", 0, "f (7 [4 ]3 {6 }5 )2 "),
        ("( ) ( )", 0, "(2 )1 (4 )3 "),
        ("( ]", 2, "( ] "),
        ("{ [ } ]", 3, "{ [ } ] "),
        ("( ) ]", 3, "( ) ] "),
        ("( { ( )", 2, "( { ( ) "),
        ("a )", 2, "a ) "),
    ] {
        let mut list = list_of(rt.alloc(), text).expect(&rt, "memory");
        let column = match list.pair_brackets() {
            Ok(()) => 0,
            Err(refused) => refused.at.column,
        };
        assert_eq!(rt; column, unpaired, "at {text}");
        let shown = shown(rt.alloc(), &list).expect(&rt, "memory");
        assert_eq!(rt; shown.as_str(), expected, "at {text}");
    }
}

#[test]
fn lists_are_simplified(rt: HostRuntime) {
    for (text, expected) in [
        (
            "extern inline int f ( void ) __attribute__ ( ( x ( 1 ) ) ) ;",
            "extern int f (7 void )5 ; ",
        ),
        ("inlined register x", "inlined x "),
        ("\"a\" inline \"b\"", "\"ab\" "),
        ("\"a\" \"b\" \"c\" x \"d\"", "\"abc\" x \"d\" "),
        ("__attribute__ [ x ]", "[4 x ]2 "),
        ("__attribute__ inline ( x )", "(5 x )3 "),
        ("__declspec ( y ) x __attribute__", "x "),
        ("__attribute__ __attribute__ ( y ) x", "x "),
        ("_Pragma ( y ) int g", "int g "),
        ("_Pragma x", "x "),
        ("", ""),
    ] {
        let mut list = list_of(rt.alloc(), text).expect(&rt, "memory");
        list.pair_brackets().expect(&rt, "nested");
        list.simplify().expect(&rt, "memory");
        let shown = shown(rt.alloc(), &list).expect(&rt, "memory");
        assert_eq!(rt; shown.as_str(), expected, "at {text}");
    }
}

#[test]
fn joined_strings_keep_their_parts(rt: HostRuntime) {
    for (text, expected, parts) in [
        ("\"\\x4\" \"1\"", b"\"\\x41\"".as_slice(), [3, 1].as_slice()),
        (
            "\"a\" \"bc\" \"\" \"def\" x",
            b"\"abcdef\"".as_slice(),
            [1, 2, 0, 3].as_slice(),
        ),
        (
            "\"a\" inline \"b\" __declspec ( y ) \"c\"",
            b"\"abc\"".as_slice(),
            [1, 1, 1].as_slice(),
        ),
        ("\"a\" x \"b\"", b"\"a\"".as_slice(), [].as_slice()),
    ] {
        let mut list = list_of(rt.alloc(), text).expect(&rt, "memory");
        list.pair_brackets().expect(&rt, "nested");
        list.simplify().expect(&rt, "memory");
        let node = list.first().expect(&rt, "node");
        let token = list.token(node);
        assert_eq!(rt; token.text.as_slice(), expected);
        assert_eq!(rt; token.parts.as_slice(), parts);
    }
}

#[test]
fn lists_are_copied(rt: HostRuntime) {
    let mut list = list_of(rt.alloc(), "a ( b )").expect(&rt, "memory");
    list.pair_brackets().expect(&rt, "nested");
    let copy = list.duplicate().expect(&rt, "memory");
    let last = node_at(&copy, 3).expect(&rt, "node");
    assert!(rt; copy.previous(last) == node_at(&copy, 2));
    let shown = shown(rt.alloc(), &copy).expect(&rt, "memory");
    assert_eq!(rt; shown.as_str(), "a (4 b )2 ");
}

#[test]
fn lists_are_made_of_their_tokens(rt: HostRuntime) {
    let list = list_of(rt.alloc(), "a ( b , c )").expect(&rt, "memory");
    let tokens = list.into_vec().expect(&rt, "memory");
    assert_eq!(rt; tokens.len(), 6);
    let again = TokenList::from_vec(rt.alloc(), tokens).expect(&rt, "memory");
    let text = shown(rt.alloc(), &again).expect(&rt, "memory");
    assert_eq!(rt; text.as_str(), "a ( b , c ) ");
}

#[test]
fn digraphs_keep_their_spelling(rt: HostRuntime) {
    for (kind, spelled, plain, digraph) in [
        (Kind::Punct, b"<:".as_slice(), b"[".as_slice(), true),
        (Kind::Punct, b"%:%:".as_slice(), b"##".as_slice(), true),
        (Kind::Punct, b"%".as_slice(), b"%".as_slice(), false),
        (Kind::Other, b"<:".as_slice(), b"<:".as_slice(), false),
    ] {
        assert_eq!(rt; plain_text(kind, spelled), plain);
        assert!(rt; is_digraph(kind, spelled) == digraph);
        let mut token = token_of(rt.alloc(), plain, 1).expect(&rt, "memory");
        token.kind = kind;
        token.digraph = digraph;
        let token = token.copy().expect(&rt, "memory");
        assert_eq!(rt; token.spelling(), spelled);
    }
}

// Whether a number is that of no node.
fn is_free(list: &TokenList, node: Node) -> bool {
    for index in 0..MANY {
        let Some(other) = node_at(list, index) else {
            return true;
        };
        if other.number() == node.number() {
            return false;
        }
    }
    true
}

#[test]
fn room_is_made_and_kept(rt: HostRuntime) {
    let mut list = list_of(rt.alloc(), "a b c").expect(&rt, "memory");
    list.reserve(2).expect(&rt, "memory");
    assert!(rt; list.spare() >= 2);
    let node = node_at(&list, 1).expect(&rt, "node");
    assert_eq!(rt; list.erase(node).text.as_slice(), b"b".as_slice());
    assert!(rt; list.spare() >= 3);
    assert!(rt; is_free(&list, node));
    let first = list.first().expect(&rt, "node");
    let token = token_of(rt.alloc(), b"x", 4).expect(&rt, "memory");
    let new = list.insert_after(Some(first), token).expect(&rt, "memory");
    assert!(rt; list.spare() >= 2);
    assert!(rt; list.previous(new) == Some(first));
    let shown = shown(rt.alloc(), &list).expect(&rt, "memory");
    assert_eq!(rt; shown.as_str(), "a x c ");
    assert!(rt; list.reserve(4294967295).is_err());
}

// Takes a token out of a list and of its model.
fn erase_at(list: &mut TokenList, model: &mut Vec<u32>, index: usize) {
    let Some(node) = node_at(list, index) else {
        return;
    };
    if index < model.len() {
        list.erase(node);
        model.remove(index);
    }
}

// Puts a token with a column into a list and into its model.
fn insert_at(
    list: &mut TokenList,
    model: &mut Vec<u32>,
    index: usize,
    token: Token,
) -> Result<(), NoMemory> {
    let at = match index.checked_sub(1) {
        None => None,
        Some(before) => node_at(list, before),
    };
    model.insert(index.min(model.len()), token.place.column)?;
    list.insert_after(at, token)?;
    Ok(())
}

// Whether the columns of a list are those of its model, and its links lead back.
fn is_model(list: &TokenList, model: &[u32]) -> bool {
    let mut at = list.first();
    let mut last = None;
    for column in model {
        let Some(node) = at else {
            return false;
        };
        if list.token(node).place.column != *column || list.previous(node) != last {
            return false;
        }
        last = at;
        at = list.next(node);
    }
    at.is_none()
}

#[test]
fn mixed_edits_are_those_of_a_plain_list(rt: HostRuntime) {
    let mut list = TokenList::new(rt.alloc());
    let mut model = Vec::new(rt.alloc());
    let mut picked: u32 = 1;
    for column in 0..1000 {
        picked = picked.wrapping_mul(1664525).wrapping_add(1013904223);
        let index = (picked >> 16) as usize % (model.len() + 1);
        if picked >> 30 == 0 {
            erase_at(&mut list, &mut model, index);
        } else {
            let token = token_of(rt.alloc(), b"a", column).expect(&rt, "memory");
            insert_at(&mut list, &mut model, index, token).expect(&rt, "memory");
        }
        assert!(rt; is_model(&list, model.as_slice()));
    }
    assert!(rt; model.len() > 100);
}
