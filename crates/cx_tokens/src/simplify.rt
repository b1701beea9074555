//! Simplified token lists.
ghost use Rattle.std.specs.Prelude.{◌≡◌, ◌-◌, ◌++◌, [], true, IfOk, IsTrue, MatchOption, OnErr, OnOk, Some, length, take, drop};
ghost use Rattle.cx_tokens.specs.declared.token.Token.{Token as token_type};
ghost use Rattle.cx_tokens.specs.Brackets.{IsPaired};
ghost use Rattle.cx_tokens.specs.Nodes.{StandsFrom, first_of, is_live, nodes_after, spliced, token_of};
ghost use Rattle.cx_tokens.specs.Simplified.{IsPartlySimplified, IsSimplified, attribute_words, is_string, is_word_of, lone_words, parts_of};
ghost use Rattle.cx_tokens.specs.Shapes.Sweeping.{HasNoString, IsGone, StringOf, IsNextString, IsRun, IsStaying, IsStringAt, Sweeps};

use crate::bracket::is_punctuator;
use crate::node::Node;
use crate::token::{Kind, Token};
use crate::token_list::TokenList;
use cx_base::{List, NoMemory, SharedList, Text};

// The words that go with a round bracket directly after them.
const ATTRIBUTE_WORDS: [&[u8]; 3] = [b"__attribute__", b"__declspec", b"_Pragma"];

// The words that go alone.
const LONE_WORDS: [&[u8]; 9] = [
    b"inline",
    b"__inline",
    b"__inline__",
    b"register",
    b"auto",
    b"_Noreturn",
    b"restrict",
    b"__restrict",
    b"__extension__",
];

#[tactic(auto, unfolding(crate::specs::Simplified::is_word_of))]
fn is_attribute_word(token: &Token) -> bool
    ensures { result ≡ is_word_of attribute_words token.now }
{
    if token.kind != Kind::Name {
        return false;
    }
    for word in ATTRIBUTE_WORDS {
        if token.text.as_slice() == word {
            return true;
        }
    }
    false
}

#[tactic(auto, unfolding(crate::specs::Simplified::is_word_of))]
fn is_lone_word(token: &Token) -> bool
    ensures { result ≡ is_word_of lone_words token.now }
{
    if token.kind != Kind::Name {
        return false;
    }
    for word in LONE_WORDS {
        if token.text.as_slice() == word {
            return true;
        }
    }
    false
}

fn is_string(token: &Token) -> bool
    ensures { result ≡ is_string token.now.kind }
{
    match token.kind {
        Kind::String => true,
        _ => false,
    }
}

// The last node of what goes with a word, and none where the node stays.
fn word_end(list: &TokenList, node: Node) -> Option<Node>
    requires live { IsTrue (is_live node list.now.nodes) }
    requires paired { IsPaired list.now.nodes }
    ensures { MatchOption result (IsStaying list.now.nodes node) (IsGone list.now.nodes node) }
{
    list.are_numbered();
    let token = list.token(node);
    if is_lone_word(token) {
        return Some(node);
    }
    if !is_attribute_word(token) {
        return None;
    }
    Some(attribute_end(list, node))
}

// The last node of an attribute: the partner of a round bracket directly after its word, else the
// word.
fn attribute_end(list: &TokenList, word: Node) -> Node
    requires live { IsTrue (is_live word list.now.nodes) }
    requires paired { IsPaired list.now.nodes }
    requires attribute { (t : token_type) → token_of word list.now.nodes ≡ Some t
        → is_word_of attribute_words t ≡ true }
    ensures { IsGone list.now.nodes word result }
{
    list.are_numbered();
    let Some(bracket) = list.next(word) else {
        return word;
    };
    if !is_punctuator(b"(", list.token(bracket)) {
        return word;
    }
    match list.partner(bracket) {
        None => word,
        Some(end) => end,
    }
}

// The next node behind another that stays, if it is a string.
fn string_after(list: &TokenList, at: Node) -> Option<Node>
    requires live { IsTrue (is_live at list.now.nodes) }
    requires paired { IsPaired list.now.nodes }
    ensures { MatchOption result (HasNoString list.now.nodes at) (IsNextString list.now.nodes at) }
{
    list.are_numbered();
    let mut next = list.next(at);
    while let Some(node) = next {
        match word_end(list, node) {
            Some(end) => next = list.next(end),
            None => return string_at(list, node),
        }
    }
    None
}

// A node, if it is a string.
fn string_at(list: &TokenList, node: Node) -> Option<Node>
    requires { IsTrue (is_live node list.now.nodes) }
    ensures { StringOf list.now.nodes node result }
{
    if is_string(list.token(node)) {
        Some(node)
    } else {
        None
    }
}

// Puts a string to the end of others, without the quotes between.
fn join(text: &mut Text, parts: &mut List<usize>, token: &Token) -> Result<(), NoMemory>
    ensures text { OnOk result
        (text.new ≡ take (length text.old - 1) text.old ++ drop 1 token.now.text) }
    ensures parts { OnOk result
        (parts.new ≡ parts.old ++ parts_of token.now.text token.now.parts) }
{
    let more = token.text.as_slice();
    text.truncate(text.len().saturating_sub(1));
    text.push_all(&more[more.len().min(1)..])?;
    push_parts(parts, token)
}

// Adds how many bytes each string of a token has between its quotes.
fn push_parts(parts: &mut List<usize>, token: &Token) -> Result<(), NoMemory>
    ensures { OnOk result (parts.new ≡ parts.old ++ parts_of token.now.text token.now.parts) }
{
    if token.parts.len() == 0 {
        return parts.push(token.text.len().saturating_sub(2));
    }
    push_each(parts, token.parts.as_slice())
}

fn push_each(parts: &mut List<usize>, more: &[usize]) -> Result<(), NoMemory>
    ensures { OnOk result (parts.new ≡ parts.old ++ more.now) }
{
    for part in more {
        parts.push(*part)?;
    }
    Ok(())
}

// The text and the parts of adjacent strings, and the last of them.
#[derive(Debug, Drop)]
struct Run {
    text: Text,
    parts: SharedList<usize>,
    last: Node,
}

// Joins a string, the next one, and those after it.
fn joined(list: &TokenList, first: Node, second: Node) -> Result<Run, NoMemory>
    requires live { IsTrue (is_live first list.now.nodes) }
    requires paired { IsPaired list.now.nodes }
    requires next { IsNextString list.now.nodes first second }
    ensures { IfOk result (λ r. IsRun list.now.nodes first r.text r.parts r.last) }
{
    list.are_numbered();
    let token = list.token(first);
    let mut text = token.text.copy()?;
    let mut parts = List::new(list.allocator());
    push_parts(&mut parts, token)?;
    join(&mut text, &mut parts, list.token(second))?;
    let mut last = second;
    let mut at = string_after(list, last);
    while let Some(node) = at {
        join(&mut text, &mut parts, list.token(node))?;
        last = node;
        at = string_after(list, node);
    }
    let parts = SharedList::from_list(list.allocator(), parts)?;
    Ok(Run { text, parts, last })
}

// Takes out the nodes from one to another, and answers the node after them.
fn take_out(list: &mut TokenList, from: Node, to: Node) -> Option<Node>
    requires from_live { IsTrue (is_live from list.old.nodes) }
    requires to_live { IsTrue (is_live to list.old.nodes) }
    requires order { StandsFrom from to list.old.nodes }
    ensures nodes { list.new.nodes ≡ spliced from to [] list.old.nodes }
    ensures next { result ≡ first_of (nodes_after to list.old.nodes) }
{
    let next = list.next(to);
    list.erase_run(from, to);
    next
}

// Keeps a node, and joins the strings that come after a string to it. Answers the node after. A
// refused call changes nothing.
fn keep(list: &mut TokenList, node: Node) -> Result<Option<Node>, NoMemory>
    requires live { IsTrue (is_live node list.old.nodes) }
    requires paired { IsPaired list.old.nodes }
    requires stays { IsStaying list.old.nodes node }
    ensures swept { IfOk result (λ next. Sweeps list.old.nodes list.new.nodes node next) }
    ensures err { OnErr result (list.new ≡ list.old) }
    ensures string { OnErr result (IsStringAt list.old.nodes node) }
{
    list.are_numbered();
    if !is_string(list.token(node)) {
        return Ok(list.next(node));
    }
    let Some(second) = string_after(list, node) else {
        return Ok(list.next(node));
    };
    let run = joined(list, node, second)?;
    Ok(put_run(list, node, run))
}

// Gives a string the text of those after it, which it takes out. Answers the node after.
fn put_run(list: &mut TokenList, node: Node, run: Run) -> Option<Node>
    requires live { IsTrue (is_live node list.old.nodes) }
    requires paired { IsPaired list.old.nodes }
    requires run { IsRun list.old.nodes node run.text run.parts run.last }
    ensures { (s : IsStaying list.old.nodes node) → is_string s.node.token.kind ≡ true
        → Sweeps list.old.nodes list.new.nodes node result }
{
    list.are_numbered();
    let second = list.next(node).unwrap();
    list.set_text(node, run.text, run.parts);
    take_out(list, second, run.last)
}

// Simplifies from a node on, and answers the node that is next. A refused call changes nothing.
fn step(list: &mut TokenList, node: Node) -> Result<Option<Node>, NoMemory>
    requires live { IsTrue (is_live node list.old.nodes) }
    requires paired { IsPaired list.old.nodes }
    ensures swept { IfOk result (λ next. Sweeps list.old.nodes list.new.nodes node next) }
    ensures err { OnErr result (list.new ≡ list.old) }
    ensures string { OnErr result (IsStringAt list.old.nodes node) }
{
    list.are_numbered();
    match word_end(list, node) {
        Some(end) => Ok(take_out(list, node, end)),
        None => keep(list, node),
    }
}

impl TokenList {
    /// Takes out the words that say nothing of the values of a program, such as `inline`, and joins
    /// adjacent strings. Where memory runs out, only some of it is done, and what is left to do
    /// leads to the same list.
    pub fn simplify(&mut self) -> Result<(), NoMemory>
        requires paired { IsPaired self.old.nodes }
        ensures paired { IsPaired self.new.nodes }
        ensures ok { OnOk result (IsSimplified self.old.nodes self.new.nodes) }
        ensures err { OnErr result (IsPartlySimplified self.old.nodes self.new.nodes) }
    {
        self.are_numbered();
        let mut at = self.first();
        while let Some(node) = at {
            at = step(self, node)?;
        }
        Ok(())
    }
}
