//! Brackets, and which of them fit.
ghost use Rattle.std.specs.Prelude.{◌≡◌, ◌+◌, ◌<◌, ◌≤◌, ◌++◌, ◌∷◌, [], MatchOption, None, Some, if◌then◌else◌, length, vec_capacity, vec_len};
ghost use Rattle.cx_tokens.specs.Brackets.{IsNested, IsUnpaired, closes, fits, is_punctuator, opens};
ghost use Rattle.cx_tokens.specs.Nodes.{tokens};
ghost use Rattle.cx_tokens.specs.Shapes.Pairing.{IsChain, IsHalfPaired, IsMated, IsPairedTo, IsRead, IsReadTo};

use crate::slots::{Slot, set_mate, token_at};
use crate::token::{Kind, Token};
use cx_base::Place;

// The opening brackets, each with the closing bracket that fits it (C11 6.4.6).
const BRACKETS: [(&[u8], &[u8]); 3] = [(b"(", b")"), (b"[", b"]"), (b"{", b"}")];

/// Whether a token is a punctuator of this text (C11 6.4.6; of a digraph the plain form).
#[tactic(auto, unfolding(crate::specs::Brackets::is_punctuator))]
pub fn is_punctuator(text: &[u8], token: &Token) -> bool
    ensures { result ≡ is_punctuator text.now token.now }
{
    token.kind == Kind::Punct && text == token.text.as_slice()
}

#[tactic(auto, unfolding(crate::specs::Brackets::opens))]
pub fn opens(token: &Token) -> bool
    ensures { result ≡ opens token.now }
{
    for (opening, _) in BRACKETS {
        if is_punctuator(opening, token) {
            return true;
        }
    }
    false
}

#[tactic(auto, unfolding(crate::specs::Brackets::closes))]
pub fn closes(token: &Token) -> bool
    ensures { result ≡ closes token.now }
{
    for (_, closing) in BRACKETS {
        if is_punctuator(closing, token) {
            return true;
        }
    }
    false
}

// Whether one token is an opening bracket and another a closing one of the same kind.
#[tactic(auto, unfolding(crate::specs::Brackets::fits))]
pub fn fits(opening_token: &Token, closing_token: &Token) -> bool
    ensures { result ≡ fits opening_token.now closing_token.now }
{
    for (opening, closing) in BRACKETS {
        if is_punctuator(opening, opening_token) && is_punctuator(closing, closing_token) {
            return true;
        }
    }
    false
}

// Where the brackets of linked nodes are not nested, if somewhere. The stack has room for all
// nodes; it is empty before and after.
pub fn unpaired_place(slots: &[Slot], first: Option<u32>, stack: &mut Vec<u32>) -> Option<Place>
    requires chain { IsChain slots.now first }
    requires empty { stack.old.items ≡ [] }
    requires room { length slots.now ≤ vec_capacity stack.old }
    ensures place { (h : IsChain slots.now first)
        → MatchOption result (IsNested (tokens h.nodes)) (IsUnpaired (tokens h.nodes)) }
    ensures emptied { stack.new.items ≡ [] }
    ensures room { vec_capacity stack.new ≡ vec_capacity stack.old }
{
    let place = first_unpaired(slots, first, stack);
    stack.clear();
    place
}

fn first_unpaired(slots: &[Slot], first: Option<u32>, stack: &mut Vec<u32>) -> Option<Place>
    requires chain { IsChain slots.now first }
    requires empty { stack.old.items ≡ [] }
    requires room { length slots.now ≤ vec_capacity stack.old }
    ensures place { (h : IsChain slots.now first)
        → MatchOption result (IsNested (tokens h.nodes)) (IsUnpaired (tokens h.nodes)) }
    ensures room { vec_capacity stack.new ≡ vec_capacity stack.old }
{
    let mut at = first;
    while let Some(number) = at {
        if let Some(place) = read(slots, stack, number) {
            return Some(place);
        }
        at = slots[number as usize].next;
    }
    let start = stack.pop()?;
    Some(token_at(slots, start).place)
}

// Reads one more node, and answers its place where it is a closing bracket that does not fit.
fn read(slots: &[Slot], stack: &mut Vec<u32>, number: u32) -> Option<Place>
    requires so_far { IsReadTo slots.now number stack.old.items }
    requires room { vec_len stack.old < vec_capacity stack.old }
    ensures so_far { (h : IsReadTo slots.now number stack.old.items)
        → MatchOption result (IsRead (h.front ++ h.node ∷ []) stack.new.items)
        (IsUnpaired (tokens (h.front ++ h.node ∷ h.rest))) }
    ensures few { vec_len stack.new ≤ vec_len stack.old + 1 }
    ensures room { vec_capacity stack.new ≡ vec_capacity stack.old }
{
    let token = token_at(slots, number);
    if opens(token) {
        stack.push_reserved(number);
        return None;
    }
    if !closes(token) {
        return None;
    }
    match stack.pop() {
        None => Some(token.place),
        Some(start) => unfit_place(token_at(slots, start), token),
    }
}

// The place of a closing bracket that does not fit an opening one.
fn unfit_place(opening_token: &Token, closing_token: &Token) -> Option<Place>
    ensures { result
        ≡ (if fits opening_token.now closing_token.now then None
        else Some closing_token.now.place) }
{
    if fits(opening_token, closing_token) {
        None
    } else {
        Some(closing_token.place)
    }
}

// Writes the partners of all brackets of linked nodes, which are nested, and takes away those of
// other nodes. The stack has room for all nodes; it is empty before and after.
pub fn pair(slots: &mut Vec<Slot>, first: Option<u32>, stack: &mut Vec<u32>)
    requires chain { IsChain slots.old.items first }
    requires nested { (h : IsChain slots.old.items first) → IsNested (tokens h.nodes) }
    requires empty { stack.old.items ≡ [] }
    requires room { length slots.old.items ≤ vec_capacity stack.old }
    ensures paired { (h : IsChain slots.old.items first)
        → IsMated slots.old.items slots.new.items h.nodes }
    ensures emptied { stack.new.items ≡ [] }
    ensures room { vec_capacity stack.new ≡ vec_capacity stack.old }
{
    let mut at = first;
    while let Some(number) = at {
        at = slots[number as usize].next;
        pair_one(slots, stack, number);
    }
}

// Pairs one more node with those before it.
fn pair_one(slots: &mut Vec<Slot>, stack: &mut Vec<u32>, number: u32)
    requires so_far { IsHalfPaired slots.old.items number stack.old.items }
    requires room { vec_len stack.old < vec_capacity stack.old }
    ensures so_far { (h : IsHalfPaired slots.old.items number stack.old.items)
        → IsPairedTo slots.old.items slots.new.items stack.new.items (h.front ++ h.node ∷ h.rest)
        h.rest }
    ensures few { vec_len stack.new ≤ vec_len stack.old + 1 }
    ensures room { vec_capacity stack.new ≡ vec_capacity stack.old }
{
    let token = token_at(slots.as_slice(), number);
    if opens(token) {
        stack.push_reserved(number);
        return;
    }
    if !closes(token) {
        set_mate(slots, number, None);
        return;
    }
    if let Some(start) = stack.pop() {
        set_mate(slots, start, Some(number));
        set_mate(slots, number, Some(start));
    }
}
