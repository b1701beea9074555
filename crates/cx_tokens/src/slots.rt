//! Slots for the nodes of a token list, linked by index.
ghost use Rattle.std.specs.Prelude.{◌≡◌, ◌+◌, ◌<◌, ◌≤◌, ◌++◌, ◌∷◌, [], None, Some, IfOk, length, slice_index_or, slice_set, vec_capacity, vec_len};
ghost use Rattle.std.specs.List.{slice_get};
ghost use Rattle.cx_tokens.specs.declared.slots.Slot.{Slot as slot_type};
ghost use Rattle.cx_tokens.specs.Nodes.{new_node};
ghost use Rattle.cx_tokens.specs.Shapes.Pairing.{IsTokenAt, IsUsed};
ghost use Rattle.cx_tokens.specs.Shapes.Links.{IsAdded, IsWithin, changed, changed_at, first_set, free_slot, next_link, put_between, released, with_mate, with_slot_text, with_next, with_previous};

use crate::node::Node;
use crate::token::Token;
use cx_base::{NoMemory, SharedList, Text};
use std::alloc::Global;
use std::marker::Model;
use std::mem;

// A place for a node, which is named by its index. A free one has no token, and its `next` is the
// next free one.
#[derive(Debug, Drop)]
pub struct Slot {
    pub token: Option<Token>,
    pub partner: Option<u32>,
    pub previous: Option<u32>,
    pub next: Option<u32>,
}

fn set_next(slots: &mut Vec<Slot>, index: usize, next: Option<u32>)
    requires { index < length slots.old.items }
    ensures { (a : slot_type) → a ≡ slice_index_or slots.old.items index a
        → slots.new.items ≡ slice_set slots.old.items index (with_next next a) }
{
    let slot = &mut slots[index];
    slot.next = next;
}

fn set_previous(slots: &mut Vec<Slot>, index: usize, previous: Option<u32>)
    requires { index < length slots.old.items }
    ensures { (a : slot_type) → a ≡ slice_index_or slots.old.items index a
        → slots.new.items ≡ slice_set slots.old.items index (with_previous previous a) }
{
    let slot = &mut slots[index];
    slot.previous = previous;
}

fn set_partner(slots: &mut Vec<Slot>, index: usize, partner: Option<u32>)
    requires { index < length slots.old.items }
    ensures { (a : slot_type) → a ≡ slice_index_or slots.old.items index a
        → slots.new.items ≡ slice_set slots.old.items index (with_mate partner a) }
{
    let slot = &mut slots[index];
    slot.partner = partner;
}

// Makes a slot the partner of a number, or of none.
pub fn set_mate(slots: &mut Vec<Slot>, number: u32, partner: Option<u32>)
    requires { number < length slots.old.items }
    ensures { slots.new.items ≡ changed number (with_mate partner) slots.old.items }
{
    set_partner(slots, number as usize, partner);
}

// Gives the token of a slot another text, of several strings.
pub fn set_text(slots: &mut Vec<Slot>, number: u32, text: Text, parts: SharedList<usize>)
    requires { IsUsed slots.old.items number }
    ensures { slots.new.items ≡ changed number (with_slot_text text parts) slots.old.items }
{
    set_slot_text(slots, number as usize, text, parts);
}

fn set_slot_text(slots: &mut Vec<Slot>, index: usize, text: Text, parts: SharedList<usize>)
    requires { index < length slots.old.items }
    ensures { (a : slot_type) → a ≡ slice_index_or slots.old.items index a
        → slots.new.items ≡ slice_set slots.old.items index (with_slot_text text parts a) }
{
    let slot = &mut slots[index];
    if let Some(token) = &mut slot.token {
        token.text = text;
        token.parts = parts;
        token.digraph = false;
    }
}

// The token of a slot that has one.
pub fn token_at(slots: &[Slot], number: u32) -> &Token
    requires { IsUsed slots.now number }
    ensures { IsTokenAt slots.now number result.now }
{
    slots[number as usize].token.as_ref().unwrap()
}

// Puts another slot in the place of one, and answers that one.
fn replace_slot(slots: &mut Vec<Slot>, index: usize, slot: Slot) -> Slot
    requires { index < length slots.old.items }
    ensures old { result ≡ slice_index_or slots.old.items index result }
    ensures slots { slots.new.items ≡ slice_set slots.old.items index slot }
{
    mem::replace(&mut slots[index], slot)
}

// Sets the link of a slot to the next, where there is such a slot.
#[tactic(auto, unfolding(crate::specs::Shapes::Links::changed_at))]
pub fn lead_on(slots: &mut Vec<Slot>, at: Option<u32>, next: Option<u32>)
    requires { IsWithin slots.old.items at }
    ensures { slots.new.items ≡ changed_at at (with_next next) slots.old.items }
{
    if let Some(index) = at {
        set_next(slots, index as usize, next);
    }
}

// Sets the link of a slot to the one before, where there is such a slot.
#[tactic(auto, unfolding(crate::specs::Shapes::Links::changed_at))]
pub fn lead_back(slots: &mut Vec<Slot>, at: Option<u32>, previous: Option<u32>)
    requires { IsWithin slots.old.items at }
    ensures { slots.new.items ≡ changed_at at (with_previous previous) slots.old.items }
{
    if let Some(index) = at {
        set_previous(slots, index as usize, previous);
    }
}

// Takes the partner of a slot away, where there is such a slot.
#[tactic(auto, unfolding(crate::specs::Shapes::Links::changed_at))]
pub fn part(slots: &mut Vec<Slot>, at: Option<u32>)
    requires { IsWithin slots.old.items at }
    ensures { slots.new.items ≡ changed_at at (with_mate None) slots.old.items }
{
    if let Some(index) = at {
        set_partner(slots, index as usize, None);
    }
}

// The link to the first node, when the one after a node, or the start, is set.
#[tactic(auto, unfolding(crate::specs::Shapes::Links::first_set))]
pub fn first_set(at: Option<u32>, next: Option<u32>, first: Option<u32>) -> Option<u32>
    ensures { result ≡ first_set at next first }
{
    match at {
        None => next,
        Some(_) => first,
    }
}

// The link from a node, or from the start.
#[tactic(auto, unfolding(crate::specs::Shapes::Links::next_link))]
pub fn next_link(slots: &[Slot], at: Option<u32>, first: Option<u32>) -> Option<u32>
    requires { IsWithin slots.now at }
    ensures { result ≡ next_link at first slots.now }
{
    match at {
        None => first,
        Some(index) => slots[index as usize].next,
    }
}

// Copies of slots.
pub fn copies_of(alloc: Global, slots: &[Slot]) -> Result<Vec<Slot>, NoMemory>
    ensures { IfOk result (λ made. made.items ≡ slots.now) }
{
    let mut made = Vec::new(alloc);
    for slot in slots {
        let token = copy_of(&slot.token)?;
        made.push(Slot {
            token,
            partner: slot.partner,
            previous: slot.previous,
            next: slot.next,
        })?;
    }
    Ok(made)
}

fn copy_of(token: &Option<Token>) -> Result<Option<Token>, NoMemory>
    ensures { IfOk result (λ copy. copy ≡ token.now) }
{
    match token {
        None => Ok(None),
        Some(token) => Ok(Some(token.copy()?)),
    }
}

pub fn node_of(number: Option<u32>) -> Option<Node>
    ensures { result ≡ number }
{
    match number {
        None => None,
        Some(number) => Some(Node::of(number)),
    }
}

pub fn number_of(at: Option<Node>) -> Option<u32>
    ensures { result ≡ at }
{
    match at {
        None => None,
        Some(node) => Some(node.number()),
    }
}

// Puts a token in a free slot, between two others.
#[tactic(auto, unfolding(crate::specs::Shapes::Links::put_between))]
pub fn put_between(
    slots: &mut Vec<Slot>,
    previous: Option<u32>,
    number: u32,
    token: Token,
    next: Option<u32>,
)
    requires previous { IsWithin slots.old.items previous }
    requires number { number < length slots.old.items }
    requires next { IsWithin slots.old.items next }
    ensures { slots.new.items ≡ put_between previous (new_node number token) next slots.old.items }
{
    let slot = Slot {
        token: Some(token),
        partner: None,
        previous,
        next,
    };
    let _free = replace_slot(slots, number as usize, slot);
    lead_on(slots, previous, Some(number));
    lead_back(slots, next, Some(number));
}

// Makes a slot free, and takes away the links that lead to it.
#[tactic(auto, unfolding(crate::specs::Shapes::Links::released))]
pub fn release(slots: &mut Vec<Slot>, number: u32, free: Option<u32>) -> Slot
    requires number { number < length slots.old.items }
    requires links { (x : slot_type) → slice_get slots.old.items number ≡ Some x
        → IsWithin slots.old.items x.previous × IsWithin slots.old.items x.next
        × IsWithin slots.old.items x.partner }
    ensures is { slice_get slots.old.items number ≡ Some result }
    ensures slots { slots.new.items ≡ released number result free slots.old.items }
{
    let empty = Slot {
        token: None,
        partner: None,
        previous: None,
        next: free,
    };
    let slot = replace_slot(slots, number as usize, empty);
    lead_on(slots, slot.previous, slot.next);
    lead_back(slots, slot.next, slot.previous);
    part(slots, slot.partner);
    slot
}

// Adds a free slot, for which there is room.
pub fn add_free(slots: &mut Vec<Slot>, free: Option<u32>) -> u32
    requires room { vec_len slots.old < vec_capacity slots.old }
    requires few { vec_len slots.old < 4294967295 }
    ensures number { result ≡ length slots.old.items }
    ensures items { slots.new.items ≡ slots.old.items ++ free_slot free ∷ [] }
    ensures room { vec_capacity slots.new ≡ vec_capacity slots.old }
{
    let number = slots.len() as u32;
    slots.push_reserved(Slot {
        token: None,
        partner: None,
        previous: None,
        next: free,
    });
    number
}

// Adds so many free slots, for which there is room, and answers the first free one.
pub fn add_frees(slots: &mut Vec<Slot>, free: Option<u32>, more: u32) -> Option<u32>
    requires room { vec_len slots.old + more ≤ vec_capacity slots.old }
    requires few { vec_len slots.old + more ≤ 4294967295 }
    ensures { IsAdded slots.old.items free slots.new.items result more }
{
    let mut last = free;
    for index in 0..more {
        last = Some(add_free(slots, last));
    }
    last
}
