//! Lists of tokens, with edits. Their nodes are linked by index.
ghost use Rattle.std.specs.Prelude.{◌≡◌, ℕ, ◌+◌, ◌<◌, ◌≤◌, [], None, Some, IfErr, IfOk, IfSome, IsOk, IsOkAnd, IsTrue, OnErr, OnOk, vec_len};
ghost use Rattle.cx_tokens.specs.Brackets.{IsNested, IsPaired, IsUnpaired};
ghost use Rattle.cx_tokens.specs.Nodes.{IsTokenList, SplicesCopies, StandsFrom, erased, first_of, inserted, is_live, last_of, new_node, nodes_after, nodes_before, numbers, partner_of, spliced, token_of, tokens};
ghost use Rattle.cx_tokens.specs.Shapes.Links.{PutsAfter};
ghost use Rattle.cx_tokens.specs.Shapes.Sweeping.{SetsText};

use crate::bracket::{pair, unpaired_place};
use crate::node::Node;
use crate::slots::{
    Slot, add_frees, copies_of, first_set, next_link, node_of, number_of, put_between, release,
    set_text,
};
use crate::token::Token;
use cx_base::{Duplicate, NoMemory, Place, SharedList, Text};
use std::alloc::Global;
use std::marker::Model;

/// A bracket that has none to match it: the first closing one that does not fit, else the last one
/// left open.
#[derive(Clone, Copy, Debug, PartialEq, Eq)]
pub struct Unpaired {
    pub at: Place,
}

/// A list of tokens in which a token is named by its node. A node stays that of its token until the
/// token is taken out, whatever is put in or taken out around it.
///
/// Contracts see the list of the nodes, each with its number, its token, and the number of the
/// bracket that pairs with it, where the brackets have been paired; and for how many more nodes
/// there is room.
#[derive(Debug, Drop)]
pub struct TokenList {
    // By the numbers of the nodes.
    slots: Vec<Slot>,
    first: Option<u32>,
    len: u32,
    // The first free slot.
    free: Option<u32>,
    // How many slots are free.
    spare: u32,
    // The numbers of the brackets that are open while brackets are paired, and otherwise empty. It
    // has room for all nodes, so that pairing takes no memory.
    opened: Vec<u32>,
}

impl Model for TokenList {
    ghost use Rattle.std.specs.Prelude.{vec_capacity};
    ghost use Rattle.cx_tokens.specs.Nodes.{TokenNodes};

    ghost Value = { TokenNodes };

    ghost use Rattle.cx_tokens.specs.Shapes.Links.{IsValidList, walk};

    ghost view = { λ l. record { nodes = walk l.len l.first l.slots.items; spare = l.spare } };

    ghost invariant = { λ l.
        IsValidList l.slots.items l.first l.len l.free l.spare (vec_capacity l.opened)
        l.opened.items };
}

impl TokenList {
    /// The empty list.
    pub fn new(alloc: Global) -> TokenList
        ensures { result ≡ record { nodes = []; spare = 0 } }
    {
        TokenList {
            slots: Vec::new(alloc),
            first: None,
            len: 0,
            free: None,
            spare: 0,
            opened: Vec::new(alloc),
        }
    }

    /// For how many more nodes there is room.
    pub fn spare(&self) -> u32
        ensures { result ≡ self.now.spare }
    {
        self.spare
    }

    /// Makes room for so many more nodes.
    pub fn reserve(&mut self, n: u32) -> Result<(), NoMemory>
        ensures room { OnOk result (n ≤ self.new.spare) }
        ensures nodes { self.new.nodes ≡ self.old.nodes }
        ensures enough { n ≤ self.old.spare → IsOk result × (self.new ≡ self.old) }
        ensures err { OnErr result (self.new ≡ self.old) }
    {
        if n <= self.spare {
            return Ok(());
        }
        let more = n - self.spare;
        let count = self.len + self.spare;
        let grown = count.checked_add(more).ok_or(NoMemory)?;
        self.opened.reserve(grown as usize)?;
        self.slots.reserve(more as usize)?;
        self.free = add_frees(&mut self.slots, self.free, more);
        self.spare = n;
        Ok(())
    }

    // Puts a token in a free slot, after a node or first.
    fn put_in(&mut self, at: Option<Node>, token: Token) -> Node
        requires at_live { IfSome at (λ n. IsTrue (is_live n self.old.nodes)) }
        requires room { 0 < self.old.spare }
        ensures fresh { ¬ (IsTrue (is_live result self.old.nodes)) }
        ensures live { IsTrue (is_live result self.new.nodes) }
        ensures nodes { self.new.nodes ≡ inserted at (new_node result token) self.old.nodes }
        ensures spare { self.new.spare + 1 ≡ self.old.spare }
    {
        let number = self.free.unwrap();
        let previous = number_of(at);
        let next = next_link(self.slots.as_slice(), previous, self.first);
        let free = self.slots[number as usize].next;
        put_between(&mut self.slots, previous, number, token, next);
        self.first = first_set(previous, Some(number), self.first);
        self.free = free;
        self.len += 1;
        self.spare -= 1;
        Node::of(number)
    }

    /// Takes a token out. If it is a bracket of a pair, the other one of the pair has no partner
    /// any more.
    pub fn erase(&mut self, at: Node) -> Token
        requires live { IsTrue (is_live at self.old.nodes) }
        ensures token { token_of at self.old.nodes ≡ Some result }
        ensures rest { self.new.nodes ≡ erased at self.old.nodes }
        ensures room { self.new.spare ≡ self.old.spare + 1 }
    {
        let number = at.number();
        let slot = release(&mut self.slots, number, self.free);
        self.first = first_set(slot.previous, slot.next, self.first);
        self.free = Some(number);
        self.len -= 1;
        self.spare += 1;
        slot.token.unwrap()
    }

    /// Puts a token in, after a node or first, and answers its node. A refused call changes nothing
    /// and gives the token up. Where there is room, the call is not refused.
    pub fn insert_after(&mut self, at: Option<Node>, token: Token) -> Result<Node, NoMemory>
        requires at_live { IfSome at (λ n. IsTrue (is_live n self.old.nodes)) }
        ensures fresh { IfOk result (λ n. ¬ (IsTrue (is_live n self.old.nodes))) }
        ensures live { IfOk result (λ n. IsTrue (is_live n self.new.nodes)) }
        ensures ok { IfOk result
            (λ n. self.new.nodes ≡ inserted at (new_node n token) self.old.nodes) }
        ensures room { 0 < self.old.spare
            → IsOkAnd result (λ n. self.new.spare + 1 ≡ self.old.spare) }
        ensures err { OnErr result (self.new ≡ self.old) }
    {
        self.reserve(1)?;
        Ok(self.put_in(at, token))
    }

    /// The first node.
    pub fn first(&self) -> Option<Node>
        ensures node { result ≡ first_of self.now.nodes }
        ensures live { IfSome result (λ n. IsTrue (is_live n self.now.nodes)) }
    {
        node_of(self.first)
    }

    /// The node after another.
    pub fn next(&self, at: Node) -> Option<Node>
        requires live { IsTrue (is_live at self.now.nodes) }
        ensures node { result ≡ first_of (nodes_after at self.now.nodes) }
        ensures live { IfSome result (λ n. IsTrue (is_live n self.now.nodes)) }
        ensures order { (from : ℕ) → StandsFrom from at self.now.nodes
            → IfSome result (λ n. StandsFrom from n self.now.nodes) }
    {
        node_of(self.slots[at.number() as usize].next)
    }

    /// The node before another.
    pub fn previous(&self, at: Node) -> Option<Node>
        requires live { IsTrue (is_live at self.now.nodes) }
        ensures node { result ≡ last_of (nodes_before at self.now.nodes) }
        ensures live { IfSome result (λ n. IsTrue (is_live n self.now.nodes)) }
        ensures order { IfSome result (λ n. StandsFrom n at self.now.nodes) }
    {
        node_of(self.slots[at.number() as usize].previous)
    }

    /// The bracket that pairs with a node, where it is a bracket and brackets have been paired.
    pub fn partner(&self, at: Node) -> Option<Node>
        requires live { IsTrue (is_live at self.now.nodes) }
        ensures node { result ≡ partner_of at self.now.nodes }
        ensures live { IfSome result (λ n. IsTrue (is_live n self.now.nodes)) }
        ensures mutual { IfSome result (λ n. partner_of n self.now.nodes ≡ Some at) }
    {
        node_of(self.slots[at.number() as usize].partner)
    }

    /// The token of a node.
    pub fn token(&self, at: Node) -> &Token
        requires live { IsTrue (is_live at self.now.nodes) }
        ensures { token_of at self.now.nodes ≡ Some result.now }
    {
        self.slots[at.number() as usize].token.as_ref().unwrap()
    }

    /// The numbers of the nodes are distinct, and a partner is a node whose partner is the one.
    pub fn are_numbered(&self)
        ensures { IsTokenList self.now.nodes }
    {
        let _ = &self.slots;
    }

    // Copies of the tokens, in order.
    fn copies(&self, alloc: Global) -> Result<Vec<Token>, NoMemory>
        ensures { IfOk result (λ made. made.items ≡ tokens self.now.nodes) }
    {
        self.are_numbered();
        let mut made = Vec::new(alloc);
        let mut at = self.first();
        while let Some(node) = at {
            made.push(self.token(node).copy()?)?;
            at = self.next(node);
        }
        Ok(made)
    }

    // Puts tokens in after a node, for which there is room, the last one first.
    fn put_all(&mut self, at: Node, tokens: Vec<Token>)
        requires live { IsTrue (is_live at self.old.nodes) }
        requires room { vec_len tokens ≤ self.old.spare }
        ensures { PutsAfter at tokens.items self.old.nodes self.new.nodes }
    {
        let mut left = tokens;
        self.are_numbered();
        while let Some(token) = left.pop() {
            self.put_in(Some(at), token);
        }
    }

    // Gives the token of a node another text, of several strings.
    pub(crate) fn set_text(&mut self, at: Node, text: Text, parts: SharedList<usize>)
        requires live { IsTrue (is_live at self.old.nodes) }
        ensures { SetsText at text parts self.old.nodes self.new.nodes }
    {
        set_text(&mut self.slots, at.number(), text, parts);
    }

    // The allocator of the list.
    pub(crate) fn allocator(&self) -> Global {
        *self.slots.allocator()
    }

    // Takes out the nodes from one to another.
    pub(crate) fn erase_run(&mut self, from: Node, to: Node)
        requires from_live { IsTrue (is_live from self.old.nodes) }
        requires order { StandsFrom from to self.old.nodes }
        ensures { self.new.nodes ≡ spliced from to [] self.old.nodes }
    {
        self.are_numbered();
        let mut at = from;
        while at != to {
            self.are_numbered();
            let next = self.next(at).unwrap();
            let _token = self.erase(at);
            at = next;
        }
        let _token = self.erase(to);
    }

    /// Puts copies of the tokens of another list in the place of the nodes from one to another. The
    /// copies have no partners. A refused call changes nothing.
    pub fn splice(&mut self, from: Node, to: Node, by: &TokenList) -> Result<(), NoMemory>
        requires from_live { IsTrue (is_live from self.old.nodes) }
        requires to_live { IsTrue (is_live to self.old.nodes) }
        requires order { StandsFrom from to self.old.nodes }
        ensures ok { OnOk result
            (SplicesCopies from to (tokens by.now.nodes) self.old.nodes self.new.nodes) }
        ensures err { OnErr result (self.new ≡ self.old) }
    {
        let copies = by.copies(*self.slots.allocator())?;
        self.are_numbered();
        self.reserve(by.len)?;
        self.put_all(to, copies);
        self.erase_run(from, to);
        Ok(())
    }

    /// Makes each bracket and the one that matches it partners. Where the brackets are not nested,
    /// nothing changes. Takes no memory.
    pub fn pair_brackets(&mut self) -> Result<(), Unpaired>
        ensures paired { OnOk result (IsPaired self.new.nodes) }
        ensures numbers { OnOk result (numbers self.new.nodes ≡ numbers self.old.nodes) }
        ensures tokens { OnOk result (tokens self.new.nodes ≡ tokens self.old.nodes) }
        ensures unpaired { IfErr result (λ e. IsUnpaired (tokens self.old.nodes) e.at) }
        ensures unchanged { OnErr result (self.new ≡ self.old) }
        ensures nested { IsNested (tokens self.old.nodes) → IsOk result }
        ensures room { self.new.spare ≡ self.old.spare }
    {
        if let Some(at) = unpaired_place(self.slots.as_slice(), self.first, &mut self.opened) {
            return Err(Unpaired { at });
        }
        pair(&mut self.slots, self.first, &mut self.opened);
        Ok(())
    }

    /// An equal list.
    pub fn copy(&self) -> Result<TokenList, NoMemory>
        ensures { IfOk result (λ l. l ≡ self.now) }
    {
        let alloc = *self.slots.allocator();
        let slots = copies_of(alloc, self.slots.as_slice())?;
        let opened = Vec::with_capacity(alloc, slots.len())?;
        Ok(TokenList {
            slots,
            first: self.first,
            len: self.len,
            free: self.free,
            spare: self.spare,
            opened,
        })
    }
}

impl Duplicate for TokenList {
    fn duplicate(&self) -> Result<TokenList, NoMemory> {
        self.copy()
    }
}
