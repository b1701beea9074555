//! Macros and their names (C11 6.10.3).
ghost use Rattle.std.specs.Prelude.{◌≡◌, ◌≢◌, ◌+◌, ◌≤◌, IfErr, IfOk, OnOk, OnErr, is_some, length, option_map};
ghost use Rattle.cx_tokens.specs.Nodes.{tokens};
ghost use Rattle.cx_macro.specs.Answers.{Answers};
ghost use Rattle.cx_macro.specs.Expansion.{ExpandsList, Outcome, expanded, most_laid, refused};
ghost use Rattle.cx_macro.specs.Macros.{IsDefinition, Table, no_macros};
ghost use Rattle.cx_macro.specs.Partners.{HasNoPartners};
ghost use Rattle.cx_table.specs.NameTable.{value_of, with_entry, without_entry};
ghost use Rattle.cx_macro.specs.Made.{definition_by};
ghost use Rattle.cx_macro.specs.Stored.{definition_of};

use crate::fault::MacroFault;
use crate::steps::run;
use crate::stored::Stored;
use crate::walk::Walk;
use cx_base::{List, NoMemory, Text};
use cx_table::{NameKey, NameTable};
use cx_tokens::{Token, TokenList};
use std::alloc::Global;
use std::marker::Model;

/// A macro.
#[derive(Debug, Drop)]
pub struct Macro {
    /// The names of its parameters, where it is function-like.
    pub parameters: Option<List<Text>>,
    /// Whether a variable argument stands behind these (C11 6.10.3, paragraph 12).
    pub variadic: bool,
    /// What replaces it.
    pub body: TokenList,
}

impl Macro {
    /// An equal macro.
    pub fn copy(&self) -> Result<Macro, NoMemory>
        ensures { IfOk result (λ m. m ≡ self.now) }
    {
        let body = self.body.copy()?;
        let parameters = copy_of(&self.parameters)?;
        Ok(Macro {
            parameters,
            variadic: self.variadic,
            body,
        })
    }
}

/// A copy of parameters.
fn copy_of(parameters: &Option<List<Text>>) -> Result<Option<List<Text>>, NoMemory>
    ensures { IfOk result (λ p. p ≡ parameters.now) }
{
    match parameters {
        None => Ok(None),
        Some(parameters) => Ok(Some(parameters.copy()?)),
    }
}

/// A list whose macros are replaced.
#[derive(Debug, Drop)]
pub struct Expanded {
    pub list: TokenList,
    /// How many tokens have been laid.
    pub laid: u32,
}

/// How many tokens may be laid, at most.
const MOST_LAID: u32 = 262_144;

/// Macros by their names, in the order in which they were first seen. Contracts see the table of
/// them.
#[derive(Drop)]
pub struct Macros {
    macros: NameTable<Stored>,
    key: NameKey,
    alloc: Global,
}

impl Model for Macros {
    ghost use Rattle.std.specs.Prelude.{map};
    ghost use Rattle.cx_macro.specs.Macros.{Table};

    ghost Value = { Table };

    ghost use Rattle.cx_macro.specs.Stored.{definition_of};

    ghost view = { λ m. map (λ e. (e.0, definition_of e.1)) m.macros };
}

impl Macros {
    /// No macros. Their names, which the source picks, are hashed with this key.
    pub fn new(alloc: Global, key: NameKey) -> Macros
        ensures { result ≡ no_macros }
    {
        Macros {
            macros: NameTable::new(alloc, key),
            key,
            alloc,
        }
    }

    /// Defines a name, also one that is defined. A refused call changes nothing.
    pub fn define(&mut self, name: Text, made: Macro) -> Result<(), NoMemory>
        requires { IsDefinition (definition_by made) }
        ensures ok { OnOk result (self.new ≡ with_entry name (definition_by made) self.old) }
        ensures err { OnErr result (self.new ≡ self.old) }
    {
        let body = Walk::over(&made.body).copies(self.alloc)?;
        let stored = Stored::of(self.alloc, self.key, made.parameters, made.variadic, body)?;
        self.macros.insert(name, stored)?;
        Ok(())
    }

    /// Takes the definition of a name away, where it has one.
    pub fn undef(&mut self, name: &[u8])
        ensures { self.new ≡ without_entry name.now self.old }
    {
        let _ = self.macros.remove(name);
    }

    /// Whether a name is defined (C11 6.10.1, paragraph 1).
    pub fn is_defined(&self, name: &[u8]) -> bool
        ensures { result ≡ is_some (value_of self.now name.now) }
    {
        self.find(name).is_some()
    }

    /// The macro of a name.
    pub(crate) fn find(&self, name: &[u8]) -> Option<&Stored>
        ensures { option_map (λ s. definition_of s.now) result ≡ value_of self.now name.now }
    {
        self.macros.get(name)
    }

    /// Replaces the macros of a list (C11 6.10.3), of which each token counts as laid, and for each
    /// replacement one more than its tokens. So many have been laid before.
    pub fn expand(&self, alloc: Global, list: TokenList, laid: u32) -> Result<Expanded, MacroFault>
        requires { laid ≤ most_laid }
        ensures ok { IfOk result
            (λ x. ExpandsList self.now most_laid laid (tokens list.nodes)
            (expanded (tokens x.list.nodes) x.laid)) }
        ensures partners { IfOk result (λ x. HasNoPartners x.list.nodes) }
        ensures fault { IfErr result
            (λ fault. fault ≢ MacroFault.NoMemory
            → ExpandsList self.now most_laid laid (tokens list.nodes) (refused fault)) }
        ensures only { (outcome : Outcome)
            → ExpandsList self.now most_laid laid (tokens list.nodes) outcome
            → Answers outcome result }
    {
        self.expand_within(alloc, list, laid, MOST_LAID)
    }

    /// The same with another bound.
    pub fn expand_within(
        &self,
        alloc: Global,
        list: TokenList,
        laid: u32,
        bound: u32,
    ) -> Result<Expanded, MacroFault>
        requires { laid ≤ bound }
        ensures ok { IfOk result
            (λ x. ExpandsList self.now bound laid (tokens list.nodes)
            (expanded (tokens x.list.nodes) x.laid)) }
        ensures partners { IfOk result (λ x. HasNoPartners x.list.nodes) }
        ensures fault { IfErr result
            (λ fault. fault ≢ MacroFault.NoMemory
            → ExpandsList self.now bound laid (tokens list.nodes) (refused fault)) }
        ensures only { (outcome : Outcome)
            → ExpandsList self.now bound laid (tokens list.nodes) outcome
            → Answers outcome result }
    {
        self.expansion(alloc, list, laid, bound)
    }

    fn expansion(
        &self,
        alloc: Global,
        list: TokenList,
        laid: u32,
        bound: u32,
    ) -> Result<Expanded, MacroFault>
        requires { laid ≤ bound }
        ensures ok { IfOk result
            (λ x. ExpandsList self.now bound laid (tokens list.nodes)
            (expanded (tokens x.list.nodes) x.laid)) }
        ensures partners { IfOk result (λ x. HasNoPartners x.list.nodes) }
        ensures fault { IfErr result
            (λ fault. fault ≢ MacroFault.NoMemory
            → ExpandsList self.now bound laid (tokens list.nodes) (refused fault)) }
    {
        let first = first_laid(bound, laid, &list)?;
        let (list, laid) = run(self, alloc, bound, first, list)?;
        Ok(Expanded { list, laid })
    }
}

/// How many tokens are laid with those of a list.
fn first_laid(bound: u32, laid: u32, list: &TokenList) -> Result<u32, MacroFault>
    requires { laid ≤ bound }
    ensures within { IfOk result (λ n. (n ≡ laid + length (tokens list.now.nodes)) × (n ≤ bound)) }
    ensures fault { IfErr result
        (λ fault. (table : Table) → fault ≢ MacroFault.NoMemory
        → ExpandsList table bound laid (tokens list.now.nodes) (refused fault)) }
{
    let Some(token) = Walk::over(list).next() else {
        return Ok(laid);
    };
    let length = Walk::over(list).count()? as u64;
    let total = length
        .checked_add(u64::from(laid))
        .ok_or(MacroFault::NoMemory)?;
    if total <= u64::from(bound) {
        Ok(total as u32)
    } else {
        Err(MacroFault::TooManyTokens {
            at: token.place,
            laid: total,
        })
    }
}
