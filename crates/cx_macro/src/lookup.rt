//! The parameters of a macro, as they are looked up in its body.
ghost use Rattle.std.specs.Prelude.{◌≡◌, None, Some, IfOk, bytes_eq, length, option_map};
ghost use Rattle.cx_table.specs.NameTable.{names_of};
ghost use Rattle.cx_macro.specs.Macros as macros;
ghost use Rattle.cx_macro.specs.Macros.{are_distinct};
ghost use Rattle.cx_macro.specs.Replacement as meaning;
ghost use Rattle.cx_macro.specs.Replacement.{is_index};
ghost use Rattle.std.specs.List.{IsDistinct};

use crate::marks::is_name;
use crate::stored::{VARIABLE_NAME, is_same};
use cx_base::{List, NoMemory, Text};
use cx_table::{NameKey, NameTable};
use cx_tokens::Token;
use std::alloc::Global;
use std::marker::Model;

/// A macro whose parameters can be looked up. Contracts see its definition.
#[derive(Drop)]
pub(crate) struct Lookup<'a> {
    names: Option<NameTable<()>>,
    variadic: bool,
    body: &'a [Token],
}

impl<'a> Model for Lookup<'a> {
    ghost use Rattle.std.specs.Prelude.{option_map};
    ghost use Rattle.cx_table.specs.NameTable.{names_of};
    ghost use Rattle.cx_macro.specs.Macros.{Definition};

    ghost Value = { Definition };

    ghost view = { λ l. record {
      parameters = option_map names_of l.names;
      variadic = l.variadic;
      body = l.body.now;
    } };
}

/// Distinct names, to be looked up under this key.
pub(crate) fn names_in(
    alloc: Global,
    key: NameKey,
    names: &Option<List<Text>>,
) -> Result<Option<NameTable<()>>, NoMemory>
    requires { are_distinct names.now }
    ensures { IfOk result (λ table. option_map names_of table ≡ names.now) }
{
    match names {
        None => Ok(None),
        Some(names) => Ok(Some(table_of(alloc, key, names.as_slice())?)),
    }
}

/// A table of distinct names.
fn table_of(alloc: Global, key: NameKey, names: &[Text]) -> Result<NameTable<()>, NoMemory>
    requires { IsDistinct bytes_eq names.now }
    ensures { IfOk result (λ table. names_of table ≡ names.now) }
{
    let mut table = NameTable::new(alloc, key);
    for name in names {
        let copy = name.copy()?;
        table.insert(copy, ())?;
    }
    Ok(table)
}

/// The index of the argument that a name stands for, among these parameters.
#[tactic(auto, unfolding(cx_table::specs::NameTable::index_of))]
fn index_among(variadic: bool, names: &NameTable<()>, name: &[u8]) -> Option<usize>
    ensures { result ≡ macros.index_of variadic (Some (names_of names.now)) name.now }
{
    match names.index_of(name) {
        Some(index) => Some(index),
        None => variable_index(variadic, names, name),
    }
}

/// The index of the variable argument, where a name that is no parameter's is its name.
fn variable_index(variadic: bool, names: &NameTable<()>, name: &[u8]) -> Option<usize>
    ensures { result ≡ macros.index_among variadic (names_of names.now) name.now None }
{
    if !variadic {
        return None;
    }
    if is_same(name, VARIABLE_NAME) {
        Some(count(names))
    } else {
        None
    }
}

/// How many names there are.
#[tactic(auto, using(crate::proofs::LookupLaws::counted))]
fn count(names: &NameTable<()>) -> usize
    ensures { result ≡ length (names_of names.now) }
{
    names.len()
}

impl<'a> Lookup<'a> {
    /// The macro with these parameters, and this body.
    pub(crate) fn new(names: Option<NameTable<()>>, variadic: bool, body: &'a [Token]) -> Lookup<'a>
        ensures { result ≡ record {
          parameters = option_map names_of names;
          variadic = variadic;
          body = body.now;
        } }
    {
        Lookup {
            names,
            variadic,
            body,
        }
    }

    pub(crate) fn body(&self) -> &'a [Token]
        ensures { result.now ≡ self.now.body }
    {
        self.body
    }

    /// The index of the argument that a token of the body stands for.
    #[tactic(auto, unfolding(crate::specs::Macros::parameter_at))]
    pub(crate) fn parameter_at(&self, token: &Token) -> Option<usize>
        ensures { result ≡ macros.parameter_at self.now token.now }
    {
        if !is_name(token.kind) {
            return None;
        }
        match &self.names {
            None => None,
            Some(names) => index_among(self.variadic, names, token.text.as_slice()),
        }
    }

    /// Whether a token of the body is the parameter with an index.
    pub(crate) fn is_parameter(&self, token: &Token, index: usize) -> bool
        ensures { result ≡ is_index index (macros.parameter_at self.now token.now) }
    {
        self.parameter_at(token) == Some(index)
    }

    /// The index of the variable argument.
    pub(crate) fn variable_index(&self) -> usize
        ensures { result ≡ meaning.variable_index self.now }
    {
        match &self.names {
            Some(names) => count(names),
            None => 0,
        }
    }
}
