//! What can be defined as a macro.
ghost use Rattle.std.specs.Prelude.{◌≡◌, ◌↔◌, Some, IfOk, IsTrue, MatchOption, bytes_eq, is_some};
ghost use Rattle.std.specs.List.{IsDistinct};
ghost use Rattle.cx_table.specs.NameTable.{index_of, names_of};
ghost use Rattle.cx_tokens.specs.Nodes.{tokens};
ghost use Rattle.cx_macro.specs.Macros as macros;
ghost use Rattle.cx_macro.specs.Macros.{IsDefinition};
ghost use Rattle.cx_macro.specs.Made.{definition_by};

use crate::macros::Macro;
use crate::marks::{is_hash, is_name};
use crate::stored::VARIABLE_NAME;
use crate::walk::Walk;
use cx_base::{NoMemory, Text};
use cx_table::{NameKey, NameTable};
use cx_tokens::Token;
use std::alloc::Global;

impl Macro {
    /// Whether it can be defined: its parameters are distinct (C11 6.10.3, paragraph 6), it is
    /// variadic only where it is function-like (paragraph 12), and each `#` of a function-like body
    /// stands before a parameter (6.10.3.2, paragraph 1). Its parameters are looked up under this
    /// key.
    pub fn can_be_defined(&self, alloc: Global, key: NameKey) -> Result<bool, NoMemory>
        ensures { IfOk result (λ b. IsTrue b ↔ IsDefinition (definition_by self.now)) }
    {
        let Some(parameters) = &self.parameters else {
            return Ok(!self.variadic);
        };
        match distinct_names(alloc, key, parameters.as_slice())? {
            Some(names) => Ok(self.hashes_stand(&names)),
            None => Ok(false),
        }
    }

    /// Whether each `#` of the body stands before a parameter, where the parameters are these
    /// names.
    fn hashes_stand(&self, names: &NameTable<()>) -> bool
        requires { self.now.parameters ≡ Some (names_of names.now) }
        ensures { result
            ≡ macros.hashes_stand (definition_by self.now) (tokens self.now.body.nodes) }
    {
        let mut walk = Walk::over(&self.body);
        let mut is_after_hash = false;
        while let Some(token) = walk.next() {
            if is_after_hash && !self.is_parameter(names, token) {
                return false;
            }
            is_after_hash = is_hash(token);
        }
        !is_after_hash
    }

    /// Whether a token of the body is a parameter, where the parameters are these names.
    fn is_parameter(&self, names: &NameTable<()>, token: &Token) -> bool
        requires { self.now.parameters ≡ Some (names_of names.now) }
        ensures { result ≡ is_some (macros.parameter_at (definition_by self.now) token.now) }
    {
        let name = token.text.as_slice();
        is_name(token.kind) && (is_one_of(names, name) || self.variadic && name == VARIABLE_NAME)
    }
}

/// Whether a name is one of these.
fn is_one_of(names: &NameTable<()>, name: &[u8]) -> bool
    ensures { result ≡ is_some (index_of names.now name.now) }
{
    names.index_of(name).is_some()
}

/// These names as a set, where no two of them are one.
fn distinct_names(
    alloc: Global,
    key: NameKey,
    names: &[Text],
) -> Result<Option<NameTable<()>>, NoMemory>
    ensures { IfOk result (λ set. MatchOption set (¬ IsDistinct bytes_eq names.now)
        (λ s. IsDistinct bytes_eq names.now × (names_of s ≡ names.now))) }
{
    let mut set = NameTable::new(alloc, key);
    for name in names {
        if is_one_of(&set, name.as_slice()) {
            return Ok(None);
        }
        let copy = name.copy()?;
        set.insert(copy, ())?;
    }
    Ok(Some(set))
}
