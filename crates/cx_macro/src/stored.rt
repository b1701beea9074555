//! Macros as they are looked up.
ghost use Rattle.std.specs.Prelude.{◌≡◌, IfOk, MatchOption, None, Some, bytes_eq, false, option_map};
ghost use Rattle.std.specs.Prelude.{slice_index_or};
ghost use Rattle.cx_table.specs.NameTable.{names_of};
ghost use Rattle.cx_macro.specs.Expansion.{line_of};
ghost use Rattle.cx_macro.specs.Macros.{are_distinct};
ghost use Rattle.cx_macro.specs.Replacement as meaning;
ghost use Rattle.cx_macro.specs.Shapes.Substitutes as shapes;
ghost use Rattle.cx_macro.specs.Shapes.Uses.{AreUses, roles_of};

use crate::lookup::{Lookup, names_in};
use crate::roles::{Role, Uses, uses_of};
use cx_base::{List, NoMemory, SharedList, Text};
use cx_table::{NameKey, NameTable};
use cx_tokens::{Kind, Token};
use std::alloc::Global;
use std::marker::Model;

/// The name of the variable argument (C11 6.10.3, paragraph 5).
pub(crate) const VARIABLE_NAME: &[u8] = b"__VA_ARGS__";

/// A macro, which contracts see as its definition. What its body alone tells is found once, when
/// the macro is made.
#[derive(Drop)]
pub(crate) struct Stored {
    parameters: Option<List<Text>>,
    variadic: bool,
    body: List<Token>,
    uses: Uses,
}

impl Model for Stored {
    ghost use Rattle.cx_macro.specs.Macros.{Definition};

    ghost Value = { Definition };

    ghost use Rattle.cx_macro.specs.Shapes.Uses.{AreUses};

    ghost view = { λ s. record {
      parameters = s.parameters;
      variadic = s.variadic;
      body = s.body;
    } };

    ghost invariant = { λ s. AreUses (record {
      parameters = s.parameters;
      variadic = s.variadic;
      body = s.body;
    }) s.uses };
}

/// Whether two names are one.
pub(crate) fn is_same(name: &[u8], other: &[u8]) -> bool
    ensures { result ≡ bytes_eq name.now other.now }
{
    name == other
}

/// What each token of a body is, and how its arguments stand there, where the macro has parameters
/// of these names.
fn uses_in(
    alloc: Global,
    names: Option<NameTable<()>>,
    variadic: bool,
    body: &[Token],
) -> Result<Uses, NoMemory>
    ensures { IfOk result (λ uses. AreUses (record {
      parameters = option_map names_of names;
      variadic = variadic;
      body = body.now;
    }) uses) }
{
    let lookup = Lookup::new(names, variadic, body);
    uses_of(alloc, &lookup)
}

/// Whether the flag at an index is set.
fn flag(flags: &[bool], index: usize) -> bool
    ensures { result ≡ slice_index_or flags.now index false }
{
    match flags.get(index) {
        Some(flag) => *flag,
        None => false,
    }
}

impl Stored {
    /// A macro, whose parameters are distinct and are looked up under this key.
    pub(crate) fn of(
        alloc: Global,
        key: NameKey,
        parameters: Option<List<Text>>,
        variadic: bool,
        body: List<Token>,
    ) -> Result<Stored, NoMemory>
        requires { are_distinct parameters }
        ensures { IfOk result (λ s. s ≡ record {
          parameters = parameters;
          variadic = variadic;
          body = body;
        }) }
    {
        let names = names_in(alloc, key, &parameters)?;
        Stored::with_names(alloc, parameters, names, variadic, body)
    }

    /// A macro with parameters of these names.
    fn with_names(
        alloc: Global,
        parameters: Option<List<Text>>,
        names: Option<NameTable<()>>,
        variadic: bool,
        body: List<Token>,
    ) -> Result<Stored, NoMemory>
        requires { option_map names_of names ≡ parameters }
        ensures { IfOk result (λ s. s ≡ record {
          parameters = parameters;
          variadic = variadic;
          body = body;
        }) }
    {
        let uses = uses_in(alloc, names, variadic, body.as_slice())?;
        Ok(Stored {
            parameters,
            variadic,
            body,
            uses,
        })
    }

    /// The macro that `__LINE__` is at a place (C11 6.10.8.1).
    pub(crate) fn line_of(alloc: Global, token: &Token) -> Result<Stored, NoMemory>
        ensures { IfOk result (λ s. s ≡ line_of token.now) }
    {
        let mut text = Text::new(alloc);
        text.push_number(token.place.line)?;
        let mut body = List::new(alloc);
        body.push(Token {
            kind: Kind::Number,
            text,
            place: token.place,
            hide: SharedList::new(),
            space: false,
            parts: SharedList::new(),
            digraph: false,
        })?;
        Stored::with_names(alloc, None, None, false, body)
    }

    /// The names of its parameters, where it is function-like.
    pub(crate) fn parameters(&self) -> Option<&[Text]>
        ensures { MatchOption result (self.now.parameters ≡ None)
            (λ names. self.now.parameters ≡ Some names.now) }
    {
        match &self.parameters {
            None => None,
            Some(parameters) => Some(parameters.as_slice()),
        }
    }

    /// Whether a variable argument stands behind these.
    pub(crate) fn is_variadic(&self) -> bool
        ensures { result ≡ self.now.variadic }
    {
        self.variadic
    }

    pub(crate) fn body(&self) -> &[Token]
        ensures { result.now ≡ self.now.body }
    {
        self.body.as_slice()
    }

    /// What each token of the body is.
    pub(crate) fn roles(&self) -> &[Role]
        ensures { result.now ≡ roles_of self.now }
    {
        self.uses.roles.as_slice()
    }

    /// Whether the argument with an index stands expanded somewhere.
    pub(crate) fn is_expanded(&self, index: usize) -> bool
        ensures { result ≡ meaning.is_expanded self.now index }
    {
        flag(self.uses.expanded.as_slice(), index)
    }

    /// Whether the argument with an index stands somewhere as it is given.
    pub(crate) fn is_raw(&self, index: usize) -> bool
        ensures { result ≡ shapes.is_raw self.now index }
    {
        flag(self.uses.raw.as_slice(), index)
    }
}
