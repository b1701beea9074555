//! The tokens as the grammar sees them.
ghost use Rattle.std.specs.Prelude.{◌≡◌, IfOk, OnOk, map};
ghost use Rattle.cx_tokens.specs.Nodes.{tokens as tokens_of};
ghost use Rattle.cx_terminals.specs.Terminals.{lexemes, names_of};
ghost use Rattle.cx_terminals.specs.Shapes.Names.{lexemes_after, with_identifiers};

use crate::names::Names;
use crate::terminal::terminal;
use crate::walk::tokens_in;
use cx_base::{List, NoMemory, Text};
use cx_syntax_tree::Lexeme;
use cx_table::NameKey;
use cx_tokens::{Token, TokenList};
use std::alloc::Global;

/// The tokens of a list as the grammar sees them, and the texts of the identifiers among them: each
/// once, in the order in which they come first. An identifier has the number of its text.
#[derive(Drop)]
pub struct Lexemes {
    pub names: List<Text>,
    pub lexemes: List<Lexeme>,
}

/// The lexemes of tokens. The identifiers are put among the names.
#[tactic(auto, unfolding(crate::specs::Shapes::Names::lexemes_after))]
fn lexemes_of<'a>(
    alloc: Global,
    names: &mut Names<'a>,
    tokens: &[&'a Token],
) -> Result<List<Lexeme>, NoMemory>
    ensures names { OnOk result
        (names.new ≡ with_identifiers names.old (map (λ t. t.now) tokens.now)) }
    ensures lexemes { IfOk result
        (λ l. l ≡ lexemes_after names.old 0 (map (λ t. t.now) tokens.now)) }
{
    let mut lexemes = List::new(alloc);
    let mut at = 0u32;
    for token in tokens {
        let terminal = terminal(names, *token)?;
        lexemes.push(Lexeme { terminal, at })?;
        at = at.checked_add(1).ok_or(NoMemory)?;
    }
    Ok(lexemes)
}

impl Lexemes {
    /// Those of a list of tokens, in one walk. Names are hashed under this key, which the sources
    /// give. No name is that of a type yet.
    #[tactic(auto, using(crate::proofs::NameLaws::their_names, crate::proofs::NameLaws::their_lexemes))]
    pub fn of(alloc: Global, key: NameKey, list: &TokenList) -> Result<Lexemes, NoMemory>
        ensures names { IfOk result (λ l. l.names ≡ names_of (tokens_of list.now.nodes)) }
        ensures lexemes { IfOk result (λ l. l.lexemes ≡ lexemes (tokens_of list.now.nodes)) }
    {
        let tokens = tokens_in(alloc, list)?;
        let mut names = Names::new(alloc, key);
        let lexemes = lexemes_of(alloc, &mut names, tokens.as_slice())?;
        Ok(Lexemes {
            names: names.texts()?,
            lexemes,
        })
    }
}
