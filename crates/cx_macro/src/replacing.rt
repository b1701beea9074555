//! What replaces a macro's name (C11 6.10.3.1 to 6.10.3.3).
ghost use Rattle.std.specs.Prelude.{◌≡◌, ◌≢◌, Some, None, List as list, IfOk, IfErr};
ghost use Rattle.cx_tokens.specs.declared.token.Token.{Token};
ghost use Rattle.cx_macro.specs.Replacement as meaning;
ghost use Rattle.cx_macro.specs.Shapes.Substitutes.{GluesTo};

use crate::fault::MacroFault;
use crate::hiding::Unions;
use crate::pasting::glued;
use crate::stack::Stack;
use crate::stored::Stored;
use crate::substitutes::{Arguments, set_space, substitutes_of};
use cx_base::{NoMemory, SharedList, Text};
use cx_tokens::Token;
use std::alloc::Global;

/// A token as it stands for a name, with more names to hide.
fn replacement_token(
    alloc: Global,
    name: &Token,
    unions: &mut Unions,
    token: Token,
) -> Result<Token, NoMemory>
    ensures names { unions.new ≡ unions.old }
    ensures token { IfOk result (λ t. t ≡ meaning.replacement_token name.now unions.old token) }
{
    let hide = unions.of(alloc, &token.hide)?;
    Ok(Token {
        kind: token.kind,
        text: token.text,
        place: name.place,
        hide,
        space: token.space,
        parts: token.parts,
        digraph: token.digraph,
    })
}

/// Tokens as they stand for a name, with these names to hide.
#[tactic(auto, unfolding(crate::specs::Replacement::replacement_tokens))]
fn replacement_tokens(
    alloc: Global,
    name: &Token,
    hide: &SharedList<Text>,
    tokens: Vec<Token>,
) -> Result<Vec<Token>, NoMemory>
    ensures { IfOk result (λ v. v.items
        ≡ meaning.replacement_tokens name.now hide.now tokens.items) }
{
    let mut left = Stack::from_vec(tokens);
    let mut unions = Unions::with(hide)?;
    let mut replacement = Vec::new(alloc);
    while let Some(token) = left.pop() {
        replacement.push(replacement_token(alloc, name, &mut unions, token)?)?;
    }
    set_space(&mut replacement, name.space);
    Ok(replacement)
}

/// What replaces the name of a macro that is given these arguments.
pub(crate) fn replacement(
    alloc: Global,
    stored: &Stored,
    arguments: Arguments,
    name: &Token,
    hide: &SharedList<Text>,
) -> Result<Vec<Token>, MacroFault>
    ensures replacement { IfOk result (λ v. (glued : list Token)
        × GluesTo stored.now arguments.entry (Some glued)
        × (v.items ≡ meaning.replacement_tokens name.now hide.now glued)) }
    ensures fault { IfErr result (λ fault. fault ≢ MacroFault.NoMemory
        → (fault ≡ MacroFault.BadPaste name.now.place) × GluesTo stored.now arguments.entry None) }
{
    let substitutes = substitutes_of(alloc, stored, arguments)?;
    match glued(alloc, substitutes)? {
        None => Err(MacroFault::BadPaste { at: name.place }),
        Some(glued) => Ok(replacement_tokens(alloc, name, hide, glued)?),
    }
}
