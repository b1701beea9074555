//! The tokens of a list, one after the other.
ghost use Rattle.std.specs.Prelude.{◌≡◌, IfOk, map};
ghost use Rattle.cx_tokens.specs.Nodes.{tokens};

use cx_base::NoMemory;
use cx_tokens::{Token, TokenList};
use std::alloc::Global;

/// The tokens of a list, in order.
pub(crate) fn tokens_in(alloc: Global, list: &TokenList) -> Result<Vec<&Token>, NoMemory>
    ensures { IfOk result (λ found. map (λ t. t.now) found.items ≡ tokens list.now.nodes) }
{
    list.are_numbered();
    let mut found = Vec::new(alloc);
    let mut at = list.first();
    while let Some(node) = at {
        found.push(list.token(node))?;
        at = list.next(node);
    }
    Ok(found)
}
