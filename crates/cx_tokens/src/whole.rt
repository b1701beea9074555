//! Token lists made of tokens, and tokens taken out of them.
ghost use Rattle.std.specs.Prelude.{◌≡◌, All, IfOk, None};
ghost use Rattle.cx_tokens.specs.Nodes.{tokens};

use crate::token::Token;
use crate::token_list::TokenList;
use cx_base::NoMemory;
use std::alloc::Global;

impl TokenList {
    /// The list of these tokens, in order. None has a partner.
    #[tactic(auto, using(crate::proofs::WholeLaws::put_first, crate::proofs::WholeLaws::put_alone))]
    pub fn from_vec(alloc: Global, wanted: Vec<Token>) -> Result<TokenList, NoMemory>
        ensures in_order { IfOk result (λ l. tokens l.nodes ≡ wanted.items) }
        ensures partners { IfOk result (λ l. All (λ x. x.partner ≡ None) l.nodes) }
    {
        let mut left = wanted;
        let mut list = TokenList::new(alloc);
        while let Some(token) = left.pop() {
            list.insert_after(None, token)?;
        }
        Ok(list)
    }

    /// The tokens, in order.
    #[tactic(auto, using(crate::proofs::WholeLaws::taken_first, crate::proofs::WholeLaws::take_next, crate::proofs::WholeLaws::all_taken))]
    pub fn into_vec(self) -> Result<Vec<Token>, NoMemory>
        ensures { IfOk result (λ taken. taken.items ≡ tokens self.nodes) }
    {
        let mut list = self;
        let mut taken = Vec::new(list.allocator());
        while let Some(node) = list.first() {
            taken.push(list.erase(node))?;
        }
        Ok(taken)
    }
}
