//! What is chosen.
use crate::fault::PreFault;
use cx_base::List;
use cx_directive::IncludeName;
use cx_tokens::TokenList;

/// What is chosen of a unit: its tokens, or the first fault; and the includes met up to there that
/// lead to no file.
#[derive(Drop)]
pub struct Chosen {
    pub tokens: Result<TokenList, PreFault>,
    pub missing: List<IncludeName>,
}
