//! What `include` has (C11 6.10.2).
ghost use Rattle.std.specs.Prelude.{◌≡◌, IfOk};
ghost use Rattle.cx_directive.specs.Operands.{header_name, target_of, tokens_of};

use crate::operand::{first, spelled};
use cx_base::{Duplicate, NoMemory, Place, Text};
use cx_lex::Piece;
use cx_tokens::{Kind, Token};
use std::alloc::Global;

/// The name of a header that a source includes.
#[derive(Debug, Drop)]
pub struct IncludeName {
    /// What stands between its delimiters.
    pub name: Text,
    /// Whether these are `"`, and not `<` and `>`.
    pub quoted: bool,
    /// Where it stands.
    pub at: Place,
}

impl IncludeName {
    /// An equal name.
    pub fn copy(&self) -> Result<IncludeName, NoMemory>
        ensures { IfOk result (λ n. n ≡ self.now) }
    {
        let name = self.name.copy()?;
        Ok(IncludeName {
            name,
            quoted: self.quoted,
            at: self.at,
        })
    }
}

impl Duplicate for IncludeName {
    fn duplicate(&self) -> Result<IncludeName, NoMemory> {
        self.copy()
    }
}

/// What an `include` has.
#[derive(Debug, Drop)]
pub struct Target {
    pub name: IncludeName,
    /// Whether it is no header's name, but other tokens, which would have to be replaced first.
    /// These are taken as the quoted name that they spell, which leads to no file.
    pub computed: bool,
}

/// The name of a header, which stands between its delimiters.
pub fn header_name(alloc: Global, token: &Token) -> Result<IncludeName, NoMemory>
    ensures { IfOk result (λ n. n ≡ header_name token.now) }
{
    let text = token.text.as_slice();
    let inner = text.get(1..).unwrap_or(&[]);
    let name = &inner[..inner.len().saturating_sub(1)];
    Ok(IncludeName {
        name: Text::from_slice(alloc, name)?,
        quoted: text.first() == Some(&b'"'),
        at: token.place,
    })
}

/// What an `include` with these operands has: the name of a header, behind which pieces are passed
/// over, or other pieces. `None` where there are none.
#[tactic(auto, unfolding(crate::specs::Operands::target_of))]
pub fn target_of(alloc: Global, operands: &[Piece]) -> Result<Option<Target>, NoMemory>
    ensures { IfOk result (λ r. r ≡ target_of (tokens_of operands.now)) }
{
    let Some((piece, _)) = first(operands) else {
        return Ok(None);
    };
    if piece.token.kind == Kind::Header {
        let name = header_name(alloc, &piece.token)?;
        return Ok(Some(Target {
            name,
            computed: false,
        }));
    }
    let name = IncludeName {
        name: spelled(alloc, operands)?,
        quoted: true,
        at: piece.token.place,
    };
    Ok(Some(Target {
        name,
        computed: true,
    }))
}
