//! Chains of operators between operands (C11 6.5.5 to 6.5.14).
ghost use Rattle.std.specs.Prelude.{◌≡◌, ◌≤◌, ◌-◌, IfOk};
ghost use Rattle.cx_reading.specs.Parsing.{Reads, many};
ghost use Rattle.cx_expressions.specs.Expressions as meaning;
ghost use Rattle.cx_expressions.specs.Shapes.Nests.{Nests};
ghost use Rattle.cx_expressions.specs.Shapes.Parsers as spec;

use crate::operands::Grammar;
use crate::roles::{Behind, follows, level_of};
use cx_reading::{Cursor, Refusal};
use cx_syntax_tree::{TreeAssign, TreeCast, TreeCond, TreeLink, TreeLor, TreeUnary};
use sqlite_items::{Boxed, Items};
use std::alloc::{AllocError, Global};

/// An operand alone, or a chain.
#[tactic(auto, using(crate::proofs::ChainTrees::chained_some))]
fn chained(alloc: Global, first: TreeLor, links: Items<TreeLink>) -> Result<TreeLor, AllocError>
    ensures { IfOk result (λ t. t ≡ meaning.chained first links) }
{
    if links.is_empty() {
        return Ok(first);
    }
    let first = Boxed::new(alloc, first)?;
    Ok(TreeLor::Chain { first, links })
}

impl<
    C: Fn(Global, &mut Cursor<'_>, usize) -> Result<TreeCast, Refusal>,
    U: Fn(Global, &mut Cursor<'_>, usize) -> Result<TreeUnary, Refusal>,
    D: Fn(Global, &mut Cursor<'_>, usize) -> Result<TreeCond, Refusal>,
    A: Fn(Global, &mut Cursor<'_>, usize) -> Result<TreeAssign, Refusal>,
> Grammar<C, U, D, A> {
    /// Reads an operand of a chain.
    fn operand(&self, cursor: &mut Cursor<'_>) -> Result<TreeLor, Refusal>
        requires cast { Nests (spec.readers self.now.depth).cast self.now.depth
            (C.pre self.now.cast) (C.post self.now.cast) }
        requires unary { Nests (spec.readers self.now.depth).unary self.now.depth
            (U.pre self.now.unary) (U.post self.now.unary) }
        requires assign { Nests (spec.readers self.now.depth).assign self.now.depth
            (A.pre self.now.assign) (A.post self.now.assign) }
        ensures { Reads (spec.operand (spec.readers self.now.depth) cursor.old) result cursor.new }
    {
        let cast = self.cast(cursor)?;
        Ok(TreeLor::Cast(Boxed::new(self.alloc, cast)?))
    }

    /// Reads an operator of a level and its right operand, if one comes next.
    #[cycle(chain)]
    #[tactic(auto, unfolding(crate::specs::Shapes::Parsers::link, crate::specs::Shapes::Parsers::lor))]
    fn link(&self, cursor: &mut Cursor<'_>, level: usize) -> Result<Option<TreeLink>, Refusal>
        requires level { 1 ≤ level }
        requires cast { Nests (spec.readers self.now.depth).cast self.now.depth
            (C.pre self.now.cast) (C.post self.now.cast) }
        requires unary { Nests (spec.readers self.now.depth).unary self.now.depth
            (U.pre self.now.unary) (U.post self.now.unary) }
        requires assign { Nests (spec.readers self.now.depth).assign self.now.depth
            (A.pre self.now.assign) (A.post self.now.assign) }
        ensures { Reads (spec.link level (spec.lor (spec.readers self.now.depth) (level - 1))
            cursor.old) result cursor.new }
    {
        let Behind::Binary(operator) = follows(cursor) else {
            return Ok(None);
        };
        if level_of(operator) != level {
            return Ok(None);
        }
        let at = cursor.take()?.at;
        let first = self.operand(cursor)?;
        let operand = self.lor_from(cursor, level - 1, first)?;
        Ok(Some(TreeLink {
            operator,
            at,
            operand,
        }))
    }

    /// Reads the operators of a level and their right operands.
    #[cycle(chain)]
    fn links(&self, cursor: &mut Cursor<'_>, level: usize) -> Result<Items<TreeLink>, Refusal>
        requires level { 1 ≤ level }
        requires cast { Nests (spec.readers self.now.depth).cast self.now.depth
            (C.pre self.now.cast) (C.post self.now.cast) }
        requires unary { Nests (spec.readers self.now.depth).unary self.now.depth
            (U.pre self.now.unary) (U.post self.now.unary) }
        requires assign { Nests (spec.readers self.now.depth).assign self.now.depth
            (A.pre self.now.assign) (A.post self.now.assign) }
        ensures { Reads (many (spec.link level (spec.lor (spec.readers self.now.depth)
            (level - 1))) cursor.old) result cursor.new }
    {
        let mut links = Items::new(self.alloc);
        for _turn in 0..cursor.left() {
            match self.link(cursor, level)? {
                None => return Ok(links),
                Some(found) => links.push(found)?,
            }
        }
        Ok(links)
    }

    /// Goes on from an operand that was read, with operators up to a level.
    #[cycle(chain)]
    #[tactic(auto, unfolding(crate::specs::Shapes::Parsers::lor_from, crate::specs::Shapes::Parsers::lor))]
    pub(crate) fn lor_from(
        &self,
        cursor: &mut Cursor<'_>,
        level: usize,
        first: TreeLor,
    ) -> Result<TreeLor, Refusal>
        requires cast { Nests (spec.readers self.now.depth).cast self.now.depth
            (C.pre self.now.cast) (C.post self.now.cast) }
        requires unary { Nests (spec.readers self.now.depth).unary self.now.depth
            (U.pre self.now.unary) (U.post self.now.unary) }
        requires assign { Nests (spec.readers self.now.depth).assign self.now.depth
            (A.pre self.now.assign) (A.post self.now.assign) }
        ensures { Reads (spec.lor_from (spec.readers self.now.depth) level first
            cursor.old) result cursor.new }
    {
        if level == 0 {
            return Ok(first);
        }
        let first = self.lor_from(cursor, level - 1, first)?;
        let links = self.links(cursor, level)?;
        Ok(chained(self.alloc, first, links)?)
    }
}
