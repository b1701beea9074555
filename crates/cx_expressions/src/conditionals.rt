//! Conditionals and assignments (C11 6.5.15 and 6.5.16).
ghost use Rattle.cx_reading.specs.Parsing.{Reads};
ghost use Rattle.cx_expressions.specs.Shapes.Nests.{Nests};
ghost use Rattle.cx_expressions.specs.Shapes.Parsers as spec;

use crate::operands::Grammar;
use crate::roles::{Behind, begins_cast, follows};
use cx_reading::{Cursor, Refusal};
use cx_syntax_tree::{Punctuator, TreeAssign, TreeCast, TreeCond, TreeLor, TreeUnary};
use sqlite_items::Boxed;
use std::alloc::Global;

impl<
    C: Fn(Global, &mut Cursor<'_>, usize) -> Result<TreeCast, Refusal>,
    U: Fn(Global, &mut Cursor<'_>, usize) -> Result<TreeUnary, Refusal>,
    D: Fn(Global, &mut Cursor<'_>, usize) -> Result<TreeCond, Refusal>,
    A: Fn(Global, &mut Cursor<'_>, usize) -> Result<TreeAssign, Refusal>,
> Grammar<C, U, D, A> {
    /// Reads `"?" Expr ":" Cond` behind a condition (C11 6.5.15).
    #[tactic(auto, unfolding(crate::specs::Shapes::Parsers::branches))]
    fn branches(
        &self,
        cursor: &mut Cursor<'_>,
        condition: Boxed<TreeLor>,
    ) -> Result<TreeCond, Refusal>
        requires cond { Nests (spec.readers self.now.depth).cond self.now.depth
            (D.pre self.now.cond) (D.post self.now.cond) }
        requires assign { Nests (spec.readers self.now.depth).assign self.now.depth
            (A.pre self.now.assign) (A.post self.now.assign) }
        ensures { Reads (spec.branches (spec.readers self.now.depth) condition
            cursor.old) result cursor.new }
    {
        let question = cursor.take()?.at;
        let chosen = self.expr(cursor)?;
        let chosen = Boxed::new(self.alloc, chosen)?;
        let colon = cursor.expect(Punctuator::Colon)?;
        let otherwise = self.next_cond(cursor)?;
        let otherwise = Boxed::new(self.alloc, otherwise)?;
        Ok(TreeCond::Choice {
            condition,
            question,
            chosen,
            colon,
            otherwise,
        })
    }

    /// Goes on behind the condition of a conditional, or behind all of one.
    #[tactic(auto, unfolding(crate::specs::Shapes::Parsers::choice))]
    fn choice(
        &self,
        cursor: &mut Cursor<'_>,
        condition: Boxed<TreeLor>,
    ) -> Result<TreeCond, Refusal>
        requires cond { Nests (spec.readers self.now.depth).cond self.now.depth
            (D.pre self.now.cond) (D.post self.now.cond) }
        requires assign { Nests (spec.readers self.now.depth).assign self.now.depth
            (A.pre self.now.assign) (A.post self.now.assign) }
        ensures { Reads (spec.choice (spec.readers self.now.depth) condition
            cursor.old) result cursor.new }
    {
        match follows(cursor) {
            Behind::Question => self.branches(cursor, condition),
            _ => Ok(TreeCond::Lor(condition)),
        }
    }

    /// Goes on with a conditional from a cast that was read.
    #[tactic(auto, unfolding(crate::specs::Shapes::Parsers::cond_from))]
    fn cond_from(
        &self,
        cursor: &mut Cursor<'_>,
        first: Boxed<TreeCast>,
    ) -> Result<TreeCond, Refusal>
        requires cast { Nests (spec.readers self.now.depth).cast self.now.depth
            (C.pre self.now.cast) (C.post self.now.cast) }
        requires unary { Nests (spec.readers self.now.depth).unary self.now.depth
            (U.pre self.now.unary) (U.post self.now.unary) }
        requires cond { Nests (spec.readers self.now.depth).cond self.now.depth
            (D.pre self.now.cond) (D.post self.now.cond) }
        requires assign { Nests (spec.readers self.now.depth).assign self.now.depth
            (A.pre self.now.assign) (A.post self.now.assign) }
        ensures { Reads (spec.cond_from (spec.readers self.now.depth) first cursor.old)
            result cursor.new }
    {
        let condition = self.lor_from(cursor, 10, TreeLor::Cast(first))?;
        let condition = Boxed::new(self.alloc, condition)?;
        self.choice(cursor, condition)
    }

    /// Reads a conditional (C11 6.5.15).
    #[tactic(auto, unfolding(crate::specs::Shapes::Parsers::cond))]
    pub(crate) fn cond(&self, cursor: &mut Cursor<'_>) -> Result<TreeCond, Refusal>
        requires cast { Nests (spec.readers self.now.depth).cast self.now.depth
            (C.pre self.now.cast) (C.post self.now.cast) }
        requires unary { Nests (spec.readers self.now.depth).unary self.now.depth
            (U.pre self.now.unary) (U.post self.now.unary) }
        requires cond { Nests (spec.readers self.now.depth).cond self.now.depth
            (D.pre self.now.cond) (D.post self.now.cond) }
        requires assign { Nests (spec.readers self.now.depth).assign self.now.depth
            (A.pre self.now.assign) (A.post self.now.assign) }
        ensures { Reads (spec.cond (spec.readers self.now.depth) cursor.old) result cursor.new }
    {
        let first = self.cast(cursor)?;
        let first = Boxed::new(self.alloc, first)?;
        self.cond_from(cursor, first)
    }

    /// Goes on with an assignment from a unary expression that was read (C11 6.5.16).
    #[tactic(auto, unfolding(crate::specs::Shapes::Parsers::assign_from))]
    fn assign_from(
        &self,
        cursor: &mut Cursor<'_>,
        target: Boxed<TreeUnary>,
    ) -> Result<TreeAssign, Refusal>
        requires cast { Nests (spec.readers self.now.depth).cast self.now.depth
            (C.pre self.now.cast) (C.post self.now.cast) }
        requires unary { Nests (spec.readers self.now.depth).unary self.now.depth
            (U.pre self.now.unary) (U.post self.now.unary) }
        requires cond { Nests (spec.readers self.now.depth).cond self.now.depth
            (D.pre self.now.cond) (D.post self.now.cond) }
        requires assign { Nests (spec.readers self.now.depth).assign self.now.depth
            (A.pre self.now.assign) (A.post self.now.assign) }
        ensures { Reads (spec.assign_from (spec.readers self.now.depth) target
            cursor.old) result cursor.new }
    {
        match follows(cursor) {
            Behind::Assign(operator) => {
                let at = cursor.take()?.at;
                let value = self.next_assign(cursor)?;
                let value = Boxed::new(self.alloc, value)?;
                Ok(TreeAssign::Assign {
                    target,
                    operator,
                    at,
                    value,
                })
            }
            _ => {
                let first = Boxed::new(self.alloc, TreeCast::Unary(target))?;
                let found = self.cond_from(cursor, first)?;
                Ok(TreeAssign::Cond(Boxed::new(self.alloc, found)?))
            }
        }
    }

    /// Reads an assignment (C11 6.5.16).
    #[tactic(auto, unfolding(crate::specs::Shapes::Parsers::assign))]
    pub(crate) fn assign(&self, cursor: &mut Cursor<'_>) -> Result<TreeAssign, Refusal>
        requires cast { Nests (spec.readers self.now.depth).cast self.now.depth
            (C.pre self.now.cast) (C.post self.now.cast) }
        requires unary { Nests (spec.readers self.now.depth).unary self.now.depth
            (U.pre self.now.unary) (U.post self.now.unary) }
        requires cond { Nests (spec.readers self.now.depth).cond self.now.depth
            (D.pre self.now.cond) (D.post self.now.cond) }
        requires assign { Nests (spec.readers self.now.depth).assign self.now.depth
            (A.pre self.now.assign) (A.post self.now.assign) }
        ensures { Reads (spec.assign (spec.readers self.now.depth) cursor.old) result cursor.new }
    {
        if begins_cast(cursor) {
            let found = self.cond(cursor)?;
            Ok(TreeAssign::Cond(Boxed::new(self.alloc, found)?))
        } else {
            let target = self.unary(cursor)?;
            let target = Boxed::new(self.alloc, target)?;
            self.assign_from(cursor, target)
        }
    }
}
