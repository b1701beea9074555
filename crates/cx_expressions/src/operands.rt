//! The rules of expressions, each by itself: what nests is read by function values.
ghost use Rattle.cx_reading.specs.Parsing.{Reads, after_comma};
ghost use Rattle.cx_expressions.specs.Expressions.{comma_assign};
ghost use Rattle.cx_expressions.specs.Shapes.Nests.{Nests};
ghost use Rattle.cx_expressions.specs.Shapes.Parsers as spec;

use crate::roles::{Begin, Behind, begins, begins_cast, follows};
use cx_reading::{Cursor, Refusal, is_mark, many, type_name};
use cx_syntax_tree::{
    CommaAssign, NameAt, Punctuator, TreeArguments, TreeAssign, TreeCast, TreeCond, TreeExpr,
    TreeHead, TreePostfix, TreeSuffix, TreeUnary,
};
use sqlite_items::{Boxed, Items};
use std::alloc::Global;

/// How what nests is read, and how deep it may nest.
#[derive(Clone, Copy)]
pub(crate) struct Grammar<C, U, D, A> {
    pub(crate) alloc: Global,
    pub(crate) depth: usize,
    pub(crate) cast: C,
    pub(crate) unary: U,
    pub(crate) cond: D,
    pub(crate) assign: A,
}

impl<
    C: Fn(Global, &mut Cursor<'_>, usize) -> Result<TreeCast, Refusal>,
    U: Fn(Global, &mut Cursor<'_>, usize) -> Result<TreeUnary, Refusal>,
    D: Fn(Global, &mut Cursor<'_>, usize) -> Result<TreeCond, Refusal>,
    A: Fn(Global, &mut Cursor<'_>, usize) -> Result<TreeAssign, Refusal>,
> Grammar<C, U, D, A> {
    /// Reads a cast that nests.
    pub(crate) fn next_cast(&self, cursor: &mut Cursor<'_>) -> Result<TreeCast, Refusal>
        requires cast { Nests (spec.readers self.now.depth).cast self.now.depth
            (C.pre self.now.cast) (C.post self.now.cast) }
        ensures { Reads ((spec.readers self.now.depth).cast cursor.old) result cursor.new }
    {
        (self.cast)(self.alloc, cursor, self.depth)
    }

    /// Reads a unary expression that nests.
    pub(crate) fn next_unary(&self, cursor: &mut Cursor<'_>) -> Result<TreeUnary, Refusal>
        requires unary { Nests (spec.readers self.now.depth).unary self.now.depth
            (U.pre self.now.unary) (U.post self.now.unary) }
        ensures { Reads ((spec.readers self.now.depth).unary cursor.old) result cursor.new }
    {
        (self.unary)(self.alloc, cursor, self.depth)
    }

    /// Reads a conditional that nests.
    pub(crate) fn next_cond(&self, cursor: &mut Cursor<'_>) -> Result<TreeCond, Refusal>
        requires cond { Nests (spec.readers self.now.depth).cond self.now.depth
            (D.pre self.now.cond) (D.post self.now.cond) }
        ensures { Reads ((spec.readers self.now.depth).cond cursor.old) result cursor.new }
    {
        (self.cond)(self.alloc, cursor, self.depth)
    }

    /// Reads an assignment that nests.
    pub(crate) fn next_assign(&self, cursor: &mut Cursor<'_>) -> Result<TreeAssign, Refusal>
        requires assign { Nests (spec.readers self.now.depth).assign self.now.depth
            (A.pre self.now.assign) (A.post self.now.assign) }
        ensures { Reads ((spec.readers self.now.depth).assign cursor.old) result cursor.new }
    {
        (self.assign)(self.alloc, cursor, self.depth)
    }

    /// Reads a comma and an assignment, if a comma comes next.
    #[tactic(auto, unfolding(cx_reading::specs::Parsing::after_comma))]
    fn comma_assign(&self, cursor: &mut Cursor<'_>) -> Result<Option<CommaAssign>, Refusal>
        requires assign { Nests (spec.readers self.now.depth).assign self.now.depth
            (A.pre self.now.assign) (A.post self.now.assign) }
        ensures { Reads (after_comma comma_assign (spec.readers self.now.depth).assign
            cursor.old) result cursor.new }
    {
        let Some(comma) = cursor.eat(Punctuator::Comma) else {
            return Ok(None);
        };
        let assign = self.next_assign(cursor)?;
        Ok(Some(CommaAssign { comma, assign }))
    }

    /// Reads `{"," Assign}`.
    #[tactic(auto, unfolding(crate::specs::Shapes::Parsers::more_assigns))]
    pub(crate) fn more_assigns(
        &self,
        cursor: &mut Cursor<'_>,
    ) -> Result<Items<CommaAssign>, Refusal>
        requires assign { Nests (spec.readers self.now.depth).assign self.now.depth
            (A.pre self.now.assign) (A.post self.now.assign) }
        ensures { Reads (spec.more_assigns (spec.readers self.now.depth) cursor.old) result
            cursor.new }
    {
        many(
            self.alloc,
            cursor,
            |cursor: &mut Cursor<'_>| self.comma_assign(cursor),
        )
    }

    /// Reads an expression (C11 6.5.17).
    #[tactic(auto, unfolding(crate::specs::Shapes::Parsers::expr))]
    pub(crate) fn expr(&self, cursor: &mut Cursor<'_>) -> Result<TreeExpr, Refusal>
        requires assign { Nests (spec.readers self.now.depth).assign self.now.depth
            (A.pre self.now.assign) (A.post self.now.assign) }
        ensures { Reads (spec.expr (spec.readers self.now.depth) cursor.old) result cursor.new }
    {
        let first = self.next_assign(cursor)?;
        let more = self.more_assigns(cursor)?;
        Ok(TreeExpr { first, more })
    }

    /// Reads the arguments of a call (C11 6.5.2.2).
    #[tactic(auto, unfolding(crate::specs::Shapes::Parsers::arguments))]
    pub(crate) fn arguments(&self, cursor: &mut Cursor<'_>) -> Result<TreeArguments, Refusal>
        requires assign { Nests (spec.readers self.now.depth).assign self.now.depth
            (A.pre self.now.assign) (A.post self.now.assign) }
        ensures { Reads (spec.arguments (spec.readers self.now.depth) cursor.old) result
            cursor.new }
    {
        let first = self.next_assign(cursor)?;
        let more = self.more_assigns(cursor)?;
        Ok(TreeArguments { first, more })
    }

    /// Reads what stands between the brackets of a call (C11 6.5.2.2).
    #[tactic(auto, unfolding(crate::specs::Shapes::Parsers::given))]
    fn given(&self, cursor: &mut Cursor<'_>) -> Result<Option<Boxed<TreeArguments>>, Refusal>
        requires assign { Nests (spec.readers self.now.depth).assign self.now.depth
            (A.pre self.now.assign) (A.post self.now.assign) }
        ensures { Reads (spec.given (spec.readers self.now.depth) cursor.old) result cursor.new }
    {
        if is_mark(Punctuator::CloseRound, cursor.terminal()) {
            return Ok(None);
        }
        let arguments = self.arguments(cursor)?;
        Ok(Some(Boxed::new(self.alloc, arguments)?))
    }

    /// Reads a name, or the call of one (C11 6.5.2.2).
    #[tactic(auto, unfolding(crate::specs::Shapes::Parsers::name_head))]
    fn name_head(&self, cursor: &mut Cursor<'_>, name: u32) -> Result<TreeHead, Refusal>
        requires assign { Nests (spec.readers self.now.depth).assign self.now.depth
            (A.pre self.now.assign) (A.post self.now.assign) }
        ensures { Reads (spec.name_head (spec.readers self.now.depth) name cursor.old) result
            cursor.new }
    {
        let token = cursor.take()?;
        let function = NameAt { name, at: token.at };
        let Some(opening) = cursor.eat(Punctuator::OpenRound) else {
            return Ok(TreeHead::Name(function));
        };
        let arguments = self.given(cursor)?;
        let closing = cursor.expect(Punctuator::CloseRound)?;
        Ok(TreeHead::Call {
            function,
            opening,
            arguments,
            closing,
        })
    }

    /// Reads an expression in brackets (C11 6.5.1).
    #[tactic(auto, unfolding(crate::specs::Shapes::Parsers::brackets))]
    fn brackets(&self, cursor: &mut Cursor<'_>) -> Result<TreeHead, Refusal>
        requires assign { Nests (spec.readers self.now.depth).assign self.now.depth
            (A.pre self.now.assign) (A.post self.now.assign) }
        ensures { Reads (spec.brackets (spec.readers self.now.depth) cursor.old) result cursor.new }
    {
        let token = cursor.take()?;
        let inner = self.expr(cursor)?;
        let inner = Boxed::new(self.alloc, inner)?;
        let closing = cursor.expect(Punctuator::CloseRound)?;
        Ok(TreeHead::Brackets {
            opening: token.at,
            inner,
            closing,
        })
    }

    /// Reads a primary expression or the call of a name (C11 6.5.1 and 6.5.2.2).
    #[tactic(auto, unfolding(crate::specs::Shapes::Parsers::head))]
    fn head(&self, cursor: &mut Cursor<'_>) -> Result<TreeHead, Refusal>
        requires assign { Nests (spec.readers self.now.depth).assign self.now.depth
            (A.pre self.now.assign) (A.post self.now.assign) }
        ensures { Reads (spec.head (spec.readers self.now.depth) cursor.old) result cursor.new }
    {
        match begins(cursor) {
            Begin::Name(name) => self.name_head(cursor, name),
            Begin::Number => Ok(TreeHead::Number {
                at: cursor.take()?.at,
            }),
            Begin::Char => Ok(TreeHead::Char {
                at: cursor.take()?.at,
            }),
            Begin::String => Ok(TreeHead::String {
                at: cursor.take()?.at,
            }),
            Begin::Open => self.brackets(cursor),
            _ => Err(Refusal::Syntax),
        }
    }

    /// Reads `"[" Expr "]"` (C11 6.5.2.1).
    #[tactic(auto, unfolding(crate::specs::Shapes::Parsers::index))]
    fn index(&self, cursor: &mut Cursor<'_>) -> Result<Option<TreeSuffix>, Refusal>
        requires assign { Nests (spec.readers self.now.depth).assign self.now.depth
            (A.pre self.now.assign) (A.post self.now.assign) }
        ensures { Reads (spec.index (spec.readers self.now.depth) cursor.old) result cursor.new }
    {
        let token = cursor.take()?;
        let index = self.expr(cursor)?;
        let index = Boxed::new(self.alloc, index)?;
        let closing = cursor.expect(Punctuator::CloseSquare)?;
        Ok(Some(TreeSuffix::Index {
            opening: token.at,
            index,
            closing,
        }))
    }

    /// Reads a suffix, if one comes next (C11 6.5.2).
    #[tactic(auto, unfolding(crate::specs::Shapes::Parsers::suffix))]
    fn suffix(&self, cursor: &mut Cursor<'_>) -> Result<Option<TreeSuffix>, Refusal>
        requires assign { Nests (spec.readers self.now.depth).assign self.now.depth
            (A.pre self.now.assign) (A.post self.now.assign) }
        ensures { Reads (spec.suffix (spec.readers self.now.depth) cursor.old) result cursor.new }
    {
        match follows(cursor) {
            Behind::Index => self.index(cursor),
            Behind::Dot => {
                let at = cursor.take()?.at;
                let member = cursor.tag_name()?;
                Ok(Some(TreeSuffix::Dot { at, member }))
            }
            Behind::Arrow => {
                let at = cursor.take()?.at;
                let member = cursor.tag_name()?;
                Ok(Some(TreeSuffix::Arrow { at, member }))
            }
            Behind::Step(step) => {
                let at = cursor.take()?.at;
                Ok(Some(TreeSuffix::Step { step, at }))
            }
            _ => Ok(None),
        }
    }

    /// Reads a postfix expression (C11 6.5.2).
    #[tactic(auto, unfolding(crate::specs::Shapes::Parsers::postfix))]
    fn postfix(&self, cursor: &mut Cursor<'_>) -> Result<TreePostfix, Refusal>
        requires assign { Nests (spec.readers self.now.depth).assign self.now.depth
            (A.pre self.now.assign) (A.post self.now.assign) }
        ensures { Reads (spec.postfix (spec.readers self.now.depth) cursor.old) result cursor.new }
    {
        let head = self.head(cursor)?;
        let head = Boxed::new(self.alloc, head)?;
        let suffixes = many(
            self.alloc,
            cursor,
            |cursor: &mut Cursor<'_>| self.suffix(cursor),
        )?;
        Ok(TreePostfix { head, suffixes })
    }

    /// Reads what stands behind `sizeof` (C11 6.5.3.4).
    #[tactic(auto, unfolding(crate::specs::Shapes::Parsers::size))]
    fn size(&self, cursor: &mut Cursor<'_>, at: u32) -> Result<TreeUnary, Refusal>
        requires unary { Nests (spec.readers self.now.depth).unary self.now.depth
            (U.pre self.now.unary) (U.post self.now.unary) }
        ensures { Reads (spec.size (spec.readers self.now.depth) at cursor.old) result cursor.new }
    {
        if begins_cast(cursor) {
            let opening = cursor.take()?.at;
            let target = type_name(self.alloc, cursor)?;
            let closing = cursor.expect(Punctuator::CloseRound)?;
            Ok(TreeUnary::SizeofType {
                at,
                opening,
                target,
                closing,
            })
        } else {
            let operand = self.next_unary(cursor)?;
            let operand = Boxed::new(self.alloc, operand)?;
            Ok(TreeUnary::SizeofUnary { at, operand })
        }
    }

    /// Reads a unary expression (C11 6.5.3).
    #[tactic(auto, unfolding(crate::specs::Shapes::Parsers::unary))]
    pub(crate) fn unary(&self, cursor: &mut Cursor<'_>) -> Result<TreeUnary, Refusal>
        requires cast { Nests (spec.readers self.now.depth).cast self.now.depth
            (C.pre self.now.cast) (C.post self.now.cast) }
        requires unary { Nests (spec.readers self.now.depth).unary self.now.depth
            (U.pre self.now.unary) (U.post self.now.unary) }
        requires assign { Nests (spec.readers self.now.depth).assign self.now.depth
            (A.pre self.now.assign) (A.post self.now.assign) }
        ensures { Reads (spec.unary (spec.readers self.now.depth) cursor.old) result cursor.new }
    {
        match begins(cursor) {
            Begin::Step(step) => {
                let at = cursor.take()?.at;
                let operand = self.next_unary(cursor)?;
                let operand = Boxed::new(self.alloc, operand)?;
                Ok(TreeUnary::Step { step, at, operand })
            }
            Begin::Operator(operator) => {
                let at = cursor.take()?.at;
                let operand = self.next_cast(cursor)?;
                let operand = Boxed::new(self.alloc, operand)?;
                Ok(TreeUnary::Operator {
                    operator,
                    at,
                    operand,
                })
            }
            Begin::Sizeof => {
                let at = cursor.take()?.at;
                self.size(cursor, at)
            }
            _ => {
                let postfix = self.postfix(cursor)?;
                Ok(TreeUnary::Postfix(Boxed::new(self.alloc, postfix)?))
            }
        }
    }

    /// Reads a cast (C11 6.5.4).
    #[tactic(auto, unfolding(crate::specs::Shapes::Parsers::cast))]
    pub(crate) fn cast(&self, cursor: &mut Cursor<'_>) -> Result<TreeCast, Refusal>
        requires cast { Nests (spec.readers self.now.depth).cast self.now.depth
            (C.pre self.now.cast) (C.post self.now.cast) }
        requires unary { Nests (spec.readers self.now.depth).unary self.now.depth
            (U.pre self.now.unary) (U.post self.now.unary) }
        requires assign { Nests (spec.readers self.now.depth).assign self.now.depth
            (A.pre self.now.assign) (A.post self.now.assign) }
        ensures { Reads (spec.cast (spec.readers self.now.depth) cursor.old) result cursor.new }
    {
        if begins_cast(cursor) {
            let opening = cursor.take()?.at;
            let target = type_name(self.alloc, cursor)?;
            let closing = cursor.expect(Punctuator::CloseRound)?;
            let operand = self.next_cast(cursor)?;
            let operand = Boxed::new(self.alloc, operand)?;
            Ok(TreeCast::Cast {
                opening,
                target,
                closing,
                operand,
            })
        } else {
            let unary = self.unary(cursor)?;
            Ok(TreeCast::Unary(Boxed::new(self.alloc, unary)?))
        }
    }
}
