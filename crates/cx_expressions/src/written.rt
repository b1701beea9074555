//! How an expression groups, written with brackets, for tests.
use cx_syntax_tree::{
    AssignOperator, BinaryOperator, NameAt, Step, TreeAssign, TreeCast, TreeCond, TreeExpr,
    TreeHead, TreeLor, TreePostfix, TreeSuffix, TreeUnary, UnaryOperator,
};
use std::alloc::AllocError;

fn name(out: &mut String, found: NameAt) -> Result<(), AllocError> {
    match u8::try_from(found.name) {
        Ok(letter) => out.push(char::from(letter)),
        Err(_) => out.push('_'),
    }
}

fn binary_text(operator: BinaryOperator) -> &'static str {
    match operator {
        BinaryOperator::Multiply => "*",
        BinaryOperator::Divide => "/",
        BinaryOperator::Remainder => "%",
        BinaryOperator::Add => "+",
        BinaryOperator::Subtract => "-",
        BinaryOperator::ShiftLeft => "<<",
        BinaryOperator::ShiftRight => ">>",
        BinaryOperator::Less => "<",
        BinaryOperator::Greater => ">",
        BinaryOperator::LessEqual => "<=",
        BinaryOperator::GreaterEqual => ">=",
        BinaryOperator::Equal => "==",
        BinaryOperator::NotEqual => "!=",
        BinaryOperator::BitAnd => "&",
        BinaryOperator::BitXor => "^",
        BinaryOperator::BitOr => "|",
        BinaryOperator::And => "&&",
        BinaryOperator::Or => "||",
    }
}

fn unary_text(operator: UnaryOperator) -> &'static str {
    match operator {
        UnaryOperator::AddressOf => "&",
        UnaryOperator::Indirection => "*",
        UnaryOperator::Plus => "+",
        UnaryOperator::Minus => "-",
        UnaryOperator::Complement => "~",
        UnaryOperator::Not => "!",
    }
}

fn step_text(step: Step) -> &'static str {
    match step {
        Step::Increment => "++",
        Step::Decrement => "--",
    }
}

fn assign_text(operator: AssignOperator) -> &'static str {
    match operator {
        AssignOperator::Simple => "",
        AssignOperator::Compound(operator) => binary_text(operator),
    }
}

/// Writes an expression, where no part is nested deeper than `fuel`.
#[cycle(written)]
pub(crate) fn write_expr(out: &mut String, tree: &TreeExpr, fuel: usize) -> Result<(), AllocError> {
    if fuel == 0 {
        return out.push_str("too deep");
    }
    write_assign(out, &tree.first, fuel - 1)?;
    for more in tree.more.as_slice() {
        out.push(',')?;
        write_assign(out, &more.assign, fuel - 1)?;
    }
    Ok(())
}

#[cycle(written)]
fn write_assign(out: &mut String, tree: &TreeAssign, fuel: usize) -> Result<(), AllocError> {
    if fuel == 0 {
        return out.push_str("too deep");
    }
    match tree {
        TreeAssign::Assign {
            target,
            operator,
            value,
            ..
        } => {
            out.push('(')?;
            write_unary(out, target.get(), fuel - 1)?;
            out.push_str(assign_text(*operator))?;
            out.push('=')?;
            write_assign(out, value.get(), fuel - 1)?;
            out.push(')')
        }
        TreeAssign::Cond(inner) => write_cond(out, inner.get(), fuel - 1),
    }
}

#[cycle(written)]
fn write_cond(out: &mut String, tree: &TreeCond, fuel: usize) -> Result<(), AllocError> {
    if fuel == 0 {
        return out.push_str("too deep");
    }
    match tree {
        TreeCond::Choice {
            condition,
            chosen,
            otherwise,
            ..
        } => {
            out.push('(')?;
            write_lor(out, condition.get(), fuel - 1)?;
            out.push('?')?;
            write_expr(out, chosen.get(), fuel - 1)?;
            out.push(':')?;
            write_cond(out, otherwise.get(), fuel - 1)?;
            out.push(')')
        }
        TreeCond::Lor(inner) => write_lor(out, inner.get(), fuel - 1),
    }
}

#[cycle(written)]
fn write_lor(out: &mut String, tree: &TreeLor, fuel: usize) -> Result<(), AllocError> {
    if fuel == 0 {
        return out.push_str("too deep");
    }
    match tree {
        TreeLor::Chain { first, links } => {
            for _link in links.as_slice() {
                out.push('(')?;
            }
            write_lor(out, first.get(), fuel - 1)?;
            for link in links.as_slice() {
                out.push_str(binary_text(link.operator))?;
                write_lor(out, &link.operand, fuel - 1)?;
                out.push(')')?;
            }
            Ok(())
        }
        TreeLor::Cast(inner) => write_cast(out, inner.get(), fuel - 1),
    }
}

#[cycle(written)]
fn write_cast(out: &mut String, tree: &TreeCast, fuel: usize) -> Result<(), AllocError> {
    if fuel == 0 {
        return out.push_str("too deep");
    }
    match tree {
        TreeCast::Cast { operand, .. } => {
            out.push_str("((T)")?;
            write_cast(out, operand.get(), fuel - 1)?;
            out.push(')')
        }
        TreeCast::Unary(inner) => write_unary(out, inner.get(), fuel - 1),
    }
}

#[cycle(written)]
fn write_unary(out: &mut String, tree: &TreeUnary, fuel: usize) -> Result<(), AllocError> {
    if fuel == 0 {
        return out.push_str("too deep");
    }
    match tree {
        TreeUnary::Step { step, operand, .. } => {
            out.push('(')?;
            out.push_str(step_text(*step))?;
            write_unary(out, operand.get(), fuel - 1)?;
            out.push(')')
        }
        TreeUnary::Operator {
            operator,
            operand,
            ..
        } => {
            out.push('(')?;
            out.push_str(unary_text(*operator))?;
            write_cast(out, operand.get(), fuel - 1)?;
            out.push(')')
        }
        TreeUnary::SizeofUnary { operand, .. } => {
            out.push_str("(sizeof ")?;
            write_unary(out, operand.get(), fuel - 1)?;
            out.push(')')
        }
        TreeUnary::SizeofType { .. } => out.push_str("sizeof(T)"),
        TreeUnary::Postfix(inner) => write_postfix(out, inner.get(), fuel - 1),
    }
}

#[cycle(written)]
fn write_postfix(out: &mut String, tree: &TreePostfix, fuel: usize) -> Result<(), AllocError> {
    if fuel == 0 {
        return out.push_str("too deep");
    }
    for _suffix in tree.suffixes.as_slice() {
        out.push('(')?;
    }
    write_head(out, tree.head.get(), fuel - 1)?;
    for suffix in tree.suffixes.as_slice() {
        write_suffix(out, suffix, fuel - 1)?;
        out.push(')')?;
    }
    Ok(())
}

#[cycle(written)]
fn write_suffix(out: &mut String, tree: &TreeSuffix, fuel: usize) -> Result<(), AllocError> {
    if fuel == 0 {
        return out.push_str("too deep");
    }
    match tree {
        TreeSuffix::Index { index, .. } => {
            out.push('[')?;
            write_expr(out, index.get(), fuel - 1)?;
            out.push(']')
        }
        TreeSuffix::Dot { member, .. } => {
            out.push('.')?;
            name(out, *member)
        }
        TreeSuffix::Arrow { member, .. } => {
            out.push_str("->")?;
            name(out, *member)
        }
        TreeSuffix::Step { step, .. } => out.push_str(step_text(*step)),
    }
}

#[cycle(written)]
fn write_head(out: &mut String, tree: &TreeHead, fuel: usize) -> Result<(), AllocError> {
    if fuel == 0 {
        return out.push_str("too deep");
    }
    match tree {
        TreeHead::Call {
            function,
            arguments,
            ..
        } => {
            name(out, *function)?;
            out.push('(')?;
            if let Some(found) = arguments {
                write_assign(out, &found.get().first, fuel - 1)?;
                for more in found.get().more.as_slice() {
                    out.push(',')?;
                    write_assign(out, &more.assign, fuel - 1)?;
                }
            }
            out.push(')')
        }
        TreeHead::Name(found) => name(out, *found),
        TreeHead::Number { .. } => out.push('1'),
        TreeHead::Char { .. } => out.push('\''),
        TreeHead::String { .. } => out.push('"'),
        TreeHead::Brackets { inner, .. } => {
            out.push('{')?;
            write_expr(out, inner.get(), fuel - 1)?;
            out.push('}')
        }
    }
}
