//! The trees of statements (C11 6.8) and of functions (C11 6.9.1).
use crate::declarations::{TreeDecl, TreeDeclr, TreeSpec};
use crate::expressions::{NameAt, TreeCond, TreeExpr};
use sqlite_items::{Boxed, Items};

/// A compound statement (C11 6.8.2).
#[cycle(statements)]
#[derive(Drop)]
pub struct TreeBlock {
    pub opening: u32,
    pub statements: Items<TreeStmt>,
    pub closing: u32,
}

/// An expression in round brackets, as `if`, `while` and `switch` have it.
#[derive(Drop)]
pub struct Bracketed {
    pub opening: u32,
    pub inner: Boxed<TreeExpr>,
    pub closing: u32,
}

/// A statement or a declaration in a block.
#[cycle(statements)]
#[derive(Drop)]
pub enum TreeStmt {
    Decl(Boxed<TreeDecl>),
    Block(Boxed<TreeBlock>),
    /// C11 6.8.3.
    Expr {
        value: Option<Boxed<TreeExpr>>,
        semicolon: u32,
    },
    /// C11 6.8.4.1, without `else`.
    If {
        at: u32,
        condition: Bracketed,
        chosen: Boxed<TreeStmt>,
    },
    /// C11 6.8.4.1, with `else`.
    IfElse {
        at: u32,
        condition: Bracketed,
        chosen: Boxed<TreeStmt>,
        else_at: u32,
        otherwise: Boxed<TreeStmt>,
    },
    /// C11 6.8.5.1.
    While {
        at: u32,
        condition: Bracketed,
        body: Boxed<TreeStmt>,
    },
    /// C11 6.8.5.2.
    DoWhile {
        at: u32,
        body: Boxed<TreeStmt>,
        while_at: u32,
        condition: Bracketed,
        semicolon: u32,
    },
    /// C11 6.8.5.3.
    For {
        at: u32,
        opening: u32,
        first: ForFirst,
        condition: Option<Boxed<TreeExpr>>,
        semicolon: u32,
        third: Option<Boxed<TreeExpr>>,
        closing: u32,
        body: Boxed<TreeStmt>,
    },
    /// C11 6.8.4.2.
    Switch {
        at: u32,
        value: Bracketed,
        opening: u32,
        parts: Items<SwitchPart>,
        closing: u32,
    },
    /// C11 6.8.6.3.
    Break {
        at: u32,
        semicolon: u32,
    },
    /// C11 6.8.6.2.
    Continue {
        at: u32,
        semicolon: u32,
    },
    /// C11 6.8.6.1.
    Goto {
        at: u32,
        label: NameAt,
        semicolon: u32,
    },
    /// C11 6.8.1.
    Label {
        label: NameAt,
        colon: u32,
        statement: Boxed<TreeStmt>,
    },
    /// C11 6.8.6.4.
    Return {
        at: u32,
        value: Option<Boxed<TreeExpr>>,
        semicolon: u32,
    },
}

/// The first part of a `for`, up to its first `;`.
#[derive(Drop)]
pub enum ForFirst {
    Decl(Boxed<TreeDecl>),
    Expr {
        value: Option<Boxed<TreeExpr>>,
        semicolon: u32,
    },
}

/// What may stand in the braces of a `switch`.
#[cycle(statements)]
#[derive(Drop)]
pub enum SwitchPart {
    Case {
        at: u32,
        value: Boxed<TreeCond>,
        colon: u32,
    },
    Default {
        at: u32,
        colon: u32,
    },
    Stmt(TreeStmt),
}

/// A function definition (C11 6.9.1).
#[derive(Drop)]
pub struct TreeFunction {
    pub spec: TreeSpec,
    pub declr: TreeDeclr,
    pub block: TreeBlock,
}
