//! The trees of expressions (C11 6.5). A field `at`, or one named after a punctuator, is the number
//! of that token in the list of tokens. Chains and suffixes are lists, so that a tree is no deeper
//! than its operands nest.
use crate::terminals::Keyword;
use cx_tree::IntType;
use sqlite_items::{Boxed, Items};

/// A unary operator before its operand (C11 6.5.3).
#[derive(Clone, Copy, Debug, PartialEq, Eq)]
pub enum UnaryOperator {
    AddressOf,
    Indirection,
    Plus,
    Minus,
    Complement,
    Not,
}

/// `++` or `--` (C11 6.5.2.4 and 6.5.3.1).
#[derive(Clone, Copy, Debug, PartialEq, Eq)]
pub enum Step {
    Increment,
    Decrement,
}

/// An operator between two operands, from left to right (C11 6.5.5 to 6.5.14).
#[derive(Clone, Copy, Debug, PartialEq, Eq)]
pub enum BinaryOperator {
    Multiply,
    Divide,
    Remainder,
    Add,
    Subtract,
    ShiftLeft,
    ShiftRight,
    Less,
    Greater,
    LessEqual,
    GreaterEqual,
    Equal,
    NotEqual,
    BitAnd,
    BitXor,
    BitOr,
    And,
    Or,
}

/// An assignment operator (C11 6.5.16): `=`, or `op=` with the operator of its sum.
#[derive(Clone, Copy, Debug, PartialEq, Eq)]
pub enum AssignOperator {
    Simple,
    Compound(BinaryOperator),
}

/// A word of a specifier list that is no type (C11 6.7.1 and 6.7.3).
#[derive(Clone, Copy, Debug, PartialEq, Eq)]
pub enum Specifier {
    Typedef,
    Static,
    Extern,
    Const,
}

/// A specifier and its place.
#[derive(Clone, Copy, Debug, PartialEq, Eq)]
pub struct SpecifierAt {
    pub specifier: Specifier,
    pub at: u32,
}

/// A keyword of an arithmetic type and its place.
#[derive(Clone, Copy, Debug, PartialEq, Eq)]
pub struct KeywordAt {
    pub keyword: Keyword,
    pub at: u32,
}

/// A name and its place: the number of its text, and that of its token.
#[derive(Clone, Copy, Debug, PartialEq, Eq)]
pub struct NameAt {
    pub name: u32,
    pub at: u32,
}

/// A type without a body (C11 6.7.2): `void`, the keywords of an integer type, `struct s`,
/// `enum e`, or the name of a type.
#[derive(Drop)]
pub enum BareWords {
    Void {
        at: u32,
    },
    Integer {
        keywords: Items<KeywordAt>,
        integer: IntType,
    },
    Struct {
        at: u32,
        tag: NameAt,
    },
    Enum {
        at: u32,
        tag: NameAt,
    },
    TypeName(NameAt),
}

/// A `*` and the `const`s behind it (C11 6.7.6.1).
#[derive(Drop)]
pub struct TreeStar {
    pub at: u32,
    pub constants: Items<u32>,
}

/// The stars of a declarator or a type name.
#[derive(Drop)]
pub struct TreeStars {
    pub stars: Items<TreeStar>,
}

/// The type of a cast or of `sizeof` (C11 6.7.7). It has no body.
#[derive(Drop)]
pub struct TreeType {
    pub before: Items<SpecifierAt>,
    pub words: BareWords,
    pub behind: Items<SpecifierAt>,
    pub stars: TreeStars,
}

/// An expression (C11 6.5.17): one assignment, or several with commas between.
#[cycle(expressions)]
#[derive(Drop)]
pub struct TreeExpr {
    pub first: TreeAssign,
    pub more: Items<CommaAssign>,
}

/// A comma and the assignment behind it.
#[cycle(expressions)]
#[derive(Drop)]
pub struct CommaAssign {
    pub comma: u32,
    pub assign: TreeAssign,
}

/// An assignment (C11 6.5.16).
#[cycle(expressions)]
#[derive(Drop)]
pub enum TreeAssign {
    Assign {
        target: Boxed<TreeUnary>,
        operator: AssignOperator,
        at: u32,
        value: Boxed<TreeAssign>,
    },
    Cond(Boxed<TreeCond>),
}

/// A conditional expression (C11 6.5.15).
#[cycle(expressions)]
#[derive(Drop)]
pub enum TreeCond {
    Choice {
        condition: Boxed<TreeLor>,
        question: u32,
        chosen: Boxed<TreeExpr>,
        colon: u32,
        otherwise: Boxed<TreeCond>,
    },
    Lor(Boxed<TreeLor>),
}

/// The operators from `||` to `*` (C11 6.5.5 to 6.5.14): a chain has operators of one level, and is
/// read from left to right.
#[cycle(expressions)]
#[derive(Drop)]
pub enum TreeLor {
    Chain {
        first: Boxed<TreeLor>,
        links: Items<TreeLink>,
    },
    Cast(Boxed<TreeCast>),
}

/// An operator and its right operand.
#[cycle(expressions)]
#[derive(Drop)]
pub struct TreeLink {
    pub operator: BinaryOperator,
    pub at: u32,
    pub operand: TreeLor,
}

/// A cast (C11 6.5.4).
#[cycle(expressions)]
#[derive(Drop)]
pub enum TreeCast {
    Cast {
        opening: u32,
        target: TreeType,
        closing: u32,
        operand: Boxed<TreeCast>,
    },
    Unary(Boxed<TreeUnary>),
}

/// A unary expression (C11 6.5.3).
#[cycle(expressions)]
#[derive(Drop)]
pub enum TreeUnary {
    Step {
        step: Step,
        at: u32,
        operand: Boxed<TreeUnary>,
    },
    Operator {
        operator: UnaryOperator,
        at: u32,
        operand: Boxed<TreeCast>,
    },
    SizeofUnary {
        at: u32,
        operand: Boxed<TreeUnary>,
    },
    SizeofType {
        at: u32,
        opening: u32,
        target: TreeType,
        closing: u32,
    },
    Postfix(Boxed<TreePostfix>),
}

/// A postfix expression (C11 6.5.2): a head and the suffixes behind it.
#[cycle(expressions)]
#[derive(Drop)]
pub struct TreePostfix {
    pub head: Boxed<TreeHead>,
    pub suffixes: Items<TreeSuffix>,
}

/// A suffix (C11 6.5.2.1, 6.5.2.3 and 6.5.2.4).
#[cycle(expressions)]
#[derive(Drop)]
pub enum TreeSuffix {
    Index {
        opening: u32,
        index: Boxed<TreeExpr>,
        closing: u32,
    },
    Dot {
        at: u32,
        member: NameAt,
    },
    Arrow {
        at: u32,
        member: NameAt,
    },
    Step {
        step: Step,
        at: u32,
    },
}

/// A primary expression (C11 6.5.1), or the call of a name (C11 6.5.2.2).
#[cycle(expressions)]
#[derive(Drop)]
pub enum TreeHead {
    Call {
        function: NameAt,
        opening: u32,
        arguments: Option<Boxed<TreeArguments>>,
        closing: u32,
    },
    Name(NameAt),
    Number {
        at: u32,
    },
    Char {
        at: u32,
    },
    String {
        at: u32,
    },
    Brackets {
        opening: u32,
        inner: Boxed<TreeExpr>,
        closing: u32,
    },
}

/// The arguments of a call (C11 6.5.2.2), or the values between braces (C11 6.7.9).
#[cycle(expressions)]
#[derive(Drop)]
pub struct TreeArguments {
    pub first: TreeAssign,
    pub more: Items<CommaAssign>,
}
