//! The trees of declarations (C11 6.7).
use crate::expressions::{
    BareWords, NameAt, SpecifierAt, TreeArguments, TreeAssign, TreeCond, TreeStars,
};
use crate::terminals::Lexeme;
use sqlite_items::{Boxed, Items};

/// Declaration specifiers (C11 6.7): one type, and words before and behind it.
#[cycle(declarations)]
#[derive(Drop)]
pub struct TreeSpec {
    pub before: Items<SpecifierAt>,
    pub words: TreeWords,
    pub behind: Items<SpecifierAt>,
}

/// A type (C11 6.7.2), perhaps with its body (C11 6.7.2.1 and 6.7.2.2).
#[cycle(declarations)]
#[derive(Drop)]
pub enum TreeWords {
    Bare(BareWords),
    StructBody {
        at: u32,
        tag: Option<NameAt>,
        opening: u32,
        members: Items<TreeMember>,
        closing: u32,
    },
    EnumBody {
        at: u32,
        tag: Option<NameAt>,
        opening: u32,
        first: TreeEnumr,
        more: Items<CommaEnumr>,
        last: Option<u32>,
        closing: u32,
    },
}

/// Members of a struct that one declaration makes (C11 6.7.2.1), or an opaque member: tokens that
/// are no such declaration.
#[cycle(declarations)]
#[derive(Drop)]
pub enum TreeMember {
    Declared {
        spec: TreeSpec,
        first: TreeDeclr,
        more: Items<CommaDeclr>,
        semicolon: u32,
    },
    Opaque {
        tokens: Items<Lexeme>,
        semicolon: u32,
    },
}

/// An enumerator (C11 6.7.2.2).
#[derive(Drop)]
pub enum TreeEnumr {
    Plain(NameAt),
    Given {
        name: NameAt,
        equal: u32,
        value: Boxed<TreeCond>,
    },
}

/// A comma and the enumerator behind it.
#[derive(Drop)]
pub struct CommaEnumr {
    pub comma: u32,
    pub enumr: TreeEnumr,
}

/// A declarator (C11 6.7.6).
#[cycle(declarations)]
#[derive(Drop)]
pub struct TreeDeclr {
    pub stars: TreeStars,
    pub name: DeclaredName,
    pub suffix: DeclrSuffix,
}

/// A comma and the declarator behind it.
#[cycle(declarations)]
#[derive(Drop)]
pub struct CommaDeclr {
    pub comma: u32,
    pub declr: TreeDeclr,
}

/// The name that a declarator declares, perhaps in brackets.
#[derive(Clone, Copy, Debug, PartialEq, Eq)]
pub enum DeclaredName {
    Plain(NameAt),
    Brackets {
        opening: u32,
        name: NameAt,
        closing: u32,
    },
}

/// What stands behind the name of a declarator (C11 6.7.6.2 and 6.7.6.3).
#[cycle(declarations)]
#[derive(Drop)]
pub enum DeclrSuffix {
    Nothing,
    Array(TreeArray),
    Function {
        opening: u32,
        params: TreeParams,
        closing: u32,
    },
}

/// The length of an array in its brackets, if it is written.
#[derive(Drop)]
pub struct TreeArray {
    pub opening: u32,
    pub length: Option<Boxed<TreeCond>>,
    pub closing: u32,
}

/// A list of parameters (C11 6.7.6.3): empty, `(void)`, or parameters and perhaps `...`.
#[cycle(declarations)]
#[derive(Drop)]
pub enum TreeParams {
    Nothing,
    Void {
        at: u32,
    },
    Some {
        first: Boxed<TreeParam>,
        more: Items<CommaParam>,
        ellipsis: Option<CommaEllipsis>,
    },
}

/// A comma and the parameter behind it.
#[cycle(declarations)]
#[derive(Drop)]
pub struct CommaParam {
    pub comma: u32,
    pub param: TreeParam,
}

/// A comma and the `...` behind it.
#[derive(Clone, Copy, Debug, PartialEq, Eq)]
pub struct CommaEllipsis {
    pub comma: u32,
    pub at: u32,
}

/// A parameter (C11 6.7.6.3).
#[cycle(declarations)]
#[derive(Drop)]
pub struct TreeParam {
    pub spec: TreeSpec,
    pub stars: TreeStars,
    pub name: Option<NameAt>,
    pub array: Option<TreeArray>,
}

/// A declaration (C11 6.7).
#[derive(Drop)]
pub enum TreeDecl {
    Bare {
        spec: TreeSpec,
        semicolon: u32,
    },
    Declares {
        spec: TreeSpec,
        first: TreeInit,
        more: Items<CommaInit>,
        semicolon: u32,
    },
}

/// A declarator with its initialiser, if it has one (C11 6.7.9).
#[derive(Drop)]
pub enum TreeInit {
    Plain(TreeDeclr),
    Value {
        declr: TreeDeclr,
        equal: u32,
        value: Boxed<TreeAssign>,
    },
    Braces {
        declr: TreeDeclr,
        equal: u32,
        opening: u32,
        values: TreeArguments,
        last: Option<u32>,
        closing: u32,
    },
}

/// A comma and the declarator behind it.
#[derive(Drop)]
pub struct CommaInit {
    pub comma: u32,
    pub init: TreeInit,
}
