//! The syntax tree of C (ISO/IEC 9899:2011, annex A.2): one type for each name at the left of the
//! grammar. Names and places are numbers, so a tree copies no text.
#![tactic(auto)]

mod declarations;
mod expressions;
mod statements;
mod terminals;
mod unit;

pub use declarations::{
    CommaDeclr, CommaEllipsis, CommaEnumr, CommaInit, CommaParam, DeclaredName, DeclrSuffix,
    TreeArray, TreeDecl, TreeDeclr, TreeEnumr, TreeInit, TreeMember, TreeParam, TreeParams,
    TreeSpec, TreeWords,
};
pub use expressions::{
    AssignOperator, BareWords, BinaryOperator, CommaAssign, KeywordAt, NameAt, Specifier,
    SpecifierAt, Step, TreeArguments, TreeAssign, TreeCast, TreeCond, TreeExpr, TreeHead, TreeLink,
    TreeLor, TreePostfix, TreeStar, TreeStars, TreeSuffix, TreeType, TreeUnary, UnaryOperator,
};
pub use statements::{Bracketed, ForFirst, SwitchPart, TreeBlock, TreeFunction, TreeStmt};
pub use terminals::{Keyword, Lexeme, Punctuator, Terminal};
pub use unit::{Bailed, Item, Unit};
