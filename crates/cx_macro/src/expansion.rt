//! A list while it is expanded.
use crate::buffer::Buffer;
use crate::stack::Stack;
use crate::stored::Stored;
use cx_base::{List, SharedList, Text};
use cx_tokens::{Token, TokenList};

/// A call whose arguments are expanded before it is replaced.
#[derive(Drop)]
pub(crate) struct Call<'a> {
    pub(crate) name: Token,
    pub(crate) stored: &'a Stored,
    /// What the tokens that replace it hide.
    pub(crate) hide: SharedList<Text>,
    /// How many arguments it has.
    pub(crate) arguments: usize,
    /// Whether it leaves the variable argument out.
    pub(crate) left_out: bool,
    /// Those that have been begun, as they are, where they stand beside `#` or `##`; else nothing.
    pub(crate) raw: List<List<Token>>,
    /// Those that are expanded.
    pub(crate) expanded: List<List<Token>>,
    /// What is done of the argument that the call stands in, where it stands in one.
    pub(crate) done: List<Token>,
}

/// A list that is expanded, with the calls whose arguments are, the innermost on top.
#[derive(Drop)]
pub(crate) struct State<'a> {
    pub(crate) laid: u32,
    pub(crate) buffer: Buffer,
    /// What is done of the argument that is expanded, where one is.
    pub(crate) done: List<Token>,
    pub(crate) calls: Stack<Call<'a>>,
}

/// What a step comes to.
#[derive(Drop)]
pub(crate) enum Step<'a> {
    Goes(State<'a>),
    Ends { done: TokenList, laid: u32 },
}

/// What a token may be replaced by.
#[derive(Clone, Copy)]
pub(crate) enum Meaning<'a> {
    Itself,
    Line,
    Macro(&'a Stored),
}

/// What replaces a token.
#[derive(Clone, Copy)]
pub(crate) enum Invoked<'a> {
    Line,
    Object(&'a Stored),
    /// A function-like macro, with its parameters, whose opening bracket is there.
    Function(&'a Stored, &'a [Text]),
}
