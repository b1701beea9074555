//! What a token is to the grammar: its terminal symbol (C11 6.4 and annex A.1).

/// A keyword (C11 6.4.1) that some rule names.
#[derive(Clone, Copy, Debug, PartialEq, Eq)]
pub enum Keyword {
    Typedef,
    Static,
    Extern,
    Const,
    Void,
    Bool,
    Char,
    Signed,
    Unsigned,
    Short,
    Int,
    Long,
    Struct,
    Union,
    Enum,
    If,
    Else,
    While,
    Do,
    For,
    Switch,
    Case,
    Default,
    Break,
    Continue,
    Goto,
    Return,
    Sizeof,
    /// Any other keyword: it is no name, and stands in no tree.
    Other,
}

/// A punctuator (C11 6.4.6). A digraph is its plain form.
#[derive(Clone, Copy, Debug, PartialEq, Eq)]
pub enum Punctuator {
    OpenSquare,
    CloseSquare,
    OpenRound,
    CloseRound,
    OpenCurly,
    CloseCurly,
    Dot,
    Arrow,
    PlusPlus,
    MinusMinus,
    Ampersand,
    Star,
    Plus,
    Minus,
    Tilde,
    Exclamation,
    Slash,
    Percent,
    LessLess,
    GreaterGreater,
    Less,
    Greater,
    LessEqual,
    GreaterEqual,
    EqualEqual,
    ExclamationEqual,
    Caret,
    Bar,
    AmpersandAmpersand,
    BarBar,
    Question,
    Colon,
    Semicolon,
    Ellipsis,
    Equal,
    StarEqual,
    SlashEqual,
    PercentEqual,
    PlusEqual,
    MinusEqual,
    LessLessEqual,
    GreaterGreaterEqual,
    AmpersandEqual,
    CaretEqual,
    BarEqual,
    Comma,
    Hash,
    HashHash,
}

/// The terminal symbol of a token. A name is the number of its text in a list of names.
#[derive(Clone, Copy, Debug, PartialEq, Eq)]
pub enum Terminal {
    /// An identifier (C11 6.4.2) that is no type name.
    Name(u32),
    /// An identifier that a typedef has made the name of a type (C11 6.7.8).
    TypeName(u32),
    Keyword(Keyword),
    /// A preprocessing number (C11 6.4.8), whether or not it is a constant.
    Number,
    /// A character constant (C11 6.4.4.4).
    Char,
    /// A string literal (C11 6.4.5).
    String,
    Punctuator(Punctuator),
    /// What is no token of C.
    Foreign,
}

/// A token as the grammar sees it: its terminal symbol, and its number in the list of tokens.
#[derive(Clone, Copy, Debug, PartialEq, Eq)]
pub struct Lexeme {
    pub terminal: Terminal,
    pub at: u32,
}
