//! Which kinds of findings there are.
ghost use Rattle.std.specs.Prelude.{◌≡◌};
ghost use Rattle.cx_base.specs.Findings.{id_name, id_severity, severity_name};

/// How grave a finding is (the Cppcheck manual, "Severities").
#[derive(Clone, Copy, Debug, PartialEq, Eq)]
pub enum Severity {
    Error,
    Warning,
    Style,
    Information,
}

/// The kind of a finding, in the order in which kinds are told.
#[derive(Clone, Copy, Debug, PartialEq, Eq)]
pub enum Id {
    /// A read of a variable that has no value.
    UninitVar,
    /// A use of a block after it was deallocated.
    DeallocUse,
    /// A second deallocation of a block.
    DoubleFree,
    /// A dereference of a null pointer.
    NullPointer,
    /// A deallocation by a function of another group than the allocation's.
    MismatchAllocDealloc,
    /// A deallocation of what was not allocated.
    AutovarInvalidDeallocation,
    /// An access outside an array.
    ArrayIndexOutOfBounds,
    /// Pointer arithmetic that leaves an array.
    PointerOutOfBounds,
    /// A write to a string literal.
    StringLiteralWrite,
    /// A write to an object defined const.
    ConstWrite,
    /// A division by zero.
    ZeroDiv,
    /// A shift by a negative count.
    ShiftNegative,
    /// A shift by at least the width of the value.
    ShiftTooManyBits,
    /// A shift of a negative value to the left.
    ShiftNegativeLhs,
    /// A signed result that its type cannot represent.
    IntegerOverflow,
    /// An argument outside the values that the library allows.
    InvalidFunctionArg,
    /// A condition with one possible value.
    KnownConditionTrueFalse,
    /// A null pointer dereference, unless a condition is redundant.
    NullPointerRedundantCheck,
    /// A division by zero, unless a condition is redundant.
    ZeroDivCond,
    /// An access outside an array, unless a condition is redundant.
    ArrayIndexOutOfBoundsCond,
    /// A call whose result has to be used and is not.
    IgnoredReturnValue,
    /// A call of another unit's function that dereferences the null given.
    CtuNullPointer,
    /// A text that does not read.
    SyntaxError,
    /// An `#error` directive.
    PreprocessorErrorDirective,
    /// A limit of the checker that was passed.
    UnitLimit,
    /// A file that could not be read.
    ReadFault,
    /// A function outside the subset, which was not analysed.
    ValueFlowBailout,
    /// A quoted include whose file was not found.
    MissingInclude,
    /// An include in angle brackets whose file was not found.
    MissingIncludeSystem,
    /// A suppression that matched nothing.
    UnmatchedSuppression,
    /// A block that no pointer reaches any more.
    MemLeak,
}

impl Severity {
    /// Its name, as a text of a finding has it.
    pub fn name(self) -> &'static str
        ensures { result.now ≡ severity_name self }
    {
        match self {
            Severity::Error => "error",
            Severity::Warning => "warning",
            Severity::Style => "style",
            Severity::Information => "information",
        }
    }
}

impl Id {
    /// Its name, as suppressions and texts have it.
    pub fn name(self) -> &'static str
        ensures { result.now ≡ id_name self }
    {
        match self {
            Id::UninitVar => "uninitvar",
            Id::DeallocUse => "deallocuse",
            Id::DoubleFree => "doubleFree",
            Id::NullPointer => "nullPointer",
            Id::MismatchAllocDealloc => "mismatchAllocDealloc",
            Id::AutovarInvalidDeallocation => "autovarInvalidDeallocation",
            Id::ArrayIndexOutOfBounds => "arrayIndexOutOfBounds",
            Id::PointerOutOfBounds => "pointerOutOfBounds",
            Id::StringLiteralWrite => "stringLiteralWrite",
            Id::ConstWrite => "constWrite",
            Id::ZeroDiv => "zerodiv",
            Id::ShiftNegative => "shiftNegative",
            Id::ShiftTooManyBits => "shiftTooManyBits",
            Id::ShiftNegativeLhs => "shiftNegativeLHS",
            Id::IntegerOverflow => "integerOverflow",
            Id::InvalidFunctionArg => "invalidFunctionArg",
            Id::KnownConditionTrueFalse => "knownConditionTrueFalse",
            Id::NullPointerRedundantCheck => "nullPointerRedundantCheck",
            Id::ZeroDivCond => "zerodivcond",
            Id::ArrayIndexOutOfBoundsCond => "arrayIndexOutOfBoundsCond",
            Id::IgnoredReturnValue => "ignoredReturnValue",
            Id::CtuNullPointer => "ctunullpointer",
            Id::SyntaxError => "syntaxError",
            Id::PreprocessorErrorDirective => "preprocessorErrorDirective",
            Id::UnitLimit => "unitLimit",
            Id::ReadFault => "readFault",
            Id::ValueFlowBailout => "valueFlowBailout",
            Id::MissingInclude => "missingInclude",
            Id::MissingIncludeSystem => "missingIncludeSystem",
            Id::UnmatchedSuppression => "unmatchedSuppression",
            Id::MemLeak => "memleak",
        }
    }

    /// The severity of each finding of this kind.
    pub fn severity(self) -> Severity
        ensures { result ≡ id_severity self }
    {
        match self {
            Id::KnownConditionTrueFalse => Severity::Style,
            Id::NullPointerRedundantCheck
            | Id::ZeroDivCond
            | Id::ArrayIndexOutOfBoundsCond
            | Id::IgnoredReturnValue => Severity::Warning,
            Id::ValueFlowBailout
            | Id::MissingInclude
            | Id::MissingIncludeSystem
            | Id::UnmatchedSuppression => Severity::Information,
            _ => Severity::Error,
        }
    }
}
