//! The integer types, and what values they have on each platform.
ghost use Rattle.std.specs.Prelude.{◌≡◌, pos};
ghost use Rattle.cx_tree.specs.IntegerTypes as the;

/// A platform, which settles how wide the types are.
///
/// Bytes of `short`, `int`, `long`, `long long` and a pointer: 2 4 4 8 4 on `Unix32`, 2 4 8 8 8 on
/// `Unix64`, 2 4 4 8 8 on `Win64`.
#[derive(Clone, Copy, Debug, PartialEq, Eq)]
pub enum Platform {
    Unix32,
    Unix64,
    Win64,
}

/// An integer type (C11 6.2.5p4 to p7). Plain `char` is signed.
#[derive(Clone, Copy, Debug, PartialEq, Eq)]
pub enum IntType {
    Bool,
    Char,
    SignedChar,
    UnsignedChar,
    Short,
    UnsignedShort,
    Int,
    UnsignedInt,
    Long,
    UnsignedLong,
    LongLong,
    UnsignedLongLong,
}

/// What values a type has: 0 and 1 alone, as `_Bool`, or negative ones too, or none below 0.
#[derive(Clone, Copy, Debug, PartialEq, Eq)]
pub enum Kind {
    Boolean,
    Signed,
    Unsigned,
}

/// How many bits an object of a type has.
#[derive(Clone, Copy, Debug, PartialEq, Eq)]
pub enum Width {
    Bits8,
    Bits16,
    Bits32,
    Bits64,
}

/// What values the type has (C11 6.2.5p4, p6).
pub fn kind_of(t: IntType) -> Kind
    ensures { result ≡ the.kind t }
{
    match t {
        IntType::Bool => Kind::Boolean,
        IntType::Char
        | IntType::SignedChar
        | IntType::Short
        | IntType::Int
        | IntType::Long
        | IntType::LongLong => Kind::Signed,
        IntType::UnsignedChar
        | IntType::UnsignedShort
        | IntType::UnsignedInt
        | IntType::UnsignedLong
        | IntType::UnsignedLongLong => Kind::Unsigned,
    }
}

/// How many bits an object of the type has (C11 6.2.6.1p4).
pub fn width_of(t: IntType, p: Platform) -> Width
    ensures { result ≡ the.width t p }
{
    match t {
        IntType::Bool | IntType::Char | IntType::SignedChar | IntType::UnsignedChar => Width::Bits8,
        IntType::Short | IntType::UnsignedShort => Width::Bits16,
        IntType::Int | IntType::UnsignedInt => Width::Bits32,
        IntType::Long | IntType::UnsignedLong => match p {
            Platform::Unix64 => Width::Bits64,
            Platform::Unix32 | Platform::Win64 => Width::Bits32,
        },
        IntType::LongLong | IntType::UnsignedLongLong => Width::Bits64,
    }
}

/// The same, as a number.
pub fn bits(t: IntType, p: Platform) -> u32
    ensures { result ≡ the.bits (the.width t p) }
{
    match width_of(t, p) {
        Width::Bits8 => 8,
        Width::Bits16 => 16,
        Width::Bits32 => 32,
        Width::Bits64 => 64,
    }
}

/// The least value of a signed type.
pub(crate) fn least_signed(w: Width) -> i128
    ensures { result ≡ the.least_of Kind.Signed w }
{
    match w {
        Width::Bits8 => -128,
        Width::Bits16 => -32_768,
        Width::Bits32 => -2_147_483_648,
        Width::Bits64 => -9_223_372_036_854_775_808,
    }
}

/// The greatest value of a signed type.
pub(crate) fn greatest_signed(w: Width) -> i128
    ensures { result ≡ the.greatest_of Kind.Signed w }
{
    match w {
        Width::Bits8 => 127,
        Width::Bits16 => 32_767,
        Width::Bits32 => 2_147_483_647,
        Width::Bits64 => 9_223_372_036_854_775_807,
    }
}

/// How many values the bits of an object have.
pub(crate) fn span(w: Width) -> i128
    ensures { result ≡ pos (the.span w) }
{
    match w {
        Width::Bits8 => 256,
        Width::Bits16 => 65_536,
        Width::Bits32 => 4_294_967_296,
        Width::Bits64 => 18_446_744_073_709_551_616,
    }
}

/// The type's least value (C11 5.2.4.2.1).
pub fn least(t: IntType, p: Platform) -> i128
    ensures { result ≡ the.least t p }
{
    match kind_of(t) {
        Kind::Signed => least_signed(width_of(t, p)),
        Kind::Boolean | Kind::Unsigned => 0,
    }
}

/// The type's greatest value (C11 5.2.4.2.1).
pub fn greatest(t: IntType, p: Platform) -> i128
    ensures { result ≡ the.greatest t p }
{
    match kind_of(t) {
        Kind::Boolean => 1,
        Kind::Signed => greatest_signed(width_of(t, p)),
        Kind::Unsigned => span(width_of(t, p)) - 1,
    }
}
