//! Laws of the definitions that the contracts of this crate cite. None of these functions does
//! anything.
ghost use Rattle.cx_tree.specs.Laws.{ConvertsIntoType, ConvertsUnchanged, ConvertsByMultiple, PromotesValues, IsUsualSymmetric, GivesValues};

/// A conversion gives a value of the type, leaves each of its values as it is, and but for `_Bool`
/// changes others by a multiple of two to the power of the width (C11 6.3.1.3).
#[tactic(auto, unfolding(crate::specs::ConversionRules::convert))]
pub fn conversion()
    ensures into_type { ConvertsIntoType }
    ensures unchanged { ConvertsUnchanged }
    ensures by_multiple { ConvertsByMultiple }
{}

/// A promoted type has each value of the type (C11 6.3.1.1p3).
pub fn promotion()
    ensures { PromotesValues }
{}

/// The common type of two operands does not depend on their order (C11 6.3.1.8).
pub fn symmetry()
    ensures { IsUsualSymmetric }
{}

/// What an operator gives is a value of its type (C11 6.5p5).
pub fn results()
    ensures { GivesValues }
{}
