//! Laws of token lists.
ghost use Rattle.std.specs.Prelude.{◌≡◌, ℕ, List as list, ◌∷◌, ◌++◌, ◌&&◌, false, not, IfSome, IsTrue, Some, filter};
ghost use Rattle.std.specs.List.{list_any};
ghost use Rattle.cx_base.specs.declared.place.Place.{Place as place};
ghost use Rattle.cx_tokens.specs.declared.token.Token.{Token as token};
ghost use Rattle.cx_tokens.specs.Brackets.{IsNested, IsPaired, IsUnpaired, opens};
ghost use Rattle.cx_tokens.specs.Digraphs.{is_digraph, plain_text, spelling_of};
ghost use Rattle.cx_tokens.specs.Nodes.{IsTokenList, StandsFrom, TokenNode, is_live, node_of, numbers, partner_of, tokens};
ghost use Rattle.cx_tokens.specs.Simplified.{IsSimplified, is_erased_word, is_string};
ghost use Rattle.cx_tokens.specs.Sublists.{IsSublist};

/// A token keeps what its piece was spelt with, also of a digraph (C11 6.4.6).
pub fn spelling_is_kept()
    ensures { (t : token) (spelled : list ℕ) → t.text ≡ plain_text t.kind spelled
        → t.digraph ≡ is_digraph t.kind spelled → spelling_of t ≡ spelled }
{}

/// A node stands at itself or after it.
pub fn from_itself()
    ensures { (n : ℕ) (nodes : list TokenNode) → IsTrue (is_live n nodes) → StandsFrom n n nodes }
{}

/// What stands at a node or after it stands after each node before.
pub fn from_transitive()
    ensures { (a b c : ℕ) (nodes : list TokenNode) → IsTokenList nodes → StandsFrom a b nodes
        → StandsFrom b c nodes → StandsFrom a c nodes }
{}

/// The bracket that closes an opening one stands after it.
pub fn closes_after()
    ensures { (nodes : list TokenNode) (n m : ℕ) → IsPaired nodes
        → IfSome (node_of n nodes) (λ x. IsTrue (opens x.token)) → partner_of n nodes ≡ Some m
        → StandsFrom n m nodes }
{}

/// At most one pairing fits a list of numbers and tokens.
pub fn one_pairing()
    ensures { (some others : list TokenNode) → IsPaired some → IsPaired others
        → numbers some ≡ numbers others → tokens some ≡ tokens others → some ≡ others }
{}

/// Tokens whose brackets are nested have no bracket without one that matches it.
pub fn nested_are_not_unpaired()
    ensures { (all : list token) (at : place) → IsNested all → ¬ (IsUnpaired all at) }
{}

/// Brackets are unpaired at one place at most.
pub fn one_unpaired_place()
    ensures { (all : list token) (some other : place) → IsUnpaired all some → IsUnpaired all other
        → some ≡ other }
{}

/// At most one list is what a token list is when it is simplified.
pub fn one_simplified()
    ensures { (nodes some others : list TokenNode) → IsTokenList nodes → IsSimplified nodes some
        → IsSimplified nodes others → some ≡ others }
{}

/// What is simplified stays as it is.
pub fn simplified_once()
    ensures { (nodes new : list TokenNode) → IsSimplified nodes new → IsSimplified new new }
{}

/// No word that goes is left.
pub fn no_word_is_left()
    ensures { (nodes new : list TokenNode) → IsSimplified nodes new
        → list_any is_erased_word (tokens new) ≡ false }
{}

/// No two strings are left side by side.
pub fn no_strings_adjoin()
    ensures { (nodes new front rest : list TokenNode) (x y : TokenNode) → IsSimplified nodes new
        → new ≡ front ++ x ∷ y ∷ rest
        → (is_string x.token.kind && is_string y.token.kind) ≡ false }
{}

/// The nodes that stay keep their order.
pub fn order_is_kept()
    ensures { (nodes new : list TokenNode) → IsSimplified nodes new
        → IsSublist (numbers new) (numbers nodes) }
{}

/// What stays and is no string is as it was.
pub fn others_are_kept()
    ensures { (nodes new : list TokenNode) → IsSimplified nodes new
        → IsSublist (filter (λ x. not (is_string x.token.kind)) new) nodes }
{}
