//! A cursor over tokens.
ghost use Rattle.std.specs.Prelude.{◌≡◌, [], ◌∷◌, length, Some, MatchOption};
ghost use Rattle.cx_syntax_tree.specs.declared.terminals.Terminal.{Terminal as Terminals};
ghost use Rattle.cx_reading.specs.Parsing as parsing;
ghost use Rattle.cx_reading.specs.Parsing.{Reads};

use crate::refusal::Refusal;
use cx_syntax_tree::{Keyword, Lexeme, NameAt, Punctuator, Terminal};
use std::marker::Model;

/// The tokens that are not read yet.
#[derive(Drop)]
pub struct Cursor<'a> {
    rest: &'a [Lexeme],
}

impl<'a> Model for Cursor<'a> {
    ghost use Rattle.std.specs.Prelude.{List};
    ghost use Rattle.cx_syntax_tree.specs.declared.terminals.Lexeme.{Lexeme};

    ghost Value = { List Lexeme };

    ghost view = { λ c. c.rest.now };
}

/// The front token and those behind it.
fn first<'a>(tokens: &'a [Lexeme]) -> Option<(Lexeme, &'a [Lexeme])>
    ensures { MatchOption result (tokens.now ≡ []) (λ x. tokens.now ≡ x.0 ∷ x.1.now) }
{
    match tokens {
        [] => None,
        [token, rest @ ..] => Some((*token, rest)),
    }
}

/// Whether a terminal symbol is this punctuator.
#[tactic(auto, unfolding(crate::specs::Parsing::is_mark))]
pub fn is_mark(mark: Punctuator, terminal: Terminal) -> bool
    ensures { result ≡ parsing.is_mark mark terminal }
{
    match terminal {
        Terminal::Punctuator(other) => mark == other,
        _ => false,
    }
}

/// Whether a terminal symbol is this keyword.
#[tactic(auto, unfolding(crate::specs::Parsing::is_word))]
pub fn is_word(keyword: Keyword, terminal: Terminal) -> bool
    ensures { result ≡ parsing.is_word keyword terminal }
{
    match terminal {
        Terminal::Keyword(other) => keyword == other,
        _ => false,
    }
}

impl<'a> Cursor<'a> {
    /// A cursor over all of the tokens.
    pub fn new(tokens: &'a [Lexeme]) -> Cursor<'a>
        ensures { result ≡ tokens.now }
    {
        Cursor { rest: tokens }
    }

    /// How many tokens are left.
    pub fn left(&self) -> usize
        ensures { result ≡ length self.now }
    {
        self.rest.len()
    }

    /// The next token.
    pub fn next(&self) -> Option<Lexeme>
        ensures { result ≡ parsing.next self.now }
    {
        let (token, _) = first(self.rest)?;
        Some(token)
    }

    /// The terminal symbol of the next token, and at the end `Foreign`.
    #[tactic(auto, unfolding(crate::specs::Parsing::front))]
    pub fn terminal(&self) -> Terminal
        ensures { result ≡ parsing.front self.now }
    {
        match first(self.rest) {
            None => Terminal::Foreign,
            Some((token, _)) => token.terminal,
        }
    }

    /// The terminal symbol of the token behind the next one, and at the end `Foreign`.
    #[tactic(auto, unfolding(crate::specs::Parsing::front, crate::specs::Parsing::second))]
    pub fn second(&self) -> Terminal
        ensures { result ≡ parsing.second self.now }
    {
        match first(self.rest) {
            None => Terminal::Foreign,
            Some((_, rest)) => match first(rest) {
                None => Terminal::Foreign,
                Some((token, _)) => token.terminal,
            },
        }
    }

    /// Reads any token.
    pub fn take(&mut self) -> Result<Lexeme, Refusal>
        ensures { Reads (parsing.take self.old) result self.new }
    {
        match first(self.rest) {
            None => Err(Refusal::Syntax),
            Some((token, rest)) => {
                self.rest = rest;
                Ok(token)
            }
        }
    }

    /// Reads this punctuator, and answers its place.
    #[tactic(auto, unfolding(crate::specs::Parsing::expect))]
    pub fn expect(&mut self, mark: Punctuator) -> Result<u32, Refusal>
        ensures { Reads (parsing.expect mark self.old) result self.new }
    {
        match first(self.rest) {
            Some((token, rest)) if is_mark(mark, token.terminal) => {
                self.rest = rest;
                Ok(token.at)
            }
            _ => Err(Refusal::Syntax),
        }
    }

    /// Reads this keyword, and answers its place.
    #[tactic(auto, unfolding(crate::specs::Parsing::expect_word))]
    pub fn expect_word(&mut self, keyword: Keyword) -> Result<u32, Refusal>
        ensures { Reads (parsing.expect_word keyword self.old) result self.new }
    {
        match first(self.rest) {
            Some((token, rest)) if is_word(keyword, token.terminal) => {
                self.rest = rest;
                Ok(token.at)
            }
            _ => Err(Refusal::Syntax),
        }
    }

    /// Reads this punctuator, if it comes next.
    #[tactic(auto, unfolding(crate::specs::Parsing::eat))]
    pub fn eat(&mut self, mark: Punctuator) -> Option<u32>
        ensures { parsing.eat mark self.old ≡ Some (result, self.new) }
    {
        match first(self.rest) {
            Some((token, rest)) if is_mark(mark, token.terminal) => {
                self.rest = rest;
                Some(token.at)
            }
            _ => None,
        }
    }

    /// Reads this keyword, if it comes next.
    #[tactic(auto, unfolding(crate::specs::Parsing::eat_word))]
    pub fn eat_word(&mut self, keyword: Keyword) -> Option<u32>
        ensures { parsing.eat_word keyword self.old ≡ Some (result, self.new) }
    {
        match first(self.rest) {
            Some((token, rest)) if is_word(keyword, token.terminal) => {
                self.rest = rest;
                Some(token.at)
            }
            _ => None,
        }
    }

    /// Reads an identifier that is no type name.
    #[tactic(auto, unfolding(crate::specs::Parsing::plain_name))]
    pub fn plain_name(&mut self) -> Result<NameAt, Refusal>
        ensures { Reads (parsing.plain_name self.old) result self.new }
    {
        match first(self.rest) {
            None => Err(Refusal::Syntax),
            Some((token, rest)) => match token.terminal {
                Terminal::Name(name) => {
                    self.rest = rest;
                    Ok(NameAt { name, at: token.at })
                }
                _ => Err(Refusal::Syntax),
            },
        }
    }

    /// Reads a tag or a member, which may be spelt as a type name (C11 6.2.3).
    #[tactic(auto, unfolding(crate::specs::Parsing::tag_name))]
    pub fn tag_name(&mut self) -> Result<NameAt, Refusal>
        ensures { Reads (parsing.tag_name self.old) result self.new }
    {
        match first(self.rest) {
            None => Err(Refusal::Syntax),
            Some((token, rest)) => match token.terminal {
                Terminal::Name(name) | Terminal::TypeName(name) => {
                    self.rest = rest;
                    Ok(NameAt { name, at: token.at })
                }
                _ => Err(Refusal::Syntax),
            },
        }
    }
}
