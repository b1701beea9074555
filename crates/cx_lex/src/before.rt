//! What stands before an element of a source.
ghost use Rattle.std.specs.Prelude.{◌≡◌, if◌then◌else◌, bytes_eq};
ghost use Rattle.cx_lex.specs.Shapes.After.{after_comment, after_piece, after_separator};
ghost use Rattle.cx_lex.specs.Elements.{at_start, directive_after};
ghost use Rattle.cx_lex.specs.declared.before.Directive.TheVariants.{Nothing};

use cx_tokens::{Kind, plain_text};

/// How far an include line has been read.
#[derive(Clone, Copy, Debug, PartialEq, Eq)]
pub enum Directive {
    /// Nothing of it.
    Nothing,
    /// Its `#`.
    Hash,
    /// Its `#` and `include`.
    Include,
}

/// What stands before an element.
#[derive(Clone, Copy, Debug, PartialEq, Eq)]
pub struct Before {
    /// Whether a separator or a comment stands directly before it.
    pub space: bool,
    /// Whether no piece stands before it on its line.
    pub first_on_line: bool,
    pub directive: Directive,
}

impl Before {
    /// What stands before a source.
    pub fn at_start() -> Before
        ensures { result ≡ at_start }
    {
        Before {
            space: false,
            first_on_line: true,
            directive: Directive::Nothing,
        }
    }

    /// What stands after a separator, which may belong to a newline.
    pub fn after_separator(self, newline: bool) -> Before
        ensures { result ≡ after_separator self newline }
    {
        if !newline {
            return self.after_comment();
        }
        Before {
            space: true,
            first_on_line: true,
            directive: Directive::Nothing,
        }
    }

    /// What stands after a comment.
    pub fn after_comment(self) -> Before
        ensures { result ≡ after_comment self }
    {
        let mut after = self;
        after.space = true;
        after
    }

    /// What stands after a piece of this kind and spelling.
    pub fn after_piece(self, kind: Kind, spelled: &[u8]) -> Before
        ensures { result ≡ after_piece self kind spelled.now }
    {
        let directive = self.directive.after(kind, plain_text(kind, spelled));
        Before {
            space: false,
            first_on_line: false,
            directive,
        }
    }
}

impl Directive {
    // How far an include line has been read after a piece.
    #[tactic(auto, unfolding(crate::specs::Elements::directive_after))]
    fn after(self, kind: Kind, text: &[u8]) -> Directive
        ensures { result ≡ directive_after self kind text.now }
    {
        match kind {
            Kind::Punct => if_equal(text, b"#", Directive::Hash),
            Kind::Name => match self {
                Directive::Hash => if_equal(text, b"include", Directive::Include),
                _ => Directive::Nothing,
            },
            _ => Directive::Nothing,
        }
    }
}

// The directive where a text is that word, else none.
fn if_equal(text: &[u8], word: &[u8], directive: Directive) -> Directive
    ensures { result ≡ if bytes_eq text.now word.now then directive else Nothing }
{
    if text == word {
        return directive;
    }
    Directive::Nothing
}
