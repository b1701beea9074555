//! Where an item ends that begins at a part, found from the last part to the first.
ghost use Rattle.std.specs.Prelude.{◌≡◌};
ghost use Rattle.cx_items.specs.Shapes.Ends.{before, body_from, head_before, item_behind, nothing};

use crate::outline::PartKind;

/// The first end of an item: the first `;`, or the first braces directly behind round brackets.
#[derive(Clone, Copy)]
pub(crate) struct Head {
    /// How many parts stand behind it.
    pub behind: usize,
    /// How many stand behind the body of an old-style definition, if declarations and then a body
    /// stand behind this end.
    pub old_style: Option<usize>,
    /// Whether a word stands directly behind round brackets before it.
    pub word: bool,
}

/// What stands from a part on.
#[derive(Clone, Copy)]
pub(crate) struct Ahead {
    /// What the part itself is.
    pub next: Option<PartKind>,
    pub head: Option<Head>,
    /// How many parts stand behind the first braces, if they and no `=` stand directly behind a
    /// `;`, where one stands before the part.
    pub from_semicolon: Option<usize>,
    /// The same where something else stands before the part.
    pub from_other: Option<usize>,
}

impl Ahead {
    /// Behind the last part.
    pub(crate) fn nothing() -> Ahead
        ensures { result ≡ nothing }
    {
        Ahead {
            next: None,
            head: None,
            from_semicolon: None,
            from_other: None,
        }
    }

    /// The first end from a part of this kind on, behind which so many stand.
    fn head_before(self, kind: PartKind, behind: usize) -> Option<Head>
        ensures { result ≡ head_before kind behind self }
    {
        match (kind, self.next) {
            (PartKind::Semicolon, _) => Some(Head {
                behind,
                old_style: self.from_semicolon,
                word: false,
            }),
            (PartKind::Round, Some(PartKind::Braces)) => Some(Head {
                behind: behind.saturating_sub(1),
                old_style: None,
                word: false,
            }),
            (PartKind::Round, Some(PartKind::Word)) => match self.head {
                None => None,
                Some(head) => Some(Head { word: true, ..head }),
            },
            _ => self.head,
        }
    }

    /// How many parts stand behind the body of an old-style definition, from a part of this kind
    /// on.
    fn body_from(self, kind: PartKind, behind: Option<usize>) -> Option<usize>
        ensures { result ≡ body_from kind behind self }
    {
        match kind {
            PartKind::Braces => behind,
            PartKind::Equal => None,
            PartKind::Semicolon => self.from_semicolon,
            PartKind::Word | PartKind::Round | PartKind::Other => self.from_other,
        }
    }

    /// What stands from a part of this kind on, behind which so many stand.
    pub(crate) fn before(self, kind: PartKind, behind: usize) -> Ahead
        ensures { result ≡ before kind behind self }
    {
        Ahead {
            next: Some(kind),
            head: self.head_before(kind, behind),
            from_semicolon: self.body_from(kind, Some(behind)),
            from_other: self.body_from(kind, None),
        }
    }

    /// How many parts stand behind the item that begins here, if it has an end.
    pub(crate) fn item_behind(self) -> Option<usize>
        ensures { result ≡ item_behind self }
    {
        match self.head {
            None => None,
            Some(head) => match (head.word, head.old_style) {
                (true, Some(behind)) => Some(behind),
                _ => Some(head.behind),
            },
        }
    }
}
