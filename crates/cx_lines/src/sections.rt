//! The sections of conditional inclusion that are open.
ghost use Rattle.std.specs.Prelude.{◌≡◌, [], ◌∷◌, MatchOption, OnOk, Some, length};
ghost use Rattle.cx_lines.specs.Shapes.Sections.{in_else, innermost, sections_after, stray_in, unclosed};

use crate::kind::LineKind;
use crate::nesting::NestingFault;
use cx_base::{NoMemory, Place};
use std::alloc::Global;
use std::marker::Model;

/// A section that is open.
#[derive(Clone, Copy)]
pub(crate) struct OpenSection {
    /// Where it was opened.
    at: Place,
    /// Whether its last group is that of its `else`.
    has_else: bool,
}

/// The sections that are open, which contracts see as a list, the innermost first.
#[derive(Drop)]
pub(crate) struct OpenSections {
    // The innermost last.
    sections: Vec<OpenSection>,
}

impl Model for OpenSections {
    ghost use Rattle.std.specs.Prelude.{List, reverse};
    ghost use Rattle.cx_lines.specs.declared.sections.OpenSection.{OpenSection as section};

    ghost Value = { List section };

    ghost view = { λ l. reverse l.sections.items };
}

impl OpenSections {
    pub(crate) fn new(alloc: Global) -> OpenSections
        ensures { result ≡ [] }
    {
        OpenSections {
            sections: Vec::new(alloc),
        }
    }

    #[tactic(auto, using(crate::proofs::SectionLaws::innermost_is))]
    fn innermost(&self) -> Option<OpenSection>
        ensures { result ≡ innermost self.now }
    {
        self.sections.last().copied()
    }

    #[tactic(auto, using(crate::proofs::SectionLaws::pushed))]
    fn push(&mut self, section: OpenSection) -> Result<(), NoMemory>
        ensures { OnOk result (self.new ≡ section ∷ self.old) }
    {
        self.sections.push(section)?;
        Ok(())
    }

    /// Takes the innermost away.
    fn pop(&mut self) -> Option<OpenSection>
        ensures { MatchOption result ((self.old ≡ []) × (self.new ≡ [])) (λ s. self.old
            ≡ s ∷ self.new) }
    {
        self.sections.pop()
    }

    /// The innermost section goes on with the group of its `else`.
    fn begin_else(&mut self) -> Result<(), NoMemory>
        ensures { OnOk result (self.new ≡ in_else self.old) }
    {
        let Some(section) = self.pop() else {
            return Ok(());
        };
        self.push(OpenSection {
            at: section.at,
            has_else: true,
        })
    }

    /// Whether a line of this kind goes on or ends no section.
    pub(crate) fn is_stray(&self, kind: LineKind) -> bool
        ensures { result ≡ stray_in self.now kind }
    {
        match self.innermost() {
            None => kind.ends_group(),
            Some(section) => kind.parts() && section.has_else,
        }
    }

    /// Goes past a line of this kind, which stands here.
    #[tactic(auto, unfolding(crate::specs::Shapes::Sections::sections_after))]
    pub(crate) fn pass(&mut self, kind: LineKind, at: Place) -> Result<(), NoMemory>
        ensures { OnOk result (self.new ≡ sections_after kind at self.old) }
    {
        if kind.opens() {
            return self.push(OpenSection {
                at,
                has_else: false,
            });
        }
        if kind.closes() {
            let _ = self.pop();
            return Ok(());
        }
        if kind == LineKind::Else {
            return self.begin_else();
        }
        Ok(())
    }

    /// The fault of lines that end where these are open.
    pub(crate) fn unclosed(&self) -> Option<NestingFault>
        ensures { result ≡ unclosed (innermost self.now) }
    {
        let section = self.innermost()?;
        Some(NestingFault::Unclosed { at: section.at })
    }
}
