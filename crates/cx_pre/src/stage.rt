//! How far a unit's text has been gone through.
ghost use Rattle.std.specs.Prelude.{◌≡◌, ◌<◌, ◌≤◌, ◌||◌, IfOk, MatchResult, None, OnOk, Some, false, length, replicate, true};
ghost use Rattle.cx_lines.specs.Kinds.{after_text, begins_text, ends_group, kind_of, opens};
ghost use Rattle.cx_lines.specs.Lines.{lines_of};
ghost use Rattle.cx_lines.specs.Nesting.{place_of};
ghost use Rattle.std.specs.Result.{result_map_both};
ghost use Rattle.cx_directive.specs.Defines.{defined_by};
ghost use Rattle.cx_directive.specs.Operands.{name_of, operands};
ghost use Rattle.cx_pre.specs.declared.fault.PreFault.TheVariants.{BadDirective};
ghost use Rattle.cx_pre.specs.Choosing.{after_define, after_directive, after_undef, text_tokens};
ghost use Rattle.cx_pre.specs.Conditions.{Chooses, asks_value, chosen, no_choice};
ghost use Rattle.cx_pre.specs.Shapes.Gives.{DecisionIs, Gives, NameIs, is_alone, OnFault, Replaces, TextIs};
ghost use Rattle.cx_macro.specs.Macros.{Table as table};
ghost use Rattle.cx_pre.specs.Stages.{answer_by, answer_of, first_stage, is_once, through, unclosed_at, with_missing, with_once, with_text};
ghost use Rattle.cx_pre.specs.Starts.{IsStart, in_file};

use crate::chosen::Chosen;
use crate::config::Config;
use crate::context::Context;
use crate::fault::PreFault;
use crate::starts::{define, enter_file, start, undefine};
use crate::stop::{Stop, stop_of};
use cx_base::{List, NoMemory, Place};
use cx_condition::value_of;
use cx_directive::{IncludeName, answered, defined_by, name_of, operands, spelled, token_copies};
use cx_lex::Piece;
use cx_lines::{
    LineKind, first_line, from_part, front_text, kind_of, lines_are_the_pieces, place_of,
};
use cx_macro::{Macros, the_bound_is_met};
use cx_shelf::path_of;
use cx_tokens::{Kind, Token, TokenList};
use std::alloc::Global;
use std::marker::Model;

/// How far a unit's text has been gone through. Contracts see what the definition calls a stage.
#[derive(Drop)]
pub(crate) struct Stage {
    macros: Macros,
    laid: u32,
    tokens: Vec<Token>,
    missing: List<IncludeName>,
    once: Vec<bool>,
}

impl Model for Stage {
    ghost use Rattle.std.specs.Prelude.{◌≤◌};
    ghost use Rattle.cx_macro.specs.Expansion.{most_laid};
    ghost use Rattle.cx_pre.specs.Stages.{Stage as stage};

    ghost Value = { stage };

    ghost view = { λ s. record {
      macros = s.macros;
      laid = s.laid;
      tokens = s.tokens.items;
      missing = s.missing;
      once = s.once.items;
    } };

    ghost invariant = { λ s. s.laid ≤ most_laid };
}

/// So many files in which no `pragma once` was met.
fn no_marks(alloc: Global, count: usize) -> Result<Vec<bool>, NoMemory>
    ensures { IfOk result (λ marks. marks.items ≡ replicate count false) }
{
    let mut marks = Vec::new(alloc);
    marks.resize(count, false)?;
    Ok(marks)
}

/// Where the first quote without an end stands.
#[tactic(auto, unfolding(crate::specs::Stages::unclosed_at))]
fn unclosed_at(tokens: &[Token]) -> Option<Place>
    ensures { result ≡ unclosed_at tokens.now }
{
    for token in tokens {
        if token.kind == Kind::Unclosed {
            return Some(token.place);
        }
    }
    None
}

impl Stage {
    /// Nothing of a unit's text was gone through, in a configuration.
    pub(crate) fn new(context: &Context, config: &Config) -> Result<Stage, NoMemory>
        ensures { IfOk result (λ s. (macros : table) × IsStart config.now macros
            × (s ≡ first_stage context.now.shelf.now macros)) }
    {
        let alloc = context.alloc;
        let macros = start(alloc, context.key, config)?;
        let once = no_marks(alloc, context.shelf.shelf().files.len())?;
        Ok(Stage {
            macros,
            laid: 0,
            tokens: Vec::new(alloc),
            missing: List::new(alloc),
            once,
        })
    }

    /// Enters a file, or goes back into one: `__FILE__` is its path from then on.
    pub(crate) fn enter(&mut self, context: &Context, file: usize) -> Result<(), NoMemory>
        ensures { OnOk result (self.new ≡ in_file context.now.shelf.now file self.old) }
    {
        enter_file(
            context.alloc,
            &mut self.macros,
            path_of(context.shelf.shelf(), file),
        )
    }

    /// The includes that lead to no file.
    pub(crate) fn into_missing(self) -> List<IncludeName>
        ensures { result ≡ self.missing }
    {
        self.missing
    }

    /// What is chosen, where the whole text was gone through.
    #[tactic(auto, unfolding(crate::specs::Stages::answer_of))]
    pub(crate) fn into_chosen(self, alloc: Global) -> Result<Chosen, NoMemory>
        ensures { IfOk result (λ c. answer_by c ≡ answer_of (through self)) }
    {
        if let Some(at) = unclosed_at(self.tokens.as_slice()) {
            return Ok(Chosen {
                tokens: Err(PreFault::UnclosedLiteral { at }),
                missing: self.missing,
            });
        }
        let tokens = TokenList::from_vec(alloc, self.tokens)?;
        Ok(Chosen {
            tokens: Ok(tokens),
            missing: self.missing,
        })
    }

    /// Replaces the macros of tokens as they stand, which are laid then.
    fn expand(&mut self, alloc: Global, tokens: Vec<Token>) -> Result<Vec<Token>, Stop>
        ensures { Replaces self.old tokens.items self.new result }
    {
        the_bound_is_met();
        let list = TokenList::from_vec(alloc, tokens)?;
        match self.macros.expand(alloc, list, self.laid) {
            Ok(expanded) => {
                self.laid = expanded.laid;
                Ok(expanded.list.into_vec()?)
            }
            Err(fault) => Err(stop_of(fault)),
        }
    }

    /// Adds tokens to those that are chosen.
    fn add(&mut self, tokens: Vec<Token>) -> Result<(), NoMemory>
        ensures { OnOk result (self.new ≡ with_text tokens.items self.old.laid self.old) }
    {
        let mut more = tokens;
        self.tokens.append(&mut more)?;
        Ok(())
    }

    /// Takes the text in front of lines, whose macros are replaced. Answers the lines behind it.
    pub(crate) fn take_text<'a>(
        &mut self,
        alloc: Global,
        lines: &'a [Piece],
    ) -> Result<&'a [Piece], Stop>
        ensures text { TextIs self.old (text_tokens (lines_of lines.now)) self.new
            (result_map_both (λ rest. rest.now) (λ stop. stop) result) }
        ensures rest { IfOk result (λ rest. lines_of rest.now ≡ after_text (lines_of lines.now)) }
        ensures shorter { begins_text (lines_of lines.now) ≡ true
            → IfOk result (λ rest. length rest.now < length lines.now) }
    {
        lines_are_the_pieces();
        let (text, rest) = front_text(lines);
        let tokens = token_copies(alloc, text)?;
        let made = self.expand(alloc, tokens)?;
        self.add(made)?;
        Ok(rest)
    }

    /// Whether the condition that `if` or `elif` has holds.
    #[tactic(auto, using(crate::proofs::DecisionLaws::value_decides, crate::proofs::DecisionLaws::nothing_decides, crate::proofs::DecisionLaws::refusal_decides))]
    fn holds(&mut self, alloc: Global, line: &[Piece]) -> Result<bool, Stop>
        requires { asks_value (kind_of line.now) ≡ true }
        ensures { DecisionIs self.old line.now self.new result }
    {
        let asked = answered(alloc, &self.macros, operands(line))?;
        let made = self.expand(alloc, asked)?;
        match value_of(alloc, made.as_slice())? {
            Some(value) => Ok(value.bits != 0),
            None => Err(Stop::Fault(PreFault::BadCondition { at: place_of(line) })),
        }
    }

    /// Whether the name that `ifdef` or `ifndef` has is defined.
    fn is_named(&self, line: &[Piece]) -> Result<bool, Stop>
        ensures { NameIs self.now line.now result }
    {
        match name_of(operands(line)) {
            Some(name) => Ok(self.macros.is_defined(name)),
            None => Err(Stop::Fault(PreFault::BadDirective { at: place_of(line) })),
        }
    }

    /// Whether the lines behind a line that asks are chosen.
    #[tactic(auto, using(crate::proofs::DecisionLaws::name_decides, crate::proofs::DecisionLaws::no_name_decides, crate::proofs::DecisionLaws::always_decides))]
    fn decide(&mut self, alloc: Global, line: &[Piece]) -> Result<bool, Stop>
        requires { (opens (kind_of line.now) || ends_group (kind_of line.now)) ≡ true }
        ensures { DecisionIs self.old line.now self.new result }
    {
        match kind_of(line) {
            LineKind::If | LineKind::Elif => self.holds(alloc, line),
            LineKind::Ifdef => self.is_named(line),
            LineKind::Ifndef => Ok(!self.is_named(line)?),
            _ => Ok(true),
        }
    }

    /// The lines with which the text goes on behind a line that opens a section: those of the first
    /// group that is chosen, or those behind its `endif`.
    #[tactic(auto, using(crate::proofs::LengthLaws::from_part_ends, crate::proofs::ChoiceLaws::choice_on, crate::proofs::ChoiceLaws::choice_here, crate::proofs::ChoiceLaws::choice_nowhere, crate::proofs::ChoiceLaws::choice_stops))]
    pub(crate) fn choose<'a>(
        &mut self,
        alloc: Global,
        line: &'a [Piece],
        rest: &'a [Piece],
    ) -> Result<&'a [Piece], Stop>
        requires { opens (kind_of line.now) ≡ true }
        ensures choice { MatchResult result
            (λ lines. Chooses self.old line.now (lines_of rest.now)
            (chosen self.new (lines_of lines.now)))
            (λ stop. OnFault stop (λ f. (self.new.missing ≡ self.old.missing)
            × Chooses self.old line.now (lines_of rest.now) (no_choice f))) }
        ensures shorter { IfOk result (λ lines. length lines.now ≤ length rest.now) }
    {
        let mut asking = line;
        let mut behind = rest;
        while !self.decide(alloc, asking)? {
            let Some((part, more)) = first_line(from_part(behind)) else {
                return Ok(&[]);
            };
            asking = part;
            behind = more;
        }
        Ok(behind)
    }

    /// Does what a directive says that neither includes nor asks.
    #[tactic(auto, unfolding(crate::specs::Choosing::after_directive))]
    pub(crate) fn obey(
        &mut self,
        context: &Context,
        file: usize,
        line: &[Piece],
    ) -> Result<(), Stop>
        requires { is_alone (kind_of line.now) ≡ true }
        ensures { Gives
            (λ outcome. after_directive (kind_of line.now) file self.old line.now ≡ Some outcome)
            self.new result }
    {
        let at = place_of(line);
        match kind_of(line) {
            LineKind::Define => self.define(context, line),
            LineKind::Undef => self.undefine(line),
            LineKind::Error => Err(Stop::Fault(PreFault::ErrorDirective {
                at,
                text: spelled(context.alloc, operands(line))?,
            })),
            LineKind::Once => {
                self.mark_once(file);
                Ok(())
            }
            LineKind::Bad => Err(Stop::Fault(PreFault::BadDirective { at })),
            _ => Ok(()),
        }
    }

    fn define(&mut self, context: &Context, line: &[Piece]) -> Result<(), Stop>
        ensures { Gives (λ outcome. after_define self.old (place_of line.now)
            (defined_by (operands line.now)) ≡ outcome) self.new result }
    {
        match defined_by(context.alloc, context.key, operands(line))? {
            Some(named) => Ok(define(&mut self.macros, named.name, named.made)?),
            None => Err(Stop::Fault(PreFault::BadDirective { at: place_of(line) })),
        }
    }

    fn undefine(&mut self, line: &[Piece]) -> Result<(), Stop>
        ensures { Gives (λ outcome. after_undef self.old (place_of line.now)
            (name_of (operands line.now)) ≡ outcome) self.new result }
    {
        match name_of(operands(line)) {
            Some(name) => {
                undefine(&mut self.macros, name);
                Ok(())
            }
            None => Err(Stop::Fault(PreFault::BadDirective { at: place_of(line) })),
        }
    }

    fn mark_once(&mut self, file: usize)
        ensures { self.new ≡ with_once file self.old }
    {
        if let Some(mark) = self.once.get_mut(file) {
            *mark = true;
        }
    }

    /// Whether a `pragma once` was met in a file.
    pub(crate) fn is_once(&self, file: usize) -> bool
        ensures { result ≡ is_once file self.now }
    {
        match self.once.get(file) {
            Some(mark) => *mark,
            None => false,
        }
    }

    /// Notes an include that leads to no file.
    pub(crate) fn miss(&mut self, name: IncludeName) -> Result<(), NoMemory>
        ensures { OnOk result (self.new ≡ with_missing name self.old) }
    {
        self.missing.push(name)
    }
}
