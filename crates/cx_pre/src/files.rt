//! Files, and those that they include.
ghost use Rattle.std.specs.Prelude.{◌≡◌, ◌∷◌, ◌<◌, IfOk, MatchResult, length};
ghost use Rattle.cx_lines.specs.Kinds.{kind_of};
ghost use Rattle.cx_lines.specs.declared.kind.LineKind.TheVariants as line_kind;
ghost use Rattle.cx_lines.specs.Lines.{lines_of};
ghost use Rattle.cx_pre.specs.Choosing.{Does, Enters, at_end};
ghost use Rattle.cx_pre.specs.Shapes.Gives.{Gives, Leads, OnFault, Stops};

use crate::context::Context;
use crate::fault::PreFault;
use crate::stage::Stage;
use crate::stop::Stop;
use cx_directive::{operands, target_of};
use cx_lex::Piece;
use cx_lines::{LineKind, NestingFault, after_section, extent_of, first_line, kind_of, place_of};
use cx_shelf::{found, path_of, pieces_of};

/// The end of the lines of a file that nest.
fn end_of(stage: &mut Stage, fault: Option<NestingFault>) -> Result<(), Stop>
    ensures { Gives (λ outcome. outcome ≡ at_end fault stage.old) stage.new result }
{
    let _ = stage;
    match fault {
        None => Ok(()),
        Some(NestingFault::Stray { at }) => Err(Stop::Fault(PreFault::StrayElse { at })),
        Some(NestingFault::Unclosed { at }) => Err(Stop::Fault(PreFault::UnclosedGroup { at })),
    }
}

/// Goes over what stands in front of the lines of a file, which does not include. Answers the lines
/// with which the text goes on.
#[tactic(auto, using(crate::proofs::StepLaws::text_leads, crate::proofs::StepLaws::text_leads_nowhere, crate::proofs::StepLaws::section_leads, crate::proofs::StepLaws::section_leads_nowhere, crate::proofs::StepLaws::end_leads, crate::proofs::StepLaws::part_leads, crate::proofs::StepLaws::alone_leads, crate::proofs::StepLaws::alone_stops))]
fn step<'a>(
    context: &Context,
    stage: &mut Stage,
    file: usize,
    lines: &'a [Piece],
    line: &'a [Piece],
    rest: &'a [Piece],
) -> Result<&'a [Piece], Stop>
    requires lines { lines_of lines.now ≡ line.now ∷ lines_of rest.now }
    requires shorter { length rest.now < length lines.now }
    requires kind { ¬ (kind_of line.now ≡ line_kind.Include) }
    ensures meaning { MatchResult result
        (λ next. Leads context.now.shelf.now file stage.old (lines_of lines.now)
        stage.new (lines_of next.now))
        (λ stop. OnFault stop (λ f. Stops context.now.shelf.now file stage.old (lines_of lines.now)
        stage.new f)) }
    ensures shorter { IfOk result (λ next. length next.now < length lines.now) }
{
    let kind = kind_of(line);
    if kind.is_text() {
        return stage.take_text(context.alloc, lines);
    }
    if kind.opens() {
        return stage.choose(context.alloc, line, rest);
    }
    if kind.closes() {
        return Ok(rest);
    }
    if kind.parts() {
        return Ok(after_section(rest));
    }
    match stage.obey(context, file, line) {
        Ok(()) => Ok(rest),
        Err(stop) => Err(stop),
    }
}

/// Goes through a file, in which includes may be nested so deep.
#[cycle(files)]
#[tactic(auto, using(crate::proofs::EnterLaws::left_at_first, crate::proofs::EnterLaws::left_after_include, crate::proofs::EnterLaws::left_at_stop, crate::proofs::EnterLaws::left_at_end))]
pub(crate) fn go_through(
    context: &Context,
    stage: &mut Stage,
    depth: u32,
    file: usize,
) -> Result<(), Stop>
    ensures { Gives (Enters context.now.shelf.now depth file stage.old) stage.new result }
{
    stage.enter(context, file)?;
    let extent = extent_of(context.alloc, pieces_of(context.shelf.shelf(), file))?;
    let mut lines = extent.front;
    while let Some((line, rest)) = first_line(lines) {
        if kind_of(line) == LineKind::Include {
            match include(context, stage, depth, file, line) {
                Ok(()) => lines = rest,
                Err(stop) => return Err(stop),
            }
        } else {
            lines = step(context, stage, file, lines, line, rest)?;
        }
    }
    end_of(stage, extent.fault)
}

/// Does what an `include` of a file says.
#[cycle(files)]
#[tactic(auto, using(crate::proofs::EnterLaws::names_nothing, crate::proofs::EnterLaws::is_too_deep, crate::proofs::EnterLaws::leads_nowhere, crate::proofs::EnterLaws::is_passed, crate::proofs::EnterLaws::is_gone_through, crate::proofs::EnterLaws::is_left, crate::proofs::EnterLaws::named_by_line))]
fn include(
    context: &Context,
    stage: &mut Stage,
    depth: u32,
    file: usize,
    line: &[Piece],
) -> Result<(), Stop>
    requires kind { kind_of line.now ≡ line_kind.Include }
    ensures { Gives (Does context.now.shelf.now depth file stage.old line.now) stage.new result }
{
    let Some(target) = target_of(context.alloc, operands(line))? else {
        return Err(Stop::Fault(PreFault::BadDirective { at: place_of(line) }));
    };
    let Some(left) = depth.checked_sub(1) else {
        return Err(Stop::Fault(PreFault::Deep { at: target.name.at }));
    };
    let includer = path_of(context.shelf.shelf(), file);
    let Some(other) = found(context.alloc, context.shelf, includer, &target)? else {
        return Ok(stage.miss(target.name)?);
    };
    if stage.is_once(other) {
        return Ok(());
    }
    match go_through(context, stage, left, other) {
        Ok(()) => Ok(stage.enter(context, file)?),
        Err(stop) => Err(stop),
    }
}
