//! What is found in a first text.
ghost use Rattle.std.specs.Prelude.{◌≡◌, ◌<◌, [], ◌∷◌, length, IfOk, MatchOption};
ghost use Rattle.cx_first.specs.Grammar.{IsFirstText};
ghost use Rattle.cx_first.specs.Runs.{IsNumbered, IsStuck};
ghost use Rattle.cx_first.specs.Tree.{source_of};
ghost use Rattle.cx_unit.specs.First.{FindsBy, Finds, finding_of, id_of, words_of};
ghost use Rattle.cx_unit.specs.Shapes.Found.{FindsIn, IsNoText};

use cx_base::{Finding, Id, List, NoMemory, Severity, Text, Word};
use cx_first::{FirstText, Node, RunEnd, Undefined, node_at, read, run};
use cx_tokens::Token;
use std::alloc::Global;

fn id_of(cause: Undefined) -> Id
    ensures { result ≡ id_of cause }
{
    match cause {
        Undefined::Uninitialized => Id::UninitVar,
        Undefined::ZeroDivisor => Id::ZeroDiv,
        Undefined::Overflow => Id::IntegerOverflow,
    }
}

fn words_of(alloc: Global, cause: Undefined, text: Text) -> Result<List<Word>, NoMemory>
    ensures { IfOk result (λ words. words ≡ words_of cause text) }
{
    let mut words = List::new(alloc);
    match cause {
        Undefined::Uninitialized => words.push(Word::Text(text))?,
        Undefined::ZeroDivisor => {}
        Undefined::Overflow => words.push(Word::Text(text))?,
    }
    Ok(words)
}

fn finding_of(alloc: Global, cause: Undefined, node: Node) -> Result<Finding, NoMemory>
    ensures { IfOk result (λ finding. finding ≡ finding_of cause node) }
{
    let place = node.place;
    let words = words_of(alloc, cause, node.text)?;
    Ok(Finding {
        id: id_of(cause),
        severity: Severity::Error,
        place,
        others: List::new(alloc),
        words,
    })
}

// The finding of the node at which the runs of a text are stuck.
#[tactic(auto, using(crate::proofs::FirstLaws::finding_at))]
fn stuck_findings(
    alloc: Global,
    text: &FirstText,
    statement: u32,
    node: u32,
    cause: Undefined,
) -> Result<List<Finding>, NoMemory>
    requires { IsStuck (source_of text.now) statement node cause }
    ensures { IfOk result (FindsBy (source_of text.now) (RunEnd.Stuck statement node cause)) }
{
    let mut findings = List::new(alloc);
    match node_at(alloc, text, statement, node)? {
        Some(node) => {
            let finding = finding_of(alloc, cause, node)?;
            findings.push(finding)?;
            Ok(findings)
        }
        None => unreachable!(),
    }
}

fn text_findings(alloc: Global, text: &FirstText) -> Result<List<Finding>, NoMemory>
    requires { IsNumbered (source_of text.now) }
    ensures { IfOk result (Finds (source_of text.now)) }
{
    match run(alloc, text)? {
        RunEnd::Finished => Ok(List::new(alloc)),
        RunEnd::Stuck {
            statement,
            node,
            cause,
        } => stuck_findings(alloc, text, statement, node, cause),
    }
}

/// What is found in the first text that the tokens are, where they are one.
pub(crate) fn findings_in(
    alloc: Global,
    tokens: &[Token],
) -> Result<Option<List<Finding>>, NoMemory>
    requires { length tokens.now < 4294967295 }
    ensures { IfOk result
        (λ r. MatchOption r (IsNoText tokens.now) (FindsIn tokens.now)) }
{
    match read(alloc, tokens)? {
        Some(text) => {
            let findings = text_findings(alloc, &text)?;
            Ok(Some(findings))
        }
        None => Ok(None),
    }
}
