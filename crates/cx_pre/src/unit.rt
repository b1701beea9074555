//! What is chosen of a unit (C11 6.10).
ghost use Rattle.std.specs.Prelude.{◌≡◌, IfOk};
ghost use Rattle.cx_pre.specs.Choosing.{IsChosen};
ghost use Rattle.cx_pre.specs.Stages.{Answer as answer, answer_by};

use crate::chosen::Chosen;
use crate::config::Config;
use crate::context::Context;
use crate::files::go_through;
use crate::laws::one_answer;
use crate::stage::Stage;
use crate::stop::Stop;
use cx_base::NoMemory;
use cx_shelf::IndexedShelf;
use cx_table::NameKey;
use std::alloc::Global;

/// How deep includes may be nested: one in the file of the unit has depth 1.
const INCLUDE_DEPTH: u32 = 64;

/// What is chosen of a unit, the file with that number, in a configuration: the tokens of the
/// groups that are chosen, with the files that they include and with macros replaced; or the first
/// fault in the order of the text. An unclosed quote among the tokens comes behind every other
/// fault. The names of macros are hashed under this key, which the sources give.
pub fn preprocess(
    alloc: Global,
    key: NameKey,
    shelf: &IndexedShelf,
    unit: u32,
    config: &Config,
) -> Result<Chosen, NoMemory>
    ensures fits { IfOk result (λ c. IsChosen shelf.now unit config.now (answer_by c)) }
    ensures only { (a : answer) → IsChosen shelf.now unit config.now a
        → IfOk result (λ c. a ≡ answer_by c) }
{
    one_answer();
    chosen(alloc, key, shelf, unit, config)
}

/// The same, as far as it is found.
#[tactic(auto, using(crate::proofs::UnitLaws::is_answer, crate::proofs::UnitLaws::is_refusal))]
fn chosen(
    alloc: Global,
    key: NameKey,
    shelf: &IndexedShelf,
    unit: u32,
    config: &Config,
) -> Result<Chosen, NoMemory>
    ensures { IfOk result (λ c. IsChosen shelf.now unit config.now (answer_by c)) }
{
    let context = Context { alloc, key, shelf };
    let mut stage = Stage::new(&context, config)?;
    match go_through(&context, &mut stage, INCLUDE_DEPTH, unit as usize) {
        Ok(()) => stage.into_chosen(alloc),
        Err(Stop::Fault(fault)) => Ok(Chosen {
            tokens: Err(fault),
            missing: stage.into_missing(),
        }),
        Err(Stop::NoMemory) => Err(NoMemory),
    }
}
