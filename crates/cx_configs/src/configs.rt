//! The configurations of a unit.
ghost use Rattle.std.specs.Prelude.{◌≡◌, ◌-◌, ◌∷◌, ◌++◌, [], IfOk, OnOk, filter, map, not};
ghost use Rattle.std.specs.Option.{option_map};
ghost use Rattle.cx_pre.specs.declared.config.Config.{Config as config};
ghost use Rattle.cx_library.specs.Library.{macros_of};
ghost use Rattle.cx_configs.specs.Configurations.{bound_of, configurations, defines_of, is_among};
ghost use Rattle.cx_configs.specs.Configurations.{usual_bound};
ghost use Rattle.cx_configs.specs.Shapes.Sets.{is_settled};

use crate::lists::add_files;
use crate::name_lists::NameLists;
use crate::settled::Settled;
use cx_base::{Define, List, NoMemory, Text};
use cx_library::Library;
use cx_options::Options;
use cx_pre::Config;
use cx_shelf::{IndexedShelf, closure};
use cx_table::NameKey;
use std::alloc::Global;
use std::collections::BTreeSet;

/// As many configurations as are looked at where no word says how many.
const MOST_CONFIGURATIONS: usize = 12;

/// How many configurations are looked at where no word says so: with a macro of `-D` the empty list
/// stands alone.
fn usual_bound(defines: &[Define]) -> usize
    ensures { result ≡ usual_bound defines.now }
{
    if defines.is_empty() {
        MOST_CONFIGURATIONS
    } else {
        1
    }
}

/// How many configurations are looked at, if not all.
#[tactic(auto, unfolding(crate::specs::Configurations::bound_of))]
fn bound_of(options: &Options) -> Option<usize>
    ensures { result ≡ bound_of options.now }
{
    if options.force {
        return None;
    }
    match options.max_configs {
        Some(most) => Some(most as usize),
        None => Some(usual_bound(options.defines.as_slice())),
    }
}

/// How many lists of names are looked at besides the empty one, if not all.
fn most_others(options: &Options) -> Option<usize>
    ensures { result ≡ option_map (λ n. n - 1) (bound_of options.now) }
{
    match bound_of(options) {
        None => None,
        Some(most) => Some(most.saturating_sub(1)),
    }
}

/// The names of a list.
fn texts_of(alloc: Global, names: &BTreeSet<&[u8]>) -> Result<List<Text>, NoMemory>
    ensures { IfOk result (λ texts. texts ≡ map (λ n. n.now) names.now.keys) }
{
    let mut texts = List::new(alloc);
    for name in names.iter() {
        texts.push(Text::from_slice(alloc, name)?)?;
    }
    Ok(texts)
}

/// The macros that each configuration defines: those of the library, and those of words that no
/// word undefines.
#[tactic(auto, unfolding(crate::specs::Configurations::defines_of))]
fn defines_of(
    alloc: Global,
    key: NameKey,
    library: &[Define],
    options: &Options,
) -> Result<List<Define>, NoMemory>
    ensures { IfOk result (λ defines. defines ≡ defines_of library.now options.now) }
{
    let undefined = Settled::undefined(alloc, key, options)?;
    let mut defines = copies_of(alloc, library)?;
    push_defined(&mut defines, options.defines.as_slice(), &undefined)?;
    Ok(defines)
}

/// Copies of definitions.
fn copies_of(alloc: Global, library: &[Define]) -> Result<List<Define>, NoMemory>
    ensures { IfOk result (λ defines. defines ≡ library.now) }
{
    let mut defines = List::new(alloc);
    for define in library {
        defines.push(define.copy()?)?;
    }
    Ok(defines)
}

/// Adds copies of the definitions of names that are not undefined.
fn push_defined(
    defines: &mut List<Define>,
    more: &[Define],
    undefined: &Settled,
) -> Result<(), NoMemory>
    ensures { OnOk result (defines.new ≡ defines.old
        ++ filter (λ d. not (is_settled undefined.now d.name)) more.now) }
{
    for define in more {
        if !undefined.contains(define.name.as_slice()) {
            defines.push(define.copy()?)?;
        }
    }
    Ok(())
}

/// A configuration of these macros and names.
fn config_of(defines: &List<Define>, names: List<Text>) -> Result<Config, NoMemory>
    ensures { IfOk result (λ c. c ≡ record { defines = defines.now; names = names }) }
{
    let defines = defines.copy()?;
    Ok(Config { defines, names })
}

/// The configurations of the empty list of names, and of others.
fn configs_of(
    alloc: Global,
    defines: &List<Define>,
    lists: &NameLists<'_>,
) -> Result<List<Config>, NoMemory>
    ensures { IfOk result (λ cs. cs
        ≡ map (λ names. record { defines = defines.now; names = names }) ([] ∷ lists.now)) }
{
    let mut configs = List::new(alloc);
    configs.push(config_of(defines, List::new(alloc))?)?;
    for names in lists.as_slice() {
        configs.push(config_of(defines, texts_of(alloc, names)?)?)?;
    }
    Ok(configs)
}

/// The configurations of a unit, the file with that number: macros and names that may be defined
/// outside of its sources. Each has the macros of the library and then those of `-D` that no `-U`
/// names, and a list of names that are defined as 1. The first list is empty. The others are those
/// for which the conditional lines of the unit's files ask, in order, each once: up to 12 in all,
/// or as many as `--max-configs=` says, or all with `--force`; with a macro of `-D` and neither of
/// these two there is the empty list alone. Names are hashed under this key, which the sources
/// give.
pub fn configurations(
    alloc: Global,
    key: NameKey,
    shelf: &IndexedShelf,
    unit: u32,
    options: &Options,
    library: &Library,
) -> Result<List<Config>, NoMemory>
    ensures { IfOk result (λ cs. cs
        ≡ configurations shelf.now unit options.now (macros_of library.now)) }
{
    let library = library.defines().as_slice();
    let files = closure(alloc, key, shelf, unit)?;
    let files = files.as_slice();
    let shelf = shelf.shelf();
    let settled = Settled::of(alloc, key, shelf, files, library, options)?;
    let mut lists = NameLists::new(alloc, key);
    add_files(
        alloc,
        &mut lists,
        most_others(options),
        &settled,
        shelf,
        files,
    )?;
    let defines = defines_of(alloc, key, library, options)?;
    configs_of(alloc, &defines, &lists)
}
