//! The library that is built in.
ghost use Rattle.std.specs.Prelude.{◌≡◌, IfOk, OnOk, fold, false, [], true};
ghost use Rattle.cx_library.specs.BuiltIn.{built_in};
ghost use Rattle.cx_library.specs.Shapes.BuiltIn.{described_by, with_macro, with_memory, with_row};
ghost use Rattle.cx_library.specs.Shapes.BuiltIn.{with_type};
ghost use Rattle.cx_library.specs.declared.described.Direction.TheVariants.{In};

use crate::described::{ArgNr, ArgRule, Described, Direction, ReturnKind};
use crate::draft::Draft;
use crate::library::Library;
use crate::pod::Pod;
use cx_base::{Define, List, NoMemory, Text};
use cx_table::NameKey;
use std::alloc::Global;

/// What is said of a function of the built-in library.
#[derive(Clone, Copy, Debug, PartialEq, Eq)]
enum Manner {
    NeverReturns,
    /// Its result has to be used.
    ResultUsed,
    /// It prints its arguments, of which the first is not null.
    Prints,
    /// It gives the size of its argument, which is not null.
    Measures,
}

const FUNCTIONS: [(&str, Manner); 7] = [
    ("exit", Manner::NeverReturns),
    ("abort", Manner::NeverReturns),
    ("malloc", Manner::ResultUsed),
    ("calloc", Manner::ResultUsed),
    ("printf", Manner::Prints),
    ("puts", Manner::Prints),
    ("strlen", Manner::Measures),
];

const DEFINES: [(&str, &str); 10] = [
    ("NULL", "0"),
    ("bool", "_Bool"),
    ("true", "1"),
    ("false", "0"),
    ("INT_MAX", "2147483647"),
    ("INT_MIN", "(-2147483647-1)"),
    ("UINT_MAX", "4294967295u"),
    ("CHAR_BIT", "8"),
    ("EXIT_SUCCESS", "0"),
    ("EXIT_FAILURE", "1"),
];

/// Names of podtypes, whether they have a sign, and their sizes in bytes.
const PODS: [(&str, bool, u8); 8] = [
    ("int8_t", true, 1),
    ("uint8_t", false, 1),
    ("int16_t", true, 2),
    ("uint16_t", false, 2),
    ("int32_t", true, 4),
    ("uint32_t", false, 4),
    ("int64_t", true, 8),
    ("uint64_t", false, 8),
];

/// The rule of an argument that is read.
fn rule(alloc: Global, nr: ArgNr, not_null: bool) -> ArgRule
    ensures { result ≡ record {
      nr = nr;
      direction = In;
      not_null = not_null;
      not_uninit = false;
      ranges = [];
      valid = [];
    } }
{
    ArgRule {
        nr,
        direction: Direction::In,
        not_null,
        not_uninit: false,
        ranges: List::new(alloc),
        valid: Text::new(alloc),
    }
}

/// A function that prints its arguments.
fn printing(alloc: Global) -> Result<Described, NoMemory>
    ensures { IfOk result (λ d. d ≡ described_by Manner.Prints) }
{
    let mut described = Described::new(alloc);
    described.args.push(rule(alloc, ArgNr::Number(1), true))?;
    described.args.push(rule(alloc, ArgNr::Variadic, false))?;
    Ok(described)
}

/// A function that gives the size of its argument.
fn measuring(alloc: Global) -> Result<Described, NoMemory>
    ensures { IfOk result (λ d. d ≡ described_by Manner.Measures) }
{
    let names = Text::from_slice(alloc, b"size_t")?;
    let mut described = Described::new(alloc);
    described.must_use_result = true;
    described.pure = true;
    described.returns = Some(ReturnKind { names, stars: 0 });
    described.args.push(rule(alloc, ArgNr::Number(1), true))?;
    Ok(described)
}

/// What is said of a function.
fn described(alloc: Global, manner: Manner) -> Result<Described, NoMemory>
    ensures { IfOk result (λ d. d ≡ described_by manner) }
{
    let mut described = Described::new(alloc);
    match manner {
        Manner::NeverReturns => {
            described.noreturn = true;
            Ok(described)
        }
        Manner::ResultUsed => {
            described.must_use_result = true;
            Ok(described)
        }
        Manner::Prints => printing(alloc),
        Manner::Measures => measuring(alloc),
    }
}

fn add_function(
    alloc: Global,
    draft: &mut Draft,
    name: &str,
    manner: Manner,
) -> Result<(), NoMemory>
    ensures { OnOk result (draft.new ≡ with_row draft.old name.now manner) }
{
    let name = Text::from_slice(alloc, name.as_bytes())?;
    draft.describe(name, described(alloc, manner)?)
}

fn add_functions(alloc: Global, draft: &mut Draft, rows: &[(&str, Manner)]) -> Result<(), NoMemory>
    ensures { OnOk result (draft.new
        ≡ fold (λ library row. with_row library row.0.now row.1) draft.old rows.now) }
{
    for (name, manner) in rows {
        add_function(alloc, draft, name, *manner)?;
    }
    Ok(())
}

fn add_define(alloc: Global, draft: &mut Draft, name: &str, value: &str) -> Result<(), NoMemory>
    ensures { OnOk result (draft.new ≡ with_macro draft.old name.now value.now) }
{
    let name = Text::from_slice(alloc, name.as_bytes())?;
    let value = Text::from_slice(alloc, value.as_bytes())?;
    draft.define(Define { name, value })
}

fn add_defines(alloc: Global, draft: &mut Draft, rows: &[(&str, &str)]) -> Result<(), NoMemory>
    ensures { OnOk result (draft.new
        ≡ fold (λ library row. with_macro library row.0.now row.1.now) draft.old rows.now) }
{
    for (name, value) in rows {
        add_define(alloc, draft, name, value)?;
    }
    Ok(())
}

fn add_pod(
    alloc: Global,
    draft: &mut Draft,
    name: &str,
    signed: bool,
    bytes: u8,
) -> Result<(), NoMemory>
    ensures { OnOk result (draft.new ≡ with_type draft.old name.now signed bytes) }
{
    let name = Text::from_slice(alloc, name.as_bytes())?;
    draft.add_pod(name, Pod { signed, bytes })
}

fn add_pods(alloc: Global, draft: &mut Draft, rows: &[(&str, bool, u8)]) -> Result<(), NoMemory>
    ensures { OnOk result (draft.new
        ≡ fold (λ library row. with_type library row.0.now row.1 row.2) draft.old rows.now) }
{
    for (name, signed, bytes) in rows {
        add_pod(alloc, draft, name, *signed, *bytes)?;
    }
    Ok(())
}

/// The memory group of `malloc`, `calloc` and `free`.
fn add_memory(alloc: Global, draft: &mut Draft) -> Result<(), NoMemory>
    ensures { OnOk result (draft.new ≡ with_memory draft.old) }
{
    draft.add_group()?;
    draft.allocates(Text::from_slice(alloc, b"malloc")?)?;
    draft.allocates(Text::from_slice(alloc, b"calloc")?)?;
    draft.frees(Text::from_slice(alloc, b"free")?)
}

/// The library that is built in. The names to come are hashed with this key.
pub fn built_in(alloc: Global, key: NameKey) -> Result<Library, NoMemory>
    ensures { IfOk result (λ library. library ≡ built_in) }
{
    let mut draft = Draft::new(alloc, key);
    add_functions(alloc, &mut draft, &FUNCTIONS)?;
    add_defines(alloc, &mut draft, &DEFINES)?;
    add_pods(alloc, &mut draft, &PODS)?;
    add_memory(alloc, &mut draft)?;
    let library = Library::of(draft)?;
    Ok(library)
}
