//! The names of configurations, and the lines that tell of them.
ghost use Rattle.std.specs.Prelude.{◌≡◌, ◌++◌, IfOk, OnOk, filter, map, not};
ghost use Rattle.cx_configs.specs.Configurations.{is_among};
ghost use Rattle.cx_unit.specs.Names.{config_name, joined, part_of, parts_of, progress_line};

use cx_base::{Define, List, NoMemory, Path, Text};
use cx_options::Options;
use std::alloc::Global;

/// A macro of a word, as `name=value`.
fn part_of(define: &Define) -> Result<Text, NoMemory>
    ensures { IfOk result (λ part. part ≡ part_of define.now) }
{
    let mut part = define.name.copy()?;
    part.push_all(b"=")?;
    part.push_all(define.value.as_slice())?;
    Ok(part)
}

/// Whether a name is among others.
fn is_among(names: &[Text], name: &Text) -> bool
    ensures { result ≡ is_among names.now name.now }
{
    names
        .iter()
        .any(|other| other.as_slice() == name.as_slice())
}

/// Adds the macros of words that no word undefines.
fn push_defines(parts: &mut List<Text>, options: &Options) -> Result<(), NoMemory>
    ensures { OnOk result (parts.new ≡ parts.old ++ map part_of
        (filter (λ d. not (is_among options.now.undefined d.name)) options.now.defines)) }
{
    for define in options.defines.as_slice() {
        if !is_among(options.undefined.as_slice(), &define.name) {
            parts.push(part_of(define)?)?;
        }
    }
    Ok(())
}

/// The macros of words that no word undefines, and then the names that are defined.
fn parts_of(alloc: Global, options: &Options, names: &[Text]) -> Result<List<Text>, NoMemory>
    ensures { IfOk result (λ parts. parts ≡ parts_of options.now names.now) }
{
    let mut parts = List::new(alloc);
    push_defines(&mut parts, options)?;
    for name in names {
        parts.push(name.copy()?)?;
    }
    Ok(parts)
}

/// Texts with `;` between each two.
#[tactic(auto, unfolding(crate::specs::Names::joined))]
fn joined(alloc: Global, parts: &[Text]) -> Result<Text, NoMemory>
    ensures { IfOk result (λ text. text ≡ joined parts.now) }
{
    let Some((first, others)) = parts.split_first() else {
        return Ok(Text::new(alloc));
    };
    let mut text = first.copy()?;
    for part in others {
        text.push_all(b";")?;
        text.push_all(part.as_slice())?;
    }
    Ok(text)
}

/// The name of the configuration that defines these names.
pub(crate) fn config_name(
    alloc: Global,
    options: &Options,
    names: &[Text],
) -> Result<Text, NoMemory>
    ensures { IfOk result (λ name. name ≡ config_name options.now names.now) }
{
    let parts = parts_of(alloc, options, names)?;
    joined(alloc, parts.as_slice())
}

/// The line that tells which file is checked in a configuration of that name.
pub(crate) fn progress_line(alloc: Global, path: &Path, name: &[u8]) -> Result<Text, NoMemory>
    ensures { IfOk result (λ line. line ≡ progress_line path.now name.now) }
{
    let mut line = Text::from_slice(alloc, b"Checking ")?;
    line.push_all(path.as_bytes())?;
    if name.is_empty() {
        line.push_all(b" ...")?;
    } else {
        line.push_all(b": ")?;
        line.push_all(name)?;
        line.push_all(b"...")?;
    }
    Ok(line)
}
