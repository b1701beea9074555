//! The simple path that leads where a path does.
ghost use Rattle.std.specs.Prelude.{◌≡◌, ◌++◌, IfOk, IsTrue, OnOk, string_bytes};
ghost use Rattle.std.specs.List.{join_with_byte};
ghost use Rattle.cx_base.specs.Shapes.SimplePath.{ends_plain, rooted_start, texts_of, with_component};
ghost use Rattle.cx_base.specs.Simple.{is_simple, simple_components, simple_path};

use crate::errors::NoMemory;
use crate::path::Path;
use crate::simple_form::{is_parent, split_first};
use std::alloc::Global;

// Whether there is a last component that is not `..`.
fn ends_plain(left: &[&str]) -> bool
    ensures { result ≡ ends_plain (texts_of left.now) }
{
    match left.last() {
        None => false,
        Some(last) => !is_parent(last),
    }
}

// Adds a component to those that are left so far: one that leads nowhere is dropped, and a `..` and
// one before it that is not `..` cancel each other.
#[tactic(auto, unfolding(crate::specs::Shapes::SimplePath::with_component))]
fn push_component<'a>(left: &mut Vec<&'a str>, component: &'a str) -> Result<(), NoMemory>
    ensures { OnOk result
        (texts_of left.new.items ≡ with_component (texts_of left.old.items) component.now) }
{
    if component.is_empty() || component == "." {
        return Ok(());
    }
    if is_parent(component) && ends_plain(left.as_slice()) {
        left.truncate(left.len().saturating_sub(1));
        return Ok(());
    }
    left.push(component)?;
    Ok(())
}

// The components that are left of a path.
fn components_left<'a>(alloc: Global, path: &'a str) -> Result<Vec<&'a str>, NoMemory>
    ensures { IfOk result (λ left. texts_of left.items ≡ simple_components path.now) }
{
    let mut left = Vec::new(alloc);
    let mut rest = path;
    while let Some((component, more)) = split_first(rest) {
        push_component(&mut left, component)?;
        rest = more;
    }
    push_component(&mut left, rest)?;
    Ok(left)
}

// Adds components with a `/` between each two.
fn push_joined(text: &mut String, components: &[&str]) -> Result<(), NoMemory>
    ensures { OnOk result (string_bytes text.new
        ≡ string_bytes text.old ++ join_with_byte 47 (texts_of components.now)) }
{
    let Some((first, others)) = components.split_first() else {
        return Ok(());
    };
    text.push_str(first)?;
    let mut left = others;
    while let Some((component, others)) = left.split_first() {
        text.push_str("/")?;
        text.push_str(component)?;
        left = others;
    }
    Ok(())
}

// What a simple path with these components begins with, before these.
fn start<'a>(path: &str, components: &[&str]) -> &'a str
    ensures { result.now ≡ rooted_start path.now (texts_of components.now) }
{
    if path.starts_with("/") {
        "/"
    } else if components.is_empty() {
        "."
    } else {
        ""
    }
}

/// The simple path that leads where a path does. It is split at `/`; components that are empty or
/// `.` are dropped; a `..` and a component before it that is not `..` cancel each other; a leading
/// `/` stays; and where nothing is left it is `.`.
#[tactic(auto, using(crate::proofs::SimplePathLaws::simple_path_is, crate::proofs::SimpleLaws::simple_is_simple))]
pub fn simple(path: &Path) -> Result<Path, NoMemory>
    ensures leads_there { IfOk result (λ p. p ≡ simple_path path.now) }
    ensures simple { IfOk result (λ p. IsTrue (is_simple p)) }
{
    let alloc = path.allocator();
    let components = components_left(alloc, path.as_str())?;
    let mut text = String::from_str(alloc, start(path.as_str(), components.as_slice()))?;
    push_joined(&mut text, components.as_slice())?;
    Ok(Path::from_string(text))
}
