//! Simple paths: the one form under which each path is asked.
ghost use Rattle.std.specs.Prelude.{◌≡◌, ◌<◌, [], ◌∷◌, length, MatchOption, IfSome};
ghost use Rattle.std.specs.List.{slice_split, list_all};
ghost use Rattle.cx_base.specs.Folders.{is_slash};
ghost use Rattle.cx_base.specs.Shapes.Simple.{are_reduced, has_simple_form, is_plain};
ghost use Rattle.cx_base.specs.Simple.{is_parent, is_simple};

use crate::folders::rest_after;
use crate::path::Path;

// The component before the first `/`, and the path after that.
pub(crate) fn split_first(path: &str) -> Option<(&str, &str)>
    ensures components { MatchOption result
        (slice_split is_slash path.now ≡ path.now ∷ [])
        (λ x. slice_split is_slash path.now ≡ x.0.now ∷ slice_split is_slash x.1.now) }
    ensures shorter { IfSome result (λ x. length x.1.now < length path.now) }
{
    path.split_once('/')
}

pub(crate) fn is_parent(component: &str) -> bool
    ensures { result ≡ is_parent component.now }
{
    component == ".."
}

fn is_plain(component: &str) -> bool
    ensures { result ≡ is_plain component.now }
{
    !component.is_empty() && component != "." && !is_parent(component)
}

fn are_plain(path: &str) -> bool
    ensures { result ≡ list_all is_plain (slice_split is_slash path.now) }
{
    let mut rest = path;
    while let Some((component, more)) = split_first(rest) {
        if !is_plain(component) {
            return false;
        }
        rest = more;
    }
    is_plain(rest)
}

fn are_reduced(path: &str) -> bool
    ensures { result ≡ are_reduced (slice_split is_slash path.now) }
{
    let mut rest = path;
    while let Some((component, more)) = split_first(rest) {
        if !is_parent(component) {
            return are_plain(rest);
        }
        rest = more;
    }
    is_parent(rest) || is_plain(rest)
}

#[tactic(auto, unfolding(crate::specs::Shapes::Simple::has_simple_form))]
fn has_simple_form(path: &str) -> bool
    ensures { result ≡ has_simple_form path.now }
{
    if path == "." || path == "/" {
        return true;
    }
    match rest_after("/", path) {
        Some(rest) => are_reduced(rest),
        None => are_reduced(path),
    }
}

/// Whether a path is simple: whether it stays as it is where it is split at `/`, components that
/// are empty or `.` are dropped, each `..` and a component before it that is not `..` cancel each
/// other, a leading `/` stays, and `.` stands where nothing is left.
#[tactic(auto, using(crate::proofs::SimpleLaws::simple_form))]
pub fn is_simple(path: &Path) -> bool
    ensures { result ≡ is_simple path.now }
{
    has_simple_form(path.as_str())
}
