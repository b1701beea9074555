//! Hide sets: the macros that are not to replace a token any more.
//!
//! Most sets of a list are one and the same, so a set is made only where names are added to it or
//! taken from it, and is shared elsewhere.
ghost use Rattle.std.specs.Prelude.{◌≡◌, ◌↔◌, ◌++◌, ◌∷◌, [], IfOk, IsTrue};
ghost use Rattle.std.specs.List.{list_all};
ghost use Rattle.cx_macro.specs.Hiding as sets;

use cx_base::{List, NoMemory, SharedList, Text};
use std::alloc::Global;
use std::marker::Model;

/// Whether a name is among names.
pub(crate) fn is_among(names: &[Text], name: &[u8]) -> bool
    ensures { result ≡ sets.is_among names.now name.now }
{
    names.iter().any(|other| name == other.as_slice())
}

/// Whether all of others are among names.
fn are_among(names: &[Text], others: &[Text]) -> bool
    ensures { result ≡ list_all (sets.is_among names.now) others.now }
{
    others.iter().all(|other| is_among(names, other.as_slice()))
}

/// Whether two lists of names are one.
fn are_same(names: &[Text], others: &[Text]) -> bool
    ensures { IsTrue result ↔ (names.now ≡ others.now) }
{
    if names.len() != others.len() {
        return false;
    }
    for index in 0..names.len() {
        if names[index].as_slice() != others[index].as_slice() {
            return false;
        }
    }
    true
}

/// Copies of names.
fn copies(alloc: Global, names: &[Text]) -> Result<List<Text>, NoMemory>
    ensures { IfOk result (λ l. l ≡ names.now) }
{
    let mut copies = List::new(alloc);
    for name in names {
        copies.push(name.copy()?)?;
    }
    Ok(copies)
}

/// The names that are also among others.
#[tactic(auto, unfolding(crate::specs::Hiding::common))]
fn common_names(alloc: Global, names: &[Text], others: &[Text]) -> Result<List<Text>, NoMemory>
    ensures { IfOk result (λ l. l ≡ sets.common names.now others.now) }
{
    let mut both = List::new(alloc);
    for name in names {
        if is_among(others, name.as_slice()) {
            both.push(name.copy()?)?;
        }
    }
    Ok(both)
}

/// The names, and those of others that are not among them.
#[tactic(auto, unfolding(crate::specs::Hiding::united))]
fn all_names(alloc: Global, names: &[Text], others: &[Text]) -> Result<List<Text>, NoMemory>
    ensures { IfOk result (λ l. l ≡ sets.united names.now others.now) }
{
    let mut all = copies(alloc, names)?;
    for other in others {
        if !is_among(names, other.as_slice()) {
            all.push(other.copy()?)?;
        }
    }
    Ok(all)
}

/// The names of both.
#[tactic(auto, using(crate::proofs::SetLaws::common_same))]
pub(crate) fn common(
    alloc: Global,
    names: &SharedList<Text>,
    others: &SharedList<Text>,
) -> Result<SharedList<Text>, NoMemory>
    ensures { IfOk result (λ l. l ≡ sets.common names.now others.now) }
{
    if are_same(names.as_slice(), others.as_slice()) {
        return names.share();
    }
    let both = common_names(alloc, names.as_slice(), others.as_slice())?;
    SharedList::from_list(alloc, both)
}

/// The names of either.
#[tactic(auto, using(crate::proofs::SetLaws::unions))]
pub(crate) fn united(
    alloc: Global,
    names: &SharedList<Text>,
    others: &SharedList<Text>,
) -> Result<SharedList<Text>, NoMemory>
    ensures { IfOk result (λ l. l ≡ sets.united names.now others.now) }
{
    if names.len() == 0 {
        return others.share();
    }
    if are_among(names.as_slice(), others.as_slice()) {
        return names.share();
    }
    let all = all_names(alloc, names.as_slice(), others.as_slice())?;
    SharedList::from_list(alloc, all)
}

/// The names with one more.
#[tactic(auto, using(crate::proofs::SetLaws::one_more))]
pub(crate) fn with_name(
    alloc: Global,
    name: &Text,
    names: &SharedList<Text>,
) -> Result<SharedList<Text>, NoMemory>
    ensures { IfOk result (λ l. l ≡ sets.with_name name.now names.now) }
{
    if is_among(names.as_slice(), name.as_slice()) {
        return names.share();
    }
    let mut more = copies(alloc, names.as_slice())?;
    more.push(name.copy()?)?;
    SharedList::from_list(alloc, more)
}

/// What hide sets are with more names, which contracts see as these names. The tokens of a
/// replacement mostly have one and the same set, so the last one is kept, without the names and
/// with them.
#[derive(Drop)]
pub(crate) struct Unions<'a> {
    names: &'a SharedList<Text>,
    without: SharedList<Text>,
    with: SharedList<Text>,
}

impl<'a> Model for Unions<'a> {
    ghost use Rattle.std.specs.Prelude.{◌≡◌, List, ℕ};
    ghost use Rattle.cx_macro.specs.Hiding.{united};

    ghost Value = { List (List ℕ) };

    ghost view = { λ u. u.names.now };

    ghost invariant = { λ u. u.with ≡ united u.without u.names.now };
}

impl<'a> Unions<'a> {
    /// Sets are to have these names too.
    #[tactic(auto, using(crate::proofs::SetLaws::without_names))]
    pub(crate) fn with(names: &'a SharedList<Text>) -> Result<Unions<'a>, NoMemory>
        ensures { IfOk result (λ u. u ≡ names.now) }
    {
        let with = names.share()?;
        Ok(Unions {
            names,
            without: SharedList::new(),
            with,
        })
    }

    /// A set with the names.
    #[tactic(auto, using(crate::proofs::SetLaws::without_names))]
    pub(crate) fn of(
        &mut self,
        alloc: Global,
        set: &SharedList<Text>,
    ) -> Result<SharedList<Text>, NoMemory>
        ensures names { self.new ≡ self.old }
        ensures united { IfOk result (λ l. l ≡ sets.united set.now self.old) }
    {
        if set.len() == 0 {
            return self.names.share();
        }
        if are_same(set.as_slice(), self.without.as_slice()) {
            return self.with.share();
        }
        let without = set.share()?;
        let with = united(alloc, set, self.names)?;
        let answer = with.share()?;
        self.without = without;
        self.with = with;
        Ok(answer)
    }
}
