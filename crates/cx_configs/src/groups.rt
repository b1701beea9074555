//! The groups of conditional inclusion that are open, with the names for which they ask.
ghost use Rattle.std.specs.Prelude.{◌≡◌, [], ◌∷◌, MatchOption, None, OnOk};
ghost use Rattle.cx_configs.specs.Shapes.Groups.{AreListed, StandFor, groups_after, innermost_names};
ghost use Rattle.cx_configs.specs.Shapes.Groups.{innermost_number, lists_after, named, with_group};
ghost use Rattle.cx_configs.specs.Shapes.Groups.{with_next};
ghost use Rattle.cx_configs.specs.Shapes.Lists.{with_list};

use crate::asked::add_group_names;
use crate::name_lists::NameLists;
use crate::name_set::NameSet;
use crate::settled::Settled;
use cx_base::NoMemory;
use cx_lex::Piece;
use cx_lines::kind_of;
use std::alloc::Global;
use std::marker::Model;

/// A group that is open.
#[derive(Drop)]
struct OpenGroup<'a> {
    /// The line that opens its section.
    opening: &'a [Piece],
    /// The number of the list of the names for which it and the groups around it ask, if there are
    /// such names.
    number: Option<usize>,
}

impl<'a> Model for OpenGroup<'a> {
    ghost use Rattle.cx_configs.specs.Shapes.Groups.{NumberedGroup};

    ghost Value = { NumberedGroup };

    ghost view = { λ g. record { opening = g.opening.now; number = g.number } };
}

/// The groups that are open, which contracts see as a list, the innermost first.
#[derive(Drop)]
pub(crate) struct OpenGroups<'a> {
    // The innermost last.
    groups: Vec<OpenGroup<'a>>,
}

impl<'a> Model for OpenGroups<'a> {
    ghost use Rattle.std.specs.Prelude.{List, reverse};
    ghost use Rattle.cx_configs.specs.Shapes.Groups.{NumberedGroup};

    ghost Value = { List NumberedGroup };

    ghost view = { λ l. reverse l.groups.items };
}

impl<'a> OpenGroups<'a> {
    /// No group.
    pub(crate) fn new(alloc: Global) -> OpenGroups<'a>
        ensures { result ≡ [] }
    {
        OpenGroups {
            groups: Vec::new(alloc),
        }
    }

    /// The number of the list of the names for which the innermost group and those around it ask,
    /// if there are such names.
    pub(crate) fn number(&self) -> Option<usize>
        ensures { result ≡ innermost_number self.now }
    {
        let group = self.groups.last()?;
        group.number
    }

    #[tactic(auto, using(crate::proofs::GroupLaws::pushed))]
    fn push(&mut self, group: OpenGroup<'a>) -> Result<(), NoMemory>
        ensures { OnOk result (self.new ≡ group.entry ∷ self.old) }
    {
        self.groups.push(group)?;
        Ok(())
    }

    /// Takes the innermost away.
    fn pop(&mut self) -> Option<OpenGroup<'a>>
        ensures { MatchOption result ((self.old ≡ []) × (self.new ≡ [])) (λ g. self.old
            ≡ g ∷ self.new) }
    {
        self.groups.pop()
    }

    /// Begins a group within these, in the section that a line opens, and puts its list in.
    fn begin(
        &mut self,
        alloc: Global,
        lists: &mut NameLists<'a>,
        settled: &Settled,
        opening: &'a [Piece],
        start: &'a [Piece],
    ) -> Result<(), NoMemory>
        requires { AreListed lists.old self.old }
        ensures groups { OnOk result (StandFor lists.new self.new
            (with_group settled.now opening.now start.now (named lists.old self.old))) }
        ensures lists { OnOk result (lists.new ≡ with_list None lists.old (innermost_names
            (with_group settled.now opening.now start.now (named lists.old self.old)))) }
    {
        let mut names = NameSet::new(alloc);
        add_group_names(&mut names, settled, opening, start)?;
        let number = lists.add(alloc, self.number(), &names)?;
        self.push(OpenGroup { opening, number })
    }

    /// The innermost section goes on with the group that a line begins, and its list is put in.
    fn begin_next(
        &mut self,
        alloc: Global,
        lists: &mut NameLists<'a>,
        settled: &Settled,
        line: &'a [Piece],
    ) -> Result<(), NoMemory>
        requires { AreListed lists.old self.old }
        ensures groups { OnOk result (StandFor lists.new self.new
            (with_next settled.now line.now (named lists.old self.old))) }
        ensures lists { OnOk result (lists.new ≡ with_list None lists.old (innermost_names
            (with_next settled.now line.now (named lists.old self.old)))) }
    {
        let Some(group) = self.pop() else {
            return Ok(());
        };
        self.begin(alloc, lists, settled, group.opening, line)
    }

    /// Goes past a line. The list of a group that it begins is put in.
    #[tactic(auto, unfolding(crate::specs::Shapes::Groups::groups_after, crate::specs::Shapes::Groups::lists_after))]
    pub(crate) fn pass(
        &mut self,
        alloc: Global,
        lists: &mut NameLists<'a>,
        settled: &Settled,
        line: &'a [Piece],
    ) -> Result<(), NoMemory>
        requires { AreListed lists.old self.old }
        ensures groups { OnOk result (StandFor lists.new self.new
            (groups_after settled.now line.now (named lists.old self.old))) }
        ensures lists { OnOk result (lists.new
            ≡ lists_after settled.now line.now (named lists.old self.old) lists.old) }
    {
        let kind = kind_of(line);
        if kind.opens() {
            return self.begin(alloc, lists, settled, line, line);
        }
        if kind.parts() {
            return self.begin_next(alloc, lists, settled, line);
        }
        if kind.closes() {
            let _ = self.pop();
        }
        Ok(())
    }
}
