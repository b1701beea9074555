//! What `--enable=` switches on.
ghost use Rattle.std.specs.Prelude.{◌≡◌, ◌<◌, [], ◌∷◌, MatchOption, IfSome, bytes_eq, length};
ghost use Rattle.std.specs.List.{find, slice_split};
ghost use Rattle.std.specs.Option.{option_map};
ghost use Rattle.cx_options.specs.Arguments.{enabled, enabled_alone, is_comma, joined};

/// The findings that are switched on.
#[derive(Clone, Copy, Debug, PartialEq, Eq)]
pub struct Enabled {
    pub warning: bool,
    pub style: bool,
    pub information: bool,
    pub missing_include: bool,
}

/// Nothing is switched on.
const NOTHING: Enabled = Enabled {
    warning: false,
    style: false,
    information: false,
    missing_include: false,
};

/// The names that `--enable=` knows, and what each switches on.
const GROUPS: [(&str, Enabled); 7] = [
    (
        "warning",
        Enabled {
            warning: true,
            ..NOTHING
        },
    ),
    (
        "style",
        Enabled {
            warning: true,
            style: true,
            ..NOTHING
        },
    ),
    ("performance", NOTHING),
    ("portability", NOTHING),
    (
        "information",
        Enabled {
            information: true,
            ..NOTHING
        },
    ),
    (
        "missingInclude",
        Enabled {
            missing_include: true,
            ..NOTHING
        },
    ),
    (
        "all",
        Enabled {
            warning: true,
            style: true,
            information: true,
            missing_include: true,
        },
    ),
];

impl Enabled {
    // What this or the other switches on.
    fn joined(self, other: Enabled) -> Enabled
        ensures { result ≡ joined self other }
    {
        Enabled {
            warning: self.warning || other.warning,
            style: self.style || other.style,
            information: self.information || other.information,
            missing_include: self.missing_include || other.missing_include,
        }
    }
}

// What a name switches on, where these groups have it.
fn group_in(groups: &[(&str, Enabled)], name: &str) -> Option<Enabled>
    ensures { result
        ≡ option_map (λ group. group.1) (find (λ group. bytes_eq group.0.now name.now) groups.now) }
{
    for (known, enabled) in groups {
        if *known == name {
            return Some(*enabled);
        }
    }
    None
}

// What a name switches on, where it is known.
#[tactic(auto, unfolding(crate::specs::Arguments::enabled_alone))]
fn group(name: &str) -> Option<Enabled>
    ensures { result ≡ enabled_alone name.now }
{
    group_in(&GROUPS, name)
}

// The name in front of a comma list, and the names behind its comma.
fn first_name(names: &str) -> (&str, Option<&str>)
    ensures names { MatchOption result.1 (slice_split is_comma names.now ≡ result.0.now ∷ [])
        (λ others. slice_split is_comma names.now
        ≡ result.0.now ∷ slice_split is_comma others.now) }
    ensures shorter { IfSome result.1 (λ others. length others.now < length names.now) }
{
    match names.split_once(',') {
        None => (names, None),
        Some((name, others)) => (name, Some(others)),
    }
}

/// What a comma list of names switches on, where each is known.
#[tactic(auto, using(crate::proofs::EnabledLaws::enabled_laws))]
pub fn enabled_by(names: &str) -> Option<Enabled>
    ensures { result ≡ enabled names.now }
{
    let mut all = NOTHING;
    let mut rest = Some(names);
    while let Some(names) = rest {
        let (name, others) = first_name(names);
        all = all.joined(group(name)?);
        rest = others;
    }
    Some(all)
}
