//! How the options are spelt.
ghost use Rattle.std.specs.Prelude.{◌≡◌, true, false, None, Some, MatchOption, drop, length, map, nat_eq, option_copied};
ghost use Rattle.std.specs.List.{find, starts_with};
ghost use Rattle.std.specs.Option.{option_map};
ghost use Rattle.cx_options.specs.Spellings.{argument, by_row, is_in_next, is_spelt, may_have, spelt_as, takes_next};
ghost use Rattle.cx_options.specs.Shapes.Rows.{row_of};

/// Where the argument of an option stands.
#[derive(Clone, Copy, Debug, PartialEq, Eq)]
pub enum Form {
    /// There is none: the option is the whole word.
    Alone,
    /// In the rest of the word, or in the next word where nothing is left.
    Joined,
    /// In the rest of the word, behind its `=`.
    Assigned,
}

/// What an option is for.
#[derive(Clone, Copy, Debug, PartialEq, Eq)]
pub enum Purpose {
    /// Defines a macro.
    Define,
    /// Names a macro that is not defined.
    Undefine,
    /// Names a folder for includes.
    Folder,
    /// Leaves progress lines out.
    Quiet,
    /// Switches findings on.
    Enable,
    /// Names a file that lists paths.
    FileList,
    /// Sets the exit status of a run with findings.
    ErrorExitcode,
    /// Looks at all configurations.
    Force,
    /// Looks at so many configurations.
    MaxConfigs,
    /// Names the standard, which is C11.
    Standard,
    /// Names the language, which is C.
    Language,
}

/// The options.
const OPTIONS: [(&str, Form, Purpose); 12] = [
    ("-D", Form::Joined, Purpose::Define),
    ("-U", Form::Joined, Purpose::Undefine),
    ("-I", Form::Joined, Purpose::Folder),
    ("-q", Form::Alone, Purpose::Quiet),
    ("--quiet", Form::Alone, Purpose::Quiet),
    ("--enable=", Form::Assigned, Purpose::Enable),
    ("--file-list=", Form::Assigned, Purpose::FileList),
    ("--error-exitcode=", Form::Assigned, Purpose::ErrorExitcode),
    ("--force", Form::Alone, Purpose::Force),
    ("--max-configs=", Form::Assigned, Purpose::MaxConfigs),
    ("--std=", Form::Assigned, Purpose::Standard),
    ("--language=", Form::Assigned, Purpose::Language),
];

/// A word that is an option.
#[derive(Clone, Copy, Drop)]
pub struct Spelt<'w> {
    pub form: Form,
    pub purpose: Purpose,
    /// What of the word is behind the spelling.
    pub rest: &'w str,
}

// Whether an option of a form may have this behind it in its word.
fn may_have(form: Form, rest: &str) -> bool
    ensures { result ≡ may_have form rest.now }
{
    match form {
        Form::Alone => rest.is_empty(),
        Form::Joined | Form::Assigned => true,
    }
}

// What is behind a spelling in a word.
fn behind<'w>(word: &'w str, spelling: &str) -> Option<&'w str>
    ensures { MatchOption result (starts_with nat_eq word.now spelling.now ≡ false)
        (λ rest. (starts_with nat_eq word.now spelling.now ≡ true) ×
        (rest.now ≡ drop (length spelling.now) word.now)) }
{
    word.strip_prefix(spelling)
}

// What is behind a spelling in a word that is that option.
#[tactic(auto, unfolding(crate::specs::Spellings::is_spelt))]
fn behind_option<'w>(word: &'w str, spelling: &str, form: Form, purpose: Purpose) -> Option<&'w str>
    ensures { MatchOption result (is_spelt word.now (spelling.now, form, purpose) ≡ false)
        (λ rest. (is_spelt word.now (spelling.now, form, purpose) ≡ true) ×
        (rest.now ≡ drop (length spelling.now) word.now)) }
{
    let rest = behind(word, spelling)?;
    if may_have(form, rest) {
        Some(rest)
    } else {
        None
    }
}

// The option of a table that a word is.
fn spelt_in<'w>(options: &[(&str, Form, Purpose)], word: &'w str) -> Option<Spelt<'w>>
    ensures { let spelt = option_map (by_row word.now)
        (find (is_spelt word.now) (map row_of options.now))
        in MatchOption result (spelt ≡ None)
        (λ s. spelt ≡ Some (record { form = s.form; purpose = s.purpose; rest = s.rest.now })) }
{
    for (spelling, form, purpose) in options {
        if let Some(rest) = behind_option(word, spelling, *form, *purpose) {
            return Some(Spelt {
                form: *form,
                purpose: *purpose,
                rest,
            });
        }
    }
    None
}

/// The option that a word is.
#[tactic(auto, unfolding(crate::specs::Spellings::spelt_as))]
pub fn spelt_as(word: &str) -> Option<Spelt<'_>>
    ensures { MatchOption result (spelt_as word.now ≡ None) (λ s. spelt_as word.now
        ≡ Some (record { form = s.form; purpose = s.purpose; rest = s.rest.now })) }
{
    spelt_in(&OPTIONS, word)
}

impl<'w> Spelt<'w> {
    // Whether the argument is in the next word.
    fn is_in_next(&self) -> bool
        ensures { result ≡ is_in_next self.now.form self.now.rest.now }
    {
        match self.form {
            Form::Joined => self.rest.is_empty(),
            Form::Alone | Form::Assigned => false,
        }
    }

    /// The argument of the option: the rest of its word, or the next word.
    pub fn argument(&self, next: Option<&'w str>) -> Option<&'w str>
        ensures { option_copied result
            ≡ argument (record {
              form = self.now.form;
              purpose = self.now.purpose;
              rest = self.now.rest.now;
            }) (option_copied next.entry) }
    {
        if self.is_in_next() {
            next
        } else {
            Some(self.rest)
        }
    }
}

/// Whether a word takes the next one along.
#[tactic(auto, unfolding(crate::specs::Spellings::takes_next))]
pub fn takes_next(word: &str) -> bool
    ensures { result ≡ takes_next word.now }
{
    match spelt_as(word) {
        None => false,
        Some(spelt) => spelt.is_in_next(),
    }
}
