//! The options.
ghost use Rattle.std.specs.Prelude.{◌≡◌, [], OnOk, is_none};
ghost use Rattle.cx_options.specs.Command.{options_of};
ghost use Rattle.cx_options.specs.Shapes.Reading.{with_setting};

use crate::enabled::Enabled;
use crate::setting::Setting;
use cx_base::{Define, List, NoMemory, Path, Text};
use std::alloc::Global;

/// A word that names a file with a list.
#[derive(Debug, Drop)]
pub struct ListWord {
    /// The number of the word, counted from 0.
    pub word: u32,
    /// The file.
    pub path: Path,
    /// Whether the list is one of suppressions, and not one of paths.
    pub suppressions: bool,
}

/// The options of the command line. Each list is in the order of the words.
#[derive(Debug, Drop)]
pub struct Options {
    /// The files and folders to check.
    pub paths: List<Path>,
    /// The macros of `-D`.
    pub defines: List<Define>,
    /// The names of `-U`.
    pub undefined: List<Text>,
    /// The folders of `-I`.
    pub folders: List<Path>,
    /// Whether progress lines are left out.
    pub quiet: bool,
    /// Whether findings of severity warning are switched on.
    pub warning: bool,
    /// Whether findings of severity style are switched on.
    pub style: bool,
    /// Whether findings of severity information are switched on, but those of missing includes.
    pub information: bool,
    /// Whether findings of missing includes are switched on.
    pub missing_include: bool,
    /// The files that list paths.
    pub lists: List<ListWord>,
    /// The exit status of a run with findings.
    pub error_exitcode: u8,
    /// Whether all configurations are looked at.
    pub force: bool,
    /// How many configurations are looked at, where a word says so.
    pub max_configs: Option<u32>,
}

impl Options {
    /// The options of no words.
    #[tactic(auto, unfolding(crate::specs::Command::options_of))]
    pub(crate) fn new(alloc: Global) -> Options
        ensures { result ≡ options_of [] }
    {
        Options {
            paths: List::new(alloc),
            defines: List::new(alloc),
            undefined: List::new(alloc),
            folders: List::new(alloc),
            quiet: false,
            warning: false,
            style: false,
            information: false,
            missing_include: false,
            lists: List::new(alloc),
            error_exitcode: 0,
            force: false,
            max_configs: None,
        }
    }

    // Switches findings on.
    #[tactic(auto, unfolding(crate::specs::Shapes::Reading::with_setting))]
    fn enable(&mut self, enabled: Enabled)
        ensures { self.new ≡ with_setting self.old (Setting.Enable enabled) }
    {
        self.warning |= enabled.warning;
        self.style |= enabled.style;
        self.information |= enabled.information;
        self.missing_include |= enabled.missing_include;
    }

    // Says how many configurations are looked at: all, or so many.
    fn set_bound(&mut self, bound: Option<u32>)
        ensures { self.new ≡ record self.old { force = is_none bound; max_configs = bound } }
    {
        self.force = bound.is_none();
        self.max_configs = bound;
    }

    /// Takes a setting in.
    #[tactic(auto, unfolding(crate::specs::Shapes::Reading::with_setting))]
    pub(crate) fn take(&mut self, setting: Setting) -> Result<(), NoMemory>
        ensures { OnOk result (self.new ≡ with_setting self.old setting) }
    {
        match setting {
            Setting::Path(path) => self.paths.push(path)?,
            Setting::Define(define) => self.defines.push(define)?,
            Setting::Undefine(name) => self.undefined.push(name)?,
            Setting::Folder(path) => self.folders.push(path)?,
            Setting::Quiet => self.quiet = true,
            Setting::Enable(enabled) => self.enable(enabled),
            Setting::List(list) => self.lists.push(list)?,
            Setting::ErrorExitcode(code) => self.error_exitcode = code,
            Setting::Force => self.set_bound(None),
            Setting::MaxConfigs(number) => self.set_bound(Some(number)),
            Setting::Nothing => {}
        }
        Ok(())
    }
}
