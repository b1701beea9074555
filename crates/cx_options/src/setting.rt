//! What words ask for.
ghost use Rattle.std.specs.Prelude.{◌≡◌, IfOk};
ghost use Rattle.cx_options.specs.Settings.{asked, by_option, is_path, only, setting_of};
ghost use Rattle.cx_options.specs.Spellings.{spelt_as};

use crate::answer::ListWord;
use crate::enabled::{Enabled, enabled_by};
use crate::fault::WordKind;
use crate::given::Given;
use crate::name::{definition, is_name};
use crate::number::number_in;
use crate::spelling::{Purpose, spelt_as};
use cx_base::{Define, NoMemory, Path, Text};
use std::alloc::Global;

/// What a word asks for.
#[derive(Debug, Drop)]
pub enum Setting {
    Path(Path),
    Define(Define),
    Undefine(Text),
    Folder(Path),
    Quiet,
    Enable(Enabled),
    List(ListWord),
    ErrorExitcode(u8),
    Force,
    MaxConfigs(u32),
    Nothing,
}

/// What a word asks for, or why it is refused.
pub type Asked = Result<Setting, WordKind>;

#[tactic(auto, unfolding(crate::specs::Settings::setting_of))]
fn error_exitcode(text: &str) -> Asked
    ensures { result ≡ setting_of Purpose.ErrorExitcode 0 text.now }
{
    match number_in(0, 255, text.as_bytes()) {
        None => Err(WordKind::BadNumber),
        Some(code) => Ok(Setting::ErrorExitcode(code as u8)),
    }
}

#[tactic(auto, unfolding(crate::specs::Settings::setting_of))]
fn max_configs(text: &str) -> Asked
    ensures { result ≡ setting_of Purpose.MaxConfigs 0 text.now }
{
    match number_in(1, 4096, text.as_bytes()) {
        None => Err(WordKind::BadNumber),
        Some(number) => Ok(Setting::MaxConfigs(number)),
    }
}

#[tactic(auto, unfolding(crate::specs::Settings::setting_of))]
fn enable(text: &str) -> Asked
    ensures { result ≡ setting_of Purpose.Enable 0 text.now }
{
    match enabled_by(text) {
        None => Err(WordKind::BadValue),
        Some(enabled) => Ok(Setting::Enable(enabled)),
    }
}

// The argument is a word that asks for nothing.
fn only(word: &str, text: &str) -> Asked
    ensures { result ≡ only word.now text.now }
{
    if text == word {
        Ok(Setting::Nothing)
    } else {
        Err(WordKind::BadValue)
    }
}

#[tactic(auto, unfolding(crate::specs::Settings::setting_of))]
fn define(alloc: Global, text: &str) -> Result<Asked, NoMemory>
    ensures { IfOk result (λ a. a ≡ setting_of Purpose.Define 0 text.now) }
{
    let define = definition(alloc, text)?;
    if is_name(define.name.as_slice()) {
        Ok(Ok(Setting::Define(define)))
    } else {
        Ok(Err(WordKind::BadName))
    }
}

#[tactic(auto, unfolding(crate::specs::Settings::setting_of))]
fn undefine(alloc: Global, text: &str) -> Result<Asked, NoMemory>
    ensures { IfOk result (λ a. a ≡ setting_of Purpose.Undefine 0 text.now) }
{
    if !is_name(text.as_bytes()) {
        return Ok(Err(WordKind::BadName));
    }
    let name = Text::from_slice(alloc, text.as_bytes())?;
    Ok(Ok(Setting::Undefine(name)))
}

#[tactic(auto, unfolding(crate::specs::Settings::setting_of))]
fn file_list(alloc: Global, word: u32, text: &str) -> Result<Asked, NoMemory>
    ensures { IfOk result (λ a. a ≡ setting_of Purpose.FileList word text.now) }
{
    if text.is_empty() || text == "-" {
        return Ok(Err(WordKind::BadValue));
    }
    let path = Path::from_str(alloc, text)?;
    Ok(Ok(Setting::List(ListWord {
        word,
        path,
        suppressions: false,
    })))
}

// What an option in the word with a number asks for, by its argument.
#[tactic(auto, unfolding(crate::specs::Settings::setting_of))]
fn setting_of(alloc: Global, purpose: Purpose, word: u32, text: &str) -> Result<Asked, NoMemory>
    ensures { IfOk result (λ a. a ≡ setting_of purpose word text.now) }
{
    match purpose {
        Purpose::Define => define(alloc, text),
        Purpose::Undefine => undefine(alloc, text),
        Purpose::Folder => Ok(Ok(Setting::Folder(Path::from_str(alloc, text)?))),
        Purpose::Quiet => Ok(Ok(Setting::Quiet)),
        Purpose::Enable => Ok(enable(text)),
        Purpose::FileList => file_list(alloc, word, text),
        Purpose::ErrorExitcode => Ok(error_exitcode(text)),
        Purpose::Force => Ok(Ok(Setting::Force)),
        Purpose::MaxConfigs => Ok(max_configs(text)),
        Purpose::Standard => Ok(only("c11", text)),
        Purpose::Language => Ok(only("c", text)),
    }
}

// Whether a word is not empty and does not begin with `-`.
fn is_path(word: &str) -> bool
    ensures { result ≡ is_path word.now }
{
    match word.as_bytes() {
        [] => false,
        [byte, ..] => *byte != b'-',
    }
}

// What a word asks for that is no path.
fn by_option(alloc: Global, given: &Given) -> Result<Asked, NoMemory>
    ensures { IfOk result (λ a. a ≡ by_option given.now (spelt_as given.now.text)) }
{
    let Some(spelt) = spelt_as(given.text) else {
        return Ok(Err(WordKind::Unknown));
    };
    let Some(text) = spelt.argument(given.next) else {
        return Ok(Err(WordKind::MissingValue));
    };
    setting_of(alloc, spelt.purpose, given.word, text)
}

/// What a word asks for.
#[tactic(auto, unfolding(crate::specs::Settings::asked))]
pub fn asked(alloc: Global, given: &Given) -> Result<Asked, NoMemory>
    ensures { IfOk result (λ a. a ≡ asked given.now) }
{
    if is_path(given.text) {
        return Ok(Ok(Setting::Path(Path::from_str(alloc, given.text)?)));
    }
    by_option(alloc, given)
}
