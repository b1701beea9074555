//! Words, and the options that they make.
use crate::{Options, Refusal, WordFault, WordKind, are_in_bounds, options};
use cx_base::{Bytes, NoMemory, Path};
use std::alloc::{AllocError, Global};

// The words of a row, which stand between bars.
fn words_of(alloc: Global, row: &str) -> Result<Vec<Path>, NoMemory> {
    let mut words = Vec::new(alloc);
    for word in row.split('|') {
        words.push(Path::from_str(alloc, word)?)?;
    }
    Ok(words)
}

fn text_of(bytes: &Bytes) -> &str {
    std::str::from_utf8(bytes.as_slice()).unwrap_or("no text")
}

fn push_paths(text: &mut String, name: &str, paths: &[Path]) -> Result<(), AllocError> {
    for path in paths {
        text.push_str(name)?;
        text.push_str(path.as_str())?;
        text.push_str(" ")?;
    }
    Ok(())
}

fn push_macros(text: &mut String, options: &Options) -> Result<(), AllocError> {
    for define in options.defines.as_slice() {
        text.push_str("define:")?;
        text.push_str(text_of(&define.name))?;
        text.push_str("=")?;
        text.push_str(text_of(&define.value))?;
        text.push_str(" ")?;
    }
    for name in options.undefined.as_slice() {
        text.push_str("undefine:")?;
        text.push_str(text_of(name))?;
        text.push_str(" ")?;
    }
    Ok(())
}

fn push_flags(text: &mut String, options: &Options) -> Result<(), AllocError> {
    let flags = [
        (options.quiet, "quiet "),
        (options.warning, "warning "),
        (options.style, "style "),
        (options.information, "information "),
        (options.missing_include, "missing "),
        (options.force, "force "),
    ];
    for (is_set, name) in flags {
        if is_set {
            text.push_str(name)?;
        }
    }
    Ok(())
}

fn push_lists(text: &mut String, alloc: Global, options: &Options) -> Result<(), AllocError> {
    for list in options.lists.as_slice() {
        let (word, path) = (list.word, list.path.as_str());
        let kind = if list.suppressions { "spec" } else { "list" };
        text.push_str(format!(in alloc; "{kind}@{word}:{path} ")?.as_str())?;
    }
    Ok(())
}

fn push_numbers(text: &mut String, alloc: Global, options: &Options) -> Result<(), AllocError> {
    let code = options.error_exitcode;
    if code != 0 {
        text.push_str(format!(in alloc; "exit:{code} ")?.as_str())?;
    }
    if let Some(number) = options.max_configs {
        text.push_str(format!(in alloc; "most:{number} ")?.as_str())?;
    }
    Ok(())
}

// What stands in options, but for what is as without words.
fn shown(alloc: Global, options: &Options) -> Result<String, AllocError> {
    let mut text = String::new(alloc);
    push_paths(&mut text, "", options.paths.as_slice())?;
    push_macros(&mut text, options)?;
    push_paths(&mut text, "folder:", options.folders.as_slice())?;
    push_flags(&mut text, options)?;
    push_lists(&mut text, alloc, options)?;
    push_numbers(&mut text, alloc, options)?;
    Ok(text)
}

// The options of the words of a row, or the number of the refused word and its kind.
fn answer(alloc: Global, row: &str) -> Result<String, NoMemory> {
    let words = words_of(alloc, row)?;
    if !are_in_bounds(&words) {
        return Ok(String::new(alloc));
    }
    match options(alloc, &words) {
        Ok(options) => Ok(shown(alloc, &options)?),
        Err(WordFault::Bad { word, kind }) => Ok(format!(in alloc; "{kind:?}@{word}")?),
        Err(WordFault::NoMemory) => Err(NoMemory),
    }
}

// Each option, as it may be spelt.
const ACCEPTED: [(&str, &str); 44] = [
    ("a.c|b/c|#x|a b|é.c|a=b", "a.c b/c #x a b é.c a=b "),
    ("-DX", "define:X=1 "),
    ("-D|X", "define:X=1 "),
    ("-DX=", "define:X= "),
    ("-DX=1", "define:X=1 "),
    ("-D|X=1", "define:X=1 "),
    ("-DX=a=-b", "define:X=a=-b "),
    ("-D_x9|-D__FILE__=x y", "define:_x9=1 define:__FILE__=x y "),
    ("-Dint=é", "define:int=é "),
    ("-UX", "undefine:X "),
    ("-U|X|-DX", "define:X=1 undefine:X "),
    ("-Idir|-I|.|a.c", "a.c folder:dir folder:. "),
    ("-I|", "folder: "),
    ("-I-q|-I|-q|-I|-I", "folder:-q folder:-q folder:-I "),
    ("-q", "quiet "),
    ("--quiet", "quiet "),
    ("-q|--quiet", "quiet "),
    ("--enable=warning", "warning "),
    ("--enable=style", "warning style "),
    ("--enable=performance", ""),
    ("--enable=portability", ""),
    ("--enable=information", "information "),
    ("--enable=missingInclude", "missing "),
    ("--enable=all", "warning style information missing "),
    ("--enable=missingInclude,warning", "warning missing "),
    ("--enable=warning,performance,warning", "warning "),
    (
        "--enable=information|--enable=style",
        "warning style information ",
    ),
    ("--file-list=f", "list@0:f "),
    (
        "a.c|--file-list=f|-I|d|--file-list=-x",
        "a.c folder:d list@1:f list@4:-x ",
    ),
    ("--error-exitcode=0", ""),
    ("--error-exitcode=255", "exit:255 "),
    ("--error-exitcode=0007", "exit:7 "),
    ("--error-exitcode=3|--error-exitcode=2", "exit:2 "),
    ("--error-exitcode=3|--error-exitcode=0", ""),
    ("--force", "force "),
    ("--max-configs=1", "most:1 "),
    ("--max-configs=4096", "most:4096 "),
    ("--max-configs=0012", "most:12 "),
    ("--max-configs=2|--max-configs=3", "most:3 "),
    ("--force|--max-configs=2", "most:2 "),
    ("--max-configs=2|--force", "force "),
    ("--force|--max-configs=2|--force", "force "),
    ("--std=c11|--language=c|--std=c11", ""),
    (
        "-D|A|a.c|-q|-U|B|--enable=style|b.c|-D|C=2",
        "a.c b.c define:A=1 define:C=2 undefine:B quiet warning style ",
    ),
];

// Words that are no option and no path, or that have no argument.
const UNKNOWN: [(&str, &str); 38] = [
    ("", "Unknown@0"),
    ("-", "Unknown@0"),
    ("--", "Unknown@0"),
    ("--bogus|a.c", "Unknown@0"),
    ("a.c|--bogus", "Unknown@1"),
    ("a.c||b.c", "Unknown@1"),
    ("-x", "Unknown@0"),
    ("-d", "Unknown@0"),
    ("-qq", "Unknown@0"),
    ("-Q", "Unknown@0"),
    ("--quietly", "Unknown@0"),
    ("--quiet=", "Unknown@0"),
    ("--Quiet", "Unknown@0"),
    ("--force=1", "Unknown@0"),
    ("--forced", "Unknown@0"),
    ("--enable", "Unknown@0"),
    ("--file-list", "Unknown@0"),
    ("--error-exitcode", "Unknown@0"),
    ("--max-configs", "Unknown@0"),
    ("--max-configs:2", "Unknown@0"),
    ("--std", "Unknown@0"),
    ("--language", "Unknown@0"),
    ("--define=X", "Unknown@0"),
    (" -q|-é", "Unknown@1"),
    ("-D|X|--|-D", "Unknown@2"),
    ("-j", "Unknown@0"),
    ("-j0", "Unknown@0"),
    ("--platform=unix64", "Unknown@0"),
    ("--library=a", "Unknown@0"),
    ("--inline-suppr", "Unknown@0"),
    ("--workload=1", "Unknown@0"),
    ("-D", "MissingValue@0"),
    ("-U", "MissingValue@0"),
    ("-I", "MissingValue@0"),
    ("a.c|-D", "MissingValue@1"),
    ("-D|X|-U", "MissingValue@2"),
    ("-I|-D|-I", "MissingValue@2"),
    ("-I|-D|-I|-D", "folder:-D folder:-D "),
];

// Arguments that are not permitted.
const ARGUMENTS: [(&str, &str); 45] = [
    ("-D1", "BadName@0"),
    ("-D1x", "BadName@0"),
    ("-D=1", "BadName@0"),
    ("-D|=1", "BadName@0"),
    ("-D|", "BadName@0"),
    ("-D|-q|a.c", "BadName@0"),
    ("-DX(a)=1", "BadName@0"),
    ("-DX Y", "BadName@0"),
    ("-Dé", "BadName@0"),
    ("-D|X|-D|-", "BadName@2"),
    ("-U1", "BadName@0"),
    ("-U=", "BadName@0"),
    ("-UX=1", "BadName@0"),
    ("-U|", "BadName@0"),
    ("--error-exitcode=", "BadNumber@0"),
    ("--error-exitcode=256", "BadNumber@0"),
    ("--error-exitcode=00007", "BadNumber@0"),
    ("--error-exitcode=-1", "BadNumber@0"),
    ("--error-exitcode=+1", "BadNumber@0"),
    ("--error-exitcode= 1", "BadNumber@0"),
    ("--error-exitcode=1x", "BadNumber@0"),
    ("--error-exitcode=0x1", "BadNumber@0"),
    ("--error-exitcode=١", "BadNumber@0"),
    ("--max-configs=", "BadNumber@0"),
    ("--max-configs=0", "BadNumber@0"),
    ("--max-configs=4097", "BadNumber@0"),
    ("--max-configs=00001", "BadNumber@0"),
    ("--max-configs=99999", "BadNumber@0"),
    ("--max-configs=4294967297", "BadNumber@0"),
    ("--enable=", "BadValue@0"),
    ("--enable=,style", "BadValue@0"),
    ("--enable=style,", "BadValue@0"),
    ("--enable=style,,all", "BadValue@0"),
    ("--enable=unusedFunction", "BadValue@0"),
    ("--enable=all,bogus", "BadValue@0"),
    ("--enable=Style", "BadValue@0"),
    ("--enable=style information", "BadValue@0"),
    ("--file-list=", "BadValue@0"),
    ("--file-list=-", "BadValue@0"),
    ("--std=c99", "BadValue@0"),
    ("--std=", "BadValue@0"),
    ("--std=c11 ", "BadValue@0"),
    ("--language=c++", "BadValue@0"),
    ("a.c|-D1|--bogus", "BadName@1"),
    ("-q|--bogus|-D1", "Unknown@1"),
];

// What is told of a word.
const TEXTS: [(WordKind, &str, &str); 8] = [
    (
        WordKind::Unknown,
        "--bogus",
        "unrecognized command line option: \"--bogus\".",
    ),
    (
        WordKind::MissingValue,
        "-D",
        "argument to \"-D\" is missing.",
    ),
    (
        WordKind::BadNumber,
        "--max-configs=0",
        "argument to \"--max-configs=0\" is not a number in range.",
    ),
    (WordKind::BadName, "-D1", "\"-D1\" does not name a macro."),
    (
        WordKind::BadValue,
        "--std=c99",
        "argument of \"--std=c99\" is not one of the permitted values.",
    ),
    (
        WordKind::BadTemplate,
        "--template={x}",
        "template in \"--template={x}\" is refused.",
    ),
    (
        WordKind::BadSpec,
        "--suppress=:",
        "suppression in \"--suppress=:\" is refused.",
    ),
    (
        WordKind::TooMany,
        "--suppress=é",
        "too many suppressions at \"--suppress=é\".",
    ),
];

#[test]
fn options_are_read(rt: HostRuntime) {
    for (row, expected) in ACCEPTED {
        let answer = answer(rt.alloc(), row).expect(&rt, "memory");
        assert_eq!(rt; answer.as_str(), expected, "at {row}");
    }
}

#[test]
fn words_that_are_no_option_are_refused(rt: HostRuntime) {
    for (row, expected) in UNKNOWN {
        let answer = answer(rt.alloc(), row).expect(&rt, "memory");
        assert_eq!(rt; answer.as_str(), expected, "at {row}");
    }
}

#[test]
fn arguments_that_are_not_permitted_are_refused(rt: HostRuntime) {
    for (row, expected) in ARGUMENTS {
        let answer = answer(rt.alloc(), row).expect(&rt, "memory");
        assert_eq!(rt; answer.as_str(), expected, "at {row}");
    }
}

#[test]
fn no_words_have_options(rt: HostRuntime) {
    let options = options(rt.alloc(), &[]).expect(&rt, "options");
    let shown = shown(rt.alloc(), &options).expect(&rt, "memory");
    assert_eq!(rt; shown.as_str(), "");
}

#[test]
fn refusals_are_told(rt: HostRuntime) {
    for (kind, word, expected) in TEXTS {
        let refusal = Refusal { kind, word };
        let shown = format!(in rt.alloc(); "{refusal}").expect(&rt, "memory");
        assert_eq!(rt; shown.as_str(), expected);
        let text = refusal.text(rt.alloc()).expect(&rt, "memory");
        assert_eq!(rt; text_of(&text), expected);
    }
}

#[test]
fn faults_are_told(rt: HostRuntime) {
    let fault = WordFault::Bad {
        word: 3,
        kind: WordKind::Unknown,
    };
    let shown = format!(in rt.alloc(); "{fault}").expect(&rt, "memory");
    assert_eq!(rt; shown.as_str(), "word 3 of the command line is refused");
}
