//! The configurations of units.
use crate::configurations;
use cx_base::{List, NoMemory, Path};
use cx_lex::lex;
use cx_library::built_in;
use cx_options::{Options, are_in_bounds, options};
use cx_pre::Config;
use cx_shelf::{IndexedShelf, Shelved};
use cx_table::NameKey;
use std::alloc::{AllocError, Global};

/// A file: its path and its text.
type Source = (&'static str, &'static str);

/// The names for which one file asks, without words: between bars the lists of the configurations,
/// each with `;` between its names.
const QUESTIONS: [(&str, &str); 43] = [
    ("int a;\n", ""),
    ("", ""),
    ("#ifdef A\n#endif\n", "|A"),
    ("#ifdef A X\n#endif", "|A"),
    ("#ifndef A\n#endif\n", ""),
    ("#ifndef A\n#else\n#endif\n", "|A"),
    ("#ifdef A\n#else\n#endif\n", "|A"),
    ("#ifdef B\n#ifdef A\n#endif\n#endif\n", "|B|A;B"),
    ("#ifdef A\n#else\n#ifdef C\n#endif\n#endif\n", "|A|C"),
    ("#ifdef A\n#endif\n#ifdef C\n#endif\n", "|A|C"),
    (
        "#if defined A\n#elif defined(B)\n#ifdef C\n#endif\n#endif\n",
        "|A|B|B;C",
    ),
    (
        "#ifndef A\n#elif defined(B)\n#else\n#ifdef C\n#endif\n#endif\n",
        "|B|A|A;C",
    ),
    ("#ifndef A\n#ifdef B\n#endif\n#else\n#endif\n", "|B|A"),
    ("#ifdef A\n#ifdef A\n#endif\n#endif\n", "|A"),
    ("#ifdef A\n#endif\n#ifdef A\n#endif\n", "|A"),
    (
        "#ifdef A\n#ifdef B\n#endif\n#endif\n#ifdef B\n#ifdef A\n#endif\n#endif\n",
        "|A|A;B|B",
    ),
    ("#if defined A && defined B\n#endif\n", "|A;B"),
    (
        "#if defined b && defined B || defined a1 && defined(a)\n#endif\n",
        "|B;a;a1;b",
    ),
    ("#if !defined A && defined B\n#endif\n", "|B"),
    ("#if !defined(A)\n#else\n#endif\n", ""),
    ("#if !(defined A) && ! !defined B\n#endif\n", "|A"),
    ("#if A\n#endif\n", "|A"),
    ("#if A + 1\n#endif\n", ""),
    ("#if (A)\n#endif\n", ""),
    ("#if A == 1 && defined(B)\n#endif\n", "|B"),
    ("#if defined\n#endif\n", "|defined"),
    ("#if defined (A\n#endif\n", ""),
    ("#if defined 3\n#endif\n", ""),
    ("#if\n#endif\n", ""),
    ("#ifdef\n#endif\n#ifdef 3\n#endif\n", ""),
    ("#if 0\n#ifdef A\n#endif\n#endif\n", "|A"),
    ("#if 1\n#elif A\n#endif\n", "|A"),
    ("#define A\n#ifdef A\n#endif\n", ""),
    ("#ifdef A\n#endif\n#if 0\n#define A(\n#endif\n", ""),
    ("#ifdef A\n#undef A\n#endif\n", "|A"),
    ("#ifdef __FILE__\n#elif defined __LINE__\n#endif\n", ""),
    (
        "#if __STDC__\n#elif defined __STDC_VERSION__\n#elif defined __cplusplus\n#endif\n",
        "|__cplusplus",
    ),
    (
        "#if defined NULL || defined INT_MAX || defined EOF\n#endif\n",
        "|EOF",
    ),
    (
        "#else\n#ifdef A\n#endif\n#endif\n#elif B\n#ifdef C\n#endif\n",
        "|A|C",
    ),
    ("#ifdef A\n#else\n#else\n#ifdef B\n", "|A|B"),
    (
        "#if defined A || defined B\n#if 1\n#ifdef C\n#endif\n#else\n#ifdef C\n#endif\n\
        #endif\n#endif\n",
        "|A;B|A;B;C",
    ),
    (
        "#ifdef A\n#ifdef B\n#endif\n#endif\n#if defined B\n#if A\n#endif\n#endif\n\
        #if defined B && defined A\n#endif\n",
        "|A|A;B|B",
    ),
    (
        "#ifdef A\n#if 1\n#endif\n#elif defined B || defined C\n#ifdef C\n#endif\n\
        #else\n#ifdef A\n#endif\n#endif\n",
        "|A|B;C",
    ),
];

/// The words, one file, and the lists of the configurations.
const BOUNDS: [(&str, &str, &str); 24] = [
    ("-q", "#ifdef A\n#endif\n", "|A"),
    ("-UA", "#ifdef A\n#ifdef B\n#endif\n#endif\n", "|B"),
    ("-UA|-UB", "#ifdef A\n#ifdef B\n#endif\n#endif\n", ""),
    ("-DX", "#ifdef A\n#endif\n", ""),
    ("-DX|-UX", "#ifdef A\n#endif\n", ""),
    ("-DX|--force", "#ifdef A\n#ifdef X\n#endif\n#endif\n", "|A"),
    ("-DX=0|--max-configs=9", "#ifdef A\n#elif X\n#endif\n", "|A"),
    (
        "-DX|--force|-UA",
        "#ifdef A\n#ifdef B\n#endif\n#endif\n",
        "|B",
    ),
    ("--max-configs=1", "#ifdef A\n#endif\n", ""),
    (
        "--max-configs=2",
        "#ifdef A\n#endif\n#ifdef B\n#endif\n",
        "|A",
    ),
    (
        "--max-configs=3",
        "#ifdef A\n#endif\n#ifdef B\n#endif\n",
        "|A|B",
    ),
    (
        "--max-configs=2|--force",
        "#ifdef A\n#endif\n#ifdef B\n#endif\n",
        "|A|B",
    ),
    (
        "--force|--max-configs=2",
        "#ifdef A\n#endif\n#ifdef B\n#endif\n",
        "|A",
    ),
    (
        "--max-configs=2",
        "#ifdef A\n#if 1\n#ifdef B\n#endif\n#endif\n#endif\n#ifdef A\n#endif\n",
        "|A",
    ),
    (
        "--max-configs=3",
        "#ifdef A\n#if 1\n#ifdef B\n#endif\n#endif\n#endif\n#ifdef C\n#endif\n",
        "|A|A;B",
    ),
    ("-q", ELEVEN, "|A|B|C|D|E|F|G|H|I|J|K"),
    ("-q", TWELVE, "|A|B|C|D|E|F|G|H|I|J|K"),
    ("-q", THIRTEEN, "|A|B|C|D|E|F|G|H|I|J|K"),
    ("--force", TWELVE, "|A|B|C|D|E|F|G|H|I|J|K|L"),
    ("--force", THIRTEEN, "|A|B|C|D|E|F|G|H|I|J|K|L|M"),
    ("--max-configs=13", THIRTEEN, "|A|B|C|D|E|F|G|H|I|J|K|L"),
    ("--max-configs=14", THIRTEEN, "|A|B|C|D|E|F|G|H|I|J|K|L|M"),
    ("-UA", THIRTEEN, "|B|C|D|E|F|G|H|I|J|K|L"),
    ("--max-configs=4096", THIRTEEN, "|A|B|C|D|E|F|G|H|I|J|K|L|M"),
];

const ELEVEN: &str =
    "#if A\n#elif B\n#elif C\n#elif D\n#elif E\n#elif F\n#elif G\n#elif H\n#elif I\n\
    #elif J\n#elif K\n#endif\n";

const TWELVE: &str =
    "#if A\n#elif B\n#elif C\n#elif D\n#elif E\n#elif F\n#elif G\n#elif H\n#elif I\n\
    #elif J\n#elif K\n#elif L\n#endif\n";

const THIRTEEN: &str =
    "#if A\n#elif B\n#elif C\n#elif D\n#elif E\n#elif F\n#elif G\n#elif H\n#elif I\n\
    #elif J\n#elif K\n#elif L\n#elif M\n#endif\n";

/// The files, the words, and the lists of the configurations of the first file.
const HEADERS: [(&[Source], &str, &str); 11] = [
    (
        &[
            ("a.c", "#include \"h.h\"\n"),
            ("h.h", "#ifndef H\n#define H\n#ifdef A\n#endif\n#endif\n"),
        ],
        "-q",
        "|A",
    ),
    (
        &[
            (
                "a.c",
                "#include \"b.h\"\n#include \"c.h\"\n#ifdef A\n#endif\n",
            ),
            ("d.h", "#ifdef D\n#endif\n"),
            ("c.h", "#ifdef C\n#endif\n"),
            ("b.h", "#include \"d.h\"\n#ifdef B\n#endif\n"),
        ],
        "-q",
        "|A|B|C|D",
    ),
    (
        &[
            ("a.c", "#ifdef A\n#endif\n"),
            ("b.h", "#define A\n#ifdef B\n#endif\n"),
        ],
        "-q",
        "|A",
    ),
    (
        &[
            ("a.c", "#ifdef A\n#include \"b.h\"\n#endif\n"),
            ("b.h", "#ifdef B\n#endif\n"),
        ],
        "-q",
        "|A|B",
    ),
    (
        &[
            ("a.c", "#if 0\n#include \"b.h\"\n#endif\n"),
            ("b.h", "#ifdef B\n#endif\n"),
        ],
        "-q",
        "|B",
    ),
    (
        &[
            ("a.c", "#ifdef B\n#endif\n#include \"b.h\"\n"),
            ("b.h", "#define B 1\n"),
        ],
        "-q",
        "",
    ),
    (
        &[("a.c", "#ifdef A\n#include \"a.c\"\n#endif\n")],
        "-q",
        "|A",
    ),
    (
        &[
            ("s/a.c", "#include <h.h>\n"),
            ("i/h.h", "#ifdef H\n#endif\n"),
            ("s/h.h", "#ifdef S\n#endif\n"),
        ],
        "-Ii",
        "|H",
    ),
    (
        &[
            ("s/a.c", "#include <h.h>\n"),
            ("s/h.h", "#ifdef S\n#endif\n"),
        ],
        "-Ii",
        "",
    ),
    (
        &[("a.c", "#ifdef A\n"), ("b.h", "#endif\n#ifdef B\n#endif\n")],
        "-q",
        "|A",
    ),
    (
        &[
            ("a.c", "#include \"b.h\"\n#include \"c.h\"\n"),
            ("b.h", "#ifdef A\n#ifdef B\n#endif\n#endif\n"),
            (
                "c.h",
                "#ifdef A\n#ifdef B\n#endif\n#ifdef C\n#endif\n#endif\n",
            ),
        ],
        "-q",
        "|A|A;B|A;C",
    ),
];

// The options of words that stand between bars.
fn options_of(alloc: Global, row: &str) -> Result<Option<Options>, NoMemory> {
    let mut words = Vec::new(alloc);
    for word in row.split('|') {
        words.push(Path::from_str(alloc, word)?)?;
    }
    if !are_in_bounds(words.as_slice()) {
        return Ok(None);
    }
    Ok(options(alloc, words.as_slice()).ok())
}

// A shelf of these files, with the folders of `-I`.
fn shelf_of(
    alloc: Global,
    sources: &[Source],
    options: &Options,
) -> Result<IndexedShelf, NoMemory> {
    let folders = options.folders.copy()?;
    let mut shelf = IndexedShelf::new(alloc, NameKey::of(b"shelf")).with_folders(folders);
    let mut number = 0;
    for (path, text) in sources {
        // (the lexer takes a text whose places fit)
        if text.len() > 10_000 {
            return Err(NoMemory);
        }
        let path = Path::from_str(alloc, path)?;
        let Ok(lexed) = lex(alloc, text.as_bytes(), number) else {
            return Err(NoMemory);
        };
        shelf = shelf.with(Shelved { path, lexed })?;
        number = number.saturating_add(1);
    }
    Ok(shelf)
}

// The lists of configurations, each with `;` between its names, with bars between them.
fn shown(alloc: Global, configs: &[Config]) -> Result<String, AllocError> {
    let mut text = String::new(alloc);
    let mut bar = "";
    for config in configs {
        text.push_str(bar)?;
        bar = "|";
        let mut semicolon = "";
        for name in config.names.as_slice() {
            text.push_str(semicolon)?;
            semicolon = ";";
            text.push_str(std::str::from_utf8(name.as_slice()).unwrap_or("no text"))?;
        }
    }
    Ok(text)
}

fn configs_of(alloc: Global, sources: &[Source], words: &str) -> Result<List<Config>, NoMemory> {
    let key = NameKey::of(b"key");
    let library = built_in(alloc, key)?;
    let Some(options) = options_of(alloc, words)? else {
        return Ok(List::new(alloc));
    };
    let shelf = shelf_of(alloc, sources, &options)?;
    configurations(alloc, key, &shelf, 0, &options, &library)
}

#[test]
fn conditional_lines_ask_for_names(rt: HostRuntime) {
    let alloc = rt.alloc();
    for (text, expected) in QUESTIONS {
        let configs = configs_of(alloc, &[("a.c", text)], "-q").expect(&rt, "memory");
        let lists = shown(alloc, configs.as_slice()).expect(&rt, "memory");
        assert_eq!(rt; lists.as_str(), expected, "of {text}");
    }
}

#[test]
fn words_bound_the_configurations(rt: HostRuntime) {
    let alloc = rt.alloc();
    for (words, text, expected) in BOUNDS {
        let configs = configs_of(alloc, &[("a.c", text)], words).expect(&rt, "memory");
        let lists = shown(alloc, configs.as_slice()).expect(&rt, "memory");
        assert_eq!(rt; lists.as_str(), expected, "of {text} with {words}");
    }
}

#[test]
fn files_that_are_included_ask_too(rt: HostRuntime) {
    let alloc = rt.alloc();
    for (sources, words, expected) in HEADERS {
        let configs = configs_of(alloc, sources, words).expect(&rt, "memory");
        let lists = shown(alloc, configs.as_slice()).expect(&rt, "memory");
        assert_eq!(rt; lists.as_str(), expected, "with {words}");
    }
}

/// The macros that a configuration defines besides those of the library, each with a space behind
/// it.
fn own_defines(alloc: Global, config: &Config) -> Result<String, AllocError> {
    let mut text = String::new(alloc);
    for define in config.defines.as_slice().iter().skip(10) {
        text.push_str(std::str::from_utf8(define.name.as_slice()).unwrap_or("no text"))?;
        text.push_str("=")?;
        text.push_str(std::str::from_utf8(define.value.as_slice()).unwrap_or("no text"))?;
        text.push_str(" ")?;
    }
    Ok(text)
}

#[test]
fn words_and_the_library_define_macros(rt: HostRuntime) {
    let alloc = rt.alloc();
    let rows = [
        ("-q", ""),
        ("-DX", "X=1 "),
        ("-DX=2|-DY=", "X=2 Y= "),
        ("-DX=2|-DX=3", "X=2 X=3 "),
        ("-DX|-UX|-DY", "Y=1 "),
        ("-UX|-DX", ""),
        ("-DNULL=1", "NULL=1 "),
        ("-UNULL", ""),
        ("-DX|--force|-DZ", "X=1 Z=1 "),
    ];
    for (words, expected) in rows {
        let text = "#ifdef A\n#endif\n";
        let configs = configs_of(alloc, &[("a.c", text)], words).expect(&rt, "memory");
        for config in configs.as_slice() {
            let defines = own_defines(alloc, config).expect(&rt, "memory");
            assert_eq!(rt; defines.as_str(), expected, "with {words}");
            assert!(rt; config.defines.len() >= 10);
        }
        assert!(rt; configs.len() >= 1);
    }
}

/// A unit that is on no shelf has no lines.
#[test]
fn a_unit_that_is_nowhere_has_one_configuration(rt: HostRuntime) {
    let alloc = rt.alloc();
    let key = NameKey::of(b"key");
    let library = built_in(alloc, key).expect(&rt, "memory");
    let Some(options) = options_of(alloc, "--force").expect(&rt, "memory") else {
        panic!(rt; "no options");
    };
    let sources = [("a.c", "#ifdef A\n#endif\n")];
    let shelf = shelf_of(alloc, &sources, &options).expect(&rt, "memory");
    for (unit, expected) in [(0, "|A"), (1, ""), (4_294_967_295, "")] {
        let configs = configurations(alloc, key, &shelf, unit, &options, &library);
        let configs = configs.expect(&rt, "memory");
        let lists = shown(alloc, configs.as_slice()).expect(&rt, "memory");
        assert_eq!(rt; lists.as_str(), expected, "of {unit}");
    }
}
