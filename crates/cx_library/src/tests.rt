//! Libraries, and what they answer.
use crate::{
    ArgNr, ArgRule, Bounds, Described, Direction, Draft, Library, Pod, ReturnKind, built_in, valid,
};
use cx_base::{Define, List, NoMemory, Text};
use cx_table::NameKey;
use std::alloc::{AllocError, Global};

fn text_of(bytes: &Text) -> &str {
    std::str::from_utf8(bytes.as_slice()).unwrap_or("no text")
}

fn key() -> NameKey {
    NameKey::of(b"library")
}

fn push_rule(text: &mut String, alloc: Global, rule: &ArgRule) -> Result<(), AllocError> {
    let (nr, direction) = (rule.nr, rule.direction);
    text.push_str(format!(in alloc; "{nr:?}:{direction:?}")?.as_str())?;
    if rule.not_null {
        text.push_str("!null")?;
    }
    if rule.not_uninit {
        text.push_str("!uninit")?;
    }
    text.push_str(text_of(&rule.valid))?;
    text.push_str(" ")
}

fn push_flags(text: &mut String, described: &Described) -> Result<(), AllocError> {
    let flags = [
        (described.noreturn, "noreturn "),
        (described.must_use_result, "used "),
        (described.pure, "pure "),
        (described.constant, "const "),
    ];
    for (is_set, name) in flags {
        if is_set {
            text.push_str(name)?;
        }
    }
    Ok(())
}

fn push_number(
    text: &mut String,
    alloc: Global,
    name: &str,
    number: Option<u32>,
) -> Result<(), AllocError> {
    match number {
        None => Ok(()),
        Some(number) => text.push_str(format!(in alloc; "{name}{number} ")?.as_str()),
    }
}

// What is said of a function, but for what is as where nothing is said.
fn shown(alloc: Global, described: &Described) -> Result<String, AllocError> {
    let mut text = String::new(alloc);
    push_flags(&mut text, described)?;
    if let Some(returns) = &described.returns {
        text.push_str("returns:")?;
        text.push_str(text_of(&returns.names))?;
        push_number(&mut text, alloc, "*", Some(returns.stars))?;
    }
    if let Some(value) = described.value {
        text.push_str(format!(in alloc; "value:{value} ")?.as_str())?;
    }
    for rule in described.args.as_slice() {
        push_rule(&mut text, alloc, rule)?;
    }
    push_number(&mut text, alloc, "allocates:", described.allocates)?;
    push_number(&mut text, alloc, "frees:", described.frees)?;
    Ok(text)
}

// What a library says of a name, as a function and as a podtype.
fn answer(alloc: Global, library: &Library, name: &str) -> Result<String, AllocError> {
    let mut text = String::new(alloc);
    if let Some(described) = library.function(name.as_bytes()) {
        text.push_str("function ")?;
        text.push_str(shown(alloc, described)?.as_str())?;
    }
    if let Some(pod) = library.pod(name.as_bytes()) {
        let (signed, bytes) = (pod.signed, pod.bytes);
        text.push_str(format!(in alloc; "type {signed}{bytes} ")?.as_str())?;
    }
    Ok(text)
}

// The macros and then the podtypes, each with a space behind.
fn names_in(alloc: Global, library: &Library) -> Result<String, AllocError> {
    let mut text = String::new(alloc);
    for define in library.defines().as_slice() {
        text.push_str(text_of(&define.name))?;
        text.push_str("=")?;
        text.push_str(text_of(&define.value))?;
        text.push_str(" ")?;
    }
    for name in library.pods().as_slice() {
        text.push_str(text_of(name))?;
        text.push_str(" ")?;
    }
    Ok(text)
}

fn text(alloc: Global, name: &str) -> Result<Text, NoMemory> {
    Text::from_slice(alloc, name.as_bytes())
}

// A memory group in which a function allocates.
fn add_allocator(alloc: Global, draft: &mut Draft, name: &str) -> Result<(), NoMemory> {
    draft.add_group()?;
    draft.allocates(text(alloc, name)?)
}

// A memory group in which a function frees.
fn add_deallocator(alloc: Global, draft: &mut Draft, name: &str) -> Result<(), NoMemory> {
    draft.add_group()?;
    draft.frees(text(alloc, name)?)
}

// A memory group in which a function does both.
fn add_both(alloc: Global, draft: &mut Draft, name: &str) -> Result<(), NoMemory> {
    draft.add_group()?;
    draft.allocates(text(alloc, name)?)?;
    draft.frees(text(alloc, name)?)
}

// A description that says one thing, or nothing.
fn described(alloc: Global, kind: &str) -> Described {
    Described {
        noreturn: kind == "noreturn",
        must_use_result: false,
        pure: kind == "pure",
        constant: false,
        returns: None,
        value: None,
        args: List::new(alloc),
        allocates: Some(9),
        frees: None,
    }
}

fn add_function(alloc: Global, draft: &mut Draft, kind: &str, name: &str) -> Result<(), NoMemory> {
    draft.describe(text(alloc, name)?, described(alloc, kind))
}

fn add_define(alloc: Global, draft: &mut Draft, kind: &str, name: &str) -> Result<(), NoMemory> {
    let value = text(alloc, kind)?;
    let name = text(alloc, name)?;
    draft.define(Define { name, value })
}

fn add_pod(alloc: Global, draft: &mut Draft, signed: bool, name: &str) -> Result<(), NoMemory> {
    draft.add_pod(text(alloc, name)?, Pod { signed, bytes: 4 })
}

// What a word of a row says: a kind, a colon and a name.
fn add_word(alloc: Global, draft: &mut Draft, kind: &str, name: &str) -> Result<(), NoMemory> {
    if kind == "alloc" {
        return add_allocator(alloc, draft, name);
    }
    if kind == "dealloc" {
        return add_deallocator(alloc, draft, name);
    }
    if kind == "both" {
        return add_both(alloc, draft, name);
    }
    if kind == "signed" || kind == "unsigned" {
        return add_pod(alloc, draft, kind == "signed", name);
    }
    if kind == "one" || kind == "two" {
        return add_define(alloc, draft, kind, name);
    }
    add_function(alloc, draft, kind, name)
}

fn library_of(alloc: Global, row: &str) -> Result<Library, NoMemory> {
    let mut draft = Draft::new(alloc, key());
    for word in row.split(' ') {
        if let Some((kind, name)) = word.split_once(':') {
            add_word(alloc, &mut draft, kind, name)?;
        }
    }
    Library::of(draft)
}

// A name, and what the built-in library says of it.
const BUILT_IN: [(&str, &str); 13] = [
    ("exit", "function noreturn "),
    ("abort", "function noreturn "),
    ("malloc", "function used allocates:0 "),
    ("calloc", "function used allocates:0 "),
    ("printf", "function Number(1):In!null Variadic:In "),
    ("puts", "function Number(1):In!null Variadic:In "),
    (
        "strlen",
        "function used pure returns:size_t*0 Number(1):In!null ",
    ),
    ("free", "function frees:0 "),
    ("int8_t", "type true1 "),
    ("uint64_t", "type false8 "),
    ("size_t", ""),
    ("realloc", ""),
    ("", ""),
];

// Its macros, and then its podtypes.
const BUILT_IN_NAMES: &str = "NULL=0 bool=_Bool true=1 false=0 INT_MAX=2147483647 \
    INT_MIN=(-2147483647-1) UINT_MAX=4294967295u CHAR_BIT=8 EXIT_SUCCESS=0 EXIT_FAILURE=1 \
    int8_t uint8_t int16_t uint16_t int32_t uint32_t int64_t uint64_t ";

#[test]
fn the_built_in_library_answers(rt: HostRuntime) {
    let alloc = rt.alloc();
    let library = built_in(alloc, key()).expect(&rt, "memory");
    for (name, text) in BUILT_IN {
        let found = answer(alloc, &library, name).expect(&rt, "memory");
        assert_eq!(rt; found.as_str(), text, "at {name}");
    }
    let names = names_in(alloc, &library).expect(&rt, "memory");
    assert_eq!(rt; names.as_str(), BUILT_IN_NAMES);
}

// An earlier library, a later one, a name, and what both say of it.
const MERGED: [(&str, &str, &str, &str); 20] = [
    ("noreturn:f", "pure:f", "f", "function pure "),
    ("noreturn:f", "plain:f", "f", "function "),
    ("noreturn:f", "pure:g", "f", "function noreturn "),
    ("noreturn:f", "pure:g", "g", "function pure "),
    ("noreturn:f pure:f", "", "f", "function pure "),
    ("alloc:f", "", "f", "function allocates:0 "),
    ("", "alloc:f", "f", "function allocates:0 "),
    ("alloc:f", "alloc:f", "f", "function allocates:1 "),
    ("alloc:f", "dealloc:f", "f", "function frees:1 "),
    ("alloc:f dealloc:f", "", "f", "function frees:1 "),
    ("dealloc:f", "both:f", "f", "function allocates:1 frees:1 "),
    (
        "alloc:f alloc:g",
        "alloc:g dealloc:f",
        "f",
        "function frees:3 ",
    ),
    ("alloc:f", "alloc:g", "f", "function allocates:0 "),
    ("alloc:f", "alloc:g", "g", "function allocates:1 "),
    ("alloc:f", "pure:f", "f", "function pure allocates:0 "),
    ("pure:f", "alloc:f", "f", "function pure allocates:0 "),
    (
        "pure:f alloc:f noreturn:f",
        "",
        "f",
        "function noreturn allocates:0 ",
    ),
    ("signed:t", "unsigned:t", "t", "type false4 "),
    ("signed:t", "unsigned:u", "t", "type true4 "),
    ("signed:t", "pure:t", "t", "function pure type true4 "),
];

// What a library says of a name, after a later one was merged into it.
fn answer_of_merged(
    alloc: Global,
    earlier: &str,
    later: &str,
    name: &str,
) -> Result<String, NoMemory> {
    let mut library = library_of(alloc, earlier)?;
    let later = library_of(alloc, later)?;
    library.merge(later)?;
    let text = answer(alloc, &library, name)?;
    Ok(text)
}

#[test]
fn the_later_library_wins(rt: HostRuntime) {
    let alloc = rt.alloc();
    for (earlier, later, name, text) in MERGED {
        let found = answer_of_merged(alloc, earlier, later, name).expect(&rt, "memory");
        assert_eq!(rt; found.as_str(), text);
    }
}

// What a copy of a library says of a name.
fn answer_of_copy(alloc: Global, row: &str, name: &str) -> Result<String, NoMemory> {
    let library = library_of(alloc, row)?;
    let copy = library.copy()?;
    let text = answer(alloc, &copy, name)?;
    Ok(text)
}

#[test]
fn a_copied_library_answers_the_same(rt: HostRuntime) {
    let alloc = rt.alloc();
    let row = "alloc:f pure:f noreturn:g signed:t";
    for (name, text) in [
        ("f", "function pure allocates:0 "),
        ("g", "function noreturn "),
        ("t", "type true4 "),
    ] {
        let found = answer_of_copy(alloc, row, name).expect(&rt, "memory");
        assert_eq!(rt; found.as_str(), text);
    }
}

// The names of a library, after a later one was merged into it.
fn names_of_merged(alloc: Global, earlier: &str, later: &str) -> Result<String, NoMemory> {
    let mut library = library_of(alloc, earlier)?;
    let later = library_of(alloc, later)?;
    library.merge(later)?;
    let names = names_in(alloc, &library)?;
    Ok(names)
}

#[test]
fn names_keep_their_first_place(rt: HostRuntime) {
    let alloc = rt.alloc();
    let earlier = "one:a one:b signed:t signed:s";
    let later = "two:c two:a unsigned:r signed:t";
    let names = names_of_merged(alloc, earlier, later).expect(&rt, "memory");
    assert_eq!(rt; names.as_str(), "a=two b=one c=two t s r ");
}

// An nr and a range; the number of an argument, a value, and whether it is valid.
const VALID: [(ArgNr, Option<i128>, Option<i128>, u32, i128, bool); 16] = [
    (ArgNr::Number(1), Some(0), Some(9), 1, -1, false),
    (ArgNr::Number(1), Some(0), Some(9), 1, 0, true),
    (ArgNr::Number(1), Some(0), Some(9), 1, 9, true),
    (ArgNr::Number(1), Some(0), Some(9), 1, 10, false),
    (ArgNr::Number(1), Some(0), Some(9), 2, 10, true),
    (ArgNr::Number(1), Some(1), None, 1, 0, false),
    (ArgNr::Number(1), Some(1), None, 1, i128::MAX, true),
    (ArgNr::Number(1), None, Some(5), 1, i128::MIN, true),
    (ArgNr::Number(1), None, Some(5), 1, 6, false),
    (ArgNr::Number(1), Some(5), Some(1), 1, 3, false),
    (ArgNr::Number(1), None, None, 1, 3, true),
    (ArgNr::Number(255), Some(1), Some(1), 255, 2, false),
    (ArgNr::Number(255), Some(1), Some(1), 511, 2, true),
    (ArgNr::Any, Some(1), Some(1), 4_294_967_295, 2, false),
    (ArgNr::Variadic, Some(1), Some(1), 1, 2, false),
    (ArgNr::Variadic, Some(1), Some(1), 7, 1, true),
];

fn rule(alloc: Global, nr: ArgNr, range: Bounds) -> Result<ArgRule, NoMemory> {
    let mut ranges = List::new(alloc);
    ranges.push(range)?;
    Ok(ArgRule {
        nr,
        direction: Direction::Unstated,
        not_null: false,
        not_uninit: true,
        ranges,
        valid: Text::from_slice(alloc, b"range")?,
    })
}

#[test]
fn a_range_allows_both_ends(rt: HostRuntime) {
    let alloc = rt.alloc();
    for (nr, least, greatest, number, value, is_valid) in VALID {
        let mut described = Described::new(alloc);
        let rule = rule(alloc, nr, Bounds { least, greatest }).expect(&rt, "memory");
        described.args.push(rule).expect(&rt, "memory");
        assert_eq!(rt; valid(&described, number, value), is_valid);
    }
}

#[test]
fn a_copy_says_the_same(rt: HostRuntime) {
    let alloc = rt.alloc();
    let range = Bounds {
        least: Some(1),
        greatest: None,
    };
    let mut described = Described::new(alloc);
    let rule = rule(alloc, ArgNr::Any, range).expect(&rt, "memory");
    described.args.push(rule).expect(&rt, "memory");
    described.constant = true;
    described.value = Some(-7);
    let names = Text::from_slice(alloc, b"char").expect(&rt, "memory");
    described.returns = Some(ReturnKind { names, stars: 2 });
    let copy = described.copy().expect(&rt, "memory");
    let text = shown(alloc, &copy).expect(&rt, "memory");
    assert_eq!(rt;
        text.as_str(),
        "const returns:char*2 value:-7 Any:Unstated!uninitrange "
    );
}

fn numbered(alloc: Global, number: u32) -> Result<Text, NoMemory> {
    let mut name = Text::from_slice(alloc, b"n")?;
    name.push_number(number)?;
    Ok(name)
}

// A number as a function, a macro and a podtype.
fn add_number(alloc: Global, draft: &mut Draft, number: u32) -> Result<(), NoMemory> {
    let name = numbered(alloc, number)?;
    let name = text_of(&name);
    add_function(alloc, draft, "plain", name)?;
    add_define(alloc, draft, "one", name)?;
    add_pod(alloc, draft, true, name)
}

// A library of these numbers.
fn many(alloc: Global, first: u32, end: u32) -> Result<Library, NoMemory> {
    let mut draft = Draft::new(alloc, key());
    for number in first..end {
        add_number(alloc, &mut draft, number)?;
    }
    Library::of(draft)
}

// A library of a thousand numbers, with as many merged into it of which half are there.
fn thousand(alloc: Global) -> Result<Library, NoMemory> {
    let mut library = many(alloc, 0, 1_000)?;
    let later = many(alloc, 500, 1_500)?;
    library.merge(later)?;
    Ok(library)
}

#[test]
fn a_thousand_names_are_merged(rt: HostRuntime) {
    let library = thousand(rt.alloc()).expect(&rt, "memory");
    let counts = [library.defines().len(), library.pods().len()];
    assert_eq!(rt; counts, [1_500, 1_500]);
    for (name, is_there) in [("n0", true), ("n1499", true), ("n1500", false)] {
        assert_eq!(rt; library.function(name.as_bytes()).is_some(), is_there);
    }
}

#[test]
fn a_new_library_knows_nothing(rt: HostRuntime) {
    let library = Library::new(rt.alloc(), key());
    assert!(rt; library.function(b"n0").is_none());
}
