//! What sources include.
use crate::include::includes_of;
use cx_base::NoMemory;
use cx_directive::IncludeName;
use cx_lex::lex;
use std::alloc::{AllocError, Global};
use std::str;

/// Sources, and what they include: each name in its delimiters with the place of these.
const SOURCES: [(&str, &str); 14] = [
    ("", ""),
    ("int x;\n", ""),
    ("#include <stdio.h>\n", "<stdio.h>@1:10"),
    ("#include \"a.h\"", "\"a.h\"@1:10"),
    ("  # /* c */ include<a/b.h> // d\n", "<a/b.h>@1:20"),
    ("%:include \"a.h\"\n", "\"a.h\"@1:11"),
    ("#include <>\n#include \"\"\n", "<>@1:10 \"\"@2:10"),
    ("int x; #include <a>\n", ""),
    ("#include\n\"x\"\n", ""),
    ("#include M\n", ""),
    ("#include <a> \"b\" x\n", "<a>@1:10"),
    (
        "#if 0\n#include <a>\n#else\n#include <b>\n#endif\n",
        "<a>@2:10 <b>@4:10",
    ),
    (
        "#inc\\\nlude <a>\n#define f <a>\n#includes <a>\n",
        "<a>@2:6",
    ),
    ("#include <a\n#include <a>", "<a>@2:10"),
];

fn push_name(alloc: Global, shown: &mut String, name: &IncludeName) -> Result<(), AllocError> {
    let text = str::from_utf8(name.name.as_slice()).unwrap_or("?");
    let (begin, end) = if name.quoted {
        ("\"", "\"")
    } else {
        ("<", ">")
    };
    let line = name.at.line;
    let column = name.at.column;
    shown.push_str(format!(in alloc; "{begin}{text}{end}@{line}:{column}")?.as_str())
}

fn shown(alloc: Global, names: &[IncludeName]) -> Result<String, AllocError> {
    let mut shown = String::new(alloc);
    for name in names {
        if !shown.is_empty() {
            shown.push_str(" ")?;
        }
        push_name(alloc, &mut shown, name)?;
    }
    Ok(shown)
}

fn included(alloc: Global, source: &str) -> Result<String, NoMemory> {
    if source.len() >= 4_294_967_295 {
        return Err(NoMemory);
    }
    let Ok(lexed) = lex(alloc, source.as_bytes(), 0) else {
        return Err(NoMemory);
    };
    let names = includes_of(alloc, &lexed)?;
    Ok(shown(alloc, names.copy()?.as_slice())?)
}

#[test]
fn sources_include_what_their_lines_say(rt: HostRuntime) {
    for (source, expected) in SOURCES {
        let found = included(rt.alloc(), source).expect(&rt, "memory");
        assert_eq!(rt; found.as_str(), expected, "at {source}");
    }
}
