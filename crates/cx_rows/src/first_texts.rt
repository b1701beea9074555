//! Texts of one file: what is found in them, their faults, and which are not served yet.
use crate::cases::{NOT_BUILT, try_text};
use cx_base::Bytes;
use std::alloc::Global;
use std::test::Fail;

/// Texts of `a.c`, and what is told of each.
static TEXTS: [(&str, &str); 93] = [
    ("", ""),
    (" \t\n", ""),
    ("int f(void) { }", ""),
    ("int f(void)\n{\n}\n", ""),
    ("int f(void) {\nint x = 5;\nreturn 10 / x;\n}\n", ""),
    ("int f(void) { return 1; return 1 / 0; }", ""),
    ("int f(void) { int x; x = 1; return x; }", ""),
    ("int f(void) { int x, y = 0; x = y - 1; return 1 / x; }", ""),
    ("int f(void) { return 2147483647; }", ""),
    ("int f(void) { return -2147483647 - 1; }", ""),
    (
        "int f(void) { return 7 - 3 - 2 - 2 + 1 / (7 - 3 - 2 - 1); }",
        "",
    ),
    ("int f(void) { return - - 1; }", ""),
    ("int f(void) { return 1; }\r\n", ""),
    ("int f(void) { return 1; } // end", ""),
    ("/* 1 / 0 */ int f(void) { /* */ }", ""),
    ("int f(void) <% %>", ""),
    ("int f(vo\\\nid) { }", ""),
    ("#define x\n", ""),
    ("#pragma x\n#line 3\n#if 0\n'\n#endif\n", ""),
    (
        "int f(void) {\nint x = 0;\nreturn 10 / x;\n}\n",
        "a.c:3:11: error: Division by zero. [zerodiv]\n",
    ),
    (
        "int f(void) {\n    int x = 0;\n    return 10 / x;\n}\n",
        "a.c:3:15: error: Division by zero. [zerodiv]\n",
    ),
    (
        "int f(void) { // x\nreturn 1 /* y\n */ / 0;\n}\n",
        "a.c:3:5: error: Division by zero. [zerodiv]\n",
    ),
    (
        "int f(void) { return 1/0; }",
        "a.c:1:23: error: Division by zero. [zerodiv]\n",
    ),
    (
        "\n\n \tint f(void)\n{\n\treturn\t1\t/\t0;\n}",
        "a.c:5:11: error: Division by zero. [zerodiv]\n",
    ),
    (
        "int f(void) {\nint x = 5;\nx = x - 5;\nreturn 10 / x;\n}\n",
        "a.c:4:11: error: Division by zero. [zerodiv]\n",
    ),
    (
        "int f(void) {\nint a = 1, b = a - 1, c = a / b;\n}\n",
        "a.c:2:29: error: Division by zero. [zerodiv]\n",
    ),
    (
        "int f(void) {\nint x = 1 / 0;\nint y;\nreturn y;\n}\n",
        "a.c:2:11: error: Division by zero. [zerodiv]\n",
    ),
    (
        "int f(void) {\nreturn 2147483647 + 1;\n}\n",
        "a.c:2:19: error: Signed integer overflow for expression '2147483647+1'. \
            [integerOverflow]\n",
    ),
    (
        "int f(void) {\nreturn -2147483647 - 2;\n}\n",
        "a.c:2:20: error: Signed integer overflow for expression '-2147483647-2'. \
            [integerOverflow]\n",
    ),
    (
        "int f(void) {\nreturn 65536 * 32768;\n}\n",
        "a.c:2:14: error: Signed integer overflow for expression '65536*32768'. \
            [integerOverflow]\n",
    ),
    (
        "int f(void) {\nreturn (-2147483647 - 1) / -1;\n}\n",
        "a.c:2:26: error: Signed integer overflow for expression '(-2147483647-1)/-1'. \
            [integerOverflow]\n",
    ),
    (
        "int f(void) {\nreturn -(-2147483647 - 1);\n}\n",
        "a.c:2:8: error: Signed integer overflow for expression '-(-2147483647-1)'. \
            [integerOverflow]\n",
    ),
    (
        "int f(void) {\nreturn (2147483647 + 1) / 2;\n}\n",
        "a.c:2:20: error: Signed integer overflow for expression '2147483647+1'. \
            [integerOverflow]\n",
    ),
    (
        "int f(void) {\nreturn (1 + 2147483647) * 2;\n}\n",
        "a.c:2:11: error: Signed integer overflow for expression '1+2147483647'. \
            [integerOverflow]\n",
    ),
    (
        "int f(void) {\nint large = 2147483647;\nreturn large  *  - - large;\n}\n",
        "a.c:3:15: error: Signed integer overflow for expression 'large*--large'. \
            [integerOverflow]\n",
    ),
    (
        "int f(void) {\nint x;\nreturn x;\n}\n",
        "a.c:3:8: error: Uninitialized variable: x [uninitvar]\n",
    ),
    (
        "int f(void) { int x = x; return x; }",
        "a.c:1:23: error: Uninitialized variable: x [uninitvar]\n",
    ),
    (
        "int f(void) {\nint y = 1, x;\nreturn y + (x);\n}\n",
        "a.c:3:13: error: Uninitialized variable: x [uninitvar]\n",
    ),
    (
        "int f(void) {\nreturn 1 / 0 + 2147483647 * 2;\n}\n",
        "a.c:2:10: error: Division by zero. [zerodiv]\n",
    ),
    (
        "int f(void) {\nreturn 2147483647 * 2 + 1 / 0;\n}\n",
        "a.c:2:19: error: Signed integer overflow for expression '2147483647*2'. \
            [integerOverflow]\n",
    ),
    (
        "int f(void) {\nint x;\nreturn x / 0;\n}\n",
        "a.c:3:8: error: Uninitialized variable: x [uninitvar]\n",
    ),
    (
        "#define Z 0\nint f(void) {\nreturn 1 / Z;\n}\n",
        "a.c:3:10: error: Division by zero. [zerodiv]\n",
    ),
    (
        "#define D 1 / 0\nint f(void) { return D; }",
        "a.c:2:22: error: Division by zero. [zerodiv]\n",
    ),
    (
        "#define q(x) x / (x - x)\nint f(void) {\nreturn\nq(1);\n}",
        "a.c:4:1: error: Division by zero. [zerodiv]\n",
    ),
    (
        "int f(void) { return INT_MAX + 1; }",
        "a.c:1:30: error: Signed integer overflow for expression '2147483647+1'. \
            [integerOverflow]\n",
    ),
    (
        "int f(void) { return INT_MIN / -1; }",
        "a.c:1:30: error: Signed integer overflow for expression '(-2147483647-1)/-1'. \
            [integerOverflow]\n",
    ),
    (
        "int f(void) { return 1 / (__LINE__ - 1); }",
        "a.c:1:24: error: Division by zero. [zerodiv]\n",
    ),
    (
        "int f(void) { /* }",
        "a.c:1:15: error: syntax error: unclosed comment [syntaxError]\n",
    ),
    (
        "int f(void) { 'x",
        "a.c:1:15: error: syntax error: unclosed literal [syntaxError]\n",
    ),
    (
        "\n #foo\nint x;\n",
        "a.c:2:2: error: syntax error: bad directive [syntaxError]\n",
    ),
    (
        "#if 1\nint x;\n",
        "a.c:1:1: error: syntax error: unclosed group [syntaxError]\n",
    ),
    (
        "#endif\n",
        "a.c:1:1: error: syntax error: stray else [syntaxError]\n",
    ),
    (
        "#if 1/0\n#endif\n",
        "a.c:1:1: error: syntax error: bad condition [syntaxError]\n",
    ),
    (
        "#define f(x) x\nf(1,2)\n",
        "a.c:2:1: error: syntax error: macro argument count [syntaxError]\n",
    ),
    (
        "#define f(x) x\nf(1\n",
        "a.c:2:1: error: syntax error: unclosed macro call [syntaxError]\n",
    ),
    (
        "#define c(x,y) x ## y\nc(+,/)\n",
        "a.c:2:1: error: syntax error: bad paste [syntaxError]\n",
    ),
    (
        "#error stop\n",
        "a.c:1:1: error: #error stop [preprocessorErrorDirective]\n",
    ),
    (
        "\n%:error  no /* */ \"b\"\tc // d\nint x;\n",
        "a.c:2:1: error: #error no \"b\" c [preprocessorErrorDirective]\n",
    ),
    (
        "#include \"a.c\"\n",
        "a.c:1:10: error: Limit reached: include depth 64, counted 65. [unitLimit]\n",
    ),
    ("?", NOT_BUILT),
    ("\u{e4}", NOT_BUILT),
    ("int f(void) { return 1; }\r", NOT_BUILT),
    ("int f(void) { return --1; }", NOT_BUILT),
    ("int f(void) { int x = 1; return x++; }", NOT_BUILT),
    ("int f(void) { int x = 1; x += 1; return x; }", NOT_BUILT),
    ("int f(void) { return 1 == 1; }", NOT_BUILT),
    ("int f(void) { return 007; }", NOT_BUILT),
    ("int f(void) { return 0x1; }", NOT_BUILT),
    ("int f(void) { return 2147483648; }", NOT_BUILT),
    ("int f(void) { return 1u; }", NOT_BUILT),
    ("int f(void) { return x; }", NOT_BUILT),
    ("int f(void) { x = 1; return x; }", NOT_BUILT),
    ("int f(void) { int x = y, y = 1; return x; }", NOT_BUILT),
    ("int f(void) { int x; int x; return 1; }", NOT_BUILT),
    ("int f(void) { int f; return 1; }", NOT_BUILT),
    ("int f(void) { return f; }", NOT_BUILT),
    ("int f(void) { int while; return 1; }", NOT_BUILT),
    ("int while(void) { return 1; }", NOT_BUILT),
    ("int f(void) { int _Bool; return 1; }", NOT_BUILT),
    ("int f() { return 1; }", NOT_BUILT),
    ("int f(int) { return 1; }", NOT_BUILT),
    ("void f(void) { return 1; }", NOT_BUILT),
    ("int f(void) { return; }", NOT_BUILT),
    ("int f(void) { ; }", NOT_BUILT),
    ("int f(void) { return 1 }", NOT_BUILT),
    ("int f(void) { return (1; }", NOT_BUILT),
    ("int f(void) { return 1); }", NOT_BUILT),
    ("int f(void) { return 1 2; }", NOT_BUILT),
    ("int f(void) { return 1; ", NOT_BUILT),
    ("int f(void) { return 1; } }", NOT_BUILT),
    ("int f(void) { } int g(void) { }", NOT_BUILT),
    ("inline int f(void) { }", NOT_BUILT),
    ("int f(void) { return \"a\"; }", NOT_BUILT),
];

/// An expression: so many times an opening, `1`, and as often a closing.
type Nested = (&'static str, usize, &'static str);

/// Expressions at the limit of 256 tokens and past it.
static LENGTHS: [(Nested, &str); 4] = [
    (("(", 127, ")"), ""),
    (("(", 128, ")"), NOT_BUILT),
    (("- ", 255, ""), ""),
    (("- ", 256, ""), NOT_BUILT),
];

fn nested_text(alloc: Global, nested: &Nested) -> Result<Bytes, Fail> {
    let (opening, count, closing) = *nested;
    let mut bytes = Bytes::from_slice(alloc, b"int f(void) { return ")?;
    for _ in 0..count {
        bytes.push_all(opening.as_bytes())?;
    }
    bytes.push_all(b"1")?;
    for _ in 0..count {
        bytes.push_all(closing.as_bytes())?;
    }
    bytes.push_all(b"; }")?;
    Ok(bytes)
}

#[test]
fn each_text_has_its_findings(rt: HostRuntime) -> Result<(), Fail> {
    let alloc = rt.alloc();
    for (text, told) in &TEXTS {
        try_text(&rt, text, Bytes::from_slice(alloc, text.as_bytes())?, told)?;
    }
    for (nested, told) in &LENGTHS {
        try_text(&rt, nested.0, nested_text(alloc, nested)?, told)?;
    }
    Ok(())
}
