//! Texts and their tokens or faults, worked out by hand from the Language Reference.

use py_lexer::*;
use std::alloc::Global;
use std::fmt;

/// A token as the tables write it: its place, its kind, and its value.
#[derive(Drop)]
struct Shown<'a>(&'a Token);

impl fmt::Display for Shown<'_> {
    fn fmt<W: fmt::Write>(&self, f: &mut fmt::Formatter<W>) -> fmt::Result {
        let token = self.0;
        write!(f, "{}:{} {:?}", token.at.line, token.at.col, token.kind)?;
        match &token.value {
            Value::Nothing => Ok(()),
            Value::Name(name) => write!(f, " {name}"),
            Value::Text(text) => write!(f, " {text:?}"),
            Value::Whole(number) => write!(f, " {number}"),
        }
    }
}

fn written(alloc: Global, tokens: &[Token]) -> Result<String, LexError> {
    let mut out = String::new(alloc);
    for token in tokens {
        if !out.is_empty() {
            out.push_str("; ")?;
        }
        out.push_str(format!(in alloc; "{}", Shown(token))?.as_str())?;
    }
    Ok(out)
}

/// The tokens of a short text.
fn tokens_text(alloc: Global, text: &str) -> Result<String, LexError> {
    if text.len() > 1000 {
        return Err(LexError::Memory);
    }
    written(alloc, &lex(alloc, text)?)
}

const TOKENS: [(&str, &str); 63] = [
    ("", ""),
    ("\n \n\t# a\n   # b", ""),
    ("\u{feff}x", "1:1 Name x; 1:2 Newline"),
    (
        "x\r\ny\rz\n\r",
        "1:1 Name x; 1:2 Newline; 2:1 Name y; 2:2 Newline; 3:1 Name z; 3:2 Newline",
    ),
    ("x # a", "1:1 Name x; 1:6 Newline"),
    ("x # a\n", "1:1 Name x; 1:6 Newline"),
    ("x\\\n  y\n", "1:1 Name x; 2:3 Name y; 2:4 Newline"),
    ("x\\\n", "1:1 Name x; 2:1 Newline"),
    ("\\\n", ""),
    ("  \\\n # a\nx", "3:1 Name x; 3:2 Newline"),
    ("\\\n    x", "2:5 Name x; 2:6 Newline"),
    (
        "if x:\n  \\\ny\n",
        "1:1 If; 1:4 Name x; 1:5 Colon; 1:6 Newline; 3:1 Indent; 3:1 Name y; 3:2 Newline; 4:1 Dedent",
    ),
    (
        "if x:\n\ty\nz\n",
        "1:1 If; 1:4 Name x; 1:5 Colon; 1:6 Newline; 2:2 Indent; 2:2 Name y; 2:3 Newline; 3:1 Dedent; 3:1 Name z; 3:2 Newline",
    ),
    (
        "a\n b\n  c",
        "1:1 Name a; 1:2 Newline; 2:2 Indent; 2:2 Name b; 2:3 Newline; 3:3 Indent; 3:3 Name c; 3:4 Newline; 3:4 Dedent; 3:4 Dedent",
    ),
    (
        "a\n b\n  c\nd",
        "1:1 Name a; 1:2 Newline; 2:2 Indent; 2:2 Name b; 2:3 Newline; 3:3 Indent; 3:3 Name c; 3:4 Newline; 4:1 Dedent; 4:1 Dedent; 4:1 Name d; 4:2 Newline",
    ),
    (
        "a\n  b\n\n # c\n  d\n",
        "1:1 Name a; 1:2 Newline; 2:3 Indent; 2:3 Name b; 2:4 Newline; 5:3 Name d; 5:4 Newline; 6:1 Dedent",
    ),
    (
        "a\n\x0c b\n\x0c\x0cc\n",
        "1:1 Name a; 1:2 Newline; 2:3 Indent; 2:3 Name b; 2:4 Newline; 3:3 Dedent; 3:3 Name c; 3:4 Newline",
    ),
    (
        "(a\n\tb # c\n  )\n",
        "1:1 LeftParen; 1:2 Name a; 2:2 Name b; 3:3 RightParen; 3:4 Newline",
    ),
    (
        "({)\n]x",
        "1:1 LeftParen; 1:2 LeftBrace; 1:3 RightParen; 2:1 RightBracket; 2:2 Name x; 2:3 Newline",
    ),
    (")\n", "1:1 RightParen; 1:2 Newline"),
    (
        "False None True and as assert async",
        "1:1 False; 1:7 None; 1:12 True; 1:17 And; 1:21 As; 1:24 Assert; 1:31 Async; 1:36 Newline",
    ),
    (
        "await break class continue def del",
        "1:1 Await; 1:7 Break; 1:13 Class; 1:19 Continue; 1:28 Def; 1:32 Del; 1:35 Newline",
    ),
    (
        "elif else except finally for from",
        "1:1 Elif; 1:6 Else; 1:11 Except; 1:18 Finally; 1:26 For; 1:30 From; 1:34 Newline",
    ),
    (
        "global if import in is lambda",
        "1:1 Global; 1:8 If; 1:11 Import; 1:18 In; 1:21 Is; 1:24 Lambda; 1:30 Newline",
    ),
    (
        "nonlocal not or pass raise return",
        "1:1 Nonlocal; 1:10 Not; 1:14 Or; 1:17 Pass; 1:22 Raise; 1:28 Return; 1:34 Newline",
    ),
    (
        "try while with yield match iff If",
        "1:1 Try; 1:5 While; 1:11 With; 1:16 Yield; 1:22 Name match; 1:28 Name iff; 1:32 Name If; 1:34 Newline",
    ),
    (
        "_ __x1 \u{e9}\u{2118} \u{4e00}9\u{660}",
        "1:1 Name _; 1:3 Name __x1; 1:8 Name \u{e9}\u{2118}; 1:11 Name \u{4e00}9\u{660}; 1:14 Newline",
    ),
    (
        "0 00_0 7 1_0 0xfF 0X_1 0o17 0B1_0",
        "1:1 Number 0; 1:3 Number 0; 1:8 Number 7; 1:10 Number 10; 1:14 Number 255; 1:19 Number 1; 1:24 Number 15; 1:29 Number 2; 1:34 Newline",
    ),
    (
        "170141183460469231731687303715884105727",
        "1:1 Number 170141183460469231731687303715884105727; 1:40 Newline",
    ),
    (
        "0x7fffffffffffffffffffffffffffffff",
        "1:1 Number 170141183460469231731687303715884105727; 1:35 Newline",
    ),
    (
        "1. .5 1.5 1e5 1E+5 1.e-5 01.5 09e1 1j 1.J 0_0j 1_0.0_1",
        "1:1 Float; 1:4 Float; 1:7 Float; 1:11 Float; 1:15 Float; 1:20 Float; 1:26 Float; 1:31 Float; 1:36 Float; 1:39 Float; 1:43 Float; 1:48 Float; 1:55 Newline",
    ),
    (
        "1..x 1.+2 1-2",
        "1:1 Float; 1:3 Dot; 1:4 Name x; 1:6 Float; 1:8 Plus; 1:9 Number 2; 1:11 Number 1; 1:12 Minus; 1:13 Number 2; 1:14 Newline",
    ),
    (
        "x.y ... .. ....5",
        "1:1 Name x; 1:2 Dot; 1:3 Name y; 1:5 Ellipsis; 1:9 Dot; 1:10 Dot; 1:12 Ellipsis; 1:15 Float; 1:17 Newline",
    ),
    (
        "+ - * ** / // % @ << >>",
        "1:1 Plus; 1:3 Minus; 1:5 Star; 1:7 DoubleStar; 1:10 Slash; 1:12 DoubleSlash; 1:15 Percent; 1:17 At; 1:19 LeftShift; 1:22 RightShift; 1:24 Newline",
    ),
    (
        "& | ^ ~ := < > <= >= == !=",
        "1:1 Ampersand; 1:3 Bar; 1:5 Caret; 1:7 Tilde; 1:9 ColonEqual; 1:12 Less; 1:14 Greater; 1:16 LessEqual; 1:19 GreaterEqual; 1:22 DoubleEqual; 1:25 NotEqual; 1:27 Newline",
    ),
    (
        "( ) [ ] { } , : . ; = ->",
        "1:1 LeftParen; 1:3 RightParen; 1:5 LeftBracket; 1:7 RightBracket; 1:9 LeftBrace; 1:11 RightBrace; 1:13 Comma; 1:15 Colon; 1:17 Dot; 1:19 Semicolon; 1:21 Equal; 1:23 Arrow; 1:25 Newline",
    ),
    (
        "+= -= *= /= //= %= @=",
        "1:1 PlusEqual; 1:4 MinusEqual; 1:7 StarEqual; 1:10 SlashEqual; 1:13 DoubleSlashEqual; 1:17 PercentEqual; 1:20 AtEqual; 1:22 Newline",
    ),
    (
        "&= |= ^= >>= <<= **=",
        "1:1 AmpersandEqual; 1:4 BarEqual; 1:7 CaretEqual; 1:10 RightShiftEqual; 1:14 LeftShiftEqual; 1:18 DoubleStarEqual; 1:21 Newline",
    ),
    (
        "<> *** ===",
        "1:1 Less; 1:2 Greater; 1:4 DoubleStar; 1:6 Star; 1:8 DoubleEqual; 1:10 Equal; 1:11 Newline",
    ),
    (
        "'' \"\" '''''' 'a\"b' \"a'b\"",
        "1:1 Text \"\"; 1:4 Text \"\"; 1:7 Text \"\"; 1:14 Text \"a\\\"b\"; 1:20 Text \"a\'b\"; 1:25 Newline",
    ),
    (
        "'''a'b''\nc''' x",
        "1:1 Text \"a\'b\'\'\\nc\"; 2:6 Name x; 2:7 Newline",
    ),
    ("'''a\r\nb\rc'''", "1:1 Text \"a\\nb\\nc\"; 3:5 Newline"),
    ("'a\\\nb'", "1:1 Text \"ab\"; 2:3 Newline"),
    (
        "'\\\\\\'\\\"\\a\\b\\f\\n\\r\\t\\v'",
        "1:1 Text \"\\\\\'\\\"\\u{7}\\u{8}\\u{c}\\n\\r\\t\\u{b}\"; 1:23 Newline",
    ),
    (
        "'\\0\\12\\101\\1010\\777\\8\\q'",
        "1:1 Text \"\\0\\nAA0\u{1ff}\\\\8\\\\q\"; 1:25 Newline",
    ),
    (
        "'\\x41\\u00e9\\U0001f600'",
        "1:1 Text \"A\u{e9}\u{1f600}\"; 1:23 Newline",
    ),
    (
        "r'\\x\\'' R\"\\n\" u'a' U'b'",
        "1:1 Text \"\\\\x\\\\\'\"; 1:9 Text \"\\\\n\"; 1:15 Text \"a\"; 1:20 Text \"b\"; 1:24 Newline",
    ),
    (
        "b'\\N\\u\\U\\x41' Rb'' bR'' B''",
        "1:1 Bytes; 1:15 Bytes; 1:20 Bytes; 1:25 Bytes; 1:28 Newline",
    ),
    (
        "ur 'a' rbr'a'",
        "1:1 Name ur; 1:4 Text \"a\"; 1:8 Name rbr; 1:11 Text \"a\"; 1:14 Newline",
    ),
    (
        "f'' F\"\"",
        "1:1 FStringStart; 1:3 FStringEnd; 1:5 FStringStart; 1:7 FStringEnd; 1:8 Newline",
    ),
    (
        "f'a{x}b'",
        "1:1 FStringStart; 1:3 FStringText \"a\"; 1:4 FieldOpen; 1:5 Name x; 1:6 FieldClose; 1:7 FStringText \"b\"; 1:8 FStringEnd; 1:9 Newline",
    ),
    (
        "f\"{ x + 1 }{y[0]}\"",
        "1:1 FStringStart; 1:3 FieldOpen; 1:5 Name x; 1:7 Plus; 1:9 Number 1; 1:11 FieldClose; 1:12 FieldOpen; 1:13 Name y; 1:14 LeftBracket; 1:15 Number 0; 1:16 RightBracket; 1:17 FieldClose; 1:18 FStringEnd; 1:19 Newline",
    ),
    (
        "f'{{a}}{b}\\n'",
        "1:1 FStringStart; 1:3 FStringText \"{a}\"; 1:8 FieldOpen; 1:9 Name b; 1:10 FieldClose; 1:11 FStringText \"\\n\"; 1:13 FStringEnd; 1:14 Newline",
    ),
    (
        "f'\\{{{a}'",
        "1:1 FStringStart; 1:3 FStringText \"\\\\{\"; 1:6 FieldOpen; 1:7 Name a; 1:8 FieldClose; 1:9 FStringEnd; 1:10 Newline",
    ),
    (
        "f'\\{a}'",
        "1:1 FStringStart; 1:3 FStringText \"\\\\\"; 1:4 FieldOpen; 1:5 Name a; 1:6 FieldClose; 1:7 FStringEnd; 1:8 Newline",
    ),
    (
        "f'{}'",
        "1:1 FStringStart; 1:3 FieldOpen; 1:4 FieldClose; 1:5 FStringEnd; 1:6 Newline",
    ),
    (
        "f'''a'{x}'b'''",
        "1:1 FStringStart; 1:5 FStringText \"a\'\"; 1:7 FieldOpen; 1:8 Name x; 1:9 FieldClose; 1:10 FStringText \"\'b\"; 1:12 FStringEnd; 1:15 Newline",
    ),
    (
        "(f'{)}'\n)",
        "1:1 LeftParen; 1:2 FStringStart; 1:4 FieldOpen; 1:5 RightParen; 1:6 FieldClose; 1:7 FStringEnd; 2:1 RightParen; 2:2 Newline",
    ),
    (
        "f'{(}'\nx",
        "1:1 FStringStart; 1:3 FieldOpen; 1:4 LeftParen; 1:5 FieldClose; 1:6 FStringEnd; 1:7 Newline; 2:1 Name x; 2:2 Newline",
    ),
    (
        "f'\u{e9}{\u{e9}}'",
        "1:1 FStringStart; 1:3 FStringText \"\u{e9}\"; 1:4 FieldOpen; 1:5 Name \u{e9}; 1:6 FieldClose; 1:7 FStringEnd; 1:8 Newline",
    ),
    (
        "f'{r}{b}'",
        "1:1 FStringStart; 1:3 FieldOpen; 1:4 Name r; 1:5 FieldClose; 1:6 FieldOpen; 1:7 Name b; 1:8 FieldClose; 1:9 FStringEnd; 1:10 Newline",
    ),
    ("a\x0c\tb", "1:1 Name a; 1:4 Name b; 1:5 Newline"),
    (
        "rb.rb rb'r' r.r(r)r'r' is r..r .5->\u{e9} \u{e9}[r]",
        "1:1 Name rb; 1:3 Dot; 1:4 Name rb; 1:7 Bytes; 1:13 Name r; 1:14 Dot; 1:15 Name r; 1:16 LeftParen; 1:17 Name r; 1:18 RightParen; 1:19 Text \"r\"; 1:24 Is; 1:27 Name r; 1:28 Dot; 1:29 Dot; 1:30 Name r; 1:32 Float; 1:34 Arrow; 1:36 Name \u{e9}; 1:38 Name \u{e9}; 1:39 LeftBracket; 1:40 Name r; 1:41 RightBracket; 1:42 Newline",
    ),
];

#[test]
fn texts_with_tokens(rt: HostRuntime) {
    for (text, wanted) in TOKENS {
        match tokens_text(rt.alloc(), text) {
            Ok(tokens) => assert_eq!(rt; tokens.as_str(), wanted, "at {text:?}"),
            Err(error) => assert!(rt; false, "{error} at {text:?}"),
        }
    }
}

const FAULTS: [(&str, u32, u32, LexKind); 68] = [
    ("x $", 1, 3, LexKind::BadChar),
    ("\u{e9} ?", 1, 3, LexKind::BadChar),
    ("x ! y", 1, 3, LexKind::BadChar),
    ("`", 1, 1, LexKind::BadChar),
    ("x \\y", 1, 3, LexKind::BadChar),
    ("x\\", 1, 2, LexKind::BadChar),
    ("x\u{a0}y", 1, 2, LexKind::BadChar),
    ("( $", 1, 3, LexKind::BadChar),
    ("\u{660}", 1, 1, LexKind::BadChar),
    ("x\u{feff}", 1, 2, LexKind::BadChar),
    ("f'a{$}'", 1, 5, LexKind::BadChar),
    ("a\n b\n\tc", 3, 1, LexKind::MixedIndent),
    ("a\n \tb", 2, 2, LexKind::MixedIndent),
    ("a\n\t b", 2, 2, LexKind::MixedIndent),
    ("a\n \x0cb", 2, 2, LexKind::MixedIndent),
    ("a\n \u{e9}\n\t\u{e9}", 3, 1, LexKind::MixedIndent),
    ("a\n  b\n\t$", 3, 1, LexKind::MixedIndent),
    ("a\n b\n\t# c\n(\n\td)\n\te", 6, 1, LexKind::MixedIndent),
    ("a\n  b\n c", 3, 2, LexKind::BadDedent),
    ("a\n  \u{e9}\n \u{e9}", 3, 2, LexKind::BadDedent),
    ("a\n  b\n 'c", 3, 2, LexKind::BadDedent),
    ("a\n  b\n $", 3, 2, LexKind::BadChar),
    ("a\n  b\n 01", 3, 2, LexKind::BadDedent),
    ("a\n\tb\n\t\tc\n\td\n e", 5, 1, LexKind::MixedIndent),
    ("'a", 1, 1, LexKind::OpenString),
    ("\u{e9} = rb'a\nb'", 1, 7, LexKind::OpenString),
    ("x = \"a\\\"", 1, 5, LexKind::OpenString),
    ("'''a''", 1, 1, LexKind::OpenString),
    ("'\\N", 1, 1, LexKind::OpenString),
    ("f'{x", 1, 2, LexKind::OpenString),
    ("r'\\'", 1, 2, LexKind::OpenString),
    ("(", 1, 1, LexKind::OpenBracket),
    ("\u{e9}([{x}\n", 1, 3, LexKind::OpenBracket),
    ("[(x]\n\n", 1, 1, LexKind::OpenBracket),
    ("f(\n'a', {\n", 2, 6, LexKind::OpenBracket),
    ("'\\N{DIGIT ONE}'", 1, 2, LexKind::BadEscape),
    ("\u{e9} + 'a\\x4'", 1, 7, LexKind::BadEscape),
    ("'\\x'", 1, 2, LexKind::BadEscape),
    ("'\\u123'", 1, 2, LexKind::BadEscape),
    ("'\\U0001f60'", 1, 2, LexKind::BadEscape),
    ("'\\ud800'", 1, 2, LexKind::BadEscape),
    ("'\\udfff'", 1, 2, LexKind::BadEscape),
    ("'\\U00110000'", 1, 2, LexKind::BadEscape),
    ("b'\\x4'", 1, 3, LexKind::BadEscape),
    ("'''a\n\\N'''", 2, 1, LexKind::BadEscape),
    ("f'{x}\\N{y}'", 1, 6, LexKind::BadEscape),
    ("01", 1, 1, LexKind::BadNumber),
    ("\u{e9} = 1x", 1, 5, LexKind::BadNumber),
    ("0x", 1, 1, LexKind::BadNumber),
    ("0b2", 1, 1, LexKind::BadNumber),
    ("0o8", 1, 1, LexKind::BadNumber),
    ("1__0", 1, 1, LexKind::BadNumber),
    ("1_", 1, 1, LexKind::BadNumber),
    ("1e", 1, 1, LexKind::BadNumber),
    ("1if x else y", 1, 1, LexKind::BadNumber),
    ("0_7", 1, 1, LexKind::BadNumber),
    ("1.real", 1, 1, LexKind::BadNumber),
    (
        "99999999999999999999999999999999999999999999x",
        1,
        1,
        LexKind::BadNumber,
    ),
    (
        "170141183460469231731687303715884105728",
        1,
        1,
        LexKind::WideNumber,
    ),
    (
        "\u{e9} 0x80000000000000000000000000000000",
        1,
        3,
        LexKind::WideNumber,
    ),
    ("\u{fb01}", 1, 1, LexKind::NotNormal),
    ("\u{e9} = e\u{301}", 1, 5, LexKind::NotNormal),
    ("rf'a'", 1, 3, LexKind::FStringForm),
    ("\u{e9} = f'{x!r}'", 1, 6, LexKind::FStringForm),
    ("f'''a\nb'''", 1, 2, LexKind::FStringForm),
    ("f'}'", 1, 2, LexKind::FStringForm),
    ("f'\\N{x:y}'", 1, 2, LexKind::FStringForm),
    ("f'{$ {'", 1, 2, LexKind::FStringForm),
];

#[test]
fn texts_with_faults(rt: HostRuntime) {
    for (text, line, col, kind) in FAULTS {
        assert!(rt; text.len() < 1000);
        match lex(rt.alloc(), text) {
            Ok(_) => assert!(rt; false, "tokens at {text:?}"),
            Err(LexError::Memory) => assert!(rt; false, "no memory"),
            Err(LexError::Fault { kind: found, at }) => {
                let same = found == kind && at.line == line && at.col == col;
                assert!(rt; same, "{found} at {}:{} in {text:?}", at.line, at.col);
            }
        }
    }
}

/// The tokens of a short text, after others.
fn tokens_after(alloc: Global, scratch: &mut Scratch, text: &str) -> Result<String, LexError> {
    if text.len() > 1000 {
        return Err(LexError::Memory);
    }
    written(alloc, &lex_with(alloc, scratch, text)?)
}

#[test]
fn texts_in_turn(rt: HostRuntime) {
    let mut scratch = Scratch::new(rt.alloc());
    let texts = [
        (
            "ab = cd",
            "1:1 Name ab; 1:4 Equal; 1:6 Name cd; 1:8 Newline",
        ),
        ("ab $ cd", "1:4 BadChar"),
        (
            "x.cd\r\nab",
            "1:1 Name x; 1:2 Dot; 1:3 Name cd; 1:5 Newline; 2:1 Name ab; 2:3 Newline",
        ),
        ("", ""),
        ("ab", "1:1 Name ab; 1:3 Newline"),
    ];
    for (text, wanted) in texts {
        match tokens_after(rt.alloc(), &mut scratch, text) {
            Ok(tokens) => assert_eq!(rt; tokens.as_str(), wanted, "at {text:?}"),
            Err(LexError::Memory) => assert!(rt; false, "no memory"),
            Err(LexError::Fault { kind, at }) => {
                let found = format!(in rt.alloc(); "{}:{} {kind:?}", at.line, at.col);
                match found {
                    Ok(found) => assert_eq!(rt; found.as_str(), wanted, "at {text:?}"),
                    Err(_) => assert!(rt; false, "no memory"),
                }
            }
        }
    }
}
