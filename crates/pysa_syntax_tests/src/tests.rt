//! Model files and what they declare, worked out by hand from the grammar.

use py_lexer::{Form, LexKind};
use py_literals::place::Pos;
use pysa_syntax::*;
use std::alloc::Global;
use std::fmt;
use std::test::Fail;

/// A mark as the tables write it.
#[derive(Drop)]
struct ShownMark<'a>(&'a DeclMark);

impl fmt::Display for ShownMark<'_> {
    fn fmt<W: fmt::Write>(&self, f: &mut fmt::Formatter<W>) -> fmt::Result {
        match self.0 {
            DeclMark::Source(kind, at) => write!(f, "source {kind} {}:{}", at.line, at.col),
            DeclMark::Sink(kind, at) => write!(f, "sink {kind} {}:{}", at.line, at.col),
            DeclMark::Through => f.write_str("through"),
        }
    }
}

/// Marks in brackets, with a comma behind each.
#[derive(Drop)]
struct ShownMarks<'a>(&'a [DeclMark]);

impl fmt::Display for ShownMarks<'_> {
    fn fmt<W: fmt::Write>(&self, f: &mut fmt::Formatter<W>) -> fmt::Result {
        f.write_str("[")?;
        for mark in self.0 {
            write!(f, "{},", ShownMark(mark))?;
        }
        f.write_str("]")
    }
}

/// A parameter: its kind, its name, its place and its marks.
#[derive(Drop)]
struct ShownParam<'a>(&'a DeclParam);

impl fmt::Display for ShownParam<'_> {
    fn fmt<W: fmt::Write>(&self, f: &mut fmt::Formatter<W>) -> fmt::Result {
        let param = self.0;
        write!(f, "{:?} ", param.kind)?;
        if let Some(name) = &param.name {
            write!(f, "{name} ")?;
        }
        write!(
            f,
            "{}:{} {}",
            param.at.line,
            param.at.col,
            ShownMarks(param.marks.as_slice())
        )
    }
}

/// A model as the tables write it.
#[derive(Drop)]
struct Shown<'a>(&'a Decl);

impl fmt::Display for Shown<'_> {
    fn fmt<W: fmt::Write>(&self, f: &mut fmt::Formatter<W>) -> fmt::Result {
        let decl = self.0;
        if decl.skip {
            f.write_str("skip ")?;
        }
        if decl.callable {
            f.write_str("def ")?;
        }
        write!(f, "{}", decl.name)?;
        if decl.callable {
            f.write_str("(")?;
            for param in decl.params.as_slice() {
                write!(f, "{};", ShownParam(param))?;
            }
            f.write_str(")")?;
        }
        write!(f, " {}", ShownMarks(decl.marks.as_slice()))
    }
}

/// The models of a short text, a line each, or its fault.
fn models_text(alloc: Global, text: &str) -> Result<String, ModelError> {
    if text.len() > 10_000 {
        return Err(ModelError::Memory);
    }
    let decls = read_models(alloc, text)?;
    let mut out = String::new(alloc);
    for decl in decls.as_slice() {
        let line = format!(in alloc; "{}\n", Shown(decl));
        match line {
            Ok(line) => match out.push_str(line.as_str()) {
                Ok(()) => {}
                Err(_) => return Err(ModelError::Memory),
            },
            Err(_) => return Err(ModelError::Memory),
        }
    }
    Ok(out)
}

/// Texts and their models.
fn compare(alloc: Global, table: &[(&str, &str)], rt: &impl std::process::Abort) {
    for (text, want) in table {
        match models_text(alloc, text) {
            Ok(got) => assert_eq!(rt; got.as_str(), *want, "{text}"),
            Err(error) => assert!(rt; false, "{text}: {error}"),
        }
    }
}

/// Texts and their faults, as they are printed.
fn compare_faults(alloc: Global, table: &[(&str, ModelError)], rt: &impl std::process::Abort) {
    for (text, want) in table {
        if text.len() <= 10_000 {
            match read_models(alloc, text) {
                Ok(_) => assert!(rt; false, "{text} is read"),
                Err(got) => assert_eq!(rt; got, *want, "{text}"),
            }
        }
    }
}

#[test]
fn reads_each_production(rt: HostRuntime) {
    compare(
        rt.alloc(),
        &[
            ("", ""),
            ("# nothing\n\n", ""),
            ("def f(): ...", "def f() []\n"),
            ("a: TaintInTaintOut = ...\n", "a [through,]\n"),
            ("a.b.c: TaintSource[A] = ...\n", "a.b.c [source A 1:20,]\n"),
            (
                "a: TaintSink[A, B] = ...\n",
                "a [sink A 1:14,sink B 1:17,]\n",
            ),
            (
                "a: Union[TaintSource[A, B], TaintInTaintOut, TaintSink[C]] = ...\n",
                "a [source A 1:22,source B 1:25,through,sink C 1:56,]\n",
            ),
            (
                "@SkipObscure\ndef m.f(): ...\ndef m.g(): ...\n",
                "skip def m.f() []\ndef m.g() []\n",
            ),
            (
                "def f(a, b: TaintSource[A], c = ..., d: TaintInTaintOut = ...,) -> TaintSink[B]: ...\n",
                "def f(Plain a 1:7 [];Plain b 1:10 [source A 1:25,];Plain c 1:29 [];Plain d 1:38 [through,];) [sink B 1:78,]\n",
            ),
            (
                "def f(a, /, b, *, c): ...\n",
                "def f(Plain a 1:7 [];Slash 1:10 [];Plain b 1:13 [];Star 1:16 [];Plain c 1:19 [];) []\n",
            ),
            (
                "def f(*args: TaintSink[A], **kwargs: Union[TaintSource[A], TaintSource[B]]): ...\n",
                "def f(Rest args 1:7 [sink A 1:24,];Keywords kwargs 1:28 [source A 1:56,source B 1:72,];) []\n",
            ),
            ("def f(*): ...\n", "def f(Star 1:7 [];) []\n"),
            ("def f(/,): ...\n", "def f(Slash 1:7 [];) []\n"),
            (
                "def f(**k, *, a, *b): ...\n",
                "def f(Keywords k 1:7 [];Star 1:12 [];Plain a 1:15 [];Rest b 1:18 [];) []\n",
            ),
            (
                "def Union.TaintSource(TaintSink: TaintSink[TaintSink]): ...\n",
                "def Union.TaintSource(Plain TaintSink 1:23 [sink TaintSink 1:44,];) []\n",
            ),
            (
                "def f(\n    a,\n    b,\n): ...\n",
                "def f(Plain a 2:5 [];Plain b 3:5 [];) []\n",
            ),
            (
                "AppliesTo: TaintInTaintOut = ...\n",
                "AppliesTo [through,]\n",
            ),
            ("def ModelQuery(): ...\n", "def ModelQuery() []\n"),
        ],
        &rt,
    );
}

#[test]
fn reads_documented_models(rt: HostRuntime) {
    compare(
        rt.alloc(),
        &[
            (
                "django.http.request.HttpRequest.GET: TaintSource[UserControlled] = ...\n",
                "django.http.request.HttpRequest.GET [source UserControlled 1:50,]\n",
            ),
            (
                "def os.system(command: TaintSink[RemoteCodeExecution]): ...\n",
                "def os.system(Plain command 1:15 [sink RemoteCodeExecution 1:34,];) []\n",
            ),
            (
                "def input(__prompt = ...) -> TaintSource[UserControlled]: ...\n",
                "def input(Plain __prompt 1:11 [];) [source UserControlled 1:42,]\n",
            ),
            (
                "def subprocess.Popen.__init__(self, args: TaintSink[Exec], *, env: Union[TaintSink[Env], TaintInTaintOut] = ..., **kwargs): ...\n",
                "def subprocess.Popen.__init__(Plain self 1:31 [];Plain args 1:37 [sink Exec 1:53,];Star 1:60 [];Plain env 1:63 [sink Env 1:84,through,];Keywords kwargs 1:114 [];) []\n",
            ),
            (
                "@SkipObscure\ndef json.loads(s: TaintInTaintOut): ...\n",
                "skip def json.loads(Plain s 2:16 [through,];) []\n",
            ),
            (
                "def str.join(self: TaintInTaintOut, __iterable: TaintInTaintOut): ...\n",
                "def str.join(Plain self 1:14 [through,];Plain __iterable 1:37 [through,];) []\n",
            ),
        ],
        &rt,
    );
}

fn at(line: u32, col: u32) -> Pos {
    Pos { line, col }
}

#[test]
fn tells_syntax(rt: HostRuntime) {
    compare_faults(
        rt.alloc(),
        &[
            ("$", ModelError::Lex(LexKind::BadChar, at(1, 1))),
            ("def f(", ModelError::Lex(LexKind::OpenBracket, at(1, 6))),
            (
                "def f(,): AppliesTo[ $",
                ModelError::Lex(LexKind::BadChar, at(1, 22)),
            ),
            ("a\n", ModelError::Syntax(at(1, 2))),
            ("a: TaintSource = ...\n", ModelError::Syntax(at(1, 16))),
            ("a: TaintSource[] = ...\n", ModelError::Syntax(at(1, 16))),
            ("a: TaintSource[A,] = ...\n", ModelError::Syntax(at(1, 18))),
            (
                "a: Union[TaintSource[A]] = ...\n",
                ModelError::Syntax(at(1, 24)),
            ),
            (
                "a: Union[TaintSource[A],] = ...\n",
                ModelError::Syntax(at(1, 25)),
            ),
            ("a: Other[A] = ...\n", ModelError::Syntax(at(1, 4))),
            (
                "a: TaintInTaintOut[A] = ...\n",
                ModelError::Syntax(at(1, 19)),
            ),
            ("a = ...\n", ModelError::Syntax(at(1, 3))),
            ("a: TaintInTaintOut\n", ModelError::Syntax(at(1, 19))),
            ("def f(): pass\n", ModelError::Syntax(at(1, 10))),
            ("def f(,): ...\n", ModelError::Syntax(at(1, 7))),
            ("def f(a b): ...\n", ModelError::Syntax(at(1, 9))),
            ("def f(a,,): ...\n", ModelError::Syntax(at(1, 9))),
            ("def f(a = 1): ...\n", ModelError::Syntax(at(1, 11))),
            ("def f(* = ...): ...\n", ModelError::Syntax(at(1, 9))),
            ("def f(**): ...\n", ModelError::Syntax(at(1, 9))),
            ("def f(*a = ...): ...\n", ModelError::Syntax(at(1, 10))),
            ("def f() -> A: ...\n", ModelError::Syntax(at(1, 12))),
            ("def f(): ... x\n", ModelError::Syntax(at(1, 14))),
            (
                "@SkipObscure\na: TaintInTaintOut = ...\n",
                ModelError::Syntax(at(2, 1)),
            ),
            ("@Other\ndef f(): ...\n", ModelError::Syntax(at(1, 2))),
            ("@SkipObscure\n", ModelError::Syntax(at(1, 13))),
            ("  def f(): ...\n", ModelError::Syntax(at(1, 3))),
            ("def f(): ...\nclass C: ...\n", ModelError::Syntax(at(2, 1))),
        ],
        &rt,
    );
}

#[test]
fn tells_forms(rt: HostRuntime) {
    compare_faults(
        rt.alloc(),
        &[
            (
                "a: AppliesTo[0, TaintSource[A]] = ...\n",
                ModelError::Unsupported(Form::AppliesTo, at(1, 4)),
            ),
            (
                "a: TaintSource[A, ParameterPath[b]] = ...\n",
                ModelError::Unsupported(Form::ParameterPath, at(1, 19)),
            ),
            (
                "def f() -> TaintSource[A, ReturnPath[b]]: ...\n",
                ModelError::Unsupported(Form::ReturnPath, at(1, 27)),
            ),
            (
                "def f(a: TaintInTaintOut[Via[b]]): ...\n",
                ModelError::Syntax(at(1, 25)),
            ),
            (
                "def f(a: TaintSink[Via[b]]): ...\n",
                ModelError::Unsupported(Form::Via, at(1, 20)),
            ),
            (
                "def f(a: Updates[self]): ...\n",
                ModelError::Unsupported(Form::Updates, at(1, 10)),
            ),
            (
                "def f(a: Transform[b]): ...\n",
                ModelError::Unsupported(Form::Transform, at(1, 10)),
            ),
            (
                "def f(a: PartialSink[b]): ...\n",
                ModelError::Unsupported(Form::PartialSink, at(1, 10)),
            ),
            (
                "@SkipAnalysis\ndef f(): ...\n",
                ModelError::Unsupported(Form::SkipAnalysis, at(1, 1)),
            ),
            (
                "@SkipOverrides\ndef f(): ...\n",
                ModelError::Unsupported(Form::SkipOverrides, at(1, 1)),
            ),
            (
                "@Sanitize\ndef f(): ...\n",
                ModelError::Unsupported(Form::Sanitize, at(1, 1)),
            ),
        ],
        &rt,
    );
}

#[test]
fn tells_forms_behind_others(rt: HostRuntime) {
    compare_faults(
        rt.alloc(),
        &[
            (
                "def f(): ...\n@Sanitize(TaintSource)\ndef g(): ...\n",
                ModelError::Unsupported(Form::Sanitize, at(2, 1)),
            ),
            (
                "ModelQuery(name = a)\n",
                ModelError::Unsupported(Form::ModelQuery, at(1, 1)),
            ),
            (
                "def f(): ...\nModelQuery(name = a)\n",
                ModelError::Unsupported(Form::ModelQuery, at(2, 1)),
            ),
            ("a = ModelQuery(b)\n", ModelError::Syntax(at(1, 3))),
            ("a: ModelQuery(b)\n", ModelError::Syntax(at(1, 4))),
            ("a b: AppliesTo[c]\n", ModelError::Syntax(at(1, 3))),
            ("a b\n@Sanitize\n", ModelError::Syntax(at(1, 3))),
            ("a b\nModelQuery(c)\n", ModelError::Syntax(at(1, 3))),
            (
                "AppliesTo[a] = ...\n",
                ModelError::Unsupported(Form::AppliesTo, at(1, 1)),
            ),
            ("AppliesTo.a[b] = ...\n", ModelError::Syntax(at(1, 12))),
            (
                "a.AppliesTo[b] = ...\n",
                ModelError::Unsupported(Form::AppliesTo, at(1, 3)),
            ),
            (
                "@ AppliesTo[b]\n",
                ModelError::Unsupported(Form::AppliesTo, at(1, 3)),
            ),
        ],
        &rt,
    );
}

/// So many models, a line each.
fn lines(alloc: Global, count: usize) -> Result<String, std::alloc::AllocError> {
    let mut text = String::new(alloc);
    for _ in 0..count {
        text.push_str("def m.f(a: TaintSource[A]): ...\n")?;
    }
    Ok(text)
}

#[test]
fn reads_many_models(rt: HostRuntime) -> Result<(), Fail> {
    let alloc = rt.alloc();
    let text = lines(alloc, 10_000)?;
    assert!(rt; text.len() < 1_000_000);
    let decls = read_models(alloc, text.as_str())?;
    assert_eq!(rt; decls.len(), 10_000);
    Ok(())
}
