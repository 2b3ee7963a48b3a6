//! What no clause says: that calls succeed, and model files with what they declare, worked out by hand.

use path_trees::Mark;
use pysa_models::*;
use pysa_syntax::{Decl, ModelError, read_models};
use rv_names::{Name, QName, Text};
use sqlite_items::Items;
use std::alloc::Global;
use std::fmt;
use std::process::Abort;
use std::sync::Arc;
use std::test::Fail;
use taint_config::read_config;

/// Sources 0 and 1, and sinks 2 and 3. `B` is the name of a source and of a sink.
const CONFIG: &str =
    "{\"sources\":[{\"name\":\"A\"},{\"name\":\"B\"}],\"sinks\":[{\"name\":\"B\"},{\"name\":\"C\"}],\"rules\":[]}";

/// Marks as the table writes them: `source KIND.LEAF` or `sink KIND.LEAF`, with a comma behind each.
#[derive(Drop)]
struct Marks<'a>(&'a [Mark]);

impl fmt::Display for Marks<'_> {
    fn fmt<W: fmt::Write>(&self, f: &mut fmt::Formatter<W>) -> fmt::Result {
        for mark in self.0 {
            match mark {
                Mark::Source { kind, leaf } => write!(f, "source {kind}.{leaf},")?,
                Mark::Sink { kind, leaf } => write!(f, "sink {kind}.{leaf},")?,
                Mark::Out { .. } => f.write_str("out,")?,
            }
        }
        Ok(())
    }
}

/// A model with `def`: the file, `skip`, the parameters and the marks of the result.
#[derive(Drop)]
struct Shown<'a>(&'a Signature);

impl fmt::Display for Shown<'_> {
    fn fmt<W: fmt::Write>(&self, f: &mut fmt::Formatter<W>) -> fmt::Result {
        let skip = if self.0.skip { " skip" } else { "" };
        write!(f, "{}{skip}(", self.0.path)?;
        for parameter in self.0.parameters.as_slice() {
            let through = if parameter.through { " through" } else { "" };
            match &parameter.name {
                Some(name) => write!(f, "{name}")?,
                None => f.write_str("-")?,
            }
            write!(f, " [{}]{through};", Marks(parameter.marks.as_slice()))?;
        }
        write!(f, ")[{}]", Marks(self.0.result.as_slice()))
    }
}

/// What is declared of a name: its models with `def`, each in a line, and a line for its reads and writes.
#[derive(Drop)]
struct Answer<'a>(Option<&'a Declaration>);

impl fmt::Display for Answer<'_> {
    fn fmt<W: fmt::Write>(&self, f: &mut fmt::Formatter<W>) -> fmt::Result {
        let Some(declaration) = self.0 else {
            return f.write_str("none\n");
        };
        for signature in declaration.signatures.as_slice() {
            write!(f, "{}\n", Shown(signature))?;
        }
        write!(f, "uses [{}]\n", Marks(declaration.uses.as_slice()))
    }
}

/// The models of a short text.
fn models(alloc: Global, text: &str) -> Result<Items<Decl>, ModelError> {
    if text.len() > 10_000 {
        return Err(ModelError::Memory);
    }
    read_models(alloc, text)
}

/// A file of models.
fn file(alloc: Global, path: &str, text: &str) -> Result<(Text, Arc<Items<Decl>>), Fail> {
    let path = Text::read(alloc, path)?;
    let decls = Arc::new(alloc, models(alloc, text)?)?;
    Ok((path, decls))
}

/// What two files declare together.
fn both_declared(alloc: Global, first: &str, second: &str) -> Result<Declared, Fail> {
    let config = read_config(alloc, CONFIG.as_bytes())?;
    let mut files = Vec::new(alloc);
    files.push(file(alloc, "one.pysa", first)?)?;
    files.push(file(alloc, "two.pysa", second)?)?;
    Ok(declare(alloc, files.as_slice(), &config)?)
}

/// The qualified name of a name without a dot.
fn qualified(alloc: Global, name: &str) -> Result<QName, Fail> {
    let mut parts = Vec::new(alloc);
    parts.push(Name::read(alloc, name)?)?;
    Ok(QName::new(parts))
}

/// The leaves, what is declared of a name, and the notes.
fn told(alloc: Global, first: &str, second: &str, name: &str) -> Result<String, Fail> {
    let all = both_declared(alloc, first, second)?;
    let mut out = String::new(alloc);
    for leaf in all.leaves() {
        out.push_str(format!(in alloc; "{leaf} ")?.as_str())?;
    }
    let name = qualified(alloc, name)?;
    out.push_str(format!(in alloc; "\n{}", Answer(all.of(&name)))?.as_str())?;
    for note in all.notes() {
        out.push_str(format!(in alloc; "{note}\n")?.as_str())?;
    }
    Ok(out)
}

/// Two files, a name, and what is wanted.
fn compare(alloc: Global, table: &[(&str, &str, &str, &str)], rt: &impl Abort) -> Result<(), Fail> {
    for (first, second, name, want) in table {
        let got = told(alloc, first, second, name)?;
        assert_eq!(rt; got.as_str(), *want, "{name}: {first}{second}");
    }
    Ok(())
}

#[test]
fn declares_what_is_written(rt: HostRuntime) -> Result<(), Fail> {
    compare(
        rt.alloc(),
        &[
            ("", "", "f", "\nnone\n"),
            ("def f(): ...\n", "", "g", "\nnone\n"),
            ("def f(): ...\n", "", "f", "\none.pysa()[]\nuses []\n"),
            (
                "def f(a: TaintSource[A], *, b: TaintSink[B, C], **c: TaintInTaintOut) -> Union[TaintSource[B], TaintInTaintOut]: ...\n",
                "",
                "f",
                "f \none.pysa(a [source 0.0,];- [];b [sink 2.0,sink 3.0,];c [] through;)[source 1.0,]\nuses []\n",
            ),
            (
                "z: Union[TaintSource[A], TaintSink[C]] = ...\n@SkipObscure\ndef f(a: TaintSink[C]): ...\n",
                "def f(a: TaintInTaintOut) -> TaintSource[A]: ...\nf: TaintSink[B] = ...\n",
                "f",
                "f z \none.pysa skip(a [sink 3.0,];)[]\ntwo.pysa(a [] through;)[source 0.0,]\nuses [sink 2.0,]\n",
            ),
            (
                "b: TaintSource[A, C] = ...\na: TaintSource[X] = ...\nc: TaintSink[A, C] = ...\n",
                "b: TaintSink[B] = ...\n",
                "b",
                "b c \nuses [source 0.0,sink 2.0,]\none.pysa:1:19 UnknownKind C\none.pysa:2:16 UnknownKind X\none.pysa:3:14 UnknownKind A\n",
            ),
        ],
        &rt,
    )
}

/// The marks of a parameter and of the result, of all models of a name.
fn joined_marks(alloc: Global, of_name: &Declaration, name: &Name) -> Result<String, Fail> {
    let marks = of_name.parameter_marks(alloc, name)?;
    let results = of_name.result_marks(alloc)?;
    Ok(format!(in alloc; "{}/{}", Marks(marks.as_slice()), Marks(results.as_slice()))?)
}

#[test]
fn joins_models_of_one_name(rt: HostRuntime) -> Result<(), Fail> {
    let all = both_declared(
        rt.alloc(),
        "def f(a: TaintSource[A], b: TaintInTaintOut) -> TaintSource[B]: ...\n",
        "@SkipObscure\ndef f(b: TaintSink[C], a: TaintSink[B]) -> TaintSource[A]: ...\n",
    )?;
    assert_eq!(rt; all.kinds().len(), 4);
    let (_, of_name) = all.entry(0).ok_or("nothing is declared")?;
    let name = Name::read(rt.alloc(), "a")?;
    let marks = joined_marks(rt.alloc(), of_name, &name)?;
    assert_eq!(rt;
        marks.as_str(),
        "source 0.0,sink 2.0,/source 1.0,source 0.0,"
    );
    assert!(rt; of_name.skips_obscure());
    assert!(rt; !of_name.is_through(&name));
    Ok(())
}
