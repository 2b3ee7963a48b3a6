//! The models of the cut form.

ghost use Rattle.std.specs.Prelude.{◌≡◌};
ghost use Rattle.cut_form.specs.Declarations.{are_models, declares_sink, declares_source, is_callable, is_command, is_input, is_named, is_os_system, is_plain, is_sink, is_source};

use pysa_syntax::{Decl, DeclMark, DeclParam, ParamKind};
use rv_names::{Name, QName};

/// Whether the name is `input`, which gives the source.
pub fn is_input(name: &QName) -> bool
    ensures { result ≡ is_input name.now }
{
    match name.parts() {
        [only] => only.as_str() == "input",
        _ => false,
    }
}

/// Whether the name is `os.system`, whose argument is the sink.
pub fn is_os_system(name: &QName) -> bool
    ensures { result ≡ is_os_system name.now }
{
    match name.parts() {
        [first, second] => first.as_str() == "os" && second.as_str() == "system",
        _ => false,
    }
}

fn is_source(marks: &[DeclMark]) -> bool
    ensures { result ≡ is_source marks.now }
{
    match marks {
        [DeclMark::Source(kind, _)] => kind.as_str() == "UserControlled",
        _ => false,
    }
}

fn is_sink(marks: &[DeclMark]) -> bool
    ensures { result ≡ is_sink marks.now }
{
    match marks {
        [DeclMark::Sink(kind, _)] => kind.as_str() == "RemoteCodeExecution",
        _ => false,
    }
}

fn is_plain(kind: ParamKind) -> bool
    ensures { result ≡ is_plain kind }
{
    matches!(kind, ParamKind::Plain)
}

fn is_named(name: &Option<Name>, text: &str) -> bool
    ensures { result ≡ is_named text.now name.now }
{
    match name {
        Some(name) => name.as_str() == text,
        None => false,
    }
}

fn is_command(params: &[DeclParam]) -> bool
    ensures { result ≡ is_command params.now }
{
    match params {
        [param] => {
            is_plain(param.kind)
                && is_named(&param.name, "command")
                && is_sink(param.marks.as_slice())
        }
        _ => false,
    }
}

fn is_callable(decl: &Decl) -> bool
    ensures { result ≡ is_callable decl.now }
{
    decl.callable && !decl.skip
}

fn declares_source(decl: &Decl) -> bool
    ensures { result ≡ declares_source decl.now }
{
    is_callable(decl)
        && is_input(&decl.name)
        && decl.params.is_empty()
        && is_source(decl.marks.as_slice())
}

fn declares_sink(decl: &Decl) -> bool
    ensures { result ≡ declares_sink decl.now }
{
    is_callable(decl)
        && is_os_system(&decl.name)
        && is_command(decl.params.as_slice())
        && decl.marks.is_empty()
}

/// Whether the models are those of the cut form.
#[tactic(auto, unfolding(crate::specs::Declarations::are_models))]
pub fn are_models(decls: &[Decl]) -> bool
    ensures { result ≡ are_models decls.now }
{
    match decls {
        [first, second] => declares_source(first) && declares_sink(second),
        _ => false,
    }
}
