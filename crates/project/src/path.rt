//! What stands at a path.

ghost use Rattle.std.specs.Prelude.{◌≡◌, ◌==◌, ◌++◌, ◌∷◌, [], true, IfOk, if◌then◌else◌, Some, None, option_map};
ghost use Rattle.std.specs.List.{list_all};
ghost use Rattle.taint_config.specs.Kinds.{continues_kind, is_ascii_identifier};
ghost use Rattle.project.specs.Paths.{is_package, kind_of_path, module_at, module_name, names_in, place_of, segments};

use crate::neighbour::{PYTHON_END, before};
use rv_names::{Memory, Name, NameFault, QName};
use std::alloc::Global;

/// What stands at a path.
#[derive(Debug, Drop)]
pub enum PathKind {
    /// The configuration.
    Config,
    /// A model file.
    Models,
    /// The Python file of the module with this name.
    Module(QName),
}

/// Which kind of file may stand at a path.
#[derive(Clone, Copy, Debug, PartialEq, Eq)]
pub enum Place {
    /// A Python file.
    Module,
    /// A model file.
    Models,
    /// The configuration.
    Config,
}

fn continues(text: &str) -> bool
    ensures { result ≡ list_all continues_kind text.now }
{
    text.bytes()
        .all(|byte| byte.is_ascii_alphanumeric() || byte == b'_')
}

fn is_ascii_identifier(text: &str) -> bool
    ensures { result ≡ is_ascii_identifier text.now }
{
    match text.as_bytes() {
        [] => false,
        [first, ..] => (first.is_ascii_alphabetic() || *first == b'_') && continues(text),
    }
}

/// The text as a name, where it is an identifier within ASCII. A keyword is one too.
fn ascii_name(alloc: Global, text: &str) -> Result<Option<Name>, Memory>
    ensures { IfOk result (λ o. o ≡ (if is_ascii_identifier text.now then Some text.now else None)) }
{
    if !is_ascii_identifier(text) {
        return Ok(None);
    }
    match Name::read(alloc, text) {
        Ok(name) => Ok(Some(name)),
        // It never comes, since ASCII is in NFKC.
        Err(NameFault::NotIdent) => Ok(None),
        Err(NameFault::Memory) => Err(Memory),
    }
}

/// Pushes the text as a name, where it is an identifier within ASCII: whether it is one.
fn push_name(alloc: Global, names: &mut Vec<Name>, text: &str) -> Result<bool, Memory>
    ensures is { IfOk result (λ is. is ≡ is_ascii_identifier text.now) }
    ensures pushed { IfOk result (λ is. is ≡ true → names.new.items ≡ names.old.items ++ text.now ∷ []) }
{
    match ascii_name(alloc, text)? {
        None => Ok(false),
        Some(name) => {
            names.push(name)?;
            Ok(true)
        }
    }
}

/// What stands between the slashes of a path, where each is an identifier within ASCII.
fn names_in(alloc: Global, path: &str) -> Result<Option<Vec<Name>>, Memory>
    ensures { IfOk result (λ o. option_map (λ v. v.items) o ≡ names_in path.now) }
{
    let mut names = Vec::new(alloc);
    let mut rest = path;
    'each_name: while let Some((first, more)) = rest.split_once('/') {
        if !push_name(alloc, &mut names, first)? {
            return Ok(None);
        }
        rest = more;
    }
    if push_name(alloc, &mut names, rest)? {
        Ok(Some(names))
    } else {
        Ok(None)
    }
}

/// Whether each of what stands between the slashes of a path is an identifier within ASCII: `names_in` gives names then.
fn are_names(path: &str) -> bool
    ensures { result ≡ list_all is_ascii_identifier (segments path.now) }
{
    let mut rest = path;
    'each_name: while let Some((first, more)) = rest.split_once('/') {
        if !is_ascii_identifier(first) {
            return false;
        }
        rest = more;
    }
    is_ascii_identifier(rest)
}

/// Whether the names are those of a package's own file: `__init__` in a folder.
fn is_package(names: &[Name]) -> bool
    ensures { result ≡ is_package names.now }
{
    match names {
        [_, .., last] => last.as_str() == "__init__",
        _ => false,
    }
}

/// The name of the module that these names between slashes tell.
fn module_name(names: Vec<Name>) -> QName
    ensures { result ≡ module_name names.items }
{
    let mut names = names;
    if is_package(&names) {
        let _init = names.pop();
    }
    QName::new(names)
}

/// The name of the module at a path, where a module may stand there.
pub fn module_at(alloc: Global, path: &str) -> Result<Option<QName>, Memory>
    ensures { IfOk result (λ o. o ≡ module_at path.now) }
{
    match before(path, PYTHON_END) {
        None => Ok(None),
        Some(stem) => match names_in(alloc, stem)? {
            None => Ok(None),
            Some(names) => Ok(Some(module_name(names))),
        },
    }
}

/// What may stand at a path: `None` where nothing may.
///
/// The configuration stands at `taint.config`, and model files at the paths that end in `.pysa`. A Python file stands at a path
/// that ends in `.py` and has identifiers within ASCII between its slashes, of which keywords are some; `a/b.py` is the module
/// `a.b`, `a/__init__.py` the module `a`, and `__init__.py` in no folder the module `__init__` (Language Reference, 5.2).
/// Linear in the path.
pub fn kind_of_path(alloc: Global, path: &str) -> Result<Option<PathKind>, Memory>
    ensures { IfOk result (λ kind. kind ≡ kind_of_path path.now) }
{
    if path == "taint.config" {
        return Ok(Some(PathKind::Config));
    }
    if path.ends_with(".pysa") {
        return Ok(Some(PathKind::Models));
    }
    match module_at(alloc, path)? {
        None => Ok(None),
        Some(name) => Ok(Some(PathKind::Module(name))),
    }
}

/// Which kind of file may stand at a path: `None` where nothing may.
///
/// It is the kind of what `kind_of_path` tells, and makes no name of a module: it takes no memory (Language Reference, 5.2).
/// Linear in the path.
pub fn place_of_path(path: &str) -> Option<Place>
    ensures { result ≡ option_map place_of (kind_of_path path.now) }
{
    if path == "taint.config" {
        return Some(Place::Config);
    }
    if path.ends_with(".pysa") {
        return Some(Place::Models);
    }
    match before(path, PYTHON_END) {
        None => None,
        Some(stem) => {
            if are_names(stem) {
                Some(Place::Module)
            } else {
                None
            }
        }
    }
}
