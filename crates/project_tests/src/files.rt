//! What no clause says: that the calls succeed, over paths and files by hand.

use project::{Files, Item, PathKind, Place, Which, kind_of_path, place_of_path};
use py_ast::Modules;
use rv_names::Text;
use std::alloc::{AllocError, Global};
use std::process::Abort;
use std::sync::Arc;
use std::test::Fail;
use taint_config::{Config, read_config};

fn kind_told(alloc: Global, path: &str) -> Result<String, AllocError> {
    match kind_of_path(alloc, path) {
        Ok(Some(PathKind::Config)) => format!(in alloc; "config"),
        Ok(Some(PathKind::Models)) => format!(in alloc; "models"),
        Ok(Some(PathKind::Module(name))) => format!(in alloc; "module {name}"),
        Ok(None) => format!(in alloc; "nothing"),
        Err(_) => Err(AllocError),
    }
}

#[test]
fn paths(rt: HostRuntime) -> Result<(), Fail> {
    let cases = [
        ("taint.config", "config"),
        ("a/taint.config", "nothing"),
        (".pysa", "models"),
        ("//-.pysa", "models"),
        ("app.py", "module app"),
        ("a/b_1/if.py", "module a.b_1.if"),
        ("a/b/__init__.py", "module a.b"),
        ("__init__.py", "module __init__"),
        ("__init__/__init__.py", "module __init__"),
        ("a/__init__/b.py", "module a.__init__.b"),
        (".py", "nothing"),
        ("/a.py", "nothing"),
        ("a//b.py", "nothing"),
        ("a/1b.py", "nothing"),
        ("a-b.py", "nothing"),
        ("a.b.py", "nothing"),
        ("é.py", "nothing"),
        ("a.PY", "nothing"),
        ("a.pyi", "nothing"),
        ("", "nothing"),
    ];
    for (path, kind) in &cases {
        assert_eq!(rt; kind_told(rt.alloc(), path)?.as_str(), *kind, "{path}");
    }
    Ok(())
}

#[test]
fn places(rt: HostRuntime) -> Result<(), Fail> {
    let cases = [
        ("taint.config", Some(Place::Config)),
        ("a/taint.config", None),
        (".pysa", Some(Place::Models)),
        ("//-.pysa", Some(Place::Models)),
        ("app.py", Some(Place::Module)),
        ("a/b_1/if.py", Some(Place::Module)),
        ("a/b/__init__.py", Some(Place::Module)),
        ("__init__.py", Some(Place::Module)),
        (".py", None),
        ("/a.py", None),
        ("a//b.py", None),
        ("a/1b.py", None),
        ("a.b.py", None),
        ("é.py", None),
        ("a.pyi", None),
        ("", None),
    ];
    for (path, place) in &cases {
        assert_eq!(rt; place_of_path(path), *place, "{path}");
    }
    Ok(())
}

/// Puts a configuration, where the path is one of a configuration, and tells whether no callables come with it.
fn put_config(alloc: Global, files: &mut Files, path: &Text, config: Config) -> Result<bool, Fail> {
    let config = Arc::new(alloc, config)?;
    match kind_of_path(alloc, path.as_str())? {
        Some(PathKind::Config) => {
            let item = Arc::new(alloc, Item::Config(config))?;
            let none = files.callables_within(path, &item, 5, 0)?;
            files.put(path.copy()?, item, 5)?;
            Ok(none)
        }
        _ => Ok(false),
    }
}

#[test]
fn files(rt: HostRuntime) -> Result<(), Fail> {
    let alloc = rt.alloc();
    let path = Text::read(alloc, "taint.config")?;
    let mut files = Files::new(alloc);
    assert!(rt; files.is_empty());
    let config = read_config(alloc, b"{\"sources\":[],\"sinks\":[],\"rules\":[]}")?;
    assert!(rt; put_config(alloc, &mut files, &path, config)?);
    assert_eq!(rt; files.len(), 1);
    assert_eq!(rt; files.text_len(), 5);
    assert!(rt; files.get(&path).is_some());
    assert!(rt; files.over_with(&path, 33_554_432).is_none());
    assert_eq!(rt; files.over_with(&path, 33_554_433), Some(Which::Text));
    assert_eq!(rt; files.iter().count(), 1);
    assert_eq!(rt; files.callables(), 0);
    assert_eq!(rt; files.callables_without(&path), 0);
    let Modules { items } = files.modules(alloc)?;
    assert_eq!(rt; items.len(), 0);
    let mut copy = files.copy()?;
    assert!(rt; copy.drop(&path));
    assert!(rt; !copy.drop(&path));
    assert_eq!(rt; copy.len() + files.len(), 1);
    Ok(())
}
