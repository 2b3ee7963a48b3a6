//! What no clause says: that the calls succeed.

use journal::{EditFault, Journal, ReadEdit};
use project::{Item, PathKind, kind_of_path};
use rv_names::Text;
use std::alloc::Global;
use std::process::Abort;
use std::sync::Arc;
use std::test::Fail;
use taint_config::{Config, read_config};

/// The number of the edit that puts a configuration, where the path is one of a configuration.
fn put_config(
    alloc: Global,
    journal: &mut Journal,
    path: &Text,
    config: Config,
) -> Result<u32, Fail> {
    let config = Arc::new(alloc, config)?;
    match kind_of_path(alloc, path.as_str())? {
        Some(PathKind::Config) => {
            let item = Arc::new(alloc, Item::Config(config))?;
            let path = path.copy()?;
            Ok(journal.edit(ReadEdit::Put { path, item, len: 5 })?)
        }
        _ => Ok(0),
    }
}

#[test]
fn edits(rt: HostRuntime) -> Result<(), Fail> {
    let alloc = rt.alloc();
    let path = Text::read(alloc, "taint.config")?;
    let mut journal = Journal::new(alloc);
    let config = read_config(alloc, b"{\"sources\":[],\"sinks\":[],\"rules\":[]}")?;
    assert_eq!(rt; put_config(alloc, &mut journal, &path, config)?, 1);
    assert_eq!(rt; journal.files().len(), 1);
    let drop = ReadEdit::Drop { path: path.copy()? };
    assert_eq!(rt; journal.edit(drop)?, 2);
    assert_eq!(rt; journal.number(), 2);
    let absent = journal.edit(ReadEdit::Drop { path });
    assert_eq!(rt; absent, Err(EditFault::NotThere { number: 2 }));
    assert_eq!(rt; journal.number(), 2);
    Ok(())
}
