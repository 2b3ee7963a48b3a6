//! An edit whose file was read.

use project::Item;
use rv_names::Text;
use std::sync::Arc;

/// An edit of a project's files.
#[derive(Drop)]
pub enum ReadEdit {
    /// The item stands at the path from now on; its text has `len` bytes.
    Put {
        path: Text,
        item: Arc<Item>,
        len: u32,
    },
    /// Nothing stands at the path from now on.
    Drop {
        path: Text,
    },
}
