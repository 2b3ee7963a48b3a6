//! The files of a project, and edits of them.
//!
//! * `path`: `kind_of_path`, what stands at a path, and `place_of_path`, which kind of file that is;
//! * `item`: an `Item`, what a file is read as;
//! * `file`: a `File`, an item at a path;
//! * `limits`: the limits of a project and of its journal;
//! * `files`: `Files`, the live files, with their limits;
//! * `modules`: the modules among them, and how many callables these have;
//! * `edit`: an `Edit`, and the law that `Files` changes by edits;
//! * `faults`: why an edit is refused;
//! * `callables`: how many callables a module has;
//! * `neighbour`: the other file that would be the same module;
//! * `live`: values by path;
//! * `sums`: what one file is of the counts of a project;
//! * `together`: values that are made together.
#![tactic(auto)]

mod callables;
mod edit;
mod faults;
mod file;
mod files;
mod item;
mod limits;
mod live;
mod modules;
mod neighbour;
mod path;
mod sums;
mod together;

pub use callables::callables_of;
pub use edit::{Edit, one_step};
pub use faults::{FilesError, Which};
pub use file::File;
pub use files::Files;
pub use item::Item;
pub use limits::{CALLABLES_LIMIT, EDITS_LIMIT, FILE_LIMIT, FILES_LIMIT, KEPT_LIMIT, TEXT_LIMIT};
pub use path::{PathKind, Place, kind_of_path, place_of_path};
