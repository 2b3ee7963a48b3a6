//! The two files that one module may have: `a.py`, and `a/__init__.py`, which hides it.

ghost use Rattle.std.specs.Prelude.{◌≡◌, ◌+◌, ◌≤◌, ◌++◌, length, IfOk};
ghost use Rattle.std.specs.Option.{option_copied};
ghost use Rattle.project.specs.Paths.{before, hidden_at, hider_at, neighbour_of, package_end, python_end};

use rv_names::{Memory, Text};
use std::alloc::Global;

/// What a package's own file ends with.
const PACKAGE_END: &str = "/__init__.py";

/// The greatest number of bytes of a path that is put together without memory.
const SHORT: usize = 22;

/// What a Python file ends with.
pub const PYTHON_END: &str = ".py";

/// The other file that would be the same module.
#[derive(Drop)]
pub enum Neighbour {
    /// There is none.
    Nobody,
    /// The package's own file, which hides this one while it is live.
    Hider(Text),
    /// The file that this one hides.
    Hidden(Text),
}

impl Neighbour {
    /// The same neighbour, whose path both share.
    pub fn copy(&self) -> Result<Neighbour, Memory>
        ensures { IfOk result (λ n. n ≡ self.now) }
    {
        match self {
            Neighbour::Nobody => Ok(Neighbour::Nobody),
            Neighbour::Hider(path) => Ok(Neighbour::Hider(path.copy()?)),
            Neighbour::Hidden(path) => Ok(Neighbour::Hidden(path.copy()?)),
        }
    }
}

/// What stands before the ending of a path that has it.
pub fn before<'a>(path: &'a str, ending: &str) -> Option<&'a str>
    ensures { option_copied result ≡ before ending.now path.now }
{
    path.strip_suffix(ending)
}

/// What `joined` gives of few bytes: it takes no memory for them.
fn short_joined(alloc: Global, stem: &str, ending: &str) -> Result<Text, Memory>
    requires { length stem.now + length ending.now ≤ 22 }
    ensures { IfOk result (λ t. t ≡ stem.now ++ ending.now) }
{
    let mut bytes = [0; SHORT];
    let at = stem.len();
    let len = at + ending.len();
    bytes[..at].copy_from_slice(stem.as_bytes());
    bytes[at..len].copy_from_slice(ending.as_bytes());
    let path = unsafe { str::from_utf8_unchecked(&bytes[..len]) };
    Text::read(alloc, path)
}

/// The path that is put together of its front and its ending.
fn joined(alloc: Global, stem: &str, ending: &str) -> Result<Text, Memory>
    ensures { IfOk result (λ t. t ≡ stem.now ++ ending.now) }
{
    if stem.len().saturating_add(ending.len()) <= SHORT {
        return short_joined(alloc, stem, ending);
    }
    let mut path = String::with_capacity(alloc, stem.len().saturating_add(ending.len()))?;
    path.push_str(stem)?;
    path.push_str(ending)?;
    Text::from_string(path)
}

/// The neighbour of a file that is no package's own, by what stands before the ending of Python files.
fn hider(alloc: Global, stem: Option<&str>) -> Result<Neighbour, Memory>
    ensures { IfOk result (λ n. n ≡ hider_at (option_copied stem.entry)) }
{
    match stem {
        None => Ok(Neighbour::Nobody),
        Some(stem) => Ok(Neighbour::Hider(joined(alloc, stem, PACKAGE_END)?)),
    }
}

/// The neighbour of the own file of the package that a folder is.
fn hidden(alloc: Global, folder: &str) -> Result<Neighbour, Memory>
    ensures { IfOk result (λ n. n ≡ hidden_at (folder.now ++ python_end) (before package_end (folder.now ++ python_end))) }
{
    let plain = joined(alloc, folder, PYTHON_END)?;
    match before(plain.as_str(), PACKAGE_END) {
        None => Ok(Neighbour::Hidden(plain)),
        Some(_) => Ok(Neighbour::Nobody),
    }
}

/// The other file that would be the same module as the one at a path. Linear in the path.
pub fn neighbour_at(alloc: Global, path: &str) -> Result<Neighbour, Memory>
    ensures { IfOk result (λ n. n ≡ neighbour_of path.now) }
{
    match before(path, PACKAGE_END) {
        None => hider(alloc, before(path, PYTHON_END)),
        Some(folder) => hidden(alloc, folder),
    }
}
