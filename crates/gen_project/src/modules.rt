//! The text of one Python file.

ghost use Rattle.std.specs.Prelude.{◌≡◌, ◌+◌, ◌*◌, ◌++◌, ◌<◌, ◌≤◌, min, OnOk, IfOk};
ghost use Rattle.std.specs.String.{string_bytes};
ghost use Rattle.gen_project.specs.Modules.{functions, import_line, imports, module_count, module_text};

use crate::draws::Draws;
use crate::functions::{FUNCTIONS_PER_MODULE, push_function};
use std::alloc::{AllocError, Global};

/// How many modules a project of `size` functions has.
pub(crate) fn count_modules(size: u32) -> u32
    ensures { result ≡ module_count size }
{
    size.div_ceil(FUNCTIONS_PER_MODULE)
}

/// Appends the import of the module of number `other` to that of number `own`, which does not import itself.
fn push_import(text: &mut String, own: u32, other: u32) -> Result<(), AllocError>
    ensures { OnOk result (string_bytes text.new ≡ string_bytes text.old ++ import_line own other) }
{
    if other == own {
        Ok(())
    } else {
        writeln!(text, "import m{other}")
    }
}

/// Appends the imports of all modules but the one of number `own`.
fn push_imports(text: &mut String, size: u32, own: u32) -> Result<(), AllocError>
    ensures { OnOk result (string_bytes text.new ≡ string_bytes text.old ++ imports size own) }
{
    for other in 0..count_modules(size) {
        push_import(text, own, other)?;
    }
    Ok(())
}

/// Appends the functions of the module of number `own`. The draws stand at its first function, and then at
/// the first of the next module.
fn push_functions(
    text: &mut String,
    draws: &mut Draws,
    size: u32,
    own: u32,
) -> Result<(), AllocError>
    requires small { size ≤ 50000 }
    requires within { own < module_count size }
    requires place { draws.old.taken ≡ 50 * own }
    ensures text { OnOk result (string_bytes text.new ≡ string_bytes text.old ++ functions draws.old.number size own) }
    ensures place { OnOk result (draws.new.taken ≡ min (50 * (own + 1)) size) }
    ensures number { draws.new.number ≡ draws.old.number }
{
    let first = FUNCTIONS_PER_MODULE * own;
    let end = size.min(first + FUNCTIONS_PER_MODULE);
    for index in first..end {
        let draw = draws.take();
        push_function(text, size, index, draw)?;
    }
    Ok(())
}

/// The text of the module of number `own` in a project of `size` functions. The draws stand at its first
/// function, and then at the first of the next module.
pub(crate) fn make_module(
    alloc: Global,
    draws: &mut Draws,
    size: u32,
    own: u32,
) -> Result<String, AllocError>
    requires small { size ≤ 50000 }
    requires within { own < module_count size }
    requires place { draws.old.taken ≡ 50 * own }
    ensures text { IfOk result (λ text. string_bytes text ≡ module_text draws.old.number size own) }
    ensures place { OnOk result (draws.new.taken ≡ min (50 * (own + 1)) size) }
    ensures number { draws.new.number ≡ draws.old.number }
{
    let mut text = String::new(alloc);
    text.push_str("import os\n")?;
    push_imports(&mut text, size, own)?;
    push_functions(&mut text, draws, size, own)?;
    Ok(text)
}
