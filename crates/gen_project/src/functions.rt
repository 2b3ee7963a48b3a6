//! The text of one function.

ghost use Rattle.std.specs.Prelude.{◌≡◌, ◌++◌, ◌<◌, OnOk};
ghost use Rattle.std.specs.String.{string_bytes};
ghost use Rattle.gen_project.specs.Modules.{call, statement, function_text};

use std::alloc::AllocError;

/// How many functions a module has. Only the last has fewer.
pub(crate) const FUNCTIONS_PER_MODULE: u32 = 50;

/// Appends the call of `callee` as the module of number `own` writes it.
fn push_call(text: &mut String, own: u32, callee: u32) -> Result<(), AllocError>
    ensures { OnOk result (string_bytes text.new ≡ string_bytes text.old ++ call own callee) }
{
    let home = callee / FUNCTIONS_PER_MODULE;
    if home == own {
        write!(text, "f{callee}(x)")
    } else {
        write!(text, "m{home}.f{callee}(x)")
    }
}

/// Appends the statement that `draw` tells, for a function of the module of number `own`.
fn push_statement(text: &mut String, size: u32, own: u32, draw: u64) -> Result<(), AllocError>
    requires { 0 < size }
    ensures { OnOk result (string_bytes text.new ≡ string_bytes text.old ++ statement size own draw) }
{
    let callee = ((draw >> 35) % u64::from(size)) as u32;
    match (draw >> 33) % 4 {
        0 => text.push_str("return input()"),
        1 => {
            text.push_str("return ")?;
            push_call(text, own, callee)
        }
        2 => {
            text.push_str("os.system(")?;
            push_call(text, own, callee)?;
            text.push_str(")")
        }
        _ => text.push_str("return x"),
    }
}

/// Appends the function of number `index` in a project of `size` functions, as `draw` tells it.
pub(crate) fn push_function(
    text: &mut String,
    size: u32,
    index: u32,
    draw: u64,
) -> Result<(), AllocError>
    requires { 0 < size }
    ensures { OnOk result (string_bytes text.new ≡ string_bytes text.old ++ function_text size index draw) }
{
    write!(text, "def f{index}(x):\n    ")?;
    push_statement(text, size, index / FUNCTIONS_PER_MODULE, draw)?;
    text.push_str("\n")
}
