//! The script of commands that puts a whole project.

ghost use Rattle.std.specs.Prelude.{◌≡◌, ◌+◌, ◌*◌, ◌++◌, ◌<◌, ◌≤◌, min, OnOk, IfOk};
ghost use Rattle.std.specs.String.{string_bytes};
ghost use Rattle.gen_project.specs.Modules.{module_count};
ghost use Rattle.gen_project.specs.Script.{put, put_fixed, put_module, script};

use crate::draws::Draws;
use crate::memory::Memory;
use crate::modules::{count_modules, make_module};
use std::alloc::{AllocError, Global};

/// The configuration of Pysa that each project has.
const CONFIG: &str =
    "{\"sources\":[{\"name\":\"UserControlled\"}],\"sinks\":[{\"name\":\"RemoteCodeExecution\"}],\"features\":[],\"rules\":[{\"name\":\"Possible RCE\",\"code\":5001,\"sources\":[\"UserControlled\"],\"sinks\":[\"RemoteCodeExecution\"],\"message_format\":\"Data from {$sources} may reach {$sinks}\"}]}";

/// The models that each project has.
const MODELS: &str =
    "def input() -> TaintSource[UserControlled]: ...\ndef os.system(command: TaintSink[RemoteCodeExecution]): ...\n";

/// Appends the command that puts a file of this path and text.
#[tactic(auto, unfolding(crate::specs::Script::put))]
fn push_put(script: &mut String, path: &str, text: &str) -> Result<(), AllocError>
    ensures { OnOk result (string_bytes script.new ≡ string_bytes script.old ++ put path.now text.now) }
{
    let len = text.len();
    writeln!(script, "put {path} {len}")?;
    script.push_str(text)?;
    script.push_str("\n")
}

/// Appends the commands that put the files that each project has.
fn push_fixed(script: &mut String) -> Result<(), AllocError>
    ensures { OnOk result (string_bytes script.new ≡ string_bytes script.old ++ put_fixed) }
{
    push_put(script, "taint.config", CONFIG)?;
    push_put(script, "general.pysa", MODELS)?;
    Ok(())
}

/// Appends the command that puts the module of number `own`. The draws stand at its first function, and then
/// at the first of the next module.
#[tactic(auto, unfolding(crate::specs::Script::put_module))]
fn push_module(
    alloc: Global,
    script: &mut String,
    draws: &mut Draws,
    size: u32,
    own: u32,
) -> Result<(), AllocError>
    requires small { size ≤ 50000 }
    requires within { own < module_count size }
    requires place { draws.old.taken ≡ 50 * own }
    ensures script { OnOk result (string_bytes script.new ≡ string_bytes script.old ++ put_module draws.old.number size own) }
    ensures place { OnOk result (draws.new.taken ≡ min (50 * (own + 1)) size) }
    ensures number { draws.new.number ≡ draws.old.number }
{
    let path = format!(in alloc; "m{own}.py")?;
    let text = make_module(alloc, draws, size, own)?;
    push_put(script, &path, &text)
}

/// The script of the project of `size` functions whose random numbers begin with `number`.
///
/// It puts `taint.config` and `general.pysa`, then the modules `m0.py`, `m1.py` and so on, of 50 functions
/// each and the rest in the last, and ends. A module imports `os` and all other modules. Each function takes
/// one parameter, and has one statement, which a draw of its own tells: it returns what a source gives, what
/// another function returns, or its parameter, or hands another function's result to a sink.
///
/// Its time and memory are linear in the length of the script. Where memory is wanting, the answer is
/// [`Memory`].
pub fn make(alloc: Global, number: u64, size: u32) -> Result<Vec<u8>, Memory>
    requires some { 1 ≤ size }
    requires small { size ≤ 50000 }
    ensures script { IfOk result (λ bytes. bytes.items ≡ script number size) }
{
    let mut script = String::new(alloc);
    push_fixed(&mut script)?;
    let mut draws = Draws::new(number);
    for own in 0..count_modules(size) {
        push_module(alloc, &mut script, &mut draws, size, own)?;
    }
    script.push_str("end\n")?;
    Ok(script.into_bytes())
}
