//! What holds of every script.

ghost use Rattle.std.specs.Prelude.{◌≡◌, ℕ};
ghost use Rattle.gen_project.specs.Joined.{joined};
ghost use Rattle.gen_project.specs.Modules.{function_at, functions, module_count};

/// The modules have each function of the project once, in order.
pub fn each_function_once()
    ensures { (number size : ℕ) → joined (functions number size) 0 (module_count size) ≡ joined (function_at number size) 0 size }
{}
