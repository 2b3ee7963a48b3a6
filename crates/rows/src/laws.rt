//! What holds of all rows and of all programs.

ghost use Rattle.std.specs.Prelude.{◌≡◌, ◌↔◌, ℕ, List};
ghost use Rattle.path_trees.specs.Trees.{Below, TreeMap};
ghost use Rattle.rows.specs.declared.places.Place.{Place};
ghost use Rattle.rows.specs.declared.places.Place.TheVariants.{Node};
ghost use Rattle.rows.specs.declared.inequalities.Right.{Right};
ghost use Rattle.rows.specs.declared.inequalities.Row.{Row};
ghost use Rattle.rows.specs.Families.{Families, Family, InputTrees, Less};
ghost use Rattle.rows.specs.Inequalities.{IsLeast, RightBelow, Solves};
ghost use Rattle.rows.specs.Programs.{Bodies, IsLeastOfAll, LessWhereRead, RowsReadNode, SameWhereRead};
ghost use Rattle.rows.specs.Orders.{AnyOrderSettles, GivenSettles, LeastStays, ModelsSettle, SettledStays};

/// Right sides are monotone: one that is below a tree, for greater inputs and greater trees of the nodes, is below it for
/// lesser ones, and below each greater tree.
pub fn right_sides_are_monotone()
    ensures { (I J : InputTrees) (N M : ℕ → TreeMap) (r : Right) (u v : TreeMap) → Less I J → ((n : ℕ) → Below (N n) (M n)) → Below u v → RightBelow J M r u → RightBelow I N r v }
{}

/// A solution for greater inputs is one for lesser inputs, so the least trees are monotone in the inputs.
pub fn lesser_inputs_keep_a_solution()
    ensures solves { (I J : InputTrees) (F : Family) (rows : List Row) → Less I J → Solves J F rows → Solves I F rows }
    ensures least { (I J : InputTrees) (rows : List Row) (F G : Family) → Less I J → IsLeast I rows F → IsLeast J rows G → (p : Place) → Below (F p) (G p) }
{}

/// Only what rows read matters: a solution for inputs that are greater there is one for these inputs.
pub fn only_what_rows_read_matters()
    ensures { (I J : InputTrees) (F : Family) (rows : List Row) → LessWhereRead rows I J → Solves J F rows → Solves I F rows }
{}

/// Inputs with equal trees of callees, and equal joins of cells at the steps read, have the same solutions. So what a body is
/// given may list who puts into cells in any order, leave out those that no row reads, or have one joined tree for each step.
pub fn joined_cells_suffice()
    ensures alike { (I J : InputTrees) (rows : List Row) → SameWhereRead rows I J → LessWhereRead rows I J × LessWhereRead rows J I }
    ensures solves { (I J : InputTrees) (F : Family) (rows : List Row) → SameWhereRead rows I J → Solves I F rows ↔ Solves J F rows }
    ensures least { (I J : InputTrees) (F : Family) (rows : List Row) → SameWhereRead rows I J → IsLeast I rows F → IsLeast J rows F }
{}

/// There is one least solution of a body's rows, and of all rows of a program. That there is a least one for a body is what
/// `least` answers.
pub fn the_least_solution_is_one()
    ensures of_a_body { (I : InputTrees) (rows : List Row) (F G : Family) → IsLeast I rows F → IsLeast I rows G → (p : Place) → F p ≡ G p }
    ensures of_all { (bodies : Bodies) (M N : Families) → IsLeastOfAll bodies M → IsLeastOfAll bodies N → (g : ℕ) (p : Place) → M g p ≡ N g p }
{}

/// Rows stay solved where trees grow and no node that they read changes.
pub fn untouched_rows_stay_solved()
    ensures { (I : InputTrees) (F H : Family) (rows : List Row) → ((n : ℕ) → RowsReadNode rows n → H (Node n) ≡ F (Node n)) → ((p : Place) → Below (F p) (H p)) → Solves I F rows → Solves I H rows }
{}

/// Whatever the order of takings, results, results that are out of date, tasks that are given back and edits with closed
/// reset sets: once the rows of each callable are solved, the trees are the least solution of the present program.
pub fn any_order_settles()
    ensures { AnyOrderSettles }
{}

/// A callable whose rows are solved, or whose trees are the least ones, stays so at a result of another callable, where no
/// tree changes that it reads of that one. So has the callable of the result the least trees, where what its body was given is
/// what it reads of the trees before, and where no tree changes that it reads of itself.
pub fn settled_callables_stay()
    ensures solved { SettledStays }
    ensures least { LeastStays }
    ensures given { GivenSettles }
{}

/// Where only the trees are kept that other bodies read, the least trees of all bodies for them are the least solution.
pub fn models_settle()
    ensures { ModelsSettle }
{}
