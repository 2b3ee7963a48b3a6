//! What holds of all trees.

ghost use Rattle.std.specs.Prelude.{◌≡◌, ◌<◌, ◌≤◌, IsTrue, List};
ghost use Rattle.path_trees.specs.declared.steps.Step.{Step};
ghost use Rattle.path_trees.specs.declared.marks.Mark.{Mark};
ghost use Rattle.path_trees.specs.declared.moves.Move.{Move};
ghost use Rattle.path_trees.specs.Trees.{Below, IsHeldTree, TreeMap};
ghost use Rattle.path_trees.specs.Operations.{applied, grafted, joined, moved, sub, trees_touch};
ghost use Rattle.path_trees.specs.Room.{room};

/// Trees are partially ordered, and trees that are below each other are equal.
pub fn order_is_partial()
    ensures reflexive { (t : TreeMap) → Below t t }
    ensures transitive { (t u v : TreeMap) → Below t u → Below u v → Below t v }
    ensures antisymmetric { (t u : TreeMap) → Below t u → Below u t → t ≡ u }
{}

/// The join of two trees is above both, and below each tree that is above both.
pub fn join_is_least_upper_bound()
    ensures first { (t u : TreeMap) → Below t (joined t u) }
    ensures second { (t u : TreeMap) → Below u (joined t u) }
    ensures least { (t u v : TreeMap) → Below t v → Below u v → Below (joined t u) v }
{}

/// A greater tree gives a greater one, by each move: `bump`, `part`, `under`, `without` and `collapse`.
pub fn moves_are_monotone()
    ensures { (m : Move) (t u : TreeMap) → Below t u → Below (moved m t) (moved m u) }
{}

/// Each move of a join is the join of the moved.
pub fn moves_distribute_over_join()
    ensures { (m : Move) (t u : TreeMap) → moved m (joined t u) ≡ joined (moved m t) (moved m u) }
{}

/// A greater tree gives a greater one, by the operations along a path too.
pub fn operations_are_monotone()
    ensures join { (t u v w : TreeMap) → Below t v → Below u w → Below (joined t u) (joined v w) }
    ensures sub { (p : List Step) (t u : TreeMap) → Below t u → Below (sub t p) (sub u p) }
    ensures graft { (p : List Step) (t u : TreeMap) → Below t u → Below (grafted p t) (grafted p u) }
    ensures apply { (p : List Step) (out : Mark) (t u : TreeMap) → Below t u → Below (applied t p out) (applied u p out) }
{}

/// The operations along a path, of a join, are joins too.
pub fn operations_distribute_over_join()
    ensures sub { (p : List Step) (t u : TreeMap) → sub (joined t u) p ≡ joined (sub t p) (sub u p) }
    ensures graft { (p : List Step) (t u : TreeMap) → grafted p (joined t u) ≡ joined (grafted p t) (grafted p u) }
    ensures apply { (p : List Step) (out : Mark) (t u : TreeMap) → applied (joined t u) p out ≡ joined (applied t p out) (applied u p out) }
{}

/// What touches in two trees touches in greater ones.
pub fn touches_is_monotone()
    ensures { (t u v w : TreeMap) → Below t v → Below u w → IsTrue (trees_touch t u) → IsTrue (trees_touch v w) }
{}

/// There is less room above a greater tree, so a tree rises only finitely often.
pub fn room_falls()
    ensures falls { (t u : TreeMap) → IsHeldTree u → Below t u → ¬ (Below u t) → room u < room t }
    ensures keeps { (t u : TreeMap) → Below t u → room u ≤ room t }
{}
