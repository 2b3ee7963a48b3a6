//! What holds of all models.

ghost use Rattle.std.specs.Prelude.{◌≡◌, ℕ, ◌<◌, ◌≤◌, IsTrue, length};
ghost use Rattle.path_trees.specs.declared.steps.Step.{Step};
ghost use Rattle.path_trees.specs.declared.moves.Move.TheVariants.{Bump};
ghost use Rattle.path_trees.specs.Steps.{meets};
ghost use Rattle.path_trees.specs.Trees.{Below, TreeMap};
ghost use Rattle.path_trees.specs.Operations.{joined, moved};
ghost use Rattle.taint_model.specs.declared.models.Model.{Model};
ghost use Rattle.taint_model.specs.Puts.{HasNoEmptyTree, PutMap, PutsBelow, cells_at, joined_puts, tree_at, with_put};
ghost use Rattle.taint_model.specs.Models.{IsHeldModel, ModelBelow, empty_model, joined_models, model_room};

/// Models are partially ordered. Models that are below each other are equal, where no cell has the empty tree.
pub fn order_is_partial()
    ensures reflexive { (a : Model) → ModelBelow a a }
    ensures transitive { (a b c : Model) → ModelBelow a b → ModelBelow b c → ModelBelow a c }
    ensures antisymmetric { (a b : Model) → HasNoEmptyTree a.puts → HasNoEmptyTree b.puts → ModelBelow a b → ModelBelow b a → a ≡ b }
{}

/// The join of two models of callables with as many parameters is above both, and below each model that is above both.
pub fn join_is_least_upper_bound()
    ensures first { (a b : Model) → length a.back ≡ length b.back → ModelBelow a (joined_models a b) }
    ensures second { (a b : Model) → length a.back ≡ length b.back → ModelBelow b (joined_models a b) }
    ensures least { (a b c : Model) → ModelBelow a c → ModelBelow b c → ModelBelow (joined_models a b) c }
{}

/// A model that is below another is of as many parameters, and so are an empty model and the join of models.
pub fn parameters_are_kept()
    ensures empty { (params : ℕ) → length (empty_model params).back ≡ params }
    ensures below { (a b : Model) → ModelBelow a b → length a.back ≡ length b.back }
    ensures join { (a b : Model) → length a.back ≡ length b.back → length (joined_models a b).back ≡ length a.back }
{}

/// The empty model is below each model of as many parameters.
pub fn empty_is_least()
    ensures { (a : Model) → ModelBelow (empty_model (length a.back)) a }
{}

/// What a cell has once a tree was put into one, and in the join of puts.
pub fn puts_are_read_as_put()
    ensures here { (p : PutMap) (c : Step) (t : TreeMap) → tree_at (with_put p c t) c ≡ joined (tree_at p c) t }
    ensures elsewhere { (p : PutMap) (c : Step) (t : TreeMap) (d : Step) → ¬ (d ≡ c) → tree_at (with_put p c t) d ≡ tree_at p d }
    ensures join { (p q : PutMap) (c : Step) → tree_at (joined_puts p q) c ≡ joined (tree_at p c) (tree_at q c) }
{}

/// Puts with a tree put into a cell are above those without, and have the tree there; and they are below all such. So a put of
/// a greater tree to greater puts gives greater ones.
pub fn put_is_least_upper_bound()
    ensures first { (p : PutMap) (c : Step) (t : TreeMap) → PutsBelow p (with_put p c t) }
    ensures second { (p : PutMap) (c : Step) (t : TreeMap) → Below t (tree_at (with_put p c t) c) }
    ensures least { (p q : PutMap) (c : Step) (t : TreeMap) → PutsBelow p q → Below t (tree_at q c) → PutsBelow (with_put p c t) q }
    ensures monotone { (p q : PutMap) (c : Step) (t u : TreeMap) → PutsBelow p q → Below t u → PutsBelow (with_put p c t) (with_put q c u) }
{}

/// What is found at a step has the tree of each cell that meets the step, each distance one more, and nothing else.
pub fn cells_at_is_least_upper_bound()
    ensures above { (p : PutMap) (s c : Step) → IsTrue (meets c s) → Below (moved Bump (tree_at p c)) (cells_at p s) }
    ensures least { (p : PutMap) (s : Step) (t : TreeMap) → ((c : Step) → IsTrue (meets c s) → Below (moved Bump (tree_at p c)) t) → Below (cells_at p s) t }
{}

/// In greater puts more is found.
pub fn cells_at_is_monotone()
    ensures { (p q : PutMap) (s : Step) → PutsBelow p q → Below (cells_at p s) (cells_at q s) }
{}

/// What is found in a join is the join of what is found.
pub fn cells_at_distributes_over_join()
    ensures { (p q : PutMap) (s : Step) → cells_at (joined_puts p q) s ≡ joined (cells_at p s) (cells_at q s) }
{}

/// There is less room above a greater model, so a model rises only finitely often.
pub fn room_falls()
    ensures falls { (a b : Model) → IsHeldModel b → ModelBelow a b → ¬ (ModelBelow b a) → model_room b < model_room a }
    ensures keeps { (a b : Model) → ModelBelow a b → model_room b ≤ model_room a }
{}
