//! What an incremental core stands on: the facts that hold of every state that it reaches.
//!
//! A core keeps the trees of all callables while files come and go. It hands out tasks, each of which solves the rows of one
//! callable for what the others gave when it was taken, keeps their results, and resets callables at edits.

ghost use Rattle.std.specs.Prelude.{◌≡◌, ℕ, Bool, None};
ghost use Rattle.path_trees.specs.Trees.{Below};
ghost use Rattle.rows.specs.declared.places.Place.{Place};
ghost use Rattle.rows.specs.Families.{Families};
ghost use Rattle.rows.specs.Programs.{Bodies, IsLeastOfAll, SolvesAll};
ghost use Rattle.rows.specs.Orders.{CoreFacts, Reached, Resets, Tasks, TasksFacts};
ghost use Rattle.rows.specs.Numberings.{Numbering, renamed_bodies, renamed_state, renamed_trees};
ghost use Rattle.rows.specs.Cores.{CoreState, CoreStep, IsClosed, IsReached, IsReady, IsStart, StateFacts, reset};

/// A core without files has the facts.
pub fn the_start_has_the_facts()
    ensures { (s : CoreState) → IsStart s → StateFacts s }
{}

/// Each step keeps the facts: a task is taken, its result is kept, a result that is out of date comes home, a task is given
/// back, an edit resets a closed set.
pub fn each_step_keeps()
    ensures { (s n : CoreState) → CoreStep s n → StateFacts s → StateFacts n }
{}

/// The facts hold after every list of steps; also where tasks are told by the trees of all callables when they were taken.
pub fn reached_keeps()
    ensures states { (s : CoreState) → IsReached s → StateFacts s }
    ensures families { (bodies : Bodies) (M : Families) (out : Tasks) → Reached bodies M out → CoreFacts bodies M × TasksFacts bodies M out }
{}

/// All that is reached lies below every solution of the present program.
pub fn reached_below()
    ensures states { (s : CoreState) → IsReached s → (G : Families) → SolvesAll s.bodies G → (g : ℕ) (p : Place) → Below (s.trees g p) (G g p) }
    ensures families { (bodies : Bodies) (M : Families) (out : Tasks) → Reached bodies M out → (G : Families) → SolvesAll bodies G → (g : ℕ) (p : Place) → Below (M g p) (G g p) }
{}

/// Where no callable is ready and none is out, the trees are the least solution of the present program.
pub fn settled_is_least()
    ensures { (s : CoreState) → StateFacts s → ((g : ℕ) → IsReady s g → ⊥) → ((g : ℕ) → s.out g ≡ None) → IsLeastOfAll s.bodies s.trees }
{}

/// A set that is closed by lists of callees and by cells may be reset.
pub fn closed_sets_reset()
    ensures { (old new : Bodies) (R : ℕ → Bool) (M : Families) → IsClosed old new R M → Resets old new R M (reset R M) }
{}

/// The numbers of callables do not matter: for other numbers, each callable's own, the least solution of the renamed program is
/// the renamed least solution, and what is reached by takings, results and edits is renamed. So the numbers of callables may
/// stay while others come and go.
pub fn numbers_do_not_matter()
    ensures least { (n : Numbering) (bodies : Bodies) (M : Families) → IsLeastOfAll bodies M → IsLeastOfAll (renamed_bodies n bodies) (renamed_trees n M) }
    ensures back { (n : Numbering) (bodies : Bodies) (N : Families) → IsLeastOfAll (renamed_bodies n bodies) N → IsLeastOfAll bodies (λ g p. N (n.number g) p) }
    ensures reached { (n : Numbering) (s : CoreState) → IsReached s → IsReached (renamed_state n s) }
{}
