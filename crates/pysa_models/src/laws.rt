//! What holds of all qualified names.

ghost use Rattle.std.specs.Prelude.{◌≡◌, true, List, Some, slice_get};
ghost use Rattle.rv_names.specs.Keys.{Parts, bytes_order, dotted, parts_order};
ghost use Rattle.taint_config.specs.Config.{ConfigParts};
ghost use Rattle.pysa_models.specs.Leaves.{AreLeaves, is_leaf};
ghost use Rattle.pysa_models.specs.Models.{ModelAt, leaf_number};
ghost use Rattle.pysa_models.specs.Printed.{AreAllAboveDot};

/// The order of qualified names is that of the bytes in which they are printed, where each byte of a name is above the dot.
pub fn order_is_that_of_printed_names()
    ensures { (a b : Parts) → AreAllAboveDot a → AreAllAboveDot b → bytes_order (dotted a) (dotted b) ≡ parts_order a b }
{}

/// Each leaf stands at its number, so a mark of a known kind tells the name that declares it.
pub fn leaves_stand_at_their_numbers()
    ensures { (c : ConfigParts) (models : List ModelAt) (leaves : List Parts) (q : Parts) → AreLeaves c models leaves → is_leaf c models q ≡ true → slice_get leaves (leaf_number leaves q) ≡ Some q }
{}
