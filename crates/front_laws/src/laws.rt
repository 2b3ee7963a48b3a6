//! Laws of files. Nothing here runs: a contract is the law.

ghost use Rattle.std.specs.Prelude.{◌≡◌};
ghost use Rattle.rv_names.specs.Keys.{Bytes};
ghost use Rattle.project.specs.declared.item.Item.{Item};
ghost use Rattle.front.specs.declared.faults.ReadFault.{ReadFault};
ghost use Rattle.front.specs.Reading.{Accepted, Refused, SameItem};

use front::ReadFault;
use project::Item;

/// No file is both accepted and refused.
pub fn one_reading()
    ensures { (path bytes : Bytes) (item : Item) (fault : ReadFault) → Accepted path bytes item → Refused path bytes fault → ⊥ }
{}

/// No file is refused for two causes.
pub fn one_fault()
    ensures { (path bytes : Bytes) (e f : ReadFault) → Refused path bytes e → Refused path bytes f → e ≡ f }
{}

/// No file is two items.
pub fn one_item()
    ensures { (path bytes : Bytes) (a b : Item) → Accepted path bytes a → Accepted path bytes b → SameItem a b }
{}
