//! The nearest of the forms that were seen.

ghost use Rattle.std.specs.Prelude.{◌≡◌, List};
ghost use Rattle.py_forms.specs.declared.telling.ToldForm.{ToldForm};
ghost use Rattle.later_forms.specs.Later.{listed, nearest};

use py_forms::ToldForm;

/// The form with the least place below a limit, of those that were seen.
#[derive(Clone, Copy, Debug, PartialEq, Eq)]
pub struct Nearest {
    /// Only what begins before it is nearer.
    pub limit: usize,
    pub form: Option<ToldForm>,
}

impl Nearest {
    /// Sees one more form.
    #[tactic(auto, using(crate::proofs::Along::nearest_nearer, crate::proofs::Along::nearest_farther))]
    pub fn with(self, form: Option<ToldForm>) -> Nearest
        ensures { (further : List ToldForm) → nearest result further ≡ nearest self (listed form further) }
    {
        match form {
            None => self,
            Some(found) => {
                if found.place < self.limit {
                    Nearest {
                        limit: found.place,
                        form,
                    }
                } else {
                    self
                }
            }
        }
    }
}
