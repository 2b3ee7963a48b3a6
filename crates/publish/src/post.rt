// A value that stands on the board, and the rule by which it replaces the one before.
ghost use Rattle.std.specs.Prelude.{◌≡◌, Some, IfOk};
ghost use Rattle.std.specs.Arc.{arc_value};
ghost use Rattle.publish.specs.Posts.{last_of};

use crate::sight::{Law, Sight};
use crate::values::Numbered;
use left_right::Absorb;
use logbook::Seen;
use std::alloc::{AllocError, Global};
use std::sync::Arc;

/// A value that was posted, with all that was posted up to it.
#[derive(Drop)]
pub struct Post<R: Numbered + Drop> {
    pub(crate) value: Arc<R, Global>,
    pub(crate) sight: Sight<R>,
    ghost last: { last_of sight.seen.log ≡ Some (arc_value value) },
}

impl<R: Numbered + Drop> Post<R> {
    /// The same value again. It fails where the count of its owners is full.
    pub(crate) fn again(&self) -> Result<Post<R>, AllocError>
        ensures { IfOk result (λ p. (arc_value p.value ≡ arc_value self.now.value) × (p.sight.seen ≡ self.now.sight.seen)) }
    {
        let value = Arc::try_clone(&self.value)?;
        Ok(Post {
            value,
            sight: self.sight.again(),
        })
    }
}

// An operation is the value that follows.
impl<R: Numbered + Drop> Absorb<Post<R>> for Post<R> {
    type State = (R, Seen<R, u64, Law<R>>);

    ghost state = { λ p. (arc_value p.value, p.sight.seen) };

    ghost applied = { λ _ o. (arc_value o.value, o.sight.seen) };

    fn absorb_first(&mut self, operation: &Post<R>, _other: &Post<R>) -> Result<(), AllocError> {
        *self = operation.again()?;
        Ok(())
    }
}
