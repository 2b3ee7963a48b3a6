//! What is posted.
ghost use Rattle.std.specs.Prelude.{◌≡◌, ℕ, List};

/// A value that tells a list, and a number that is a function of this list. A posted value is shared and never copied, and
/// its list begins with that of the value posted before.
pub trait Numbered {
    /// An entry of the list. Only contracts speak of it.
    type Item;

    // the list that the value tells
    ghost list: { Self → List Self.Item };

    // the number of a list
    ghost numbered: { List Self.Item → ℕ };

    /// The number of the list, as the version that the value is.
    fn number(&self) -> u64
        ensures { result ≡ numbered (list self.now) };
}
