//! An item of a fiber's work.

ghost use Rattle.std.specs.Prelude.{◌≡◌, IfOk};

use crate::mark::Mark;
use crate::variables::Variables;
use eio_value::NoMemory;

/// An item of work.
#[derive(Drop)]
pub enum Item {
    Mark(Mark),
    /// The end of a handler, which ran with variables of its own: the fiber's are back.
    Restore(Variables),
}

impl Item {
    /// A copy of it.
    ///
    /// # Errors
    /// [`NoMemory`] where memory runs out.
    pub(crate) fn try_clone(&self) -> Result<Item, NoMemory>
        ensures { IfOk result (λ it. it ≡ self.now) }
    {
        match self {
            Item::Mark(mark) => Ok(Item::Mark(*mark)),
            Item::Restore(variables) => Ok(Item::Restore(variables.try_clone()?)),
        }
    }
}
