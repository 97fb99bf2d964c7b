//! What a variable of a script can hold.

/// The number of a text in a table in which equal texts have equal numbers.
#[derive(Clone, Copy, Debug, PartialEq, Eq)]
pub struct TextId(pub u32);

/// What a variable of a script can hold.
#[derive(Clone, Copy, Debug, PartialEq, Eq)]
pub enum Value {
    /// The value of a call that answers nothing else.
    Unit,
    Int(i64),
    Text(TextId),
    /// A cancellation context, by its number in its domain.
    Ctx(u32),
    /// A switch, by its number in its domain.
    Switch(u32),
}
