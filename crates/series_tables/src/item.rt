//! One item of a plan, as its maker gives it.

/// An item: its name, and the number of the item that it is a part of.
#[derive(Debug, Drop)]
pub struct Item {
    /// The name: 1 to 32 ASCII letters, digits, `_`, `.` or `-`, which no other item of the plan has.
    pub name: Vec<u8>,
    /// The number of its parent, which is smaller than its own; none for a root.
    pub parent: Option<u16>,
}
