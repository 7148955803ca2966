use ft_base::{Items, Memory};

/// Child numbers, counted from 1, read from the root down. The empty list names the root.
pub type Place = Items<u32>;

/// Where an insertion puts its content.
#[derive(Clone, Copy)]
pub enum How {
    /// Before the element's children.
    First,
    /// After the element's children.
    Last,
    /// Before the element, among its siblings.
    Before,
    /// After the element, among its siblings.
    After,
}

/// Why an edit was not made. The document is then as it was.
#[derive(Clone, Copy)]
pub enum PlaceFault {
    /// The place names no element, or the root for an edit that needs siblings.
    NoSuchPlace,
    /// There was not enough memory.
    Memory,
}

impl From<Memory> for PlaceFault {
    fn from(_memory: Memory) -> PlaceFault {
        PlaceFault::Memory
    }
}
