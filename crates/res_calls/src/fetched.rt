//! The results of fetching a resource.

use heap_calls::Refusal;

/// A resource that was fetched.
#[derive(Clone, Copy, Debug, PartialEq, Eq)]
pub struct Fetched {
    /// The number of the resource's handle in the heap.
    pub handle: usize,
    /// Whether the stored data was read into the handle's block.
    pub read: bool,
}

/// A resource that was not fetched.
#[derive(Clone, Copy, Debug, PartialEq, Eq)]
pub struct Unread {
    /// The reason why the resource was not fetched.
    pub refusal: Refusal,
    /// The number of the empty handle into whose block the stored data would have been read again,
    /// if the resource had an empty handle.
    pub reading: Option<usize>,
}
