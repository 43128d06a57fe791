/// How an assembly by several threads goes.
#[derive(Clone, Copy, Debug, PartialEq, Eq)]
pub struct Plan {
    /// How many workers there are: 1 to 64.
    pub workers: u32,
    /// How many copy objects a pipeline has: 1 to 256.
    pub queue: u32,
    /// How many cells an item of a pipeline has: 1 to 64.
    pub chunk: u32,
    /// How many scratch objects there are: 1 to 64.
    pub scratch: u32,
    /// How many leading binary digits are kept of each sum: 0, which keeps all, to 64.
    pub digits: u32,
}
