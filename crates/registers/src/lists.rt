// The lengths of the lists that a gate is handed besides register memory.
// Kept: each call makes it field by field; a function over the fields of its guards was tried, and left their lengths open.
#[derive(Clone, Copy)]
pub struct Lists {
    pub start: usize,
    pub selectors: usize,
    pub rows: usize,
    pub small: usize,
    pub work: usize,
    pub scratch: usize,
}
