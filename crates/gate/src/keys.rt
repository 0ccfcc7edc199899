// Key memory, lent for reading: the forms of the start key and of the selectors, and the switch rows.
#[derive(Clone, Copy)]
pub struct Keys<'a> {
    pub start: &'a [u32],
    pub selectors: &'a [u32],
    pub rows: &'a [u32],
}
