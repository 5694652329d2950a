// What the panel keeps.
use crate::reading::Reading;

#[derive(Clone, Copy)]
pub struct Panel {
    pub(crate) last: Option<Reading>,
    pub(crate) repaints: u32,
}
