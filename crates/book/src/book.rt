use elements::attributes::Attributes;
use elements::waiting::Waiting;

// What was scanned so far: the elements that faces refer to, and the faces that wait for an export.
#[derive(Drop)]
pub struct Book {
    pub(crate) attributes: Attributes,
    pub(crate) waiting: Waiting,
}
