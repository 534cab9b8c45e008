/// Which slots of a page an update read, and which it wrote; bit k is that of slot k.
#[derive(Clone, Copy, Debug, PartialEq, Eq)]
pub struct SlotMarks {
    pub searched: u16,
    pub modified: u16,
}
