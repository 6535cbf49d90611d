/// Bytes of an object that stand one behind another.
#[derive(Clone, Copy, Debug, PartialEq, Eq)]
pub struct ByteRange {
    pub from: u64,
    pub len: u64,
}
