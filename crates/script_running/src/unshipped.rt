/// Why a declared block has no objects.
#[derive(Drop)]
pub(crate) enum Unshipped {
    /// It is not shipped, for the cause of this number.
    Refused(u32),
    NoMemory,
}
