/// Members of a list that stand one behind another: from the place of the first to that behind the
/// last.
#[derive(Clone, Copy, Debug, PartialEq, Eq)]
pub struct Span {
    pub start: usize,
    pub end: usize,
}
