/// What of a selector was read last.
#[derive(Clone, Copy)]
pub(crate) enum Stage {
    Start,
    Metric,
    /// A comma, or the opening brace.
    Comma,
    Name,
    Exclamation,
    /// The sign `=`, which `~` may follow.
    Equals,
    /// Another operator, which is whole.
    Sign,
    /// The opening quote, or a byte of the value.
    Value,
    Backslash,
    /// The closing quote.
    Quote,
    End,
}
