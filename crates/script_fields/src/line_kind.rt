/// What a line is, by its first word.
#[derive(Clone, Copy, Debug, PartialEq, Eq)]
pub enum LineKind {
    Rule,
    Gateway,
    Block,
    Series,
    Shelf,
    At,
    Upload,
    Sync,
    Compact,
    Clean,
    Query,
}

impl LineKind {
    ghost use Rattle.std.specs.Prelude.{◌≡◌};
    ghost use Rattle.script_fields.specs.Fields.{line_kind};

    /// The kind of the lines that begin with this word, if there is one.
    pub fn of_word(word: &str) -> Option<LineKind>
        ensures { result ≡ line_kind word.now }
    {
        match word {
            "rule" => Some(LineKind::Rule),
            "gateway" => Some(LineKind::Gateway),
            "block" => Some(LineKind::Block),
            "series" => Some(LineKind::Series),
            "shelf" => Some(LineKind::Shelf),
            "at" => Some(LineKind::At),
            "upload" => Some(LineKind::Upload),
            "sync" => Some(LineKind::Sync),
            "compact" => Some(LineKind::Compact),
            "clean" => Some(LineKind::Clean),
            "query" => Some(LineKind::Query),
            _ => None,
        }
    }
}
