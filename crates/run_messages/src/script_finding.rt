//! Why a script is refused, as the report words it, and what that means.

ghost use Rattle.std.specs.Prelude.{◌≡◌, option_copied};
ghost use Rattle.run_messages.specs.ScriptFindings.{cause_words, numbered_cause, script_finding, script_words, worded_cause};

use base::read_unsigned;
use script_fields::next_field;

/// Why a script is refused. A number is that of the cause of a bad line.
#[derive(Clone, Copy, Debug, PartialEq, Eq)]
pub enum ScriptFinding {
    BadLine(u64),
    TooLong,
    FallingMoment,
    TwoCompactors,
    UnknownBlock,
    BlockChanged,
    NeverSynced,
    TooMany,
    BadRules,
}

/// Why a script is refused by a line behind its first word, as `refused: line 6: bad line 2`.
#[tactic(auto, unfolding(crate::specs::ScriptFindings::script_finding))]
pub(crate) fn script_finding(left: Option<&str>) -> Option<ScriptFinding>
    ensures { result ≡ script_finding (option_copied left.entry) }
{
    let (_, left) = next_field(left);
    let (first, left) = next_field(left);
    if first == "too" {
        return Some(ScriptFinding::TooLong);
    }
    let (_, left) = next_field(left);
    let (word, left) = next_field(left);
    let (next, left) = next_field(left);
    let (number, _) = next_field(left);
    if word == "bad" && next == "line" {
        return numbered_cause(number);
    }
    worded_cause(word)
}

fn numbered_cause(number: &str) -> Option<ScriptFinding>
    ensures { result ≡ numbered_cause number.now }
{
    match read_unsigned(number) {
        Ok(number) => Some(ScriptFinding::BadLine(number)),
        Err(_) => None,
    }
}

/// The cause that begins with this word.
#[tactic(auto, unfolding(crate::specs::ScriptFindings::worded_cause))]
fn worded_cause(word: &str) -> Option<ScriptFinding>
    ensures { result ≡ worded_cause word.now }
{
    if word == "bad" {
        Some(ScriptFinding::BadRules)
    } else if word == "falling" {
        Some(ScriptFinding::FallingMoment)
    } else if word == "two" {
        Some(ScriptFinding::TwoCompactors)
    } else if word == "unknown" {
        Some(ScriptFinding::UnknownBlock)
    } else if word == "block" {
        Some(ScriptFinding::BlockChanged)
    } else if word == "never" {
        Some(ScriptFinding::NeverSynced)
    } else if word == "too" {
        Some(ScriptFinding::TooMany)
    } else {
        None
    }
}

/// What a refusal means.
pub(crate) fn script_sentence(finding: ScriptFinding) -> &'static str
    ensures { result.now ≡ script_words finding }
{
    match finding {
        ScriptFinding::BadLine(cause) => cause_sentence(cause),
        ScriptFinding::TooLong => "A script has at most 67,108,864 bytes.",
        ScriptFinding::FallingMoment => "Its phase would begin before the one above it.",
        ScriptFinding::TwoCompactors => "Its phase has a compaction already.",
        ScriptFinding::UnknownBlock => "No line above declares its block.",
        ScriptFinding::BlockChanged => "A line above declares its ULID already.",
        ScriptFinding::NeverSynced =>
            "Some gateway has no sync line above it. Each gateway needs one before the first query.",
        ScriptFinding::TooMany =>
            "It passes a limit: 16 gateways, 4,096 blocks, 65,536 tasks, 64 workers in a phase.",
        ScriptFinding::BadRules =>
            "What is wrong stands in the rule lines above it: the upload limit may pass neither the partial delay nor the delete delay less a second, nor the ignore delay the delete delay.",
    }
}

/// What is wrong with a bad line, by the number of the cause.
#[tactic(auto, unfolding(crate::specs::ScriptFindings::cause_words))]
fn cause_sentence(cause: u64) -> &'static str
    ensures { result.now ≡ cause_words cause }
{
    match cause {
        1 => "It is not UTF-8.",
        2 =>
            "Its word, or the name of its rule, is none that scripts have. (A file may begin with a byte order mark, which is none.)",
        3 => "A field is missing, empty or one too many, or there is a space too many.",
        4 =>
            "A number is not decimal, has a needless zero in front, or is out of its range. Dates stand behind at alone.",
        5 => "The moment is none: milliseconds since 1970, or a date as 2024-10-04T00:00:00Z.",
        6 =>
            "The span is none: digits and ms, s, m or h, and no sum of these. There is no d: 30 days are 720h. A tick is at most 24h.",
        7 => "The ULID is none: 26 characters of 0 to 9 and A to Z, without I, L, O and U.",
        8 =>
            "The name is none: a letter or _, and then letters, digits or _. (A line that ends with a carriage return has one more character.)",
        9 =>
            "The label set is none: it is written as {a=\"x\",b=\"y\"}, without spaces, without an empty value, and no name twice.",
        10 => "A sample is not a time, a colon and 16 lower-case hexadecimal digits.",
        11 => "A sample's time is not above that of the sample before it.",
        12 => "A sample's time is before the block's MIN, or not before its MAX.",
        13 => "The block has a series with these labels already.",
        14 => "The block has no series line.",
        15 => "A series line has to stand behind a block line, or behind another series line.",
        16 => "A task has to stand behind an at line.",
        17 => "Rules, gateways and blocks have to stand before the first at line.",
        18 => "MIN is not below MAX, or LOW is above HIGH.",
        19 => "The ULID is one of those that are kept for compacted blocks.",
        20 => "No line above declares this gateway.",
        21 => "A line above declares this gateway already.",
        22 =>
            "The selector is none: a name, or matchers as {a=\"x\",b=~\"y.*\"}, or a name with matchers behind it.",
        23 => "A pattern of the selector is none, or nests too deep.",
        24 => "The selector names a replica label, which answers leave out.",
        25 => "A pattern of the selector is too large.",
        _ => "",
    }
}
