//! The sentences of causes.

ghost use Rattle.std.specs.Prelude.{◌≡◌};
ghost use Rattle.run_messages.specs.Sentences.{breach_words, refused_words, sentence_of};

use crate::finding::Finding;
use crate::script_finding::script_sentence;
use breach_finding::BreachRule;

/// What a failure means.
pub(crate) fn sentence(finding: Finding) -> &'static str
    ensures { result.now ≡ sentence_of finding }
{
    match finding {
        Finding::Fault(_) => "The bucket failed.",
        Finding::Missing(_) => "It found nothing.",
        Finding::Damaged(_) => "What it found is not as it may be.",
        Finding::Refused(number) => refused_sentence(number),
        Finding::NoView => "No sync of this gateway gave a view before. Its sync lines say why.",
        Finding::TooMany => "The pages came to a million names.",
        Finding::TooLarge => {
            "The index of the new block would have more than 67,108,864 bytes, so it was not put."
        }
        Finding::Script(refusal) => script_sentence(refusal),
        Finding::Breach(breach) => breach_sentence(breach.rule),
    }
}

/// What a breach of a rule means. By how much it was broken is told behind it.
fn breach_sentence(rule: BreachRule) -> &'static str
    ensures { result.now ≡ breach_words rule }
{
    match rule {
        BreachRule::Bucket => {
            "The reply shows something else than what stands there: the bucket lied, or somebody else wrote in it."
        }
        BreachRule::UploadTime => {
            "Its block may be put from the time of its ULID on, and not later than the upload limit after it."
        }
        BreachRule::MarkTime => {
            "A mark may not land later than the ignore delay after the second in it."
        }
        BreachRule::SyncTime => {
            "A sync may not read for longer than the ignore delay, less a second."
        }
        BreachRule::ViewTime => {
            "Its gateway had not synced for too long: the view by which it read was too old."
        }
        BreachRule::ReadTime => {
            "A compaction may not read for longer than half of the delete delay."
        }
    }
}

/// Why a block is refused for the cause of this number.
#[tactic(auto, unfolding(crate::specs::Sentences::refused_words))]
fn refused_sentence(number: u64) -> &'static str
    ensures { result.now ≡ refused_words number }
{
    match number {
        1 =>
            "A file of it is absent: the meta, the index, or a segment that the index names. Without a shelf the meta is.",
        2 => "Its meta.json is no meta of version 1.",
        3 => "Its meta has another ULID than its folder.",
        4 => "Its level is not 1: a compaction made it. That says nothing of damage.",
        5 => "Its sources are not the block alone. That says nothing of damage.",
        6 => "Its samples were thinned out. That says nothing of damage.",
        7 =>
            "It is too large: its meta.json has more than 4,194,304 bytes, another file more than 67,108,864 (or its index would), or its segments more than 1,073,741,824 together.",
        8 => "Its index is bad.",
        9 => "Its index has no series.",
        10 => "A chunk of it is bad, has no samples, or has other times than its index says.",
        11 => "A sample of it lies outside its times.",
        12 => "The chunks of a series of it share a time, or are out of order.",
        13 => "Its series name more chunks or labels than its files have bytes for.",
        _ => "",
    }
}
