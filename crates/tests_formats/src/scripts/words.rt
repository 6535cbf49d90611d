use crate::says::say_text;
use script_core::LineCause::{PatternSizeText, UnknownWord};
use script_core::ScriptRefusal::{
    self, BadLine, BadRules, BlockChanged, FallingMoment, NeverSynced, TooLong, TooMany,
    TwoCompactors, UnknownBlock,
};

/// Refusals of each kind.
static REFUSALS: [ScriptRefusal; 10] = [
    TooLong,
    BadLine(1, UnknownWord),
    BadLine(4, PatternSizeText),
    FallingMoment(2),
    TwoCompactors(3),
    UnknownBlock(2),
    BlockChanged(2),
    BadRules(2),
    NeverSynced(3),
    TooMany(17),
];

/// Prints how reports word the refusals.
pub(crate) fn print_words(rt: &HostRuntime) {
    for refusal in REFUSALS {
        let mut text = Vec::new(rt.alloc());
        let _ = refusal.write(&mut text);
        say_text(rt, text.as_slice());
    }
}
