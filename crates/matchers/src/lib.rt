//! Selectors: what a query asks of a label set.
#![tactic(auto)]

mod asked;
mod building;
mod condition;
mod condition_searcher;
mod draft;
mod matcher;
mod names;
mod pattern;
mod pattern_refusal;
mod pattern_searcher;
mod replicas;
mod selector;
mod selector_refusal;
mod stage;

pub use condition::Condition;
pub use condition_searcher::ConditionSearcher;
pub use matcher::Matcher;
pub use pattern::Pattern;
pub use pattern_refusal::PatternRefusal;
pub use pattern_searcher::PatternSearcher;
pub use selector::{Selector, SelectorList};
pub use selector_refusal::SelectorRefusal;
