//! A query over several gateways: which of them are asked for which times, and the one answer that theirs make.
#![tactic(auto)]

mod alike;
mod answer;
mod asking;
mod compare_way;
mod gather;
mod repeats;

pub use answer::{Answer, AnswerList, Names, NamesList};
pub use asking::{Ask, AskList, fan_out};
pub use compare_way::{CompareWay, InTurn};
pub use gather::Gather;
