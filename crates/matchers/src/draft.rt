//! The text of a selector, read byte by byte.
ghost use Rattle.std.specs.Prelude.{◌≡◌, [], ◌∷◌, ◌++◌, Ok, IfOk, OnOk};
ghost use Rattle.std.specs.Str.{IsUtf8};
ghost use Rattle.base.specs.Reading.{Gives};
ghost use Rattle.matchers.specs.declared.selector_refusal.SelectorRefusal.{SelectorRefusal};
ghost use Rattle.matchers.specs.Stages.{nothing_read, goes_to, with_metric, with_name, with_operator, with_quote, with_value, with_asked, after_start, after_metric, after_comma, after_name, after_exclamation, after_equals, after_sign, in_value, after_backslash, after_quote, step, ended_draft, read_whole, AreTexts};

use crate::SelectorRefusal;
use crate::asked::{Asked, Operator};
use crate::names::{is_metric_byte, is_metric_start};
use crate::stage::Stage;
use base::{List, NoMemory};
use label_sets::{is_name_byte, is_name_start};
use std::alloc::Global;
use std::mem;

/// What of a selector has been read: its metric name, its matchers, and the one that is not yet whole.
#[derive(Drop)]
pub(crate) struct Draft {
    pub(crate) stage: Stage,
    pub(crate) metric: List<u8>,
    pub(crate) listed: List<Asked>,
    pub(crate) asked: Asked,
}

/// Reads the whole text of a selector.
pub(crate) fn read_draft(alloc: Global, text: &[u8]) -> Result<Draft, SelectorRefusal>
    requires { IsUtf8 text.now }
    ensures gives { Gives SelectorRefusal.NoMemory (λ draft. draft) result (read_whole text.now) }
    ensures texts { IfOk result (λ draft. AreTexts draft) }
{
    let mut draft = Draft::new(alloc);
    for place in 0..text.len() {
        draft.step(alloc, place, text[place])?;
    }
    draft.ended_draft(text.len())
}

impl Draft {
    fn new(alloc: Global) -> Draft
        ensures { result ≡ nothing_read }
    {
        Draft {
            stage: Stage::Start,
            metric: List::new(alloc),
            listed: List::new(alloc),
            asked: Asked::new(alloc),
        }
    }

    /// The draft, where a selector may end here.
    #[tactic(auto, unfolding(crate::specs::Stages::ended_draft))]
    fn ended_draft(self, place: usize) -> Result<Draft, SelectorRefusal>
        ensures { Gives SelectorRefusal.NoMemory (λ draft. draft) result (ended_draft self place) }
    {
        match self.stage {
            Stage::Metric | Stage::End => Ok(self),
            _ => Err(SelectorRefusal::BadSelector(place)),
        }
    }

    /// Goes on by the byte at a place.
    #[tactic(auto, unfolding(crate::specs::Stages::step))]
    fn step(&mut self, alloc: Global, place: usize, byte: u8) -> Result<(), SelectorRefusal>
        ensures { Gives SelectorRefusal.NoMemory (λ _. self.new) result (step self.old place byte) }
    {
        let stage = self.stage;
        match stage {
            Stage::Start => self.after_start(place, byte),
            Stage::Metric => self.after_metric(place, byte),
            Stage::Comma => self.after_comma(place, byte),
            Stage::Name => self.after_name(place, byte),
            Stage::Exclamation => self.after_exclamation(place, byte),
            Stage::Equals => self.after_equals(place, byte),
            Stage::Sign => self.after_sign(place, byte),
            Stage::Value => self.in_value(place, byte),
            Stage::Backslash => self.after_backslash(place, byte),
            Stage::Quote => self.after_quote(alloc, place, byte),
            Stage::End => Err(SelectorRefusal::BadSelector(place)),
        }
    }

    #[tactic(auto, unfolding(crate::specs::Stages::after_start))]
    fn after_start(&mut self, place: usize, byte: u8) -> Result<(), SelectorRefusal>
        ensures { Gives SelectorRefusal.NoMemory (λ _. self.new) result
            (after_start self.old place byte) }
    {
        if byte == b'{' {
            self.stage = Stage::Comma;
            return Ok(());
        }
        if is_metric_start(byte) {
            return Ok(self.push_metric(byte)?);
        }
        Err(SelectorRefusal::BadSelector(place))
    }

    #[tactic(auto, unfolding(crate::specs::Stages::after_metric))]
    fn after_metric(&mut self, place: usize, byte: u8) -> Result<(), SelectorRefusal>
        ensures { Gives SelectorRefusal.NoMemory (λ _. self.new) result
            (after_metric self.old place byte) }
    {
        if byte == b'{' {
            self.stage = Stage::Comma;
            return Ok(());
        }
        if is_metric_byte(byte) {
            return Ok(self.push_metric(byte)?);
        }
        Err(SelectorRefusal::BadSelector(place))
    }

    #[tactic(auto, unfolding(crate::specs::Stages::after_comma))]
    fn after_comma(&mut self, place: usize, byte: u8) -> Result<(), SelectorRefusal>
        ensures { Gives SelectorRefusal.NoMemory (λ _. self.new) result
            (after_comma self.old place byte) }
    {
        if byte == b'}' {
            self.stage = Stage::End;
            return Ok(());
        }
        if is_name_start(byte) {
            return Ok(self.push_name(byte)?);
        }
        Err(SelectorRefusal::BadSelector(place))
    }

    #[tactic(auto, unfolding(crate::specs::Stages::after_name))]
    fn after_name(&mut self, place: usize, byte: u8) -> Result<(), SelectorRefusal>
        ensures { Gives SelectorRefusal.NoMemory (λ _. self.new) result
            (after_name self.old place byte) }
    {
        if byte == b'=' {
            self.set_operator(Operator::Equal, Stage::Equals);
            return Ok(());
        }
        if byte == b'!' {
            self.stage = Stage::Exclamation;
            return Ok(());
        }
        if is_name_byte(byte) {
            return Ok(self.push_name(byte)?);
        }
        Err(SelectorRefusal::BadSelector(place))
    }

    #[tactic(auto, unfolding(crate::specs::Stages::after_exclamation))]
    fn after_exclamation(&mut self, place: usize, byte: u8) -> Result<(), SelectorRefusal>
        ensures { Gives SelectorRefusal.NoMemory (λ _. self.new) result
            (after_exclamation self.old place byte) }
    {
        if byte == b'=' {
            self.set_operator(Operator::NotEqual, Stage::Sign);
            return Ok(());
        }
        if byte == b'~' {
            self.set_operator(Operator::MatchesNot, Stage::Sign);
            return Ok(());
        }
        Err(SelectorRefusal::BadSelector(place))
    }

    #[tactic(auto, unfolding(crate::specs::Stages::after_equals))]
    fn after_equals(&mut self, place: usize, byte: u8) -> Result<(), SelectorRefusal>
        ensures { Gives SelectorRefusal.NoMemory (λ _. self.new) result
            (after_equals self.old place byte) }
    {
        if byte == b'"' {
            self.open_quote(place);
            return Ok(());
        }
        if byte == b'~' {
            self.set_operator(Operator::Matches, Stage::Sign);
            return Ok(());
        }
        Err(SelectorRefusal::BadSelector(place))
    }

    #[tactic(auto, unfolding(crate::specs::Stages::after_sign))]
    fn after_sign(&mut self, place: usize, byte: u8) -> Result<(), SelectorRefusal>
        ensures { Gives SelectorRefusal.NoMemory (λ _. self.new) result
            (after_sign self.old place byte) }
    {
        if byte == b'"' {
            self.open_quote(place);
            return Ok(());
        }
        Err(SelectorRefusal::BadSelector(place))
    }

    #[tactic(auto, unfolding(crate::specs::Stages::in_value))]
    fn in_value(&mut self, place: usize, byte: u8) -> Result<(), SelectorRefusal>
        ensures { Gives SelectorRefusal.NoMemory (λ _. self.new) result
            (in_value self.old place byte) }
    {
        if byte == b'"' {
            self.stage = Stage::Quote;
            return Ok(());
        }
        if byte == b'\\' {
            self.stage = Stage::Backslash;
            return Ok(());
        }
        if byte == b'\n' {
            return Err(SelectorRefusal::BadSelector(place));
        }
        Ok(self.push_value(byte)?)
    }

    #[tactic(auto, unfolding(crate::specs::Stages::after_backslash))]
    fn after_backslash(&mut self, place: usize, byte: u8) -> Result<(), SelectorRefusal>
        ensures { Gives SelectorRefusal.NoMemory (λ _. self.new) result
            (after_backslash self.old place byte) }
    {
        if byte == b'n' {
            return Ok(self.push_value(b'\n')?);
        }
        if byte == b'\\' || byte == b'"' {
            return Ok(self.push_value(byte)?);
        }
        Err(SelectorRefusal::BadSelector(place))
    }

    #[tactic(auto, unfolding(crate::specs::Stages::after_quote))]
    fn after_quote(&mut self, alloc: Global, place: usize, byte: u8) -> Result<(), SelectorRefusal>
        ensures { Gives SelectorRefusal.NoMemory (λ _. self.new) result
            (after_quote self.old place byte) }
    {
        if byte == b',' {
            return Ok(self.push_asked(alloc, Stage::Comma)?);
        }
        if byte == b'}' {
            return Ok(self.push_asked(alloc, Stage::End)?);
        }
        Err(SelectorRefusal::BadSelector(place))
    }

    fn push_metric(&mut self, byte: u8) -> Result<(), NoMemory>
        ensures { OnOk result (with_metric byte self.old ≡ Ok self.new) }
    {
        self.metric.push(byte)?;
        self.stage = Stage::Metric;
        Ok(())
    }

    fn push_name(&mut self, byte: u8) -> Result<(), NoMemory>
        ensures { OnOk result (with_name byte self.old ≡ Ok self.new) }
    {
        self.asked.name.push(byte)?;
        self.stage = Stage::Name;
        Ok(())
    }

    fn set_operator(&mut self, operator: Operator, stage: Stage)
        ensures { with_operator operator stage self.old ≡ Ok self.new }
    {
        self.asked.operator = operator;
        self.stage = stage;
    }

    fn open_quote(&mut self, place: usize)
        ensures { with_quote place self.old ≡ Ok self.new }
    {
        self.asked.quote = place;
        self.stage = Stage::Value;
    }

    fn push_value(&mut self, byte: u8) -> Result<(), NoMemory>
        ensures { OnOk result (with_value byte self.old ≡ Ok self.new) }
    {
        self.asked.value.push(byte)?;
        self.stage = Stage::Value;
        Ok(())
    }

    fn push_asked(&mut self, alloc: Global, stage: Stage) -> Result<(), NoMemory>
        ensures { OnOk result (with_asked stage self.old ≡ Ok self.new) }
    {
        let asked = mem::replace(&mut self.asked, Asked::new(alloc));
        self.listed.push(asked)?;
        self.stage = stage;
        Ok(())
    }
}
