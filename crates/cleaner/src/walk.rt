//! How the names of a bucket are gone through, page by page. A bucket is not trusted to list in order: behind names
//! that do not ascend nobody knows what is still to come, so the walk ends there, and at a million names.

ghost use Rattle.std.specs.Prelude.{◌≡◌, ◌+◌, ◌<◌, ◌≤◌, ◌^◌, [], length, None, unwrap_or, Ok, IfOk};
ghost use Rattle.world_core.specs.Limits.{most_listed};
ghost use Rattle.world_core.specs.Walks.{last_listed};
ghost use Rattle.cleaner.specs.Pages.{page_of};

use base::{NoMemory, TryCopy};
use label_sets::Text;
use std::alloc::Global;
use world_core::{MOST_LISTED, ascends, is_short, last_name};

/// What a page of names is to a walk.
#[derive(Clone, Copy)]
pub(crate) enum Page {
    /// A name is not greater than the one before it.
    Unordered,
    /// It is shorter than was asked for.
    Last,
    /// It is not, and as many names were listed as may be.
    TooMany,
    /// Another page follows.
    Full,
}

/// How far a walk of pages has come.
#[derive(Drop)]
pub(crate) struct Walk {
    /// How many names were listed.
    listed: u64,
    /// The last of them, if there is one.
    last: Option<Text>,
}

impl Walk {
    /// A walk that was not begun.
    pub(crate) fn new() -> Walk
        ensures listed { result.listed ≡ 0 }
        ensures last { result.last ≡ None }
    {
        Walk {
            listed: 0,
            last: None,
        }
    }

    /// The name after which the next page begins, which is empty at first.
    pub(crate) fn cursor(&self, alloc: Global) -> Result<Text, NoMemory>
        ensures { IfOk result (λ name. name ≡ unwrap_or self.now.last []) }
    {
        match &self.last {
            Some(name) => name.copy(),
            None => Text::from_str(alloc, ""),
        }
    }

    /// Goes on by the names of a page.
    pub(crate) fn take(&mut self, names: &[Text], limit: u32) -> Result<Page, NoMemory>
        requires { 1 ≤ limit }
        ensures kind { IfOk result (λ page. page
            ≡ page_of limit self.old.listed self.old.last names.now) }
        ensures short { result ≡ Ok Page.Last → length names.now < 2 ^ 32 }
        ensures listed { result ≡ Ok Page.Full
            → self.new.listed ≡ self.old.listed + length names.now }
        ensures some { result ≡ Ok Page.Full → 0 < length names.now }
        ensures few { result ≡ Ok Page.Full → self.new.listed < most_listed }
        ensures last { result ≡ Ok Page.Full → self.new.last ≡ last_listed names.now }
    {
        if !ascends(self.last.as_ref(), names) {
            return Ok(Page::Unordered);
        }
        if is_short(names.len(), limit) {
            return Ok(Page::Last);
        }
        let listed = self.listed.saturating_add(names.len() as u64);
        if listed >= MOST_LISTED {
            return Ok(Page::TooMany);
        }
        self.listed = listed;
        self.last = Some(last_name(names)?);
        Ok(Page::Full)
    }
}
