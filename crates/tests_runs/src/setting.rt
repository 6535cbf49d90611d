//! What goes wrong outside of a run.
use crate::says::cut;
use crate::strange_bucket::Lie;
use bucket_core::{Fail, FailList};
use std::alloc::Global;

/// Which call of the bucket, of the shelf, of the source and of the sink fails, whether the site does, and how the bucket lies.
#[derive(Clone, Copy)]
pub(crate) struct Setting {
    pub(crate) bucket: Option<Fail>,
    pub(crate) shelf: Option<Fail>,
    pub(crate) source: Option<u64>,
    pub(crate) sink: Option<u64>,
    pub(crate) site: bool,
    pub(crate) lie: Lie,
}

/// Nothing goes wrong.
pub(crate) const CALM: Setting = Setting {
    bucket: None,
    shelf: None,
    source: None,
    sink: None,
    site: false,
    lie: Lie::Never,
};

/// What a row says of it.
pub(crate) fn setting_of(how: &str) -> Setting {
    let (word, number) = cut(how);
    let call: u64 = number.parse().unwrap_or(0);
    let mut setting = CALM;
    match word {
        "fails" => {
            setting.bucket = Some(Fail {
                call,
                landed: false,
            });
        }
        "lands" => setting.bucket = Some(Fail { call, landed: true }),
        "source" => setting.source = Some(call),
        "sink" => setting.sink = Some(call),
        "site" => setting.site = true,
        "metas" => setting.lie = Lie::Metas,
        "indexes" => setting.lie = Lie::Indexes,
        "lost" => setting.lie = Lie::Lost,
        "pages" => setting.lie = Lie::Pages,
        _ => {}
    }
    setting
}

/// The list of the call that fails, where one does. Where memory is wanted none fails, by which the row does.
pub(crate) fn fails_of(alloc: Global, failing: Option<Fail>) -> FailList {
    let mut fails = FailList::new(alloc);
    if let Some(fail) = failing {
        let _ = fails.push(fail);
    }
    fails
}
