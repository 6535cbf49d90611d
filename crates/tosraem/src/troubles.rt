//! What the system said of the two folders and of standard output, in words.

ghost use Rattle.std.specs.Prelude.{◌≡◌};
ghost use Rattle.tosraem.specs.Troubles.{bucket_words, report_words, shelf_words};

use crate::report_sink::ReportTrouble;
use dir_bucket::Trouble;

/// Why the first call failed of those that did: over the bucket's folder, over the shelf's, and of standard output.
#[derive(Clone, Copy)]
pub(crate) struct Troubles {
    pub(crate) bucket: Option<Trouble>,
    pub(crate) shelf: Option<Trouble>,
    pub(crate) report: Option<ReportTrouble>,
}

impl Troubles {
    pub(crate) fn none() -> Troubles {
        Troubles {
            bucket: None,
            shelf: None,
            report: None,
        }
    }
}

/// A line on the bucket's folder, where there was trouble with it.
pub(crate) fn bucket_line(trouble: Option<Trouble>) -> &'static str
    ensures { result.now ≡ bucket_words trouble }
{
    match trouble {
        None => "",
        Some(Trouble::InUse) => {
            "BUCKET: another run uses this folder. Wait until it ends, or name another folder.\n"
        }
        Some(Trouble::Absent) => {
            "BUCKET: there is no such folder and it can't be made, or a file of it is gone.\n"
        }
        Some(Trouble::NoFolder) => "BUCKET: the name, or a part of it, is not that of a folder.\n",
        Some(Trouble::Forbidden) => {
            "BUCKET: the right to list, to read or to write there is lacking, or its disk may only be read.\n"
        }
        Some(Trouble::Full) => "BUCKET: there is no room left on its disk.\n",
        Some(Trouble::NoMemory) => "BUCKET: the system refused a call there.\n",
        Some(Trouble::Other) => {
            "BUCKET: the system refused a call there. A file may stand under its name.\n"
        }
    }
}

/// A line on the shelf's folder, where there was trouble with it.
pub(crate) fn shelf_line(trouble: Option<Trouble>) -> &'static str
    ensures { result.now ≡ shelf_words trouble }
{
    match trouble {
        None => "",
        Some(Trouble::Absent) => "SHELF: there is no such folder.\n",
        Some(Trouble::NoFolder) => "SHELF: the name, or a part of it, is not that of a folder.\n",
        Some(Trouble::Forbidden) => {
            "SHELF: the right to list the folder or to read a file of it is lacking.\n"
        }
        Some(Trouble::InUse | Trouble::Full | Trouble::NoMemory | Trouble::Other) => {
            "SHELF: the system refused a call there.\n"
        }
    }
}

/// A line on standard output, where something is known of why it failed.
pub(crate) fn report_line(trouble: Option<ReportTrouble>) -> &'static str
    ensures { result.now ≡ report_words trouble }
{
    match trouble {
        Some(ReportTrouble::ReaderGone) => {
            "Standard output: its reader went away before it had all.\n"
        }
        Some(ReportTrouble::Full) => "Standard output: there is no room left for it.\n",
        Some(ReportTrouble::Other) | None => "",
    }
}
