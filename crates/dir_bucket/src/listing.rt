//! The names of files below a folder. Names with a part that begins with a dot are passed over, and so are those that are no
//! text.
ghost use Rattle.std.specs.Prelude.{◌≡◌, [], ◌∷◌, ◌++◌, Some, IfOk, IsTrue, true};
ghost use Rattle.base.specs.Order.{InOrderAfter, ComesAfter};
ghost use Rattle.label_sets.specs.Labels.{compare_texts};
ghost use Rattle.dir_bucket.specs.Listings.{IsListing};
ghost use Rattle.dir_bucket.specs.Names.{is_plain as is_plain_name};

use crate::files::{is_absent, path_of};
use crate::names::is_plain;
use base::List;
use label_sets::{Text, TextList};
use std::alloc::Global;
use std::collections::BinaryHeap;
use std::fs::DirEntry;
use std::io::ErrorKind;
use std::rt::Files;
use std::{fs, io};

/// The least of the names that were offered, at most so many.
#[derive(Drop)]
struct Least {
    names: BinaryHeap<Text>,
    most: usize,
}

impl Least {
    fn new(alloc: Global, most: usize) -> Least {
        Least {
            names: BinaryHeap::new(alloc),
            most,
        }
    }

    /// Takes a name, and lets the greatest one go where there are too many.
    fn offer(&mut self, name: String) -> io::Result<()> {
        self.names.push(Text::from_string(name))?;
        if self.names.len() > self.most {
            self.names.pop();
        }
        Ok(())
    }

    /// The names in order.
    fn into_names(self) -> Vec<Text> {
        self.names.into_sorted_vec()
    }
}

/// The entry of a folder, unless its name is no text, which no name of an object is.
fn unless_no_text<R: Files>(entry: io::Result<DirEntry<R>>) -> io::Result<Option<DirEntry<R>>> {
    match entry {
        Ok(entry) => Ok(Some(entry)),
        Err(error) if error.kind() == ErrorKind::InvalidFilename => Ok(None),
        Err(error) => Err(error),
    }
}

/// The least names in a folder that are greater than `after`, at most so many, of files and of folders.
fn least_names<R: Files + AllocGlobal + Clone + Drop>(
    rt: &R,
    folder: &str,
    after: &str,
    most: usize,
) -> io::Result<Vec<Text>> {
    let mut least = Least::new(rt.alloc(), most);
    for entry in fs::read_dir(rt, folder)? {
        let Some(entry) = unless_no_text(entry)? else {
            continue;
        };
        let name = entry.file_name();
        if after < name {
            least.offer(String::from_str(rt.alloc(), name)?)?;
        }
    }
    Ok(least.into_names())
}

/// The path of a name in a folder that is given by its own path, which may be empty.
fn path_below<R: AllocGlobal>(rt: &R, below: &str, name: &str) -> io::Result<String> {
    if below.is_empty() {
        return Ok(String::from_str(rt.alloc(), name)?);
    }
    path_of(rt, below, name)
}

/// Adds an entry of a folder to the files, or to the folders that are still to be looked at.
fn add_entry<R: Files + AllocGlobal + Clone + Drop>(
    rt: &R,
    below: &str,
    entry: &DirEntry<R>,
    pending: &mut Vec<String>,
    files: &mut Vec<String>,
) -> io::Result<()> {
    let name = entry.file_name();
    if name.starts_with('.') {
        return Ok(());
    }
    let kind = entry.file_type()?;
    let found = path_below(rt, below, name)?;
    if kind.is_dir() {
        pending.push(found)?;
    } else if kind.is_file() {
        files.push(found)?;
    }
    Ok(())
}

/// The files in a folder below another one; its folders are added to those that are still to be looked at. All are given by
/// their paths below that other one.
fn look_into<R: Files + AllocGlobal + Clone + Drop>(
    rt: &R,
    folder: &str,
    below: &str,
    pending: &mut Vec<String>,
) -> io::Result<Vec<String>> {
    let looked_at = path_of(rt, folder, below)?;
    let mut files = Vec::new(rt.alloc());
    for entry in fs::read_dir(rt, looked_at.as_str())? {
        if let Some(entry) = unless_no_text(entry)? {
            add_entry(rt, below, &entry, pending, &mut files)?;
        }
    }
    Ok(files)
}

/// The files of the next folder that is still to be looked at, until there is none. A folder that is gone has no files.
fn next_files<R: Files + AllocGlobal + Clone + Drop>(
    rt: &R,
    folder: &str,
    pending: &mut Vec<String>,
) -> io::Result<Option<Vec<String>>> {
    let Some(below) = pending.pop() else {
        return Ok(None);
    };
    match look_into(rt, folder, below.as_str(), pending) {
        Ok(files) => Ok(Some(files)),
        Err(error) if is_absent(&error) => Ok(Some(Vec::new(rt.alloc()))),
        Err(error) => Err(error),
    }
}

/// The one folder to begin with.
fn whole<R: AllocGlobal>(rt: &R) -> io::Result<Vec<String>> {
    let mut pending = Vec::new(rt.alloc());
    pending.push(String::new(rt.alloc()))?;
    Ok(pending)
}

/// Whether a file lies below a folder.
fn has_file<R: Files + AllocGlobal + Clone + Drop>(rt: &R, folder: &str) -> io::Result<bool> {
    let mut pending = whole(rt)?;
    for _ in 0..u64::MAX {
        match next_files(rt, folder, &mut pending)? {
            Some(files) if !files.is_empty() => return Ok(true),
            Some(_) => {}
            None => break,
        }
    }
    Ok(false)
}

/// The least paths of files below a folder that are greater than `after`, at most so many.
fn least_files<R: Files + AllocGlobal + Clone + Drop>(
    rt: &R,
    folder: &str,
    after: &str,
    most: usize,
) -> io::Result<Vec<Text>> {
    let mut least = Least::new(rt.alloc(), most);
    offer_files(rt, folder, after, &mut least)?;
    Ok(least.into_names())
}

/// Offers each file below a folder whose name is greater than `after`.
fn offer_files<R: Files + AllocGlobal + Clone + Drop>(
    rt: &R,
    folder: &str,
    after: &str,
    least: &mut Least,
) -> io::Result<()> {
    let mut pending = whole(rt)?;
    for _ in 0..u64::MAX {
        let Some(files) = next_files(rt, folder, &mut pending)? else {
            break;
        };
        offer_each(least, after, files)?;
    }
    Ok(())
}

fn offer_each(least: &mut Least, after: &str, files: Vec<String>) -> io::Result<()> {
    for file in files {
        if after < file.as_str() {
            least.offer(file)?;
        }
    }
    Ok(())
}

/// Whether a name of a folder is that of a file, or of a folder with a file below it. One that is gone is neither.
fn is_shown<R: Files + AllocGlobal + Clone + Drop>(
    rt: &R,
    folder: &str,
    name: &str,
) -> io::Result<bool> {
    let path = path_of(rt, folder, name)?;
    match fs::symlink_metadata(rt, path.as_str()) {
        Ok(found) if found.is_dir() => has_file(rt, path.as_str()),
        Ok(found) => Ok(found.is_file()),
        Err(error) if is_absent(&error) => Ok(false),
        Err(error) => Err(error),
    }
}

/// Whether a name comes behind all that a page has, and behind `after`.
fn is_behind(page: &TextList, after: &str, name: &str) -> bool
    ensures { IsTrue result → InOrderAfter (ComesAfter compare_texts) (Some after.now) page.now
        → InOrderAfter (ComesAfter compare_texts) (Some after.now) (page.now ++ name.now ∷ []) }
{
    match page.members().last() {
        Some(last) => last.as_str() < name,
        None => after < name,
    }
}

/// Adds a plain name to a page that has room for it. One that was given twice is shown once.
fn push_name(page: &mut TextList, after: &str, limit: usize, name: Text) -> io::Result<()>
    requires { is_plain_name name ≡ true }
    ensures { IsListing after.now limit page.old → IsListing after.now limit page.new }
{
    if page.len() >= limit || !is_behind(page, after, name.as_str()) {
        return Ok(());
    }
    match page.push(name) {
        Ok(()) => Ok(()),
        Err(_) => Err(io::Error::from(ErrorKind::OutOfMemory)),
    }
}

/// Adds those of the names in a folder that are shown. No name that is not plain is looked at, so that nothing below a folder
/// whose name begins with a dot can fail a page.
fn push_shown<R: Files + AllocGlobal + Clone + Drop>(
    rt: &R,
    folder: &str,
    names: Vec<Text>,
    after: &str,
    limit: usize,
    page: &mut TextList,
) -> io::Result<()>
    ensures { IsListing after.now limit page.old → IsListing after.now limit page.new }
{
    for name in names {
        if is_plain(name.as_str()) && is_shown(rt, folder, name.as_str())? {
            push_name(page, after, limit, name)?;
        }
    }
    Ok(())
}

/// Adds the next names in a folder to a page, those behind `last`, and tells whether more of them may have room there.
fn add_names<R: Files + AllocGlobal + Clone + Drop>(
    rt: &R,
    folder: &str,
    last: &mut String,
    after: &str,
    limit: usize,
    page: &mut TextList,
) -> io::Result<bool>
    ensures { IsListing after.now limit page.old → IsListing after.now limit page.new }
{
    let wanted = limit.saturating_sub(page.len());
    let names = least_names(rt, folder, last.as_str(), wanted)?;
    let Some(greatest) = names.last() else {
        return Ok(false);
    };
    *last = String::from_str(rt.alloc(), greatest.as_str())?;
    let were_all = names.len() < wanted;
    push_shown(rt, folder, names, after, limit, page)?;
    Ok(!were_all && page.len() < limit)
}

/// The first names in a folder that are greater than `after`, at most so many. Folders without a file are passed over.
///
/// A folder's names come in no order, so each page looks at all of them. It keeps no more than it may show.
pub(crate) fn page_of_names<R: Files + AllocGlobal + Clone + Drop>(
    rt: &R,
    folder: &str,
    after: &str,
    limit: u32,
) -> io::Result<TextList>
    ensures { IfOk result (IsListing after.now limit) }
{
    let most = limit as usize;
    let mut page = List::new(rt.alloc());
    let mut last = String::from_str(rt.alloc(), after)?;
    'pages: for _ in 0..u64::MAX {
        if !add_names(rt, folder, &mut last, after, most, &mut page)? {
            return Ok(page);
        }
    }
    Ok(page)
}

/// The first paths of files below a folder that are greater than `after`, at most so many.
pub(crate) fn page_of_files<R: Files + AllocGlobal + Clone + Drop>(
    rt: &R,
    folder: &str,
    after: &str,
    limit: u32,
) -> io::Result<TextList>
    ensures { IfOk result (IsListing after.now limit) }
{
    let most = limit as usize;
    let mut page = List::new(rt.alloc());
    for name in least_files(rt, folder, after, most)? {
        if is_plain(name.as_str()) {
            push_name(&mut page, after, most, name)?;
        }
    }
    Ok(page)
}
