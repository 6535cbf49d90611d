//! What is done to files and folders. Nothing is known of what they hold.
ghost use Rattle.std.specs.Prelude.{◌≡◌, ◌≤◌, ◌∷◌, ◌++◌, IfOk, vec_len};
ghost use Rattle.std.specs.String.{string_bytes};
ghost use Rattle.wire_bytes.specs.Files.{slash};

use crate::names::parent;
use std::fs::{File, OpenFile};
use std::io::{ErrorKind, Read, Seek, SeekFrom, Write};
use std::rt::Files;
use std::{fs, io};

/// The name of the file that a put writes before it is renamed. No object has a name that begins with a dot.
const TEMPORARY: &str = ".put";

/// The path of a name in a folder.
pub(crate) fn path_of<R: AllocGlobal>(rt: &R, folder: &str, name: &str) -> io::Result<String>
    ensures { IfOk result (λ path. string_bytes path ≡ folder.now ++ slash ∷ name.now) }
{
    Ok(format!(in rt.alloc(); "{folder}/{name}")?)
}

/// Whether the error says that nothing stands under the name. A folder that stands there is no such error.
pub(crate) fn is_absent(error: &io::Error) -> bool {
    matches!(error.kind(), ErrorKind::NotFound | ErrorKind::NotADirectory)
}

/// Writes the bytes to a new file, and waits until the system has them on its disk.
fn write_whole<R: Files>(rt: &R, path: &str, bytes: &[u8]) -> io::Result<()> {
    let mut file = File::create(rt, path)?;
    file.write_all(bytes)?;
    file.sync_all()
}

/// Makes the file at a path by way of a temporary one, with the folders that it lies in.
fn make_file<R: Files>(rt: &R, temporary: &str, path: &str, bytes: &[u8]) -> io::Result<()> {
    fs::create_dir_all(rt, parent(path))?;
    write_whole(rt, temporary, bytes)?;
    fs::rename(rt, temporary, path)
}

/// Makes the file of a name, with the folders that it lies in. What stood there stands until the last step is done.
///
/// Where a step fails, the temporary file and the folders that are empty then are taken away, as far as they can be.
pub(crate) fn put_file<R: Files + AllocGlobal>(
    rt: &R,
    folder: &str,
    name: &str,
    bytes: &[u8],
) -> io::Result<()> {
    let path = path_of(rt, folder, name)?;
    let temporary = path_of(rt, folder, TEMPORARY)?;
    let made = make_file(rt, temporary.as_str(), path.as_str(), bytes);
    if made.is_err() {
        let _ = fs::remove_file(rt, temporary.as_str());
        remove_empty_folders(rt, folder, name);
    }
    made
}

/// Takes those folders away in which a name lies and that are empty, from the innermost one out. One that can't be taken away
/// stays, with all that are around it.
fn remove_empty_folders<R: Files + AllocGlobal>(rt: &R, folder: &str, name: &str) {
    let mut inner = parent(name);
    for _ in 0..name.len() {
        if inner.is_empty() || remove_folder(rt, folder, inner).is_err() {
            return;
        }
        inner = parent(inner);
    }
}

fn remove_folder<R: Files + AllocGlobal>(rt: &R, folder: &str, name: &str) -> io::Result<()> {
    let path = path_of(rt, folder, name)?;
    fs::remove_dir(rt, path.as_str())
}

/// Waits until the names in a folder are on the disk.
fn sync_folder<R: Files>(rt: &R, path: &str) -> io::Result<()> {
    File::open(rt, path)?.sync_all()
}

/// Waits until the name of a file, and those of the folders that it lies in, are on the disk.
pub(crate) fn sync_names<R: Files + AllocGlobal>(
    rt: &R,
    folder: &str,
    name: &str,
) -> io::Result<()> {
    let mut path = String::from_str(rt.alloc(), folder)?;
    for part in name.split('/') {
        sync_folder(rt, path.as_str())?;
        path.push('/')?;
        path.push_str(part)?;
    }
    Ok(())
}

/// Waits until it is on the disk that a file is gone, and that those of its folders are which were taken away with it.
pub(crate) fn sync_removal<R: Files + AllocGlobal>(
    rt: &R,
    folder: &str,
    name: &str,
) -> io::Result<()> {
    let mut path = String::from_str(rt.alloc(), folder)?;
    for part in name.split('/') {
        match sync_folder(rt, path.as_str()) {
            Ok(()) => {}
            Err(error) if is_absent(&error) => return Ok(()),
            Err(error) => return Err(error),
        }
        path.push('/')?;
        path.push_str(part)?;
    }
    Ok(())
}

/// Takes the file of a name away, and those of its folders that are empty then.
pub(crate) fn remove_file<R: Files + AllocGlobal>(
    rt: &R,
    folder: &str,
    name: &str,
) -> io::Result<()> {
    let path = path_of(rt, folder, name)?;
    fs::remove_file(rt, path.as_str())?;
    remove_empty_folders(rt, folder, name);
    Ok(())
}

/// The bytes of a file from a place on, at most so many. What is no file is absent.
///
/// Room is made at once for what the system says the file has there, and what is read then is what the file has.
pub(crate) fn read_range<R: Files + AllocGlobal>(
    rt: &R,
    folder: &str,
    name: &str,
    from: u64,
    most: u64,
) -> io::Result<Vec<u8>>
    ensures { IfOk result (λ bytes. vec_len bytes ≤ most) }
{
    let path = path_of(rt, folder, name)?;
    let metadata = fs::metadata(rt, path.as_str())?;
    if !metadata.is_file() {
        return Err(io::Error::from(ErrorKind::NotFound));
    }
    let mut file = File::open(rt, path.as_str())?;
    let length = metadata.len().saturating_sub(from).min(most);
    let mut bytes = Vec::with_capacity(rt.alloc(), length as usize)?;
    // No file reaches a place past this bound.
    if i64::try_from(from).is_ok() {
        file.seek(SeekFrom::Start(from))?;
        file.take(most).read_to_end(&mut bytes)?;
    }
    // Whatever the system gave, no more is handed on than was asked for.
    bytes.truncate(most as usize);
    Ok(bytes)
}
