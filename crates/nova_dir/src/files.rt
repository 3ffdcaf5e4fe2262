// Files of a folder, each with its number for a name, and the folder's lock.
ghost use Rattle.std.specs.Prelude.{◌≡◌, ◌<◌, ◌≤◌, ◌^◌, ◌++◌, ◌∷◌, ℕ, length, string_bytes, IfOk, IfSome, IsTrue, Some, ◌↔◌};
ghost use Rattle.std.specs.Fmt.{decimal};
ghost use Rattle.nova_dir.specs.Names.{IsPlain};

use std::alloc::{AllocError, Global};
use std::collections::BTreeSet;
use std::fs::{File, OpenFile, OpenOptions};
use std::io::{Error, ErrorKind, Read, Seek, SeekFrom, Write};
use std::path::AsPath;
use std::rt::Files;
use std::{fs, io};

// Whether a text begins with no plus and no needless zero.
fn is_plain(text: &[u8]) -> bool
    ensures { IsTrue result ↔ IsPlain text.now }
{
    match text.first() {
        Some(first) => *first != b'+' && (*first != b'0' || text.len() == 1),
        None => true,
    }
}

// The number whose decimal digits a name is.
fn number_of(name: &str) -> Option<u64>
    ensures some { IfSome result (λ n. decimal n ≡ name.now) }
    ensures all { (n : ℕ) → n < 2 ^ 64 → decimal n ≡ name.now → result ≡ Some n }
{
    if !is_plain(name.as_bytes()) {
        return None;
    }
    match name.parse::<u64>() {
        Ok(number) => Some(number),
        Err(_) => None,
    }
}

/// The path of a file.
pub fn path_of(alloc: Global, folder: &str, file: u64) -> Result<String, AllocError>
    ensures { IfOk result (λ path. string_bytes path ≡ folder.now ++ (47 ∷ decimal file)) }
{
    format!(in alloc; "{folder}/{file}")
}

/// The length of a file in bytes, or None where it is absent. What has the name and is no plain
/// file, as a folder or a link, is no file of the store.
pub fn size_of<R: Files, P: AsPath>(rt: &R, path: P) -> io::Result<Option<u64>> {
    match fs::symlink_metadata(rt, path) {
        Ok(found) if found.is_file() => Ok(Some(found.len())),
        Ok(_) => Ok(None),
        Err(error) if error.kind() == ErrorKind::NotFound => Ok(None),
        Err(error) => Err(error),
    }
}

/// Opens a file for writing; an absent one is an error.
pub fn open_file<R: Files>(rt: &R, path: &str) -> io::Result<R::File> {
    if size_of(rt, path)?.is_none() {
        return Err(ErrorKind::NotFound.into());
    }
    OpenOptions::new().write(true).open(rt, path)
}

/// Reads bytes of a file from an offset on, as many as there are and fit; none at its end and past
/// it, however far.
pub fn read_file<R: Files>(rt: &R, path: &str, at: u64, into: &mut [u8]) -> io::Result<usize>
    ensures { IfOk result (λ n. n ≤ length into.old) }
{
    match size_of(rt, path)? {
        None => return Err(ErrorKind::NotFound.into()),
        Some(size) if size <= at => return Ok(0),
        Some(_) => {}
    }
    let mut file = File::open(rt, path)?;
    file.seek(SeekFrom::Start(at))?;
    let mut done = 0;
    while done < into.len() {
        let count = file.read(&mut into[done..])?;
        if count == 0 {
            break;
        }
        done += count;
    }
    Ok(done)
}

/// Writes all bytes. A write that takes nothing is an error.
pub fn write_whole<W: Write>(to: &mut W, bytes: &[u8]) -> io::Result<()> {
    let mut done = 0;
    while done < bytes.len() {
        let count = to.write(&bytes[done..])?;
        if count == 0 {
            return Err(ErrorKind::WriteZero.into());
        }
        done += count;
    }
    Ok(())
}

/// Syncs a file, where it is there, or a folder.
pub fn sync_path<R: Files>(rt: &R, path: &str) -> io::Result<()> {
    File::open(rt, path)?.sync_all()
}

/// Whether an entry's error says that its name isn't UTF-8. An error of the system has a number.
fn is_other_name(error: &Error) -> bool {
    error.kind() == ErrorKind::InvalidFilename && error.raw_os_error().is_none()
}

/// The numbers of the files of a folder. Other names are passed over.
pub fn numbers_in<R: Files>(rt: &R, alloc: Global, folder: &str) -> io::Result<BTreeSet<u64>> {
    let mut numbers = BTreeSet::new(alloc);
    for entry in fs::read_dir(&(rt, alloc), folder)? {
        let entry = match entry {
            Ok(entry) => entry,
            Err(error) if is_other_name(&error) => continue,
            Err(error) => return Err(error),
        };
        if let Some(number) = number_of(entry.file_name()) {
            if size_of(rt, entry.path())?.is_some() {
                numbers.insert(number)?;
            }
        }
    }
    Ok(numbers)
}

// Opens the file of the lock. Where it may not be written it may still be there to be locked.
fn open_lock<R: Files>(rt: &R, path: &str) -> io::Result<R::File> {
    let mut options = OpenOptions::new();
    options.read(true).write(true).create(true);
    match options.open(rt, path) {
        Ok(file) => Ok(file),
        Err(error) => match error.kind() {
            ErrorKind::PermissionDenied | ErrorKind::ReadOnlyFilesystem => match File::open(
                rt, path,
            ) {
                Ok(file) => Ok(file),
                Err(_) => Err(error),
            },
            _ => Err(error),
        },
    }
}

/// Takes the lock of a folder, and keeps it until the answer is dropped: None where there is no
/// folder. That another has it is an error.
pub fn lock_in<R: Files<File = File>>(
    rt: &R,
    alloc: Global,
    folder: &str,
) -> io::Result<Option<File>> {
    let path = format!(in alloc; "{folder}/lock")?;
    match open_lock(rt, &path) {
        Ok(file) => {
            file.try_lock()?;
            Ok(Some(file))
        }
        Err(error) if error.kind() == ErrorKind::NotFound => Ok(None),
        Err(error) => Err(error),
    }
}
