//! Directories of the machine.
use std::alloc::{AllocError, Global};
use std::fs::{self, DirEntry, FileType};
use std::io::{self, ErrorKind};
use std::rt::Files;

/// Whether the path is a directory, or a link to one.
pub fn is_folder<R: Files>(rt: &R, path: &str) -> bool {
    match fs::metadata(rt, path) {
        Ok(metadata) => metadata.is_dir(),
        Err(_) => false,
    }
}

/// The paths of all `.graphql` and `.gql` files below a directory, in any order. Links to files are followed, and links
/// to directories are not, so that none is listed twice. A directory that can't be listed is among the files.
///
/// # Errors
///
/// Out of memory.
pub fn files_below<R: Files + AllocGlobal + Clone + Drop>(
    alloc: Global,
    rt: &R,
    path: &str,
) -> Result<Vec<String>, AllocError> {
    let mut files = Vec::new(alloc);
    let mut folders = Vec::new(alloc);
    folders.push(String::from_str(alloc, path)?)?;
    'folders: for _ in 0..usize::MAX {
        let Some(folder) = folders.pop() else {
            return Ok(files);
        };
        add_listed(rt, folder, &mut files, &mut folders)?;
    }
    Ok(files)
}

// Adds what a directory has, and the directory itself to the files if it can't be listed.
fn add_listed<R: Files + AllocGlobal + Clone + Drop>(
    rt: &R,
    folder: String,
    files: &mut Vec<String>,
    folders: &mut Vec<String>,
) -> Result<(), AllocError> {
    match add_entries(rt, folder.as_str(), files, folders) {
        Ok(()) => Ok(()),
        Err(error) => match error.kind() {
            ErrorKind::OutOfMemory => Err(AllocError),
            _ => {
                files.push(folder)?;
                Ok(())
            }
        },
    }
}

fn add_entries<R: Files + AllocGlobal + Clone + Drop>(
    rt: &R,
    folder: &str,
    files: &mut Vec<String>,
    folders: &mut Vec<String>,
) -> io::Result<()> {
    for entry in fs::read_dir(rt, folder)? {
        add_entry(rt, &entry?, files, folders)?;
    }
    Ok(())
}

fn add_entry<R: Files + AllocGlobal + Clone + Drop>(
    rt: &R,
    entry: &DirEntry<R>,
    files: &mut Vec<String>,
    folders: &mut Vec<String>,
) -> io::Result<()> {
    let kind = entry.file_type()?;
    let path = String::from_str(rt.alloc(), entry.path().as_str())?;
    if kind.is_dir() {
        folders.push(path)?;
    } else if is_graphql(path.as_str())
        && (kind.is_file() || leads_to_file(rt, kind, path.as_str()))
    {
        files.push(path)?;
    }
    Ok(())
}

// Whether a link leads to a file. One that leads nowhere is taken for one, so that it is told when it is read.
fn leads_to_file<R: Files>(rt: &R, kind: FileType, path: &str) -> bool {
    kind.is_symlink() && !is_folder(rt, path)
}

fn is_graphql(path: &str) -> bool {
    path.ends_with(".graphql") || path.ends_with(".gql")
}
