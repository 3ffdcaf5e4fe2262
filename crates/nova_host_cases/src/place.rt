//! What lies in the folder that the program runs in.
use crate::watched::Watched;
use nova_case::Step;
use std::alloc::{AllocError, Global};
use std::{fs, io};

/// The folders and files that the cases name.
pub fn known(path: &str) -> &'static str {
    match path {
        "store" => "store",
        "store/" => "store/",
        "store/.." => "store/..",
        "store/4" => "store/4",
        "plain" => "plain",
        "plain/store" => "plain/store",
        "absent/store" => "absent/store",
        _ => "",
    }
}

/// Removes what the last case left, and what a run left that was cut off.
pub fn clear(rt: &Watched) {
    let _ = fs::remove_dir_all(rt, "store");
    let _ = fs::remove_file(rt, "plain");
}

/// What stands at a path, where a link isn't followed.
fn kind(rt: &Watched, path: &str) -> &'static str {
    match fs::symlink_metadata(rt, path) {
        Ok(found) if found.is_symlink() => "link\n",
        Ok(found) if found.is_dir() => "folder\n",
        Ok(found) if found.is_file() => "file\n",
        Ok(_) => "other\n",
        Err(_) => "none\n",
    }
}

fn told(alloc: Global, answer: io::Result<()>) -> Result<Vec<u8>, AllocError> {
    match answer {
        Ok(()) => Ok(Vec::new(alloc)),
        Err(_) => b"failed\n".to_vec(alloc),
    }
}

/// Makes a file of the step's input, a folder, or a link (`link TO PATH`), with no answer where it
/// is made; or tells what stands at a path.
pub fn answer(alloc: Global, rt: &Watched, step: &Step) -> Result<Vec<u8>, AllocError> {
    let path = step.words.as_str();
    match step.verb.as_str() {
        "file" => told(alloc, fs::write(rt, path, step.input.as_slice())),
        "folder" => told(alloc, fs::create_dir(rt, path)),
        "link" => {
            let (to, path) = path.split_once(' ').unwrap_or((path, ""));
            told(alloc, rt.link(to, path))
        }
        _ => kind(rt, path).as_bytes().to_vec(alloc),
    }
}
