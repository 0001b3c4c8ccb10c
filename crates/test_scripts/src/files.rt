//! The files of scripts.

use crate::counts::Counts;
use crate::playing::play_text;
use std::fs::{self, DirEntry};
use std::io::{self, ErrorKind};
use std::test::Fail;

/// Plays the scripts that these words name.
pub fn play_words(rt: &HostRuntime, words: &[String], counts: &mut Counts) -> Result<(), Fail> {
    if words.is_empty() {
        counts.refuse(rt, "no script is named")?;
    }
    'words: for word in words {
        play_word(rt, word.as_str(), counts)?;
    }
    Ok(())
}

// Plays all scripts of a folder, or the one of a file.
fn play_word(rt: &HostRuntime, word: &str, counts: &mut Counts) -> Result<(), Fail> {
    match files_in(rt, word) {
        Ok(files) => play_folder(rt, word, files.as_slice(), counts),
        Err(error) if error.kind() == ErrorKind::NotADirectory => play_file(rt, word, counts),
        Err(error) => counts.refuse(rt, format_args!("{word}: {error}")),
    }
}

// The paths of the files in a folder, in order.
fn files_in(rt: &HostRuntime, folder: &str) -> io::Result<Vec<String>> {
    let mut files = Vec::new(rt.alloc());
    push_paths(rt, folder, &mut files)?;
    files.sort()?;
    Ok(files)
}

fn push_paths(rt: &HostRuntime, folder: &str, files: &mut Vec<String>) -> io::Result<()> {
    'entries: for entry in fs::read_dir(rt, folder)? {
        push_path(rt, files, &entry?)?;
    }
    Ok(())
}

fn push_path(rt: &HostRuntime, files: &mut Vec<String>, entry: &DirEntry) -> io::Result<()> {
    let path = String::from_str(rt.alloc(), entry.path().to_string_lossy())?;
    Ok(files.push(path)?)
}

fn play_folder(
    rt: &HostRuntime,
    folder: &str,
    files: &[String],
    counts: &mut Counts,
) -> Result<(), Fail> {
    if files.is_empty() {
        counts.refuse(rt, format_args!("{folder}: no script is in it"))?;
    }
    'files: for file in files {
        play_file(rt, file.as_str(), counts)?;
    }
    Ok(())
}

fn play_file(rt: &HostRuntime, file: &str, counts: &mut Counts) -> Result<(), Fail> {
    match fs::read_to_string(rt, file) {
        Ok(text) => play_text(rt, file, text.as_str(), counts),
        Err(error) => counts.refuse(rt, format_args!("{file}: {error}")),
    }
}
