//! The program: it hands the words of the command line, standard input, standard output and the image to the call that
//! does the rest, and ends with the status that this gives.
#![tactic(auto)]

use std::alloc::{AllocError, Global};
use std::env::Env;
use std::process::ExitCode;
use std::rt::Files;
use std::{env, io};
use xr_cmd::{without_memory, xreflink};
use xr_disk::{FileDisk, StdSink, StdSource};

/// The words after the program's name. There are none where one of them is no text, so that no command takes them.
fn words<R: Env + AllocGlobal>(rt: &R) -> Result<Vec<String>, AllocError> {
    let mut words = Vec::new(rt.alloc());
    match env::args(rt) {
        Ok(all) => {
            for word in all.skip(1) {
                words.push(word)?;
            }
            Ok(words)
        }
        Err(error) if error.kind() == io::ErrorKind::OutOfMemory => Err(AllocError),
        Err(_) => Ok(words),
    }
}

/// The disk over the file that the second word names. Only a command that formats makes one that is missing.
fn disk<R: Files + Clone + Drop>(
    rt: &R,
    alloc: Global,
    words: &[&str],
) -> Result<FileDisk<R>, AllocError> {
    let (path, create) = match words {
        [command, path, ..] => (*path, *command == "mkfs"),
        _ => ("", false),
    };
    Ok(FileDisk::new(rt.clone()?, String::from_str(alloc, path)?, create))
}

fn borrowed(alloc: Global, words: &[String]) -> Result<Vec<&str>, AllocError> {
    words.iter().map(|word| word.as_str()).collect(alloc)
}

fn main(rt: HostRuntime) -> ExitCode {
    let alloc = rt.alloc();
    let mut out = StdSink::new(io::writer(&rt));
    let Ok(words) = words(&rt) else {
        return ExitCode::from(without_memory(&mut out));
    };
    let Ok(words) = borrowed(alloc, &words) else {
        return ExitCode::from(without_memory(&mut out));
    };
    let Ok(disk) = disk(&rt, alloc, &words) else {
        return ExitCode::from(without_memory(&mut out));
    };
    let mut script = StdSource::new(rt.reader());
    let ended = xreflink(&rt, alloc, &words, &mut script, &mut out, disk);
    ExitCode::from(ended.status)
}
