//! The program `whopr`: its words are one command over the system's files and standard output, and its status is the
//! command's.
#![tactic(auto)]

use outer_files::{HostFiles, HostSink};
use std::io::ErrorKind;
use std::process::ExitCode;
use std::{env, io};
use whopr_top::whopr;

/// There was no memory for the words.
const NO_MEMORY: u8 = 7;
/// The system refused its words otherwise. No command answers this.
const NO_WORDS: u8 = 70;

fn main(rt: HostRuntime) -> ExitCode {
    match words(&rt) {
        Ok(words) => {
            let mut files = HostFiles::new(&rt);
            let mut out = HostSink::new(&rt);
            ExitCode::from(whopr(rt.alloc(), &words, &mut files, &mut out))
        }
        Err(error) => ExitCode::from(refused(error.kind())),
    }
}

// The status where there are no words.
fn refused(kind: ErrorKind) -> u8 {
    if kind == ErrorKind::OutOfMemory {
        NO_MEMORY
    } else {
        NO_WORDS
    }
}

// The words of the command line, without the program's name.
fn words(rt: &HostRuntime) -> io::Result<Vec<String>> {
    let mut words = Vec::new(rt.alloc());
    for word in env::args(rt)?.skip(1) {
        words.push(word)?;
    }
    Ok(words)
}
