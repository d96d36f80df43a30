//! The program: it hands the words of its command line, the host's files and its two streams to the top call, and ends
//! with the status of that.
#![tactic(auto)]

use rml_io::{HostFiles, HostSink};
use rml_top::{Status, rmlc};
use std::env::{self, Env};
use std::io::ErrorKind;
use std::process::ExitCode;

/// The words after the program's name. Words that are no text are a faulty line, as is no word at all.
fn words(rt: &(impl Env + AllocGlobal)) -> Result<Vec<String>, Status> {
    let mut words = Vec::new(rt.alloc());
    match env::args(rt) {
        Ok(all) => {
            for word in all.skip(1) {
                words.push(word).map_err(|_| Status::Memory)?;
            }
            Ok(words)
        }
        Err(error) if error.kind() == ErrorKind::OutOfMemory => Err(Status::Memory),
        Err(_) => Ok(words),
    }
}

fn main(rt: HostRuntime) -> ExitCode {
    let mut files = HostFiles::new(&rt);
    let mut out = HostSink::new(rt.stdout());
    let mut note = HostSink::new(rt.stderr());
    let status = match words(&rt) {
        Ok(words) => rmlc(
            rt.alloc(),
            words.as_slice(),
            &mut files,
            &mut out,
            &mut note,
        ),
        Err(status) => status,
    };
    ExitCode::from(status.code())
}
