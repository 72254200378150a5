//! Prints the records of a log file that stands on standard input, each with its place. Where the file is at fault,
//! the fault is printed on standard error behind the records before it, and the program ends with status 1.
#![tactic(auto)]

use fault::Fault;
use logfile::Reader;
use std::io::Read;
use std::process::ExitCode;

// Prints the records up to the end of the file, or to its fault.
fn list(rt: &HostRuntime, file: &[u8]) -> anyhow::Result<Result<(), Fault>> {
    let mut reader = Reader::new(file);
    loop {
        // No `?`: `main` prints the fault as one line, so it stays apart from a failed print.
        match reader.next() {
            Ok(Some(placed)) => println!(rt; "{placed}")?,
            Ok(None) => return Ok(Ok(())),
            Err(fault) => return Ok(Err(fault)),
        }
    }
}

fn main(rt: HostRuntime) -> anyhow::Result<ExitCode> {
    let mut file = Vec::new(rt.alloc());
    rt.stdin().read_to_end(&mut file)?;
    if let Err(fault) = list(&rt, &file)? {
        eprintln!(rt; "{fault}")?;
        return Ok(ExitCode::FAILURE);
    }
    Ok(ExitCode::SUCCESS)
}
