// The program, over the real streams and files.
#![tactic(auto)]

use fip_base::plain::NoMemory;
use fip_driver::{fp2, report_no_memory};
use fip_outside::real::{FileFolder, StdSink, StdSource};
use std::env;
use std::io::ErrorKind;
use std::process::ExitCode;

// The words of the command line; running out of memory is the one error. A word that isn't UTF-8 is no command: then
// there is no word at all.
fn words_of(rt: &HostRuntime) -> Result<Vec<String>, NoMemory> {
    let mut words = Vec::new(rt.alloc());
    match env::args(rt) {
        Ok(args) => {
            for word in args {
                if words.push(word).is_err() {
                    return Err(NoMemory);
                }
            }
            Ok(words)
        }
        Err(e) if e.kind() == ErrorKind::OutOfMemory => Err(NoMemory),
        Err(_) => Ok(words),
    }
}

fn main(rt: HostRuntime) -> ExitCode {
    let mut err = StdSink::new(rt.stderr());
    let words = match words_of(&rt) {
        Ok(words) => words,
        Err(NoMemory) => return ExitCode::from(report_no_memory(&mut err).0),
    };
    let mut folder = FileFolder::new(rt.alloc(), &rt);
    let mut input = StdSource::new(rt.stdin());
    let mut out = StdSink::new(rt.stdout());
    let mut left = None;
    let status = fp2(
        rt.alloc(),
        words.as_slice(),
        &mut folder,
        &mut input,
        &mut out,
        &mut err,
        &mut left,
    );
    ExitCode::from(status.0)
}
