// The desk: standard input answered on standard output.
#![tactic(auto)]

use file::serve;
use std::process::ExitCode;

fn main(rt: HostRuntime) -> ExitCode {
    let mut output = rt.stdout();
    match serve(rt.stdin(), &mut output) {
        Ok(()) => ExitCode::SUCCESS,
        Err(e) => {
            let _ = eprintln!(rt; "desk: {}", e.message());
            ExitCode::FAILURE
        }
    }
}
