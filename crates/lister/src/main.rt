// The lister: the fair copy of standard input, and the list of its closed sheet, on standard output.
#![tactic(auto)]

use listing::serve;
use std::process::ExitCode;

fn main(rt: HostRuntime) -> ExitCode {
    let mut output = rt.stdout();
    match serve(rt.stdin(), &mut output) {
        Ok(()) => ExitCode::SUCCESS,
        Err(e) => {
            let _ = eprintln!(rt; "lister: {}", e.message());
            ExitCode::FAILURE
        }
    }
}
