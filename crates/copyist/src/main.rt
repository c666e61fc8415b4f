// The copyist: the fair copy of standard input on standard output.
#![tactic(auto)]

use fair_copy::serve;
use std::process::ExitCode;

fn main(rt: HostRuntime) -> ExitCode {
    let mut output = rt.stdout();
    match serve(rt.stdin(), &mut output) {
        Ok(()) => ExitCode::SUCCESS,
        Err(e) => {
            let _ = eprintln!(rt; "copyist: {}", e.message());
            ExitCode::FAILURE
        }
    }
}
