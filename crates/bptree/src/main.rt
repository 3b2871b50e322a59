//! Reads lines from standard input, and writes a reply to each to standard output.
#![tactic(auto)]

use bptree_commands::error::exit_status;
use bptree_commands::session::serve;
use std::process::ExitCode;

fn main(rt: HostRuntime) -> ExitCode {
    let served = serve(rt.alloc(), &mut rt.stdin(), &mut rt.stdout());
    if let Err(error) = &served {
        let _ = rt.eprintln(error);
    }
    ExitCode::from(exit_status(&served))
}
