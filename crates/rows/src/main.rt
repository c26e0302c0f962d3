// The rows program: each line is taken as a room, and its rows are listed.
#![tactic(auto)]

use lines::Task;
use std::process::ExitCode;

fn main(rt: HostRuntime) -> ExitCode {
    line_io::start(rt, Task::Rows)
}
