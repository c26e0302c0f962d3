// The line program: each line is answered.
#![tactic(auto)]

use lines::Task;
use std::process::ExitCode;

fn main(rt: HostRuntime) -> ExitCode {
    line_io::start(rt, Task::Answer)
}
