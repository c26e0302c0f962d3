// The converter: each line with turns becomes the line with their steps.
#![tactic(auto)]

use lines::Task;
use std::process::ExitCode;

fn main(rt: HostRuntime) -> ExitCode {
    line_io::start(rt, Task::Convert)
}
