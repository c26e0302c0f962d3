// The table of polygons: each line is a row, with the polygon of a room.
#![tactic(auto)]

use lines::Task;
use std::process::ExitCode;

fn main(rt: HostRuntime) -> ExitCode {
    line_io::start(rt, Task::Enter)
}
