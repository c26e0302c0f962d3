// The work of the programs on a part of their input: what is done with its lines is a task. These functions are the programs'
// own, with a requires on the buffers that they make; the library's calls for a line are line_reply::reply and
// line_convert::convert.
#![tactic(auto)]

ghost use Rattle.std.specs.Prelude.{◌≡◌, [], ◌++◌, ◌+◌, ◌<◌, ◌≤◌, length, take};
ghost use Rattle.line_frame.specs.Sizes.{most_held};
ghost use Rattle.line_frame.specs.Begun.{kept_of};
ghost use Rattle.line_fields.specs.Put.{Wrote};
ghost use Rattle.line_stream.specs.Stream.{most_part};
ghost use Rattle.line_stream.specs.Fill.{line_ended, FedLine, Filled};
ghost use Rattle.line_walk.specs.Walk.{Clear};
ghost use Rattle.lines.specs.Tasks.{most_early, most_told, job_of};

use line_convert::{end_fed_line, end_line, pass_on};
use line_reply::Desk;
use line_stream::{Progress, hold, line_end};
use sheet_entry::{Entry, enter};

// What a program does with the lines of its input.
#[derive(Clone, Copy)]
pub enum Task {
    Answer,
    Convert,
    Rows,
    Enter,
}

// The bytes that the output has left when a line is passed.
fn most(task: Task) -> usize
    ensures { result ≡ (job_of task).most }
{
    match task {
        Task::Answer => Desk::MOST_ANSWER,
        Task::Convert => Progress::MOST_HELD + Progress::MOST_PART + Progress::MOST_HELD,
        Task::Rows => line_rows::MOST_ROWS,
        Task::Enter => Entry::MOST,
    }
}

// Writes what a task writes before a line ends, when the bytes s come to the bytes h that are held.
fn tell_early(task: Task, h: &[u8], s: &[u8], out: &mut [u8], used: usize) -> usize
    requires h_len_bound { (length h.now ≤ most_held) × (length s.now ≤ most_part) }
    requires task_in_bounds { used + most_early task ≤ length out.old }
    ensures { Wrote ((job_of task).early h.now s.now) used out.old result out.new }
{
    match task {
        Task::Convert => pass_on(h, s, out, used),
        Task::Answer | Task::Rows | Task::Enter => used,
    }
}

// The buffers in which lines are judged. The table is all zeros, and a line leaves it so.
#[derive(Drop)]
struct Store {
    table: [u32; Desk::TABLE],
    marks: [u32; Desk::MARKS],
    hull: [i32; Desk::HULL],
    ghost clear: { Clear table },
}

impl Store {
    // The buffers for the first line.
    fn new() -> Self {
        Store {
            table: [0; Desk::TABLE],
            marks: [0; Desk::MARKS],
            hull: [0; Desk::HULL],
        }
    }
}

// Writes what a task writes at the end of a line, if s was kept of it.
fn tell(task: Task, s: &[u8], store: &mut Store, out: &mut [u8], at: usize) -> usize
    requires s_len_bound { length s.now ≤ most_held }
    requires task_in_bounds { at + most_told task ≤ length out.old }
    ensures { Wrote ((job_of task).told s.now []) at out.old result out.new }
{
    match task {
        Task::Answer => line_reply::tell(
            s,
            &mut store.table,
            &mut store.marks,
            &mut store.hull,
            out,
            at,
        ),
        Task::Convert => end_fed_line(s, out, at),
        Task::Rows => line_rows::tell(
            s,
            &mut store.table,
            &mut store.marks,
            &mut store.hull,
            out,
            at,
        ),
        Task::Enter => enter(s, &mut store.table, &mut store.marks, out, at),
    }
}

// Writes what a task writes at the end of an input whose last line lacks its line feed, if s was kept of that line.
fn tell_last(task: Task, s: &[u8], store: &mut Store, out: &mut [u8]) -> usize
    requires s_nonzero { (0 < length s.now) × (length s.now ≤ most_held) }
    requires task_in_bounds { most_told task ≤ length out.old }
    ensures { Wrote ((job_of task).last s.now) 0 out.old result out.new }
{
    match task {
        Task::Convert => end_line(s, out, 0),
        Task::Answer | Task::Rows | Task::Enter => tell(task, s, store, out, 0),
    }
}

// Writes the task's output for a line that ends. The line is the bytes that were held, then the bytes s. If nothing was held, it
// is read in place.
fn tell_end(
    task: Task,
    line: &mut [u8],
    held: usize,
    s: &[u8],
    store: &mut Store,
    out: &mut [u8],
    used: usize,
) -> usize
    requires held_le_most_held { (held ≤ most_held) × (length line.old ≡ most_held) }
    requires task_in_bounds { used + most_told task ≤ length out.old }
    ensures wrote { Wrote ((job_of task).told (kept_of (take held line.old ++ s.now)) []) used
        out.old result out.new }
    ensures line_after { line.new ≡ line_ended line.old held s.now }
{
    if held == 0 {
        let kept = s.len().min(Progress::MOST_HELD);
        return tell(task, &s[..kept], store, out, used);
    }
    let kept = hold(line, held, s);
    tell(task, &line[..kept], store, out, used)
}

// Passes one line of the chunk, or what is left of it: s is the chunk from at on.
fn feed_line(
    task: Task,
    line: &mut [u8],
    held: usize,
    s: &[u8],
    at: usize,
    store: &mut Store,
    out: &mut [u8],
    used: usize,
) -> Progress
    requires held_le_most_held { (held ≤ most_held) × (length line.old ≡ most_held) }
    requires s_in_bounds { at + length s.now ≤ most_part }
    requires task_in_bounds { used + (job_of task).most ≤ length out.old }
    ensures { FedLine (job_of task) line.old held s.now at out.old used result
        line.new out.new }
{
    let end = line_end(s);
    let next = tell_early(task, &line[..held], &s[..end], out, used);
    if s.len() <= end {
        let kept = hold(line, held, &s[..end]);
        return Progress {
            held: kept,
            at: at + end,
            used: next,
        };
    }
    let last = tell_end(task, line, held, &s[..end], store, out, next);
    Progress {
        held: 0,
        at: at + end + 1,
        used: last,
    }
}

// Passes lines of the chunk from at on while the output, which is written from its start, is long enough for one more.
pub fn fill(
    task: Task,
    line: &mut [u8],
    held: usize,
    s: &[u8],
    at: usize,
    out: &mut [u8],
) -> Progress
    requires held_le_most_held { (held ≤ most_held) × (length line.old ≡ most_held) }
    requires at_in_bounds { (at ≤ length s.now) × (length s.now ≤ most_part) }
    ensures { Filled (job_of task) line.old held s.now at out.old result
        line.new out.new }
{
    let mut store = Store::new();
    let room = most(task);
    let mut p = Progress { held, at, used: 0 };
    while p.at < s.len() {
        let used = p.used;
        if out.len() - used < room {
            return p;
        }
        p = feed_line(task, line, p.held, &s[p.at..], p.at, &mut store, out, used);
    }
    p
}

// Writes what is written of the last line, if one was begun.
pub fn finish(task: Task, line: &[u8], held: usize, out: &mut [u8]) -> usize
    requires held_le_most_held { (held ≤ most_held) × (length line.now ≡ most_held) }
    requires task_in_bounds { most_told task ≤ length out.old }
    ensures { Wrote ((job_of task).last (take held line.now)) 0 out.old result out.new }
{
    if held < 1 {
        return 0;
    }
    let mut store = Store::new();
    tell_last(task, &line[..held], &mut store, out)
}
