// The programs on lines: their rounds, reading and writing, the pages of the table of polygons, and the status that says how they
// ended.
#![tactic(auto)]

ghost use Rattle.std.specs.Prelude.{◌≡◌, ◌<◌, ◌≤◌, length, take};
ghost use Rattle.sheet.specs.Sheet.{margin_after, page_of};
ghost use Rattle.sheet_number.specs.Numbered.{most_piece};
ghost use Rattle.lines.specs.Tasks.{handed_of, margin_of, most_told, job_of};
ghost use Rattle.line_io.specs.Send.{SentIs, Grows, ClosesBy};
ghost use Rattle.line_frame.specs.Sizes.{most_held};
ghost use Rattle.line_fields.specs.Put.{put};
ghost use Rattle.line_stream.specs.Stream.{most_part};
ghost use Rattle.line_io.specs.Round.{ReadOn, PassedOn, RoundIs, Takes, Gives, Flows};
ghost use Rattle.line_io.specs.Whole.{Ends, status_of};
ghost use Rattle.std.specs.Process.{exit_status};

use line_stream::Progress;
use lines::Task;
use sheet::Margin;
use sheet_number::{Numbered, number};
use std::io::{Read, Write};
use std::process::ExitCode;

// Why a program stopped early: a read or a write failed.
#[derive(Clone, Copy)]
pub enum Failure {
    Unread,
    Unwritten,
}

// Writes a page of the sheet, which stands at m: the bytes s of the entries, numbered. Answers where the sheet stands then.
fn send_page<W: Write>(
    writer: &mut W,
    m: Margin,
    s: &[u8],
    page: &mut [u8; Numbered::MOST_PAGE],
) -> Result<Margin, Failure>
    requires { length s.now ≤ most_piece }
    ensures at { SentIs (margin_after m s.now) result }
    ensures bytes { Grows (W.contents writer.old) (W.contents writer.new) (page_of m s.now) result }
{
    if Numbered::MOST_NUMBER < m.line {
        return Err(Failure::Unwritten);
    }
    let n = number(m, s, page);
    if writer.write_all(&page[..n.used]).is_err() {
        return Err(Failure::Unwritten);
    }
    Ok(n.margin)
}

// Writes the bytes s of the entries, numbered, page after page.
fn send_pages<W: Write>(
    writer: &mut W,
    m: Margin,
    s: &[u8],
    page: &mut [u8; Numbered::MOST_PAGE],
) -> Result<Margin, Failure>
    ensures at { SentIs (margin_after m s.now) result }
    ensures bytes { Grows (W.contents writer.old) (W.contents writer.new) (page_of m s.now) result }
{
    let mut next = m;
    let mut at = 0;
    loop {
        let end = at + (s.len() - at).min(Numbered::MOST_PIECE);
        next = send_page(writer, next, &s[at..end], page)?;
        if s.len() <= end {
            return Ok(next);
        }
        at = end;
    }
}

// Writes the bytes s as they are.
fn send_plain<W: Write>(writer: &mut W, m: Margin, s: &[u8]) -> Result<Margin, Failure>
    ensures at { SentIs m result }
    ensures bytes { Grows (W.contents writer.old) (W.contents writer.new) s.now result }
{
    if writer.write_all(s).is_err() {
        return Err(Failure::Unwritten);
    }
    Ok(m)
}

// Passes on the bytes s that a task wrote: entries as pages of the sheet, everything else as it is.
fn send<W: Write>(
    writer: &mut W,
    task: Task,
    m: Margin,
    s: &[u8],
    page: &mut [u8; Numbered::MOST_PAGE],
) -> Result<Margin, Failure>
    ensures at { SentIs (margin_of task m s.now) result }
    ensures bytes { Grows (W.contents writer.old) (W.contents writer.new) (handed_of task m s.now) result }
{
    match task {
        Task::Answer => send_plain(writer, m, s),
        Task::Convert => send_plain(writer, m, s),
        Task::Rows => send_plain(writer, m, s),
        Task::Enter => send_pages(writer, m, s, page),
    }
}

// After a round: how far the chunk was passed, how many bytes it has, and where the sheet stands; or the input is over with this
// many bytes of a line held.
#[derive(Clone, Copy)]
enum Round {
    More(Progress, usize, Margin),
    Over(usize),
}

// Reads the next chunk, with this many bytes of a line held, if the sheet stands at m.
fn read_on<R: Read>(
    reader: &mut R,
    held: usize,
    buf: &mut [u8],
    m: Margin,
) -> Result<Round, Failure>
    ensures round { ReadOn held (length buf.new) m result }
    ensures bytes { Takes (R.remaining reader.old) (R.remaining reader.new) buf.new result }
{
    match reader.read(buf) {
        Ok(0) => Ok(Round::Over(held)),
        Ok(n) => {
            let begun = Progress {
                held,
                at: 0,
                used: 0,
            };
            Ok(Round::More(begun, n, m))
        }
        Err(_) => Err(Failure::Unread),
    }
}

// Passes lines of the chunk from at on, as far as the output is long enough, and passes on what is written of them.
fn pass<W: Write>(
    writer: &mut W,
    task: Task,
    line: &mut [u8; Progress::MOST_HELD],
    held: usize,
    s: &[u8],
    at: usize,
    out: &mut [u8],
    m: Margin,
    page: &mut [u8; Numbered::MOST_PAGE],
) -> Result<Round, Failure>
    requires held_le_most_held { held ≤ most_held }
    requires at_in_bounds { (at ≤ length s.now) × (length s.now ≤ most_part) }
    ensures passed { PassedOn task line.old held s.now at out.old m result
        line.new out.new }
    ensures bytes { Gives task m (W.contents writer.old) (W.contents writer.new) out.new result }
{
    let p = lines::fill(task, line, held, s, at, out);
    let q = send(writer, task, m, &out[..p.used], page)?;
    Ok(Round::More(p, s.len(), q))
}

// Passes lines of the chunk, the first n bytes of buf, or reads the next one if it is passed.
fn go_round<R: Read, W: Write>(
    reader: &mut R,
    writer: &mut W,
    task: Task,
    line: &mut [u8; Progress::MOST_HELD],
    p: Progress,
    buf: &mut [u8],
    n: usize,
    out: &mut [u8],
    m: Margin,
    page: &mut [u8; Numbered::MOST_PAGE],
) -> Result<Round, Failure>
    requires held_le_most_held { p.held ≤ most_held }
    requires n_in_bounds { (n ≤ length buf.old) × (length buf.old ≤ most_part) }
    ensures round { RoundIs task line.old p buf.old n out.old m result line.new
        buf.new out.new }
    ensures bytes { Flows task p n m result buf.new out.new (R.remaining reader.old) (R.remaining reader.new)
        (W.contents writer.old) (W.contents writer.new) }
{
    if p.at < n {
        return pass(writer, task, line, p.held, &buf[..n], p.at, out, m, page);
    }
    read_on(reader, p.held, buf, m)
}

// Writes what is written of the line that the input ended in, if there is one.
fn close<W: Write>(
    writer: &mut W,
    task: Task,
    line: &[u8; Progress::MOST_HELD],
    held: usize,
    out: &mut [u8],
    m: Margin,
    page: &mut [u8; Numbered::MOST_PAGE],
) -> Result<(), Failure>
    requires held_le_most_held { held ≤ most_held }
    requires task_in_bounds { most_told task ≤ length out.old }
    ensures out { out.new ≡ put ((job_of task).last (take held line.now)) 0 out.old }
    ensures bytes { ClosesBy (W.contents writer.old) (W.contents writer.new)
        (handed_of task m ((job_of task).last (take held line.now))) result }
{
    let used = lines::finish(task, line, held, out);
    send(writer, task, m, &out[..used], page)?;
    Ok(())
}

// A proved loop has to end, and nothing says that the input does. So it counts its rounds, up to a number that no run uses up.
fn run<R: Read, W: Write>(
    reader: &mut R,
    writer: &mut W,
    task: Task,
    line: &mut [u8; Progress::MOST_HELD],
    buf: &mut [u8],
    out: &mut [u8],
    page: &mut [u8; Numbered::MOST_PAGE],
) -> Result<(), Failure>
    requires buf_len_bound { length buf.old ≤ most_part }
    requires task_in_bounds { most_told task ≤ length out.old }
    ensures { 0 < length buf.old → Ends task (R.remaining reader.old) (W.contents writer.old) (W.contents writer.new) result }
{
    let mut m = Numbered::top();
    let mut p = Progress {
        held: 0,
        at: 0,
        used: 0,
    };
    let mut n: usize = 0;
    for _ in 0..u64::MAX {
        match go_round(reader, writer, task, line, p, buf, n, out, m, page)? {
            Round::More(q, k, l) => {
                p = q;
                n = k;
                m = l;
            }
            Round::Over(held) => return close(writer, task, line, held, out, m, page),
        }
    }
    Err(Failure::Unread)
}

// A program on lines, from a reader to a writer.
pub fn pass_all<R: Read, W: Write>(
    reader: &mut R,
    writer: &mut W,
    task: Task,
) -> Result<(), Failure>
    ensures { Ends task (R.remaining reader.old) (W.contents writer.old) (W.contents writer.new) result }
{
    let mut line = [0u8; Progress::MOST_HELD];
    let mut buf = [0u8; Progress::MOST_PART];
    let mut out = [0u8; 2 * Progress::MOST_PART];
    let mut page = [0u8; Numbered::MOST_PAGE];
    run(
        reader, writer, task, &mut line, &mut buf, &mut out, &mut page,
    )
}

// The status that says how the program ended.
fn status(e: Result<(), Failure>) -> ExitCode
    ensures { exit_status result ≡ status_of e }
{
    match e {
        Ok(()) => ExitCode::from(0),
        Err(Failure::Unread) => ExitCode::from(1),
        Err(Failure::Unwritten) => ExitCode::from(2),
    }
}

// A program on lines: standard input to standard output.
pub fn start(rt: HostRuntime, task: Task) -> ExitCode
    ensures { exit_status result ≤ 2 }
{
    status(pass_all(&mut rt.stdin(), &mut rt.stdout(), task))
}
