// What is written: the answers, and what the buffers hold.
use answer::{Facts, Refusal};
use std::io;
use std::io::Write;
use walk_table::Record;

// In 8 hexadecimal digits, a negative in two's complement.
fn signed<W: Write>(out: &mut W, x: i32) -> io::Result<()> {
    let bits = line_fields::hex::bits(x);
    write!(out, " {bits:08x}")
}

// A name, then each byte.
pub(crate) fn bytes<W: Write>(out: &mut W, name: &str, s: &[u8]) -> io::Result<()> {
    write!(out, "{name}")?;
    for x in s {
        write!(out, " {x}")?;
    }
    writeln!(out)
}

// A name, then each word, a record to a line.
pub(crate) fn words<W: Write>(out: &mut W, name: &str, s: &[u32]) -> io::Result<()> {
    write!(out, "{name}")?;
    for (i, x) in s.iter().enumerate() {
        if i % Record::WORDS == 0 {
            write!(out, "\n   ")?;
        }
        write!(out, " {x}")?;
    }
    writeln!(out)
}

// A name, then each signed number.
pub(crate) fn numbers<W: Write>(out: &mut W, name: &str, s: &[i32]) -> io::Result<()> {
    write!(out, "{name}")?;
    for x in s {
        signed(out, *x)?;
    }
    writeln!(out)
}

pub(crate) fn refusal<W: Write>(out: &mut W, r: Refusal) -> io::Result<()> {
    let number = answer::refusal_number(r);
    let place = answer::refusal_place(r);
    writeln!(out, "  refused {number} {place}")
}

// Verdict, steps, nodes, corners, j, k; then area and last corner.
fn facts<W: Write>(out: &mut W, f: Facts) -> io::Result<()> {
    let verdict = answer::verdict_number(f.verdict);
    let Facts {
        steps,
        nodes,
        corners,
        j,
        k,
        last,
        area,
        ..
    } = f;
    write!(
        out,
        "  accepted {verdict} {steps} {nodes} {corners} {j} {k}"
    )?;
    numbers(out, "", &[area, last.0, last.1])
}

pub(crate) fn answer<W: Write>(out: &mut W, a: Result<Facts, Refusal>) -> io::Result<()> {
    match a {
        Ok(f) => facts(out, f),
        Err(r) => refusal(out, r),
    }
}

pub(crate) fn counted<W: Write>(out: &mut W, c: Result<usize, Refusal>) -> io::Result<()> {
    match c {
        Ok(n) => write!(out, " {n}"),
        Err(r) => refusal(out, r),
    }
}

pub(crate) fn judged<W: Write>(out: &mut W, j: Result<(), Refusal>) -> io::Result<()> {
    match j {
        Ok(()) => writeln!(out, "  good"),
        Err(r) => refusal(out, r),
    }
}
