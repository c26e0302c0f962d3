// Input that comes in parts: how far a call went, where a line ends, and the bytes of a line begun, which are held in a lent
// buffer.
#![tactic(auto)]

ghost use Rattle.std.specs.Prelude.{◌≡◌, ◌+◌, ◌≤◌, length, take, drop, ltb, ◌++◌};
ghost use Rattle.line_frame.specs.Begun.{line_length, kept_of};
ghost use Rattle.line_stream.specs.Stream.{near};
ghost use Rattle.line_frame.specs.Sizes.{most_held};
ghost use Rattle.line_fields.specs.Put.{Wrote};

use line_frame::Frame;

// After a call: this many bytes of the line begun are held, the chunk was passed up to at, and the output up to used is written.
#[derive(Clone, Copy)]
pub struct Progress {
    pub held: usize,
    pub at: usize,
    pub used: usize,
}

impl Progress {
    // the bytes that are held of a line at most: one more than a frame has
    pub const MOST_HELD: usize = Frame::MOST_LINE + 1;

    // bytes of a part of the input at most
    pub const MOST_PART: usize = 65_536;

    // bytes in which a line feed is looked for together
    const NEAR: usize = 32;
}

// Whether there is a line feed among the first bytes. All of them are looked at, so that they can be looked at together.
fn is_near(s: &[u8]) -> bool
    requires { near ≤ length s.now }
    ensures { result ≡ ltb (line_length s.now) near }
{
    let mut found = false;
    for k in 0..Progress::NEAR {
        found = found | (s[k] == 10);
    }
    found
}

// A place that no line feed stands before: near the first one, or near the end.
fn skip(s: &[u8]) -> usize
    ensures { (result ≤ length s.now) × (result + line_length (drop result s.now) ≡ line_length s.now) }
{
    let mut i = 0;
    // a `while`: it goes on by many bytes, and ends where fewer are left
    while Progress::NEAR <= s.len() - i {
        if is_near(&s[i..]) {
            return i;
        }
        i += Progress::NEAR;
    }
    i
}

// The place of the first line feed, or the length.
pub fn line_end(s: &[u8]) -> usize
    ensures { result ≡ line_length s.now }
{
    for i in skip(s)..s.len() {
        if s[i] == 10 {
            return i;
        }
    }
    s.len()
}

// Holds the bytes s of the chunk, as far as the buffer is long enough. Answers how many are held then.
pub fn hold(line: &mut [u8], held: usize, s: &[u8]) -> usize
    requires held_le_most_held { (held ≤ most_held) × (length line.old ≡ most_held) }
    ensures { Wrote (kept_of (take held line.old ++ s.now)) 0 line.old result line.new }
{
    let m = s.len().min(Progress::MOST_HELD - held);
    line[held..held + m].copy_from_slice(&s[..m]);
    held + m
}
