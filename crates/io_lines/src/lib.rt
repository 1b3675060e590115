// Lines of standard input, one after the other, and answers collected for standard output: one system call for a buffer of either.
// A line that goes on past the end of the buffer is moved to its front before more is read, so that every line stands in one piece.
// Which bytes the system hands over no contract can say. What becomes of them is stated: which lines are found (`Next`), which parts
// of lines (`NextPart`). Where input cannot be read or output cannot be written the stream stops, and keeps which of the two it was. The
// system, the buffer and the output are lent to each call, and no struct holds them: `Next` speaks of the buffer and the stream as they come and go.
#![tactic(auto)]

ghost use Rattle.std.specs.Prelude.{◌≡◌, None, Some, IfErr, length};
ghost use Rattle.std.specs.Io.{ReadsAtMost};
ghost use Rattle.io_lines.specs.Streams.{begun, stopped_by, waiting_of, line_of, is_fed, settled, left, line_in, part_of, looked_at, Roomed};
ghost use Rattle.io_lines.specs.Refills.{read_on, Behind, Refilled};
ghost use Rattle.io_lines.specs.Found.{Next, NextPart};

use io_parts::{behind, keep, line_end};
use slices::first_of;
use std::io;
use std::io::{Print, Read};

// What the system refused.
#[derive(Clone, Copy)]
pub enum Failure {
    Reading,
    Writing,
}

// Standard input, output and error, and the system's word for what it refused last of the first two, if anything.
#[derive(Clone, Copy)]
pub struct System {
    rt: HostRuntime,
    refused: Option<io::Error>,
}

impl System {
    // Before the first read.
    pub fn begin(rt: HostRuntime) -> System
        ensures { result.refused ≡ None }
    {
        System { rt, refused: None }
    }

    // The system's word for what it refused last.
    pub fn refused(&self) -> Option<io::Error>
        ensures { result ≡ self.now.refused }
    {
        self.refused
    }

    // A text goes to standard error, as far as the system takes it.
    pub fn tell(&self, text: &[u8]) {
        let _ = Print::write_all(&self.rt.stderr(), text);
    }

    // One read of standard input.
    fn read(&mut self, part: &mut [u8]) -> io::Result<usize>
        ensures bound { ReadsAtMost result part.new }
        ensures word { IfErr result (λ e. self.new.refused ≡ Some e) }
    {
        let got = self.rt.stdin().read(part);
        if let Err(e) = got {
            self.refused = Some(e);
        }
        got
    }

    // All of the bytes go to standard output.
    pub fn write(&mut self, bytes: &[u8]) -> io::Result<()>
        ensures { IfErr result (λ e. self.new.refused ≡ Some e) }
    {
        let put = Print::write_all(&self.rt, bytes);
        if let Err(e) = put {
            self.refused = Some(e);
        }
        put
    }
}

// Where a line, or a part of one, stands in the buffer, how many bytes it has, and whether a line feed ended it.
#[derive(Clone, Copy)]
pub struct Span {
    pub from: usize,
    pub len: usize,
    pub fed: bool,
}

// How far the lines were taken.
#[derive(Clone, Copy)]
pub struct Stream {
    // What was read and not taken yet, from one place of the buffer up to another.
    pub next: usize,
    pub filled: usize,
    // How many bytes of answers wait.
    pub waiting: usize,
    // The line, or the part of one, that was found last.
    pub found: Option<Span>,
    // Whether nothing more comes.
    pub ended: bool,
    pub failed: Option<Failure>,
}

impl Stream {
    // Before the first line.
    #[inline(always)]
    pub fn begin() -> Stream
        ensures { result ≡ begun }
    {
        Stream {
            found: None,
            next: 0,
            filled: 0,
            ended: false,
            waiting: 0,
            failed: None,
        }
    }

    // Where the system refused something: nothing is found any more.
    fn stopped(failure: Failure) -> Stream
        ensures { result ≡ stopped_by failure }
    {
        Stream {
            ended: true,
            failed: Some(failure),
            ..Stream::begin()
        }
    }

    // With so many bytes of answers waiting.
    #[inline(always)]
    pub fn answered(self, waiting: usize) -> Stream
        ensures { result ≡ waiting_of self waiting }
    {
        Stream { waiting, ..self }
    }

    // The bytes of the line that was found, or of the part of one; none where there is none.
    #[inline(always)]
    pub fn line(self, buf: &[u8]) -> &[u8]
        ensures { result.now ≡ line_in buf.now self }
    {
        match self.found {
            Some(span) => slices::part(buf, span.from, span.len),
            None => &[],
        }
    }

    // Whether a line feed ended it.
    pub fn is_fed(self) -> bool
        ensures { result ≡ is_fed self }
    {
        self.found.is_some_and(|span| span.fed)
    }

    // Whether reading on would change nothing.
    fn is_settled(self) -> bool
        ensures { result ≡ settled self }
    {
        self.found.is_some() || self.ended
    }

    // With a line found, or none, behind which the next begins.
    #[inline(always)]
    fn at_line(self, found: Option<Span>, next: usize) -> Stream
        ensures { result ≡ line_of self found next }
    {
        Stream {
            found,
            next,
            ..self
        }
    }

    // After a read behind the bytes that were held.
    fn after(self, held: usize, came: io::Result<usize>) -> Stream
        ensures { result ≡ read_on self held came }
    {
        match came {
            Ok(n) => Stream {
                filled: held.saturating_add(n),
                ended: n < 1,
                failed: self.failed,
                ..Stream::begin()
            },
            Err(_) => Stream::stopped(Failure::Reading),
        }
    }
}

// The next line, or none where the input is over. Answers that wait are written before more is read, so that whoever types lines is
// answered at once. A proved loop has to end, so it counts up to a number that no run reaches.
#[inline(always)]
pub fn next_line(system: &mut System, buf: &mut [u8], out: &[u8], s: Stream) -> Stream
    ensures { Next buf.old s buf.new result }
{
    let mut t = look(buf, s);
    for _turn in 0..u64::MAX {
        if t.is_settled() {
            return t;
        }
        let more = refill(system, buf, out, t);
        t = look(buf, more);
    }
    t
}

// The next part of a line, up to its line feed or to the end of what was read, for whoever takes lines of any length; none where the
// input is over.
#[inline(always)]
pub fn next_part(system: &mut System, buf: &mut [u8], out: &[u8], s: Stream) -> Stream
    ensures { NextPart buf.old s buf.new result }
{
    let t = part(buf, s);
    if t.is_settled() {
        return t;
    }
    let more = refill(system, buf, out, t);
    part(buf, more)
}

// The line that ends in what was read. The last one of all may lack its line feed.
#[inline(always)]
fn look(buf: &[u8], s: Stream) -> Stream
    ensures { result ≡ looked_at s (left buf.now s) }
{
    let p = part(buf, s);
    if p.is_fed() || s.ended {
        return p;
    }
    s.at_line(None, s.next)
}

// What was read up to the next line feed, or all of it where there is none.
#[inline(always)]
fn part(buf: &[u8], s: Stream) -> Stream
    ensures { result ≡ part_of s (left buf.now s) }
{
    let all = slices::part(buf, s.next, behind(s.filled, s.next, buf.len()));
    let len = line_end(all);
    let fed = len < all.len();
    let line = Span {
        from: s.next,
        len,
        fed,
    };
    if fed {
        return s.at_line(Some(line), s.next + len + 1);
    }
    s.at_line((0 < len).then_some(line), s.filled)
}

// More is read behind what stands in the buffer of the line that goes on. No more than half of the buffer is kept, so that there is
// room to read: of a longer line further bytes are passed over, and so many at least come.
fn refill(system: &mut System, buf: &mut [u8], out: &[u8], s: Stream) -> Stream
    ensures { Refilled buf.old s buf.new result }
{
    if flush(system, out, s.waiting).is_err() {
        return Stream::stopped(Failure::Writing);
    }
    let held = keep(buf, s.next, behind(s.filled, s.next, buf.len() / 2));
    let came = read_behind(system, buf, held);
    s.after(held, came)
}

// How many bytes came behind those that are held, none at the end of the input; or that the system refused to read.
fn read_behind(system: &mut System, buf: &mut [u8], held: usize) -> io::Result<usize>
    ensures { Behind buf.old held buf.new result }
{
    if held < buf.len() {
        return system.read(&mut buf[held..]);
    }
    Ok(0)
}

// The stream, whose next answer, of no more than `need` bytes, goes where the answers that wait end. They are written first where it might not fit.
#[inline(always)]
pub fn room(system: &mut System, out: &[u8], s: Stream, need: usize) -> Stream
    ensures { Roomed (length out.now) need s result }
{
    if s.waiting < out.len() && need <= out.len() - s.waiting {
        return s;
    }
    match flush(system, out, s.waiting) {
        Ok(()) => s.answered(0),
        Err(_) => Stream::stopped(Failure::Writing),
    }
}

// What waits is written.
pub fn flush(system: &mut System, out: &[u8], waiting: usize) -> io::Result<()>
    ensures { IfErr result (λ e. system.new.refused ≡ Some e) }
{
    system.write(first_of(out, waiting))
}
