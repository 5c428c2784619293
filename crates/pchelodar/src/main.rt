#![tactic(auto)]

// The session program (document 01, "Session lines"): it reads standard input, calls the session, and writes standard
// output.
ghost use Rattle.std.specs.Prelude.{◌≡◌, true, ◌<◌, ◌≤◌, length, take, Err, IfOk, OnOk, IfErr, OnErr, IfSome};
ghost use Rattle.std.specs.Io.{ReadsAtMost};
ghost use Rattle.std.specs.Io.KnownBytes.{Appends, Keeps};
ghost use Rattle.parse.specs.Kept.{kept_length};
ghost use Rattle.session.specs.Meaning.{session_output};
ghost use Rattle.session.specs.Promises.{lent_long, lent_of, finish_room};
ghost use Rattle.pchelodar.specs.Promises.{after_write, after_feed, Told, known, read_of, Wrote, StepFed, ChunkFed, AfterRead, Heard, AllRead, Concludes, Ended, Concluded, WriteTold, ReadHeard};

use board::tables::LentTables;
use deque::ring::CAPACITY;
use engine::state::State;
use parse::kept::KEPT;
use registry::list::LIST_PLACES;
use session::stream::Session;
use std::io::{Read, Write};
use std::{fmt, io};

// The places of the chunk that is read into, and of the output.
const BUFFER: usize = 65536;

// What ends a run before its time, with what the read or the write failed with.
#[derive(Drop)]
enum Error {
    ReadFailed(io::Error),
    WriteFailed(io::Error),
    TooLong,
}

impl fmt::Display for Error {
    fn fmt<W: fmt::Write>(&self, f: &mut fmt::Formatter<W>) -> fmt::Result {
        let what = match self {
            Error::ReadFailed(_) => "standard input cannot be read",
            Error::WriteFailed(_) => "standard output cannot be written",
            Error::TooLong => "the input is longer than can be counted",
        };
        write!(f, "pchelodar: {what}: what was printed is not complete")
    }
}

// What follows a write: it failed where it said so, with what it said.
fn after_write(said: io::Result<()>) -> Result<(), Error>
    ensures by { result ≡ after_write said }
    ensures told { Told result said }
{
    said.map_err(Error::WriteFailed)
}

// What follows a session's call that took so many bytes: one that took none has come to its limit.
fn after_feed(taken: usize) -> Result<usize, Error>
    ensures { result ≡ after_feed taken }
{
    if taken == 0 {
        return Err(Error::TooLong);
    }
    Ok(taken)
}

// What a run holds: the session, what is lent to it, the output that it prints into, and what it heard last of its
// streams: whether the last write said that it succeeded, true where there was none, and how many bytes the last read
// said that it brought, none where it failed.
#[derive(Drop)]
struct Memory<'a> {
    session: Session,
    list: &'a mut [u32],
    line: &'a mut [u8],
    tables: LentTables<'a>,
    out: &'a mut [u8],
    said: bool,
    got: Option<usize>,
    ghost room: { finish_room ≤ length out.now },
}

impl Memory<'_> {
    ghost use Rattle.pchelodar.specs.Memories.{held_of, SameMemory};

    // What was printed, so many bytes. It is lent by a function, since of a slice that is lent out of a `&mut` struct in
    // place the proof does not know that it holds what it held.
    fn printed(&self, at: usize) -> &[u8]
        requires within { at ≤ length self.now.out.now }
        ensures { result.now ≡ take at self.now.out.now }
    {
        &self.out[..at]
    }

    // What was printed, so many bytes, is written. Nothing changes but what is known of the last write.
    #[tactic(auto, unfolding(crate::specs::Promises::Wrote))]
    fn write<W: Write>(&mut self, at: usize, output: &mut W) -> Result<(), Error>
        requires within { at ≤ length self.old.out.now }
        ensures same { SameMemory self.old self.new }
        ensures held { held_of self.new ≡ held_of self.old }
        ensures out { self.new.out.now ≡ self.old.out.now }
        ensures wrote { Wrote (take at self.old.out.now) (W.contents output.old) (W.contents output.new) result }
        ensures told { WriteTold result self.new.said }
        ensures got { self.new.got ≡ self.old.got }
    {
        let said = output.write_all(self.printed(at));
        self.said = said.is_ok();
        after_write(said)
    }

    // Bytes from the front of some: how many were taken. What they print is written.
    fn feed<W: Write>(&mut self, bytes: &[u8], output: &mut W) -> Result<usize, Error>
        requires some { 0 < length bytes.now }
        ensures same { SameMemory self.old self.new }
        ensures taken { IfOk result (λ n. (0 < n) × (n ≤ length bytes.now)) }
        ensures fed { StepFed bytes.now (held_of self.old) (held_of self.new)
            (W.contents output.old) (W.contents output.new) result }
        ensures told { WriteTold result self.new.said }
        ensures got { self.new.got ≡ self.old.got }
    {
        let taken = session::stream::feed(
            self.session,
            self.list,
            self.line,
            &mut self.tables,
            bytes,
            0,
            self.out,
        );
        self.session = taken.session;
        self.write(taken.at, output)?;
        after_feed(taken.to)
    }

    // All bytes of a chunk. What they print is written whenever the output is nearly full, and at the chunk's end.
    fn feed_chunk<W: Write>(&mut self, chunk: &[u8], output: &mut W) -> Result<(), Error>
        ensures same { SameMemory self.old self.new }
        ensures fed { ChunkFed chunk.now (held_of self.old) (held_of self.new)
            (W.contents output.old) (W.contents output.new) result }
        ensures told { self.old.said ≡ true → WriteTold result self.new.said }
        ensures got { self.new.got ≡ self.old.got }
    {
        let mut rest = chunk;
        while !rest.is_empty() {
            let taken = self.feed(rest, output)?;
            rest = &rest[taken..];
        }
        Ok(())
    }

    // What follows a read into the chunk, by what it returned: it failed; it brought no byte, which means that the input
    // ended; or the bytes that it brought are fed, from the chunk's front. How many it brought is handed on.
    fn after_read<W: Write>(
        &mut self,
        got: io::Result<usize>,
        chunk: &[u8],
        output: &mut W,
    ) -> Result<usize, Error>
        requires within { ReadsAtMost got chunk.now }
        ensures same { SameMemory self.old self.new }
        ensures fed { AfterRead (read_of got chunk.now) (held_of self.old) (held_of self.new)
            (W.contents output.old) (W.contents output.new) result }
        ensures heard { Heard result (read_of got chunk.now) }
        ensures told { self.old.said ≡ true → WriteTold result self.new.said }
        ensures got { self.new.got ≡ self.old.got }
    {
        let count = got.map_err(Error::ReadFailed)?;
        if count == 0 {
            return Ok(0);
        }
        self.feed_chunk(&chunk[..count], output)?;
        Ok(count)
    }

    // The input to its end, read by read. Every loop has to end: so many reads are more than a machine can make in a
    // century.
    fn read_all<R: Read, W: Write>(
        &mut self,
        input: &mut R,
        chunk: &mut [u8],
        output: &mut W,
    ) -> Result<(), Error>
        ensures same { SameMemory self.old self.new }
        ensures read { AllRead (length chunk.old) (held_of self.old) (held_of self.new)
            (known (R.remaining input.old) (W.contents output.old))
            (known (R.remaining input.new) (W.contents output.new)) result }
        ensures heard { ReadHeard result self.new.got }
        ensures told { self.old.said ≡ true → WriteTold result self.new.said }
    {
        for _ in 0..u64::MAX {
            let got = input.read(chunk);
            self.got = got.as_ref().ok().copied();
            if self.after_read(got, chunk, output)? == 0 {
                return Ok(());
            }
        }
        Err(Error::TooLong)
    }

    // What follows the reads, by what they came to: at the end of the input what a last line prints, and the totals.
    // Any other end is the run's own, and then nothing changes or is written.
    fn conclude<W: Write>(&mut self, read: Result<(), Error>, output: &mut W) -> Result<(), Error>
        ensures same { SameMemory self.old self.new }
        ensures ends { IfErr read (λ e. result ≡ Err e) }
        ensures still { OnErr read (held_of self.new ≡ held_of self.old) }
        ensures unwritten { OnErr read (Keeps (W.contents output.old) (W.contents output.new)) }
        ensures concluded { OnOk read (Concludes (held_of self.old) self.old.out.now
            (lent_of (held_of self.new)) self.new.out.now (W.contents output.old) (W.contents output.new) result) }
        ensures told { WriteTold read self.old.said → WriteTold result self.new.said }
        ensures got { self.new.got ≡ self.old.got }
    {
        read?;
        let at = session::stream::finish(
            self.session,
            self.list,
            self.line,
            &mut self.tables,
            self.out,
        );
        self.write(at, output)
    }

    // A whole session, of what the reader gives. Whatever the session was before, it is opened first.
    fn run<R: Read, W: Write>(
        &mut self,
        input: &mut R,
        chunk: &mut [u8],
        output: &mut W,
    ) -> Result<(), Error>
        requires long { lent_long (lent_of (held_of self.old)) ≡ true }
        requires line { kept_length ≤ length self.old.line.now }
        ensures same { SameMemory self.old self.new }
        ensures ended { Ended (length chunk.old) (lent_of (held_of self.old)) (lent_of (held_of self.new)) self.new.out.now
            (known (R.remaining input.old) (W.contents output.old))
            (known (R.remaining input.new) (W.contents output.new)) self.new.got self.new.said result }
        ensures heard { ReadHeard result self.new.got }
        ensures told { WriteTold result self.new.said }
        ensures ran { Concluded (lent_of (held_of self.old)) (lent_of (held_of self.new)) self.new.out.now result }
        ensures written { 0 < length chunk.old → OnOk result (IfSome (R.remaining input.old)
            (λ xs. Appends (W.contents output.old) (W.contents output.new) (session_output xs))) }
    {
        self.said = true;
        self.got = Some(0);
        self.session = session::stream::open(self.list, &mut self.tables);
        let read = self.read_all(input, chunk, output);
        self.conclude(read, output)
    }
}

fn main(rt: HostRuntime) {
    let tables = LentTables {
        starts: &mut [0; CAPACITY],
        sums: &mut [0; CAPACITY],
        max_starts: &mut [0; CAPACITY],
        max_values: &mut [0; CAPACITY],
        min_starts: &mut [0; CAPACITY],
        min_values: &mut [0; CAPACITY],
    };
    let mut memory = Memory {
        session: Session {
            state: State::fresh(),
            lines: 0,
            kept: 0,
        },
        list: &mut [0; LIST_PLACES],
        line: &mut [0; KEPT],
        tables,
        out: &mut [0; BUFFER],
        said: true,
        got: Some(0),
    };
    let mut chunk = [0; BUFFER];
    let ended = memory.run(&mut rt.stdin(), &mut chunk, &mut rt.stdout());
    if let Err(error) = ended {
        let _ = eprintln!(rt; "{error}");
    }
}
