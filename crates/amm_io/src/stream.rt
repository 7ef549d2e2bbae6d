// The lines of a source, one after the other.
ghost use Rattle.std.specs.Prelude.{◌≡◌, ◌≢◌, ◌≤◌, ◌+◌, ◌<◌, ℕ, List, [], true, false, IfOk, IfSome, IsErrOf, OnOk, IsTrue, ◌↔◌, length};
ghost use Rattle.amm_io.specs.Causes.{HasCause};
ghost use Rattle.amm_io.specs.Streams.{TakesNext, again_of};
ghost use Rattle.amm_io.specs.Parts.{Holds, Refills, EndsPart, LeavesOpen, SameCounts};

use crate::bytes::newline_at;
use crate::part::Part;
use crate::source::{CHUNK, read_at_most, zeros};
use crate::{Failed, IoEnd, Source};
use amm_model::{Line, Memory};
use std::alloc::Global;
use std::marker::Model;
use std::mem::replace;

/// Why there are no more lines.
#[derive(Clone, Copy, Debug, PartialEq, Eq)]
pub enum Stop {
    EndOfInput,
    ReadFault,
    InputLimit,
    Memory,
}

/// The lines of a source. A contract sees the bytes that it took and has neither given out nor
/// dropped, the count of the bytes that it took, and the end that it has met.
#[derive(Drop)]
pub struct Lines {
    chunk: Vec<u8>,
    start: usize,
    end: usize,
    taken: u128,
    limit: u64,
    met: Option<Stop>,
    // The room for the next line: that of a line which was given back.
    spare: Vec<u8>,
}

impl Model for Lines {
    ghost use Rattle.std.specs.Prelude.{◌≡◌, ◌≤◌, ◌<◌, ◌+◌, ◌-◌, None, Some, drop, take, length};
    ghost use Rattle.amm_io.specs.declared.stream.Stop.TheVariants.{EndOfInput, ReadFault, InputLimit, Memory};
    ghost use Rattle.amm_io.specs.Streams.{Stream};

    ghost Value = { Stream };

    ghost view = { λ s. record { kept = take (s.end - s.start) (drop s.start s.chunk.items); taken = s.taken; limit = s.limit; met = s.met } };

    ghost invariant = { λ s. (s.start ≤ s.end) × (s.end ≤ length s.chunk.items) × (length s.chunk.items ≡ 65536) × (s.taken ≤ s.limit + 1) × (s.met ≡ None → s.taken ≤ s.limit) × (s.met ≡ Some EndOfInput → s.taken ≤ s.limit) × (s.met ≡ Some ReadFault → s.taken ≤ s.limit) × (s.met ≡ Some InputLimit → s.taken ≡ s.limit + 1) × (s.met ≡ Some Memory → s.start ≡ s.end) };
}

/// Where those of the bytes end that stand within the limit, if the last one taken is at the end.
fn visible_end(start: usize, end: usize, taken: u128, limit: u64) -> usize
    requires { (start ≤ end) × (taken ≤ limit + 1) }
    ensures bounds { (start ≤ result) × (result ≤ end) × (end ≤ result + 1) }
    ensures whole { taken ≤ limit → result ≡ end }
    ensures within { start < result → taken + result ≤ limit + end }
{
    if taken > u128::from(limit) && start < end {
        end - 1
    } else {
        end
    }
}

impl Lines {
    /// Lines that have taken nothing yet, and take at most `limit` bytes and one. It takes 64 KiB
    /// of memory.
    pub fn new(alloc: Global, limit: u64) -> Result<Lines, Memory>
        ensures { IfOk result (λ lines. lines ≡ record { kept = []; taken = 0; limit = limit; met = None }) }
    {
        Ok(Lines {
            chunk: zeros(alloc, CHUNK)?,
            start: 0,
            end: 0,
            taken: 0,
            limit,
            met: None,
            spare: Vec::new(alloc),
        })
    }

    /// Reads once, where nothing is kept and no end is met.
    fn refill<S: Source>(&mut self, source: &mut S)
        requires kept { self.old.kept ≡ [] }
        requires open { self.old.met ≡ None }
        requires within { self.old.taken ≤ self.old.limit }
        ensures read { Refills (S.left source.old) (S.left source.new) self.old self.new }
        ensures cause { HasCause (S.faults source.old) (S.faults source.new) (self.new.met ≡ Some Stop.ReadFault) }
    {
        let room = u128::from(self.limit) + 1 - self.taken;
        let most = room.min(CHUNK as u128) as usize;
        self.start = 0;
        self.end = 0;
        match read_at_most(source, self.chunk.as_mut_slice(), most) {
            Err(Failed) => self.met = Some(Stop::ReadFault),
            Ok(0) => self.met = Some(Stop::EndOfInput),
            Ok(count) => {
                self.taken += count as u128;
                self.end = count;
                if self.taken > u128::from(self.limit) {
                    self.met = Some(Stop::InputLimit);
                }
            }
        }
    }

    /// Moves what is kept within the limit to the part, up to a newline and over it. Says whether
    /// there was one.
    fn take_part(&mut self, part: &mut Part) -> Result<bool, Memory>
        ensures ended { result ≡ Ok true → EndsPart self.old self.new part.old part.new }
        ensures open { result ≡ Ok false → LeavesOpen self.old self.new part.old part.new }
        ensures rest { SameCounts self.old self.new }
        ensures kept { OnOk result (length self.new.kept ≤ 65536) }
    {
        let end = visible_end(self.start, self.end, self.taken, self.limit);
        let visible = &self.chunk[self.start..end];
        match newline_at(visible) {
            Some(at) => {
                part.push(&visible[..at])?;
                self.start += at + 1;
                Ok(true)
            }
            None => {
                part.push(visible)?;
                self.start = end;
                Ok(false)
            }
        }
    }

    /// Drops what is kept.
    fn clear(&mut self)
        ensures { self.new ≡ record self.old { kept = [] } }
    {
        self.start = 0;
        self.end = 0;
    }

    /// Meets want of memory.
    fn lack(&mut self)
        ensures { self.new ≡ record self.old { kept = []; met = Some Stop.Memory } }
    {
        self.clear();
        self.met = Some(Stop::Memory);
    }

    fn is_drained(&self) -> bool
        ensures { IsTrue result ↔ (self.now.kept ≡ []) }
    {
        self.start == self.end
    }

    /// The next line, `None` at the end of the input. Where the source fails, or gives more bytes
    /// than the limit, that comes after all lines that a newline ended before, and an unfinished
    /// rest is dropped. Want of memory drops all that was read and not given out. A line of more
    /// than 65,536 bytes comes as `Long`, without its bytes.
    pub fn next<S: Source>(&mut self, alloc: Global, source: &mut S) -> Result<Option<Line>, IoEnd>
        ensures next { TakesNext (S.left source.old) (S.left source.new) self.old self.new result }
        ensures cause { HasCause (S.faults source.old) (S.faults source.new) ((self.old.met ≢ Some Stop.ReadFault) × IsErrOf result IoEnd.ReadFault) }
        ensures kept { length self.new.kept ≤ 131072 }

        // After an end each later call gives the same, and reads nothing.
        ensures again { self.old.kept ≡ [] → IfSome self.old.met (λ stop.
            (result ≡ again_of stop) × (self.new ≡ self.old) × (source.new ≡ source.old)) }
    {
        if self.is_drained()
            && let Some(stop) = self.met
        {
            return stopped(stop);
        }
        let spare = replace(&mut self.spare, Vec::new(alloc));
        self.next_part(Part::over(spare), source)
    }

    /// Takes back a line that was given out, so that the next one needs no new memory for what fits
    /// its room.
    pub fn give_back(&mut self, line: Line)
        ensures { self.new ≡ self.old }
    {
        if let Line::Whole(bytes) = line {
            self.spare = bytes.into_vec();
        }
    }

    /// Reads on until a part ends.
    fn next_part<S: Source>(
        &mut self,
        beginning: Part,
        source: &mut S,
    ) -> Result<Option<Line>, IoEnd>
        requires empty { Holds beginning [] }
        ensures next { TakesNext (S.left source.old) (S.left source.new) self.old self.new result }
        ensures cause { HasCause (S.faults source.old) (S.faults source.new) ((self.old.met ≢ Some Stop.ReadFault) × IsErrOf result IoEnd.ReadFault) }
        ensures kept { length self.new.kept ≤ 65536 }
    {
        let _ = &self.met;
        let mut part = beginning;
        'part: loop {
            match self.take_part(&mut part) {
                Ok(true) => return Ok(Some(part.into_line())),
                Ok(false) => {}
                Err(_) => {
                    self.lack();
                    return Err(IoEnd::Memory);
                }
            }
            match self.met {
                None => self.refill(source),
                Some(Stop::EndOfInput) if part.is_empty() => return Ok(None),
                Some(Stop::EndOfInput) => return Ok(Some(part.into_line())),
                Some(Stop::ReadFault) => return Err(IoEnd::ReadFault),
                Some(Stop::InputLimit) => {
                    self.clear();
                    return Err(IoEnd::InputLimit);
                }
                Some(Stop::Memory) => {
                    self.clear();
                    return Err(IoEnd::Memory);
                }
            }
        }
    }
}

/// What a call gives where an end was met before.
fn stopped(stop: Stop) -> Result<Option<Line>, IoEnd>
    ensures { result ≡ again_of stop }
{
    match stop {
        Stop::EndOfInput => Ok(None),
        Stop::ReadFault => Err(IoEnd::ReadFault),
        Stop::InputLimit => Err(IoEnd::InputLimit),
        Stop::Memory => Err(IoEnd::Memory),
    }
}
