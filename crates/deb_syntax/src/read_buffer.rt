//! The buffer that a file is read into. Its bytes move only if there is no room after them.

ghost use Rattle.std.specs.Prelude.{◌≡◌, ◌+◌, ◌<◌, ◌≤◌, cond, vec_len, IfOk, IfErr, OnOk, OnErr, IsErrOf, length, take, drop};
ghost use Rattle.std.specs.Io.KnownBytes.{Keeps, ReadConsumes};
ghost use Rattle.deb_base.specs.Devices.{read_failures_after, failures_after};

use deb_base::{Failed, Fault, PARAGRAPH_LIMIT, PIECE_LIMIT, Source};
use std::alloc::Global;

/// The most bytes that the buffer has: those of a paragraph, and one piece.
const MOST_HELD: usize = PARAGRAPH_LIMIT + PIECE_LIMIT;

/// The bytes that it has first, which are cleared: most files that are no index are shorter.
const FIRST_HELD: usize = 8_192;

/// The part of a file that is in memory. `buffer[start..filled]` are its unread bytes. Those before
/// them have passed; after them is room: bytes of no meaning, which are written once, when the
/// buffer grows, and are never cleared again.
#[derive(Drop)]
pub(crate) struct ReadBuffer {
    buffer: Vec<u8>,
    start: usize,
    filled: usize,
    ghost ordered: { start ≤ filled },
    ghost within: { filled ≤ vec_len buffer },
    ghost small: { vec_len buffer ≤ 16842752 },
}

impl ReadBuffer {
    ghost use Rattle.std.specs.Prelude.{[], slice_range};
    ghost use Rattle.deb_base.specs.Reading.{IsMemoryOrRead};
    ghost use Rattle.deb_syntax.specs.Cursors.{unread_of, Fills};

    /// A buffer without bytes. Takes no memory.
    pub(crate) fn new(alloc: Global) -> ReadBuffer
        ensures unread { unread_of result ≡ [] }
        ensures held { vec_len result.buffer ≡ 0 }
        ensures start { result.start ≡ 0 }
    {
        ReadBuffer {
            buffer: Vec::new(alloc),
            start: 0,
            filled: 0,
        }
    }

    /// The length of the buffer.
    pub(crate) fn held(&self) -> usize
        ensures value { result ≡ vec_len self.now.buffer }
        ensures small { result ≤ 16842752 }
    {
        self.buffer.len()
    }

    /// The unread bytes.
    pub(crate) fn unread(&self) -> &[u8]
        ensures value { result.now ≡ unread_of self.now }
    {
        self.slice(self.start, self.filled)
    }

    /// Where the unread bytes begin in the buffer.
    pub(crate) fn start(&self) -> usize
        ensures { result ≡ self.now.start }
    {
        self.start
    }

    /// Bytes of the buffer, also such as have passed.
    pub(crate) fn slice(&self, from: usize, to: usize) -> &[u8]
        requires ordered { from ≤ to }
        requires within { to ≤ vec_len self.now.buffer }
        ensures value { result.now ≡ slice_range self.now.buffer.items from to }
    {
        &self.buffer.as_slice()[from..to]
    }

    /// Passes the first `count` unread bytes.
    #[tactic(auto, using(crate::proofs::Slices::passing))]
    pub(crate) fn consume(&mut self, count: usize)
        requires { count ≤ length (unread_of self.old) }
        ensures unread { unread_of self.new ≡ drop count (unread_of self.old) }
        ensures buffer { self.new.buffer ≡ self.old.buffer }
        ensures start { self.new.start ≡ self.old.start + count }
    {
        self.start += count;
    }

    /// Forgets the unread bytes after the first `count`.
    pub(crate) fn truncate(&mut self, count: usize)
        requires { count ≤ length (unread_of self.old) }
        ensures unread { unread_of self.new ≡ take count (unread_of self.old) }
        ensures buffer { self.new.buffer ≡ self.old.buffer }
        ensures start { self.new.start ≡ self.old.start }
    {
        self.filled = self.start + count;
    }

    /// Takes one piece of the reader after the unread bytes, and says how many bytes came.
    pub(crate) fn fill<R: Source>(&mut self, reader: &mut R) -> Result<usize, Fault>
        requires { length (unread_of self.old) ≤ PARAGRAPH_LIMIT }
        ensures fills { IfOk result (λ count. Fills self.old (R.left reader.old) count self.new
            (R.left reader.new)) }
        ensures unread { OnErr result (unread_of self.new ≡ unread_of self.old) }
        ensures kept { OnErr result (Keeps (R.left reader.old) (R.left reader.new)) }
        ensures fault { IfErr result IsMemoryOrRead }
        ensures untouched { IsErrOf result Fault.Memory → reader.new ≡ reader.old }
        ensures fault_iff_device_failed { R.failures reader.new
            ≡ read_failures_after (R.failures reader.old) result }
    {
        self.make_room()?;
        let filled = self.filled;
        match read_behind(self.buffer.as_mut_slice(), filled, reader) {
            Ok(count) => {
                self.filled = filled + count;
                Ok(count)
            }
            Err(Failed) => Err(Fault::Read),
        }
    }

    /// Makes room for at least one byte after the unread bytes.
    ///
    /// Bytes are moved only where others have passed before them, and these then make the room;
    /// else the buffer grows.
    fn make_room(&mut self) -> Result<(), Fault>
        requires { length (unread_of self.old) ≤ PARAGRAPH_LIMIT }
        ensures unread { unread_of self.new ≡ unread_of self.old }
        ensures room { OnOk result (self.new.filled < vec_len self.new.buffer) }
        ensures fault { IfErr result (λ fault. fault ≡ Fault.Memory) }
    {
        if self.filled < self.buffer.len() {
            return Ok(());
        }
        if self.start > 0 {
            self.move_to_front();
            return Ok(());
        }
        self.grow()
    }

    /// Moves the unread bytes to the start of the buffer.
    fn move_to_front(&mut self)
        ensures unread { unread_of self.new ≡ unread_of self.old }
        ensures held { vec_len self.new.buffer ≡ vec_len self.old.buffer }
        ensures filled { self.new.filled + self.old.start ≡ self.old.filled }
    {
        let (start, filled) = (self.start, self.filled);
        self.buffer.as_mut_slice().copy_within(start..filled, 0);
        self.start = 0;
        self.filled = filled - start;
    }

    /// Makes the first buffer, or doubles it, to at least two pieces and at most what it may have.
    fn grow(&mut self) -> Result<(), Fault>
        requires { vec_len self.old.buffer < MOST_HELD }
        ensures unread { unread_of self.new ≡ unread_of self.old }
        ensures room { OnOk result (vec_len self.old.buffer < vec_len self.new.buffer) }
        ensures filled { self.new.filled ≡ self.old.filled }
        ensures fault { IfErr result (λ fault. fault ≡ Fault.Memory) }
    {
        let wanted = match self.buffer.len() {
            0 => FIRST_HELD,
            held => (2 * held).max(2 * PIECE_LIMIT).min(MOST_HELD),
        };
        if grown(&mut self.buffer, wanted) {
            Ok(())
        } else {
            Err(Fault::Memory)
        }
    }
}

/// Grows the buffer to the length `wanted`, and takes no more memory than that. Says whether it
/// could.
fn grown(buffer: &mut Vec<u8>, wanted: usize) -> bool
    requires { vec_len buffer.old ≤ wanted }
    ensures kept { take (vec_len buffer.old) buffer.new.items ≡ buffer.old.items }
    ensures len { vec_len buffer.new ≡ cond result wanted (vec_len buffer.old) }
{
    let more = wanted - buffer.len();
    buffer.try_reserve_exact(more).is_ok() && buffer.resize(wanted, 0).is_ok()
}

/// Reads one piece into the room after the first `filled` bytes.
fn read_behind<R: Source>(buffer: &mut [u8], filled: usize, reader: &mut R) -> Result<usize, Failed>
    requires { filled < length buffer.old }
    ensures kept { take filled buffer.new ≡ take filled buffer.old }
    ensures within { IfOk result (λ count. filled + count ≤ length buffer.new) }
    ensures short { IfOk result (λ count. count ≤ PIECE_LIMIT) }
    ensures bytes { ReadConsumes (R.left reader.old) (R.left reader.new) result
        (drop filled buffer.new) }
    ensures fault_iff_device_failed { R.failures reader.new
        ≡ failures_after (R.failures reader.old) result }
{
    let end = buffer.len().min(filled + PIECE_LIMIT);
    reader.read(&mut buffer[filled..end])
}
