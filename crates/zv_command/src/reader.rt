// Reads an input and adds its lines to a request as they come.
ghost use Rattle.std.specs.Prelude.{◌≡◌, ◌+◌, ◌<◌, ◌≤◌, List, ℕ, ◌++◌, ◌∷◌, [], length};
ghost use Rattle.std.specs.Prelude.{IfOk, IfSome, IsErrOf, IsTrue, OnOk};
ghost use Rattle.std.specs.Io.KnownBytes.{IsAtEnd};
ghost use Rattle.zv_devices.specs.Devices.{Rose};
ghost use Rattle.zv_input.specs.Input.{lines};
ghost use Rattle.zv_input.specs.Words.{Lacks};
ghost use Rattle.zv_command.specs.Inputs.{request_of};
ghost use Rattle.zv_command.specs.Reading.{IsReadAs, is_read, kept_size, outcome_of, outcome_with};
ghost use Rattle.zv_command.specs.Reading.{size_of};

use crate::request::Request;
use std::alloc::Global;
use zv_devices::{Failed, Source};
use zv_input::{read_field, split_at_byte};
use zv_ule::NoMemory;

/// The most bytes that an input has.
pub const MAX_INPUT: usize = 16_777_216;

// How many bytes are asked for at once.
const PIECE: usize = 65_536;

/// Why an input isn't taken.
#[derive(Clone, Copy, Debug, PartialEq, Eq)]
pub(crate) enum ReadError {
    /// The source failed.
    Fault,
    /// There are more than [`MAX_INPUT`] bytes.
    TooLong,
    /// The number of the first bad line, from 1.
    BadLine(u64),
    /// No memory was given.
    Memory,
}

impl From<NoMemory> for ReadError {
    ghost use Rattle.zv_command.specs.declared.reader.ReadError.{ReadError};

    ghost from_gives = { λ _ e. e ≡ ReadError.Memory };

    fn from(_error: NoMemory) -> ReadError {
        ReadError::Memory
    }
}

/// What the lines so far made of a request.
#[derive(Drop)]
pub(crate) struct Progress<C> {
    // The bytes of the first line, where it came and is no bad line.
    first: Option<Vec<u8>>,
    request: C,
    // How many lines came, up to the first bad one.
    count: usize,
    bad: bool,
}

// Adds the next line, which is ignored after a bad one.
#[tactic(auto, unfolding(crate::specs::Reading::outcome_of))]
fn add_line<C: Request>(
    alloc: Global,
    progress: &mut Progress<C>,
    line: &[u8],
) -> Result<(), NoMemory>
    requires { size_of C.size progress.old + length line.now ≤ MAX_INPUT }
    ensures same { OnOk result ((rest : List (List ℕ))
        → outcome_of C.with_line progress.old (line.now ∷ rest)
        ≡ outcome_of C.with_line progress.new rest) }
    ensures fits { OnOk result (size_of C.size progress.new
        ≤ size_of C.size progress.old + length line.now + 1) }
{
    if progress.bad {
        return Ok(());
    }
    if progress.first.is_none() {
        progress.first = read_field(alloc, line)?;
        progress.bad = progress.first.is_none();
        progress.count = 1;
        return Ok(());
    }
    progress.bad = !progress.request.add_line(alloc, line)?;
    progress.count += 1;
    Ok(())
}

// Adds the whole lines of a text, and gives what follows its last LF.
fn add_lines<'t, C: Request>(
    alloc: Global,
    progress: &mut Progress<C>,
    text: &'t [u8],
) -> Result<&'t [u8], NoMemory>
    requires { size_of C.size progress.old + length text.now ≤ MAX_INPUT }
    ensures same { IfOk result (λ tail. (rest : List ℕ)
        → outcome_of C.with_line progress.old (lines (text.now ++ rest))
        ≡ outcome_of C.with_line progress.new (lines (tail.now ++ rest))) }
    ensures partial { IfOk result (λ tail. Lacks 10 tail.now) }
    ensures fits { IfOk result (λ tail. size_of C.size progress.new + length tail.now
        ≤ size_of C.size progress.old + length text.now) }
{
    let mut rest = text;
    loop {
        let (line, after) = split_at_byte(b'\n', rest);
        let Some(after) = after else {
            return Ok(line);
        };
        add_line(alloc, progress, line)?;
        rest = after;
    }
}

// Adds the last line, if there is one. No LF ends it.
#[tactic(auto, using(zv_input::proofs::Cutting::last_line))]
fn add_last<C: Request>(
    alloc: Global,
    progress: &mut Progress<C>,
    line: &[u8],
) -> Result<(), NoMemory>
    requires partial { Lacks 10 line.now }
    requires room { size_of C.size progress.old + length line.now ≤ MAX_INPUT }
    ensures { OnOk result (outcome_of C.with_line progress.old (lines line.now)
        ≡ outcome_of C.with_line progress.new []) }
{
    if line.is_empty() {
        return Ok(());
    }
    add_line(alloc, progress, line)
}

/// Reads an input, of which the bytes after the last LF are kept.
#[derive(Drop)]
pub(crate) struct Reader<C> {
    progress: Progress<C>,
    // The bytes after the last LF.
    tail: Vec<u8>,
}

impl<C: Request> Reader<C> {
    /// Nothing was read yet.
    #[tactic(auto, unfolding(crate::specs::Inputs::request_of, crate::specs::Reading::outcome_of))]
    fn new(alloc: Global, request: C) -> Reader<C>
        ensures same { (rest : List ℕ) → request_of C.with_line request rest
            ≡ outcome_with C.with_line result rest }
        ensures partial { Lacks 10 result.tail.items }
        ensures empty { kept_size C.size result ≡ C.size request }
    {
        Reader {
            progress: Progress {
                first: None,
                request,
                count: 0,
                bad: false,
            },
            tail: Vec::new(alloc),
        }
    }

    /// Takes the next bytes. None are kept of lines that are whole, nor after a bad line.
    #[tactic(auto, using(crate::proofs::Adding::bad_stays))]
    fn take(&mut self, alloc: Global, piece: &[u8]) -> Result<(), NoMemory>
        requires partial { Lacks 10 self.old.tail.items }
        requires room { kept_size C.size self.old + length piece.now ≤ MAX_INPUT }
        ensures same { OnOk result ((rest : List ℕ)
            → outcome_with C.with_line self.old (piece.now ++ rest)
            ≡ outcome_with C.with_line self.new rest) }
        ensures partial { OnOk result (Lacks 10 self.new.tail.items) }
        ensures fits { OnOk result (kept_size C.size self.new
            ≤ kept_size C.size self.old + length piece.now) }
    {
        if self.progress.bad {
            return Ok(());
        }
        let (more, rest) = split_at_byte(b'\n', piece);
        self.tail.extend_from_slice(more)?;
        if let Some(rest) = rest {
            add_line(alloc, &mut self.progress, &self.tail)?;
            let tail = add_lines(alloc, &mut self.progress, rest)?;
            self.tail = Vec::from_slice(alloc, tail)?;
        }
        Ok(())
    }

    /// What was asked, where no more bytes come.
    #[tactic(auto, unfolding(crate::specs::Reading::outcome_of))]
    fn finish(self, alloc: Global) -> Result<(Vec<u8>, C), ReadError>
        requires partial { Lacks 10 self.tail.items }
        requires room { kept_size C.size self ≤ MAX_INPUT }
        ensures asked { IsReadAs result (outcome_with C.with_line self []) }
        ensures no_fault { IsErrOf result ReadError.Fault → ⊥ }
        ensures no_limit { IsErrOf result ReadError.TooLong → ⊥ }
    {
        let Reader { mut progress, tail } = self;
        add_last(alloc, &mut progress, &tail)?;
        let Progress {
            first,
            request,
            count,
            bad,
        } = progress;
        if bad {
            return Err(ReadError::BadLine(count as u64));
        }
        match first {
            Some(first) => Ok((first, request)),
            None => Err(ReadError::BadLine(1)),
        }
    }
}

/// Reads a source to its end and adds the lines that it gives to a request, which it answers with
/// the bytes of the first line. Of the bytes that came only those after the last LF are kept. A bad
/// line doesn't end the reading, since a failed read and too many bytes come before it. Each read
/// gives a byte or is the last, so at most 16,777,217 reads are made.
pub(crate) fn read_input<C: Request, S: Source>(
    alloc: Global,
    request: C,
    source: &mut S,
) -> Result<(Vec<u8>, C), ReadError>
    requires { C.size request ≡ 0 }
    ensures asked { IfSome (S.left source.old) (λ input.
        IsReadAs result (request_of C.with_line request input)) }
    ensures within { IsTrue (is_read result) → IfSome (S.left source.old) (λ input.
        length input ≤ MAX_INPUT) }
    ensures end { IsTrue (is_read result) → IsAtEnd (S.left source.new) }
    ensures later { S.faults source.old ≤ S.faults source.new }
    ensures fault { IsErrOf result ReadError.Fault
        → Rose (S.faults source.old) (S.faults source.new) }
    ensures long { IsErrOf result ReadError.TooLong
        → IfSome (S.left source.old) (λ input. MAX_INPUT < length input) }
{
    let mut reader = Reader::new(alloc, request);
    let mut piece = [0u8; PIECE];
    let mut room = MAX_INPUT;
    loop {
        let count = match source.read(&mut piece) {
            Ok(count) => count,
            Err(Failed) => return Err(ReadError::Fault),
        };
        if count == 0 {
            return reader.finish(alloc);
        }
        if room < count {
            return Err(ReadError::TooLong);
        }
        room -= count;
        reader.take(alloc, &piece[..count])?;
    }
}
