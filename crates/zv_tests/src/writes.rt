// In how many writes an answer goes to the sink.
use crate::cases::{EMPTY, PAIR};
use crate::long_inputs::{Part, text_of};
use crate::runs::words_of;
use std::alloc::Global;
use std::process::Abort;
use std::test::Fail;
use zv_tool::{Failed, MemSink, Sink, Status, SteadySource, run};

// A sink that counts its writes, and keeps the length of the longest.
#[derive(Drop)]
struct WriteCount {
    writes: usize,
    longest: usize,
}

impl Sink for WriteCount {
    ghost use Rattle.std.specs.Prelude.{None};

    ghost taken = { λ _. None };

    ghost faults = { λ _. 0 };

    fn write(&mut self, piece: &[u8]) -> Result<(), Failed> {
        self.writes = self.writes.saturating_add(1);
        self.longest = self.longest.max(piece.len());
        Ok(())
    }
}

// The answer to an input is so many writes, of which the longest has so many bytes.
fn try_count(
    rt: &impl Abort,
    alloc: Global,
    input: &[Part<'_>],
    writes: usize,
    longest: usize,
) -> Result<(), Fail> {
    let words = words_of(alloc, &["edit"])?;
    let input = text_of(alloc, input)?;
    let mut source = SteadySource::new(&input);
    let mut sink = WriteCount {
        writes: 0,
        longest: 0,
    };
    assert!(rt; run(alloc, &words, &mut source, &mut sink) == Status::Done);
    assert!(rt; sink.writes == writes);
    assert!(rt; sink.longest == longest);
    Ok(())
}

// A long value that is put and asked for: 131,079 bytes of replies, and a line of 131,164 bytes.
const LONG_INPUT: [Part<'static>; 5] = [
    Part::Once("x"),
    Part::Once(EMPTY),
    Part::Once("\nput x61 x62 x"),
    Part::Times("11", 65_534),
    Part::Once("\nget x61 x62\n"),
];

#[test]
fn an_answer_is_written_in_pieces(rt: HostRuntime) -> Result<(), Fail> {
    let alloc = rt.alloc();

    // The line of an image of 32 bytes; a reply of 4 bytes; replies of 9, 5 and 5 bytes.
    let empty = [Part::Once("x"), Part::Once(EMPTY)];
    try_count(&rt, alloc, &empty, 1, 72)?;
    let put = [
        Part::Once("x"),
        Part::Once(EMPTY),
        Part::Once("\nput x61 x62 x01"),
    ];
    try_count(&rt, alloc, &put, 2, 98)?;
    let commands = [
        Part::Once("x"),
        Part::Once(PAIR),
        Part::Once("\nget x61 x62\nget x61 x63\ndel x62 x62"),
    ];
    try_count(&rt, alloc, &commands, 2, 98)?;
    try_count(&rt, alloc, &LONG_INPUT, 66, 4_096)
}

#[test]
fn a_long_reply_is_cut_in_a_piece(rt: HostRuntime) -> Result<(), Fail> {
    let alloc = rt.alloc();
    let words = words_of(alloc, &["edit"])?;
    let input = text_of(alloc, &LONG_INPUT)?;
    let reply = [Part::Once("new\nsome x"), Part::Times("11", 65_534)];
    let reply = text_of(alloc, &reply)?;
    let mut source = SteadySource::new(&input);
    let mut sink = MemSink::new(alloc, 1_000_000, 3, &[17])?;
    assert!(rt; run(alloc, &words, &mut source, &mut sink) == Status::WriteFault);

    // Seventeen whole pieces, and three bytes.
    assert!(rt; sink.taken().len() == 69_635);
    assert!(rt; reply.starts_with(sink.taken()));
    Ok(())
}
