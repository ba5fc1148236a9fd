// The top call.
ghost use Rattle.std.specs.Prelude.{◌≡◌, ◌⊎◌, ◌<◌, ◌≤◌, IsTrue, IsFalse, IfSome, None, length};
ghost use Rattle.std.specs.Io.KnownBytes.{IsAtEnd};
ghost use Rattle.zv_devices.specs.Devices.{Rose, Written, CutShort};
ghost use Rattle.zv_command.specs.Due.{is_answer, is_silent, is_written};
ghost use Rattle.zv_command.specs.Runs.{IsWantedStatus, IsWantedUnless, Runs, WantedText};
ghost use Rattle.zv_tool.specs.Forms.{form_of, is_read, names_form, wanted, wanted_of};

use crate::form::{Form, read_form};
use crate::words::Words;
use std::alloc::Global;
use zv_command::{MAX_INPUT, Status, run_request, send};
use zv_devices::{Sink, Source};
use zv_edit::Edit;
use zv_frozen::{Freeze, Thaw};
use zv_layers::Layers;
use zv_locale::Asks;
use zv_make::make;
use zv_props::TableSteps;
use zv_ule::NoMemory;

// Does what a form asks.
fn run_form<S: Source, K: Sink>(alloc: Global, form: Form, source: &mut S, sink: &mut K) -> Status
    ensures { Runs S.left S.faults K.taken K.faults source.old source.new sink.old sink.new result
        (wanted_of form) }
{
    match form {
        Form::Edit => run_request(alloc, Edit::new(alloc), source, sink),
        Form::Look(look) => run_request(alloc, look, source, sink),
        Form::Layers => run_request(alloc, Layers::new(alloc), source, sink),
        Form::Locale => run_request(alloc, Asks::new(alloc), source, sink),
        Form::Props => run_request(alloc, TableSteps::new(alloc), source, sink),
        Form::Make(count) => make(alloc, count, sink),
        Form::Freeze => run_request(alloc, Freeze, source, sink),
        Form::Ask(ask) => run_request(alloc, ask, source, sink),
        Form::Thaw => run_request(alloc, Thaw, source, sink),
    }
}

/// All that the program does: reads the source to its end, answers to the sink, and says how it
/// ended.
///
/// The command forms are `edit`, `look F F`, `layers`, `locale`, `props`, `make N`, `freeze`,
/// `ask F F` and `thaw`. Line 1 of the input is `x` and the bytes of an image in hex, or of a table
/// for `props`, or of a frozen image for `ask` and `thaw`. For `look` and the last three it is the
/// only line. `look` is answered `some xV` or `none`, for the pair of keys that the fields are.
/// For `edit` each further line is a command, which runs on the map that those before it left:
///
/// - `get K K` looks up a pair of keys, and is answered `some xV`, or `none`;
/// - `put K K F` gives a pair a value, and is answered `new`, or `old xV` with the value that the
///   pair had; `toolarge` would say that a list passes 4 GB, which no input within the limit makes;
/// - `del K K` removes a pair, and is answered `old xV`, or `none`;
/// - `row K` lists the pairs of a first key in order, and is answered `row` and ` xK xV` for each,
///   or `none`.
///
/// For `layers` each further line is an image as line 1 is, and there are at most 64. The answer is
/// `image xI`, the canonical image of the map that has for each pair of keys the value of the last
/// image that gives it one. The first image that has a fault, counted from 1, is refused with
/// `error layer N` and the word of the fault.
///
/// For `locale` each further line asks for the data of a first key that is the best for a wanted
/// text, 1 to 16 locales joined by `,`, each of subtags of 1 to 8 ASCII letters or digits joined by
/// `-`. Each locale is tried whole and then without its last subtags, and `und` at the end:
///
/// - `ask K W`, where W is the field of a wanted text, is answered `some xT xV`, with the first of
///   these names that is a second key and its value, or `none`.
///
/// For `props` each further line asks or changes the table that those before it left, and the
/// answer ends with `table xT`, the bytes of the one that is left:
///
/// - `at N` asks for the value of a code point, and is answered `value N`;
/// - `set N N N` gives all code points from the first to the last a value, and is answered `ok`.
///
/// N is a number in decimal without leading zeros: a code point up to 1,114,111, the first not
/// above the last, or a value up to 65,535.
///
/// For `make`, N is a number up to 4,000, and no input is read: N puts make a map of none, and the
/// answer is `rows R pairs P bytes B sum S`, with the length of its image and the sum of the
/// image's bytes.
///
/// `freeze` is answered `frozen xZ`, with the frozen image: a hash table of the image's pairs. It
/// is refused with `error toolarge` where the keys or the values don't fit 64 KB, or with
/// `error noplace B` where no displacement sends the keys of bucket B to free slots. `ask` is
/// answered as `look` is, of a frozen image, and `thaw` `image xI`, with the canonical image. Bytes
/// that are no frozen image are refused with `error` and the word of their first fault: `frame`,
/// `part`, `count`, `key S` with the slot of a key that is not that of two texts, or `lies`.
///
/// A field F is `x` and an even number of hex digits in either case; a key K is a field that is
/// UTF-8, and so are the fields of `look`. One space stands between words. Lines end in LF, which
/// may be missing after the last. All lines are checked before the image. The answer of `edit` ends
/// with `image xI`, the canonical image of the map that is left; its hex is in lower case. A
/// refusal is one line, `error line N`, or `error` and the word of the image's first fault, or of
/// the table's, `length`, or `row I`, `order I` or `join I` with the row's place from 0.
#[tactic(auto, using(crate::proofs::Runs::memory_unless, crate::proofs::Runs::unnamed))]
pub fn run<S: Source, K: Sink>(alloc: Global, words: &Words, source: &mut S, sink: &mut K) -> Status
    // Where a text is due, it is the one that the words and the whole input want.
    ensures written { IsTrue (is_written result)
        → Written (WantedText (wanted words.now) (S.left source.old))
        (K.taken sink.old) (K.taken sink.new) }
    ensures status { IsTrue (is_written result)
        → IsWantedStatus (wanted words.now) (S.left source.old) result }
    ensures silent { IsTrue (is_silent result) → sink.new ≡ sink.old }
    ensures cut { result ≡ Status.WriteFault
        → CutShort (WantedText (wanted words.now) (S.left source.old))
        (K.taken sink.old) (K.taken sink.new) }

    // An answer is to the whole input, and where none is wanted the source wasn't read.
    ensures end { IsTrue (is_read words.now) → IsTrue (is_answer result)
        → IsAtEnd (S.left source.new) }
    ensures untouched { IsFalse (is_read words.now) → source.new ≡ source.old }

    // An input within the limit is answered, unless something fails or memory is refused.
    ensures complete { IsWantedUnless
        (Rose (S.faults source.old) (S.faults source.new)
        ⊎ Rose (K.faults sink.old) (K.faults sink.new))
        (wanted words.now) (S.left source.old) result }

    // When each of the others comes.
    ensures usage { result ≡ Status.Usage → form_of words.now ≡ None }
    ensures no_name { IsFalse (names_form words.now) → result ≡ Status.Memory → ⊥ }
    ensures read_fault { result ≡ Status.ReadFault
        → Rose (S.faults source.old) (S.faults source.new) }
    ensures too_long { result ≡ Status.TooLong
        → IfSome (S.left source.old) (λ input. MAX_INPUT < length input) }
    ensures write_fault { result ≡ Status.WriteFault
        → Rose (K.faults sink.old) (K.faults sink.new) }

    // The counts of faults never fall.
    ensures later_reads { S.faults source.old ≤ S.faults source.new }
    ensures later_writes { K.faults sink.old ≤ K.faults sink.new }
{
    match read_form(alloc, words) {
        Ok(Some(form)) => run_form(alloc, form, source, sink),
        Ok(None) => send(sink, b"usage: zv COMMAND\n", Status::Usage),
        Err(NoMemory) => Status::Memory,
    }
}
