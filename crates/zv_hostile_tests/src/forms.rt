// A run of each form of the program, and of each way in which one ends early.
use std::alloc::Global;
use std::process::Abort;
use std::test::Fail;
use zv_runs::{CHANGED_LOCALES, EMPTY, LOCALES, PAIR};
use zv_tool::{NoMemory, Status, Words};

/// The most bytes that a source gives at once.
pub const PIECE: usize = 64;

/// A run: its words, its input and its writes, how it ends, and how many reads it makes of a source
/// that gives 64 bytes at once, the one that meets the end among them.
///
/// In an input and in writes an image stands as its name between `%` and `%`. Between two writes
/// stands `|`.
#[derive(Drop)]
pub struct Form {
    pub name: &'static str,
    pub words: &'static str,
    pub input: &'static str,
    pub writes: &'static str,
    pub status: Status,
    pub reads: u8,
}

/// A run, with its texts written out, and the places in its output where its writes begin.
#[derive(Drop)]
pub struct JoinedForm {
    pub form: &'static Form,
    pub words: Words,
    pub input: Vec<u8>,
    pub output: Vec<u8>,
    pub starts: Vec<usize>,
}

impl JoinedForm {
    /// How long the output is before the write with this number.
    pub fn start(&self, write: usize) -> usize {
        match self.starts.get(write) {
            Some(start) => *start,
            None => self.output.len(),
        }
    }

    /// How the run ends and how long its output is, where nothing fails.
    pub fn whole(&self) -> (Status, usize) {
        (self.form.status, self.output.len())
    }
}

/// A run with a fault or a flaw at this call ended so, and wrote this.
pub fn is_told(
    rt: &impl Abort,
    joined: &JoinedForm,
    call: usize,
    told: (Status, &[u8]),
    wanted: (Status, usize),
) {
    let name = joined.form.name;
    let ((status, text), (wanted_status, len)) = (told, wanted);
    assert!(rt; status == wanted_status, "{name}: call {call}");
    assert!(rt;
        Some(text) == joined.output.get(..len),
        "{name}: call {call}"
    );
}

/// The words of a text.
pub fn words_in(alloc: Global, text: &str) -> Result<Words, NoMemory> {
    let mut words = Words::new(alloc);
    for word in text.split(' ') {
        words.push(word)?;
    }
    Ok(words)
}

// Appends a text, in which the names of images stand for them.
fn fill(text: &mut Vec<u8>, pieces: &str) -> Result<(), NoMemory> {
    for piece in pieces.split('%') {
        let piece = match piece {
            "LOCALES" => LOCALES,
            "CHANGED_LOCALES" => CHANGED_LOCALES,
            "EMPTY" => EMPTY,
            "PAIR" => PAIR,
            "BRITISH" => BRITISH,
            "WIDE_PAIR" => WIDE_PAIR,
            "FROZEN_PAIR" => FROZEN_PAIR,
            _ => piece,
        };
        text.extend_from_slice(piece.as_bytes())?;
    }
    Ok(())
}

/// Writes the texts of a run out.
pub fn join_form(alloc: Global, form: &'static Form) -> Result<JoinedForm, Fail> {
    let words = words_in(alloc, form.words)?;
    let mut input = Vec::new(alloc);
    fill(&mut input, form.input)?;
    let mut output = Vec::new(alloc);
    let mut starts = Vec::new(alloc);
    for write in form.writes.split('|') {
        starts.push(output.len())?;
        fill(&mut output, write)?;
    }
    Ok(JoinedForm {
        form,
        words,
        input,
        output,
        starts,
    })
}

/// The runs.
pub fn forms() -> &'static [Form] {
    &FORMS
}

// The image of the row "d": "en" has 01, "en-GB" has 02, and "und" has 03.
const BRITISH: &str = "\
    0300000000000000010064\
    040000000000000003000000\
    1000000000000000030002000700656e656e2d4742756e64\
    0900000000000000030001000200010203";

// The image of "a" and "b" with 01, all of whose lists are wide.
const WIDE_PAIR: &str = "\
    ffffffffffffffff202020\
    05000000000000000100000061\
    040000000000000001000000\
    05000000000000000100000062\
    05000000000000000100000001";

// `PAIR`, frozen.
const FROZEN_PAIR: &str = "\
    08000000000000000000000001000000\
    080000000000000001000100000061620300000000000000010001";

const FORMS: [Form; 14] = [
    Form {
        name: "an edit of 28 locales",
        words: "edit",
        // 976 bytes, and lines of 20, 10, 20 and 26.
        input: "x%LOCALES%\n\
            get x7364 x4b686f6a\n\
            row x6b75\n\
            del x7a68 x426f706f\n\
            put x656e x4c61746e x5553\n",
        writes: "some x494e\n\
            row x41726162 x4951 x59657a69 x4745\n\
            old x5457\n\
            new\n\
            |image x%CHANGED_LOCALES%\n",
        status: Status::Done,
        reads: 18,
    },
    Form {
        name: "an edit of a wide image",
        words: "edit",
        // 126 bytes, and a line of 16.
        input: "x%WIDE_PAIR%\nput x61 x63 x02\n",
        writes: "new\n\
            |image x0300000000000000010061040000000000000002000000\
            06000000000000000200010062630600000000000000020001000102\n",
        status: Status::Done,
        reads: 4,
    },
    Form {
        name: "an edit without commands",
        words: "edit",
        // 66 bytes.
        input: "x%EMPTY%\n",
        writes: "image x%EMPTY%\n",
        status: Status::Done,
        reads: 3,
    },
    Form {
        name: "a look-up among 28 locales",
        words: "look x7364 x4b686f6a",
        // 976 bytes.
        input: "x%LOCALES%\n",
        writes: "some x494e\n",
        status: Status::Done,
        reads: 17,
    },
    Form {
        name: "the data of two locales",
        words: "locale",
        // 130 bytes, and lines of 24 and 14.
        input: "x%BRITISH%\nask x64 x656e2d47422d31\nask x64 x6672\n",
        writes: "some x656e2d4742 x02\nsome x756e64 x03\n",
        status: Status::Done,
        reads: 4,
    },
    Form {
        name: "no pairs laid over one",
        words: "layers",
        // 92 bytes, and a line of 66.
        input: "x%PAIR%\nx%EMPTY%\n",
        writes: "image x%PAIR%\n",
        status: Status::Done,
        reads: 4,
    },
    Form {
        name: "a table of code points",
        words: "props",
        // Lines of 2, 12, 13, 6, 6 and 12 bytes.
        input: "x\nset 65 90 1\nset 97 122 1\nat 66\nat 91\nset 91 96 1\n",
        writes: "ok\nok\nvalue 1\nvalue 0\nok\ntable x410000007a0000000100\n",
        status: Status::Done,
        reads: 2,
    },
    Form {
        name: "two puts that are made",
        words: "make 2",
        input: "x\n",
        writes: "rows 2 pairs 2 bytes 66 sum 862\n",
        status: Status::Done,
        reads: 0,
    },
    Form {
        name: "a pair that is frozen",
        words: "freeze",
        // 92 bytes.
        input: "x%PAIR%\n",
        writes: "frozen x%FROZEN_PAIR%\n",
        status: Status::Done,
        reads: 3,
    },
    Form {
        name: "a pair that is asked",
        words: "ask x61 x62",
        // 88 bytes.
        input: "x%FROZEN_PAIR%\n",
        writes: "some x01\n",
        status: Status::Done,
        reads: 3,
    },
    Form {
        name: "a pair that is thawed",
        words: "thaw",
        // 88 bytes.
        input: "x%FROZEN_PAIR%\n",
        writes: "image x%PAIR%\n",
        status: Status::Done,
        reads: 3,
    },
    Form {
        name: "a bad line",
        words: "edit",
        // 92 bytes, and lines of 12 and 13.
        input: "x%PAIR%\nget x61 x62\nfind x61 x62\n",
        writes: "error line 3\n",
        status: Status::BadLine,
        reads: 3,
    },
    Form {
        name: "a bad image",
        words: "edit",
        input: "x00\nget x61 x62\n",
        writes: "error frame\n",
        status: Status::BadImage,
        reads: 2,
    },
    Form {
        name: "no form",
        words: "edit edit",
        input: "x00\n",
        writes: "usage: zv COMMAND\n",
        status: Status::Usage,
        reads: 0,
    },
];
