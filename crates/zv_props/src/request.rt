// The form `props`: a table, and the lines that ask it and change it.
ghost use Rattle.std.specs.Prelude.{◌≡◌, [], ◌∷◌, ◌++◌, IfOk, OnOk, string_bytes};
ghost use Rattle.std.specs.Fmt.{decimal};
ghost use Rattle.std.specs.List.{All};
ghost use Rattle.zv_command.specs.Due.{Tells, text_due};
ghost use Rattle.zv_command.specs.Text.{line};
ghost use Rattle.zv_command.specs.declared.status.Status.{Status};
ghost use Rattle.zv_props.specs.Requests.{IsAnswer, after_all, after_step, fault_line, replies};
ghost use Rattle.zv_props.specs.Requests.{reply, table_line};
ghost use Rattle.zv_props.specs.Steps.{IsStep};
ghost use Rattle.zv_props.specs.Tables.{AnswerAlike, IsProper};

use crate::error::PropsError;
use crate::step::{Step, read_step};
use crate::table::Props;
use itoa::Buffer;
use std::alloc::{AllocError, Global};
use std::marker::Model;
use zv_command::{Request, Status, send};
use zv_devices::Sink;
use zv_ule::NoMemory;

/// Steps, each of which is a line: `at N` asks for the value of a code point, and `set N N N` gives
/// the code points of a range a value.
#[derive(Drop)]
pub struct TableSteps {
    steps: Vec<Step>,
}

impl Model for TableSteps {
    ghost use Rattle.std.specs.Prelude.{List};
    ghost use Rattle.std.specs.List.{All};
    ghost use Rattle.zv_props.specs.Steps.{IsStep};
    ghost use Rattle.zv_props.specs.declared.step.Step.{Step};

    ghost Value = { List Step };

    ghost view = { λ s. s.steps.items };

    ghost invariant = { λ s. All IsStep s.steps.items };
}

impl TableSteps {
    /// No steps. It takes no memory yet.
    pub fn new(alloc: Global) -> TableSteps
        ensures { result ≡ [] }
    {
        TableSteps {
            steps: Vec::new(alloc),
        }
    }
}

// Adds the line of a head and a number.
fn push_number(text: &mut Vec<u8>, head: &[u8], number: u64) -> Result<(), NoMemory>
    ensures { OnOk result (text.new.items
        ≡ text.old.items ++ line (head.now ++ decimal number)) }
{
    let mut buffer = Buffer::new();
    text.extend_from_slice(head)?;
    text.extend_from_slice(buffer.format(number).as_bytes())?;
    text.extend_from_slice(b"\n")?;
    Ok(())
}

// Takes a step: adds its reply to a text, and leaves the table that it makes.
fn take_step(
    alloc: Global,
    table: &mut Props<'_>,
    step: Step,
    text: &mut Vec<u8>,
) -> Result<(), NoMemory>
    requires { IsStep step }
    ensures reply { OnOk result (text.new.items ≡ text.old.items ++ reply table.old step) }
    ensures table { OnOk result (AnswerAlike table.new (after_step table.old step)) }
{
    match step {
        Step::At(c) => push_number(text, b"value ", u64::from(table.get(c))),
        Step::Set(first, last, value) => {
            table.set(alloc, first, last, value)?;
            text.extend_from_slice(b"ok\n")?;
            Ok(())
        }
    }
}

// Takes all steps, and gives the replies.
fn take_steps(alloc: Global, table: &mut Props<'_>, steps: &[Step]) -> Result<Vec<u8>, NoMemory>
    requires { All IsStep steps.now }
    ensures replies { IfOk result (λ text. text.items ≡ replies table.old steps.now) }
    ensures table { OnOk result (AnswerAlike table.new (after_all table.old steps.now)) }
{
    let mut text = Vec::new(alloc);
    for step in steps {
        take_step(alloc, table, *step, &mut text)?;
    }
    Ok(text)
}

// Adds the line of a table.
fn push_table(alloc: Global, text: &mut Vec<u8>, table: &Props<'_>) -> Result<(), NoMemory>
    ensures text { OnOk result (text.new.items ≡ text.old.items ++ table_line table.now) }
    ensures proper { IsProper table.now }
{
    let digits = hex::encode(alloc, table.as_bytes())?;
    text.extend_from_slice(b"table x")?;
    text.extend_from_slice(digits.as_bytes())?;
    text.extend_from_slice(b"\n")?;
    Ok(())
}

// The whole answer. It is worked out before its first byte is written, since a range may want
// memory.
fn answer_text(alloc: Global, mut table: Props<'_>, steps: &[Step]) -> Result<Vec<u8>, NoMemory>
    requires { All IsStep steps.now }
    ensures { IfOk result (λ text. IsAnswer table.entry steps.now text.items) }
{
    let mut text = take_steps(alloc, &mut table, steps)?;
    push_table(alloc, &mut text, &table)?;
    Ok(text)
}

// The line of bytes that are no table.
fn fault_text(alloc: Global, cause: PropsError) -> Result<String, AllocError>
    ensures { IfOk result (λ text. string_bytes text ≡ fault_line cause) }
{
    match cause {
        PropsError::Ule(_) => format!(in alloc; "error length\n"),
        PropsError::Row { index } => format!(in alloc; "error row {index}\n"),
        PropsError::Order { index } => format!(in alloc; "error order {index}\n"),
        PropsError::Join { index } => format!(in alloc; "error join {index}\n"),
    }
}

// Refuses bytes that are no table.
fn refuse<K: Sink>(alloc: Global, cause: PropsError, sink: &mut K) -> Status
    ensures { Tells K.taken K.faults sink.old sink.new result
        (text_due (fault_line cause) Status.BadImage) }
{
    let Ok(text) = fault_text(alloc, cause) else {
        return Status::Memory;
    };
    send(sink, text.as_bytes(), Status::BadImage)
}

impl TableSteps {
    // Adds a step.
    #[tactic(auto, using(zv_ule::proofs::Lists::all_append))]
    fn keep(&mut self, step: Step) -> Result<(), NoMemory>
        requires { IsStep step }
        ensures { OnOk result (self.new ≡ self.old ++ step ∷ []) }
    {
        match self.steps.push(step) {
            Ok(()) => Ok(()),
            Err(_) => Err(NoMemory),
        }
    }
}

impl Request for TableSteps {
    ghost use Rattle.std.specs.Prelude.{length};
    ghost use Rattle.zv_props.specs.Requests.{props_due, with_step};

    ghost with_line = { with_step };

    ghost size = { λ steps. length steps };

    ghost due = { props_due };

    fn add_line(&mut self, _alloc: Global, line: &[u8]) -> Result<bool, NoMemory> {
        let Some(step) = read_step(line) else {
            return Ok(false);
        };
        self.keep(step)?;
        Ok(true)
    }

    #[tactic(auto, unfolding(crate::specs::Requests::props_due))]
    fn answer<K: Sink>(&self, alloc: Global, first: &[u8], sink: &mut K) -> Status {
        let table = match Props::parse(first) {
            Ok(table) => table,
            Err(cause) => return refuse(alloc, cause, sink),
        };
        let Ok(text) = answer_text(alloc, table, &self.steps) else {
            return Status::Memory;
        };
        send(sink, &text, Status::Done)
    }
}
