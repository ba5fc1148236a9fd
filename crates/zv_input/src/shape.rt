// Which command there is, and how long its fields are.
ghost use Rattle.std.specs.Prelude.{◌≡◌, ◌+◌, ◌≤◌, None, drop, length, take};
ghost use Rattle.zv_ule.specs.Kinds.{text_fault};
ghost use Rattle.zv_input.specs.Commands.{OfTexts};
ghost use Rattle.zv_input.specs.Shapes.{command_at, shape_size};
ghost use Rattle.zv_input.specs.Views.{as_command};

use crate::command::CommandRef;

/// Which command there is, and how many bytes each of its fields has. The fields stand one after
/// another elsewhere.
#[derive(Clone, Copy)]
pub(crate) enum Shape {
    Get { key0: u32, key1: u32 },
    Put { key0: u32, key1: u32, value: u32 },
    Del { key0: u32, key1: u32 },
    Row { key0: u32 },
}

const _: () = prove!(size_of::<Shape>() == 16);

/// How many bytes the fields have together.
#[inline(always)]
pub(crate) fn shape_size(shape: Shape) -> usize
    ensures { result ≡ shape_size shape }
{
    match shape {
        Shape::Get { key0, key1 } | Shape::Del { key0, key1 } => key0 as usize + key1 as usize,
        Shape::Put { key0, key1, value } => key0 as usize + key1 as usize + value as usize,
        Shape::Row { key0 } => key0 as usize,
    }
}

// Bytes that are a text.
#[tactic(auto, using(crate::proofs::Texts::text_tests))]
#[inline(always)]
fn as_text(bytes: &[u8]) -> &str
    requires { text_fault bytes.now ≡ None }
    ensures { result.now ≡ bytes.now }
{
    unsafe { std::str::from_utf8_unchecked(bytes) }
}

// The two texts at the front of bytes, of these lengths, and the bytes behind them.
#[inline(always)]
fn two_texts(bytes: &[u8], key0: u32, key1: u32) -> (&str, &str, &[u8])
    requires within { key0 + key1 ≤ length bytes.now }
    requires first { text_fault (take key0 bytes.now) ≡ None }
    requires second { text_fault (take key1 (drop key0 bytes.now)) ≡ None }
    ensures first { result.0.now ≡ take key0 bytes.now }
    ensures second { result.1.now ≡ take key1 (drop key0 bytes.now) }
    ensures rest { result.2.now ≡ drop (key0 + key1) bytes.now }
{
    let (first, rest) = bytes.split_at(key0 as usize);
    let (second, rest) = rest.split_at(key1 as usize);
    (as_text(first), as_text(second), rest)
}

/// The command whose fields stand at the front of bytes.
#[inline(always)]
pub(crate) fn command_at(shape: Shape, bytes: &[u8]) -> CommandRef<'_>
    requires within { shape_size shape ≤ length bytes.now }
    requires texts { OfTexts (command_at shape bytes.now) }
    ensures { as_command result ≡ command_at shape bytes.now }
{
    match shape {
        Shape::Get { key0, key1 } => {
            let (key0, key1, _) = two_texts(bytes, key0, key1);
            CommandRef::Get { key0, key1 }
        }
        Shape::Put { key0, key1, value } => {
            let (key0, key1, rest) = two_texts(bytes, key0, key1);
            let value = &rest[..value as usize];
            CommandRef::Put { key0, key1, value }
        }
        Shape::Del { key0, key1 } => {
            let (key0, key1, _) = two_texts(bytes, key0, key1);
            CommandRef::Del { key0, key1 }
        }
        Shape::Row { key0 } => CommandRef::Row {
            key0: as_text(&bytes[..key0 as usize]),
        },
    }
}
