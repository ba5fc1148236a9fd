//! Records: several elements of any lengths as one, each of a kind of its own.
//!
//! A record is the list of its fields in a format, without the count ([`MultiFieldsULE`]).
//! [`Tuple2VarULE`] to [`Tuple6VarULE`] say which kind each field has: a tuple of values is written
//! as such a record, and `a` to `f` read the fields where they lie. [`VarTupleULE`] is a value of
//! fixed width with an element behind it, and [`OptionVarULE`] an element that may be missing. All
//! are kinds, so they stand in lists and in one another. [`VarZeroCow`] holds one element of a
//! kind, borrowed or owned.
#![tactic(auto)]

mod any;
mod cow;
mod fields;
mod kinds;
pub mod laws;
mod option;
mod record;
mod tuples;
mod usable;
mod values;
mod var_tuple;

pub use any::AnyBytes;
pub use cow::VarZeroCow;
pub use fields::MultiFieldsULE;
pub use kinds::{End, Field, FieldKinds, FieldOrders};
pub use option::OptionVarULE;
pub use record::{RecordULE, Tuple2VarULE, Tuple3VarULE, Tuple4VarULE, Tuple5VarULE, Tuple6VarULE};
pub use var_tuple::{VarTuple, VarTupleULE};
