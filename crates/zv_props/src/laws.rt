// The laws of tables, each the contract of a function that does nothing.
ghost use Rattle.std.specs.Prelude.{◌≡◌};
ghost use Rattle.zv_props.specs.Examples.{JoinIsTold, LeastIsTold, LengthIsTold, LettersBytes};
ghost use Rattle.zv_props.specs.Examples.{LettersValues, OrderIsTold, RowIsTold, TwoValuesTouch};
ghost use Rattle.zv_props.specs.Stored.{table_bytes};
ghost use Rattle.zv_props.specs.Tables.{AnswerAlike, IsProper};

use crate::table::Props;

/// A table is proper, and tables that answer alike for every code point are the same bytes.
#[tactic(auto, using(crate::proofs::Runs::one_table))]
pub fn one_table(first: &Props<'_>, second: &Props<'_>)
    ensures proper { IsProper first.now }
    ensures rows { AnswerAlike first.now second.now → first.now ≡ second.now }
    ensures bytes { AnswerAlike first.now second.now →
        table_bytes first.now ≡ table_bytes second.now }
{
    let (_first, _second) = (first.rows(), second.rows());
}

/// Tables that were worked out by hand.
pub fn worked_tables()
    ensures bytes { LettersBytes }
    ensures values { LettersValues }
    ensures length { LengthIsTold }
    ensures join { JoinIsTold }
    ensures touch { TwoValuesTouch }
    ensures order { OrderIsTold }
    ensures row { RowIsTold }
    ensures least { LeastIsTold }
{}
