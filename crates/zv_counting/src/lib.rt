//! A key that counts how often it is compared, for tests of searches.
#![tactic(auto)]

use std::cell::Cell;
use std::cmp::Ordering;
use std::sync::ledger::Ledger;
use zv_ule::{Steps, StrULE, ZvArg, ZvOrdArg};

/// A text that counts how often it is compared.
#[derive(Drop)]
pub struct CountingKey<'c> {
    /// The text.
    pub text: &'c str,
    /// How often it was compared.
    pub count: &'c Cell<usize>,
}

impl<'c> CountingKey<'c> {
    /// A text, whose comparisons are added to a count.
    pub fn new(text: &'c str, count: &'c Cell<usize>) -> Self {
        CountingKey { text, count }
    }
}

impl ZvArg<StrULE> for CountingKey<'_> {
    ghost bytes = { λ key. key.text.now };

    fn arg_len(&self) -> usize {
        self.text.arg_len()
    }

    fn arg_write(&self, out: &mut [u8]) {
        self.text.arg_write(out);
    }
}

impl ZvOrdArg<StrULE> for CountingKey<'_> {
    fn arg_compare<L: Ledger>(&self, element: &[u8], steps: &mut Steps<L>) -> Ordering {
        self.count.set(self.count.get().saturating_add(1));
        self.text.arg_compare(element, steps)
    }
}
