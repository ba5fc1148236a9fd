// Changes of all values of a list by a closure.
ghost use Rattle.std.specs.Prelude.{◌≡◌, ◌≤◌, map, true, Ok, IfOk, IfErr};
ghost use Rattle.std.specs.Prelude.{IsOk, OnOk, OnErr};
ghost use Rattle.zv_fixed.specs.Calls.{AnswersEach, Computes, EndsEarly};
ghost use Rattle.zv_fixed.specs.declared.vector.each.EachError.TheVariants.{Memory};

use super::ZeroVec;
use std::alloc::Global;
use std::error::Error;
use std::fmt;
use zv_ule::{AsULE, NoMemory};

/// Why a list was not gone over to its end.
#[derive(Clone, Copy, Debug, Drop, PartialEq, Eq)]
pub enum EachError<E> {
    /// The closure gave this error.
    Stopped(E),
    /// No memory was given.
    Memory,
}

impl<E: fmt::Display> fmt::Display for EachError<E> {
    fn fmt<W: fmt::Write>(&self, f: &mut fmt::Formatter<W>) -> fmt::Result {
        match self {
            EachError::Stopped(error) => write!(f, "{error}"),
            EachError::Memory => f.write_str("out of memory"),
        }
    }
}

impl<E: fmt::Debug + fmt::Display + Drop> Error for EachError<E> {}

impl<E> From<NoMemory> for EachError<E> {
    ghost from_gives = { λ _ e. e ≡ Memory };

    #[inline]
    fn from(_error: NoMemory) -> Self {
        EachError::Memory
    }
}

impl<'a, T: AsULE> ZeroVec<'a, T> {
    /// Puts what the closure gives for each value in its place, in order. The list owns its bytes
    /// then, and memory is asked for before the first call.
    pub fn for_each_mut<F: FnMut(T) -> T>(
        &mut self,
        alloc: Global,
        mut f: F,
    ) -> Result<(), NoMemory>
        requires { F.IsAlwaysCallable f }
        ensures ok { OnOk result (AnswersEach F.FnMut f self.old.values self.new.values) }
        ensures computed { (answer : T → T) → Computes F.FnMut answer f →
            OnOk result (self.new.values ≡ map answer self.old.values) }
        ensures owned { OnOk result (self.new.owned ≡ true) }
        ensures err { OnErr result (self.new ≡ self.old) }
        ensures fits { self.old.owned ≡ true → IsOk result }
        ensures spare { self.old.spare ≤ self.new.spare }
    {
        self.make_owned(alloc)?;
        for index in 0..self.len() {
            let value = f(self.at(index));
            self.set_owned(index, value);
        }
        Ok(())
    }

    /// Puts what the closure gives for each value in its place, in order, up to its first error:
    /// the values before are changed then, and the others are not. The list owns its bytes then,
    /// and memory is asked for before the first call.
    pub fn try_for_each_mut<E, F: FnMut(T) -> Result<T, E>>(
        &mut self,
        alloc: Global,
        mut f: F,
    ) -> Result<(), EachError<E>>
        requires { F.IsAlwaysCallable f }
        ensures ok { OnOk result (AnswersEach F.FnMut f self.old.values
            (map Ok self.new.values)) }
        ensures err { IfErr result (EndsEarly F.FnMut f self.old self.new) }
        ensures owned { OnOk result (self.new.owned ≡ true) }
        ensures spare { self.old.spare ≤ self.new.spare }
    {
        self.make_owned(alloc)?;
        for index in 0..self.len() {
            match f(self.at(index)) {
                Ok(value) => self.set_owned(index, value),
                Err(error) => return Err(EachError::Stopped(error)),
            }
        }
        Ok(())
    }

    /// Hands the values to a closure and takes those that it gives, in whatever number and order.
    /// The list owns its bytes then. It is unchanged where memory is refused, which may also be
    /// after the call.
    pub fn with_mut<R: Drop, F: FnOnce(Vec<T>) -> (Vec<T>, R)>(
        &mut self,
        alloc: Global,
        f: F,
    ) -> Result<R, NoMemory>
        requires { F.IsAlwaysCallable f }
        ensures ok { IfOk result (λ answer. (given : _) × (taken : _)
            × (given.items ≡ self.old.values) × F.post f given (taken, answer)
            × (self.new.values ≡ taken.items)) }
        ensures owned { OnOk result (self.new.owned ≡ true) }
        ensures err { OnErr result (self.new ≡ self.old) }
    {
        self.all_read();
        let (values, answer) = f(self.to_vec(alloc)?);
        *self = ZeroVec::alloc_from_slice(alloc, &values)?;
        Ok(answer)
    }
}
