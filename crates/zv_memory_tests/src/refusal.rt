// How a call and its test end where memory may be refused.
use std::process::Abort;
use std::test::Fail;
use zv_ule::NoMemory;

/// Whether a call was refused, which is for want of memory alone.
pub fn is_refused<T, E>(rt: &impl Abort, called: Result<T, E>) -> bool
where
    T: Drop,
    E: From<NoMemory> + PartialEq + Drop,
{
    match called {
        Ok(_) => false,
        Err(error) => {
            assert!(rt; error == NoMemory.into());
            true
        }
    }
}

/// A test of a call that was refused ends with the error that memory was.
pub fn end(is_refused: bool) -> Result<(), Fail> {
    if is_refused {
        Err(NoMemory.into())
    } else {
        Ok(())
    }
}
