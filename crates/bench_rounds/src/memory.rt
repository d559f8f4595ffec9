// Errors of the calls that are timed.
use std::alloc::AllocError;

/// The answer of a call. A round gives up at any fault of a call as if memory had run out, since
/// none of its calls has another.
pub fn answer<T, E: Drop>(called: Result<T, E>) -> Result<T, AllocError> {
    match called {
        Ok(answer) => Ok(answer),
        Err(_) => Err(AllocError),
    }
}
