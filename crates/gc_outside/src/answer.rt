// What a store in memory answers to a get.
ghost use Rattle.std.specs.Prelude.{◌≡◌, ◌≢◌, Err, IfOk, option_copied};
ghost use Rattle.gc_outside.specs.Store.{AnswersFile, IsWithin};

use crate::store::{GetError, Got};
use gc_base::Octets;
use std::alloc::Global;

/// What a store answers for this file.
pub(crate) fn answer(file: Option<&[u8]>, alloc: Global, most: usize) -> Result<Got, GetError>
    ensures answer { IfOk result (AnswersFile most (option_copied file.entry)) }
    ensures within { IfOk result (IsWithin most) }
    ensures cause { result ≢ Err GetError.Failed }
{
    let Some(bytes) = file else {
        return Ok(Got::Absent);
    };
    if bytes.len() > most {
        return Ok(Got::Longer);
    }
    match Vec::from_slice(alloc, bytes) {
        Ok(copy) => Ok(Got::Bytes(Octets::new(copy))),
        Err(_) => Err(GetError::NoMemory),
    }
}
