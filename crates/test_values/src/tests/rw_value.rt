mod holding;
mod refusals;
mod threads;

ghost use Rattle.std.specs.Prelude.{◌≡◌, IfOk};
ghost use Rattle.running_rw_writer.specs.RwWriterShown.{pass_in, reads_of, writes_of};
ghost use Rattle.running_rw_value.specs.RwValueShown.{IsRwValuePass};

use running_rw_value::RwLock;
use running_rw_writer::RwWriterPass;
use std::alloc::{AllocError, Global};

/// A lock round this number, and its pass.
fn new_lock(alloc: Global, number: u64) -> Result<(RwLock<u64>, RwWriterPass), AllocError>
    ensures own { IfOk result (λ made. IsRwValuePass made.0 made.1) }
    ensures idle { IfOk result (λ made. (reads_of (pass_in made.1) ≡ 0) × (writes_of (pass_in made.1) ≡ 0)) }
{
    match RwLock::new(alloc, number) {
        Ok(made) => Ok(made),
        Err((error, _)) => Err(error),
    }
}

/// A lock round 7, and two parts of its pass.
fn in_two_parts(alloc: Global) -> Result<(RwLock<u64>, RwWriterPass, RwWriterPass), AllocError>
    ensures own { IfOk result (λ made. IsRwValuePass made.0 made.1 × IsRwValuePass made.0 made.2) }
{
    let (lock, pass) = new_lock(alloc, 7)?;
    match pass.split(lock.front()) {
        Ok((one, two)) => Ok((lock, one, two)),
        Err(_) => unreachable!(),
    }
}
