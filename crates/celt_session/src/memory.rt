//! Room for bytes.
ghost use Rattle.std.specs.Prelude.{◌≡◌, replicate, IfOk};

use celt_base::status::OutOfMemory;
use std::alloc::Global;

/// As many zero bytes.
pub(crate) fn zero_bytes(alloc: Global, len: usize) -> Result<Vec<u8>, OutOfMemory>
    ensures { IfOk result (λ v. v.items ≡ replicate len 0) }
{
    match vec![in alloc; 0u8; len] {
        Ok(bytes) => Ok(bytes),
        Err(_) => Err(OutOfMemory),
    }
}
