//! Bytes with a part of them replaced.

ghost use Rattle.std.specs.Prelude.{◌≡◌, ◌≤◌, ◌+◌, ◌++◌, IfOk, length, take, drop};

use grid_exact::NoMemory;
use std::alloc::Global;

/// The bytes with the patch at the place.
pub(crate) fn with_patch(
    alloc: Global,
    bytes: &[u8],
    at: usize,
    patch: &[u8],
) -> Result<Vec<u8>, NoMemory>
    requires { at ≤ length bytes.now }
    ensures { IfOk result
        (λ v. v.items ≡ take at bytes.now ++ patch.now ++ drop (at + length patch.now) bytes.now) }
{
    let mut out = Vec::new(alloc);
    out.extend_from_slice(&bytes[..at])?;
    out.extend_from_slice(patch)?;
    if patch.len() < bytes.len() - at {
        out.extend_from_slice(&bytes[at + patch.len()..])?;
    }
    Ok(out)
}
