ghost use Rattle.std.specs.Prelude.{◌≡◌, ◌*◌, ◌≤◌, ◌++◌, ◌∷◌, [], true, false, length, IfOk, OnOk};
ghost use Rattle.gate_file.specs.Gates.{HasBodies, AreWhole, gated, IsClosedAt, IsNotClosedAt};

use crate::body::{BODY_BYTES, Body56};
use std::alloc::{AllocError, Global};

/// How many bytes a gate and its body have.
pub(crate) const STEP: usize = 57;

// The bodies that the bytes of a file have.
pub(crate) fn open_bodies(alloc: Global, bytes: &[u8]) -> Result<Vec<Body56>, AllocError>
    ensures bodies { IfOk result (λ bodies. HasBodies bytes.now bodies.items) }
    ensures within { IfOk result (λ bodies. 57 * length bodies.items ≤ length bytes.now) }
{
    let mut bodies = Vec::new(alloc);
    let mut rest = bytes;
    while rest.len() > STEP && rest[0] == 1 {
        let mut body = [0; BODY_BYTES];
        body.copy_from_slice(&rest[1..STEP]);
        bodies.push(Body56 { bytes: body })?;
        rest = &rest[STEP..];
    }
    Ok(bodies)
}

// Whether a byte 0 stands at the place.
pub(crate) fn has_closed_gate(bytes: &[u8], place: usize) -> bool
    ensures closed { result ≡ true → IsClosedAt bytes.now place }
    ensures not_closed { result ≡ false → IsNotClosedAt bytes.now place }
{
    place < bytes.len() && bytes[place] == 0
}

// The bytes of a file that has these bodies and nothing else.
pub(crate) fn gated(alloc: Global, bodies: &[Body56]) -> Result<Vec<u8>, AllocError>
    ensures bytes { IfOk result (λ bytes. bytes.items ≡ gated bodies.now) }
    ensures whole { OnOk result (AreWhole bodies.now) }
{
    let mut bytes = Vec::with_capacity(alloc, bodies.len().saturating_mul(STEP).saturating_add(1))?;
    for body in bodies {
        bytes.push(1)?;
        bytes.extend_from_slice(&body.bytes)?;
    }
    bytes.push(0)?;
    Ok(bytes)
}

// A body, and a closed gate after it.
pub(crate) fn with_closed_gate(body: &[u8; BODY_BYTES]) -> [u8; STEP]
    ensures { result ≡ body.now ++ 0 ∷ [] }
{
    let mut bytes = [0; STEP];
    bytes[..BODY_BYTES].copy_from_slice(body);
    bytes
}
