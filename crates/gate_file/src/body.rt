use std::marker::Model;

/// How many bytes a body has.
pub(crate) const BODY_BYTES: usize = 56;

/// A body. Contracts see its bytes.
#[derive(Clone, Copy, Debug, PartialEq, Eq)]
pub struct Body56 {
    pub bytes: [u8; 56],
}

impl Model for Body56 {
    ghost use Rattle.std.specs.Prelude.{◌≡◌, ℕ, List, length};

    ghost Value = { List ℕ };

    ghost view = { λ body. body.bytes };

    ghost invariant = { λ body. length body.bytes ≡ 56 };

    ghost inverse = { λ bytes. record { bytes = bytes } };
}
