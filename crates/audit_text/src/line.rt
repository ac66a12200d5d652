ghost use Rattle.std.specs.Prelude.{◌≡◌, ◌<◌, [], length, IfSome, IfNone};
ghost use Rattle.crontab_text.specs.Blanks.{IsFirstIndex, LacksAny};
ghost use Rattle.crontab_text.specs.Lines.{BeginsWithLine};

/// The first line of some bytes, without its newline, and what is behind it; `None` where there is none.
pub(crate) fn cut_first(bytes: &[u8]) -> Option<(&[u8], &[u8])>
    ensures line { IfSome result (λ parts. BeginsWithLine bytes.now parts.0.now parts.1.now) }
    ensures shorter { IfSome result (λ parts. length parts.1.now < length bytes.now) }
    ensures none { IfNone result (bytes.now ≡ []) }
{
    match newline_in(bytes) {
        Some(end) => Some((&bytes[..end], &bytes[end + 1..])),
        None if bytes.is_empty() => None,
        None => Some((bytes, &[])),
    }
}

// The index of the first newline.
fn newline_in(bytes: &[u8]) -> Option<usize>
    ensures found { IfSome result (λ index. IsFirstIndex (λ byte. byte ≡ 10) bytes.now index) }
    ensures none { IfNone result (LacksAny (λ byte. byte ≡ 10) bytes.now) }
{
    bytes.iter().position(|byte| *byte == b'\n')
}
