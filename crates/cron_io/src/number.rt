ghost use Rattle.std.specs.Prelude.{◌≡◌, ◌≢◌, ◌≤◌, ◌<◌, ◌↔◌, ℕ, List, IsTrue, IfSome, IfNone, decimal, length};
ghost use Rattle.cron_io.specs.Number.{MayBeginNumber};

// `parse` also takes a sign and leading zeros.
fn may_begin_number(text: &str) -> bool
    ensures { IsTrue result ↔ MayBeginNumber text.now }
{
    !text.starts_with('+') && (text.len() < 2 || !text.starts_with('0'))
}

/// Decimal digits without a sign or a leading zero, of a number up to `most`.
pub fn read_number(text: &str, most: u32) -> Option<u32>
    ensures read { IfSome result (λ n. (n ≤ most) × (text.now ≡ decimal n)) }
    ensures none { IfNone result ((n : ℕ) → n ≤ most → text.now ≢ decimal n) }
{
    if !may_begin_number(text) {
        return None;
    }
    match text.parse::<u32>() {
        Ok(number) if number <= most => Some(number),
        _ => None,
    }
}
