//! The places of a file that were written since its last sync, as the spans of those writes.
ghost use Rattle.std.specs.Prelude.{◌≡◌, ◌<◌, ◌≤◌, ℕ, true, false, length, get_or};
ghost use Rattle.disk_model.specs.Touched.{is_in, is_touched};

/// The places from one up to another.
#[derive(Clone, Copy, Debug, PartialEq, Eq)]
pub(crate) struct Span {
    pub(crate) from: usize,
    pub(crate) until: usize,
}

impl Span {
    // Copies the bytes at those of its places that are in both.
    fn copy(&self, from: &[u8], into: &mut [u8])
        requires { length into.old ≤ length from.now }
        ensures size { length into.new ≡ length into.old }
        ensures touched { (place : ℕ) → place < length into.old → is_in self.now place ≡ true
            → get_or into.new place 0 ≡ get_or from.now place 0 }
        ensures others { (place : ℕ) → is_in self.now place ≡ false
            → get_or into.new place 0 ≡ get_or into.old place 0 }
    {
        let until = self.until.min(into.len());
        if self.from < until {
            into[self.from..until].copy_from_slice(&from[self.from..until]);
        }
    }

    // Puts one byte at its places.
    fn fill(&self, byte: u8, into: &mut [u8])
        ensures size { length into.new ≡ length into.old }
        ensures touched { (place : ℕ) → place < length into.old → is_in self.now place ≡ true
            → get_or into.new place 0 ≡ byte }
        ensures others { (place : ℕ) → is_in self.now place ≡ false
            → get_or into.new place 0 ≡ get_or into.old place 0 }
    {
        let until = self.until.min(into.len());
        if self.from < until {
            into[self.from..until].fill(byte);
        }
    }
}

// Copies the bytes at those of the spans' places that are in both.
pub(crate) fn copy_touched(spans: &[Span], from: &[u8], into: &mut [u8])
    requires { length into.old ≤ length from.now }
    ensures size { length into.new ≡ length into.old }
    ensures touched { (place : ℕ) → place < length into.old → is_touched spans.now place ≡ true
        → get_or into.new place 0 ≡ get_or from.now place 0 }
    ensures others { (place : ℕ) → is_touched spans.now place ≡ false
        → get_or into.new place 0 ≡ get_or into.old place 0 }
{
    for span in spans {
        span.copy(from, into);
    }
}

// Puts one byte at the spans' places.
pub(crate) fn fill_touched(spans: &[Span], byte: u8, into: &mut [u8])
    ensures size { length into.new ≡ length into.old }
    ensures touched { (place : ℕ) → place < length into.old → is_touched spans.now place ≡ true
        → get_or into.new place 0 ≡ byte }
    ensures others { (place : ℕ) → is_touched spans.now place ≡ false
        → get_or into.new place 0 ≡ get_or into.old place 0 }
{
    for span in spans {
        span.fill(byte, into);
    }
}
