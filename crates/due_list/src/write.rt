ghost use Rattle.std.specs.Prelude.{◌≡◌};
ghost use Rattle.due_list.specs.Listing.{WritesListing};

use crate::fault::ListFault;
use cron_io::{Sink, write_all};

/// Writes a text.
pub fn write_text<K: Sink>(sink: &mut K, text: &str) -> Result<(), ListFault>
    ensures { WritesListing (K.seen sink.old) (K.seen sink.new) result (λ written. written ≡ text.now) }
{
    write_all(sink, text.as_bytes())?;
    Ok(())
}
