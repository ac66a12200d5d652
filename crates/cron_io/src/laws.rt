//! Laws of sources and sinks. Each is the contract of a function that does nothing.
ghost use Rattle.std.specs.Prelude.{◌≡◌, ◌-◌, ◌^◌, ◌<◌, ◌++◌, ℕ, List, [], None, Some, Result, Ok, OnOk, OnErr};
ghost use Rattle.cron_io.specs.declared.sink.SinkFault.{SinkFault};
ghost use Rattle.cron_io.specs.declared.source.SourceFault.{SourceFault};
ghost use Rattle.cron_io.specs.Faults.{next_count, Rose};
ghost use Rattle.cron_io.specs.Reading.{HasTakenBytes, IsReadToEnd};
ghost use Rattle.cron_io.specs.Standard.{Asking, HandsOn, count_read, count_written};
ghost use Rattle.cron_io.specs.Views.{SourceView, SinkView};
ghost use Rattle.cron_io.specs.Writing.{HasGainedPrefix};

/// Below the last value of a `u64` a count that stays where it is hasn't risen.
pub fn a_count_that_stays_has_not_risen()
    ensures { (count : ℕ) → count < 2 ^ 64 - 1 → Rose count count → ⊥ }
{}

/// A source that told its bytes and was read to its end gave all of them; otherwise it gave some front.
pub fn what_a_source_gave()
    ensures all { (old new : SourceView) (had bytes : List ℕ) → old.left ≡ Some had → IsReadToEnd old new bytes
        → (bytes ≡ had) × (new.left ≡ Some []) }
    ensures front { (old new : SourceView) (had : List ℕ) → old.left ≡ Some had → HasTakenBytes old new
        → (bytes left : List ℕ) × (had ≡ bytes ++ left) × (new.left ≡ Some left) }
{}

/// A sink that told what was written gained a front of the bytes, and nothing else.
pub fn what_a_sink_gained()
    ensures { (old new : SinkView) (had bytes : List ℕ) → old.written ≡ Some had → HasGainedPrefix old new bytes
        → (front back : List ℕ) × (bytes ≡ front ++ back) × (new.written ≡ Some (had ++ front)) }
{}

/// An adapter of std asks once, and counts a fault exactly where it tells one: of a reader at an error alone, so that the
/// end is told as one, and of a writer at an error and where no byte was taken.
pub fn an_adapter_hands_one_answer_on()
    ensures read { (old new : Asking) (before after : ℕ) (result : Result ℕ SourceFault) → HandsOn old new before after count_read result
        → (new.calls ≡ next_count old.calls) × OnErr result (new.last ≡ None) × OnErr result (after ≡ next_count before) × OnOk result (after ≡ before) }
    ensures end { (old new : Asking) (before after : ℕ) (result : Result ℕ SourceFault) → HandsOn old new before after count_read result
        → new.last ≡ Some 0 → result ≡ Ok 0 }
    ensures written { (old new : Asking) (before after : ℕ) (result : Result ℕ SinkFault) → HandsOn old new before after count_written result
        → (new.calls ≡ next_count old.calls) × OnErr result (after ≡ next_count before) × OnOk result (after ≡ before) }
    ensures none { (old new : Asking) (before after : ℕ) (result : Result ℕ SinkFault) → HandsOn old new before after count_written result
        → new.last ≡ Some 0 → OnOk result ⊥ }
{}
