ghost use Rattle.std.specs.Prelude.{◌≡◌, ◌≢◌, ◌+◌, ◌<◌, ◌^◌, List, ℕ, codes, length};
ghost use Rattle.std.specs.List.{AllByRecursion};
ghost use Rattle.crontab_text.specs.Lines.{lines_of};
ghost use Rattle.run_text.specs.Follow.{style_of};
ghost use Rattle.run_text.specs.Reading.{IsRunText, IsRefusedText, HasReading, IsFrameText, IsRefusedFrame, HasFrame};
ghost use Rattle.run_text.specs.Grammar.{IsZoneName};
ghost use Rattle.run_text.specs.Run.{NamedZone, Run};
ghost use Rattle.run_text.specs.Sound.{AreDistinct, IsSoundRun};
ghost use Rattle.run_text.specs.Table.{AreSaid};
ghost use Rattle.run_text.specs.Zones.{zone_names_of};
ghost use Rattle.run_text.specs.declared.refusal.Refusal.{Refusal};

use crate::read::pass_file;
use crate::table::Tables;

/// A law: a text is a run file in one way at most, or refused in one way at most, and never both.
pub fn a_text_has_one_reading()
    ensures one_run { (text : List ℕ) (a b : Run) → IsRunText text a → IsRunText text b → a ≡ b }
    ensures one_refusal { (text : List ℕ) (a b : Refusal) → IsRefusedText text a → IsRefusedText text b → a ≡ b }
    ensures not_both { (text : List ℕ) (run : Run) (refusal : Refusal) → IsRunText text run → IsRefusedText text refusal → ⊥ }
{}

/// A law: each text is a run file, or it is refused. What runs is the reader, which keeps nothing here and takes no memory.
pub fn a_text_has_a_reading(text: &str)
    requires { length text.now < 2 ^ 32 }
    ensures { HasReading text.now }
{
    let _ = pass_file(text, Tables::Judged);
}

/// A law: what holds of each run that is read. Its window and its grace are within the limits, each line of its tables says
/// something, and the lines stand where the text has them; each command names what the run has, and the script is within its limits.
pub fn each_run_is_sound()
    ensures { (text : List ℕ) (run : Run) → IsRunText text run → IsSoundRun (1 + length (lines_of text)) run }
{}

/// A law: each zone of a run has a name of its own, which isn't `UTC`. So a table's line names one zone at most.
pub fn each_zone_has_a_name_of_its_own()
    ensures distinct { (text : List ℕ) (run : Run) → IsRunText text run → AreDistinct (zone_names_of run.zones) }
    ensures named { (text : List ℕ) (run : Run) → IsRunText text run
        → AllByRecursion (λ (zone : NamedZone). IsZoneName zone.name × (zone.name ≢ codes "UTC")) run.zones }
{}

/// A law: a text has one frame at most, or is refused in one way at most, and never both.
pub fn a_text_has_one_frame()
    ensures one_frame { (text : List ℕ) (a b : Run) → IsFrameText text a → IsFrameText text b → a ≡ b }
    ensures one_refusal { (text : List ℕ) (a b : Refusal) → IsRefusedFrame text a → IsRefusedFrame text b → a ≡ b }
    ensures not_both { (text : List ℕ) (run : Run) (refusal : Refusal) → IsFrameText text run → IsRefusedFrame text refusal → ⊥ }
{}

/// A law: each text has a frame, or it is refused. What runs is the reader, which keeps nothing here and takes no memory.
pub fn a_text_has_a_frame(text: &str)
    requires { length text.now < 2 ^ 32 }
    ensures { HasFrame text.now }
{
    let _ = pass_file(text, Tables::Counted);
}

/// A law: a text that is a run file has the run for its frame.
pub fn each_run_is_its_frame()
    ensures { (text : List ℕ) (run : Run) → IsRunText text run → IsFrameText text run }
{}

/// A law: each line of a frame's sections is a line of the text, by its number behind that of the line that opens the section.
pub fn each_frame_has_its_lines()
    ensures { (text : List ℕ) (run : Run) → IsFrameText text run
        → AllByRecursion (λ section. section.line + length section.lines < 1 + length (lines_of text)) run.sections }
{}

/// A law: a frame whose sections' lines each say something is a run.
pub fn a_frame_without_faults_is_a_run()
    ensures { (text : List ℕ) (run : Run) → IsFrameText text run
        → AllByRecursion (λ section. AreSaid (style_of section.kind) section.label section.lines) run.sections → IsRunText text run }
{}
