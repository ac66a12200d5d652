ghost use Rattle.std.specs.Prelude.{◌≡◌, ◌<◌, ◌≤◌, ◌+◌, ◌*◌, ◌∷◌, [], ℕ, List, Result, false, length, Ok};
ghost use Rattle.std.specs.List.{AllByRecursion, slice_range};
ghost use Rattle.crontab_text.specs.Lines.{lines_of};
ghost use Rattle.crontab_text.specs.declared.answer.LineFault.{LineFault};
ghost use Rattle.anacron_text.specs.Answers.{AreAnacronAnswers, AreAnswersBelow, IsAnacronAnswer, AnacronLineAnswer};
ghost use Rattle.anacron_text.specs.Limits.{IsJobWithin};
ghost use Rattle.anacron_text.specs.LogicalLines.{BeginsWithLogicalLine, is_continued, logical_lines};
ghost use Rattle.anacron_text.specs.Reader.{ReadsAnacronLine, anacron_answer_of};
ghost use Rattle.anacron_text.specs.TableReader.{AnacronTableReader, anacron_rest_of};
ghost use Rattle.anacron_text.specs.declared.answer.AnaLine.{AnaLine};
ghost use Rattle.anacron_text.specs.declared.answer.PeriodWord.{PeriodWord};
ghost use Rattle.anacron_text.specs.declared.settings.Settings.{Settings};

/// A law: each line says one thing, or breaks one rule first at one place, and never both.
pub fn a_line_has_one_reading()
    ensures some { (settings : Settings) (line : List ℕ)
        → (answer : AnacronLineAnswer) × IsAnacronAnswer settings line answer }
    ensures one { (settings : Settings) (line : List ℕ) (a b : AnacronLineAnswer)
        → IsAnacronAnswer settings line a → IsAnacronAnswer settings line b → a ≡ b }
{}

/// A law: the logical lines of a text are the one that it begins with, and those of what is behind it. An empty text has
/// none, each other text begins with one, and where no line is continued they are the lines of the text.
pub fn a_text_is_its_logical_lines()
    ensures none { logical_lines [] ≡ [] }
    ensures next { (text line after : List ℕ)
        → BeginsWithLogicalLine text line after → logical_lines text ≡ line ∷ logical_lines after }
    ensures some { (text : List ℕ) → 0 < length text
        → (line : List ℕ) × (after : List ℕ) × BeginsWithLogicalLine text line after }
    ensures plain { (text : List ℕ) → AllByRecursion (λ line. is_continued line ≡ false) (lines_of text)
        → logical_lines text ≡ lines_of text }
{}

/// A law: each table has one list of answers.
pub fn a_table_has_one_list_of_answers()
    ensures some { (text : List ℕ) → (answers : List AnacronLineAnswer) × AreAnacronAnswers text answers }
    ensures one { (text : List ℕ) (a b : List AnacronLineAnswer) → AreAnacronAnswers text a → AreAnacronAnswers text b → a ≡ b }
{}

/// A law: the answer that a reader hands out stands before the answers to the rest of its table, and at the end there
/// are none. So the answers that the calls hand out, in order, are those of the table.
pub fn answers_come_in_order()
    ensures next { (old new : AnacronTableReader) (handed : Result AnaLine LineFault) (answers : List AnacronLineAnswer)
        → ReadsAnacronLine old new handed
        → AreAnswersBelow (logical_lines (anacron_rest_of new)) new.settings answers
        → AreAnswersBelow (logical_lines (anacron_rest_of old)) old.settings (anacron_answer_of handed ∷ answers) }
    ensures end { (settings : Settings) → AreAnswersBelow (logical_lines []) settings [] }
{}

/// A law: what stands in the text from the first byte of a line's span up to its last is the line that was read, without its newline.
pub fn a_span_is_that_of_its_line()
    ensures { (old new : AnacronTableReader) (line : AnaLine) → ReadsAnacronLine old new (Ok line)
        → BeginsWithLogicalLine (anacron_rest_of old) (slice_range old.text line.span.from line.span.until) (anacron_rest_of new) }
{}

/// A law: the hours of a job within the limits are those of one day, and at most 19,998 minutes are counted from the first of them. If
/// its period is a number of days, that is from 1 to 9,999.
pub fn a_jobs_hours_are_of_one_day()
    ensures rise { (period : PeriodWord) (delay added first last : ℕ) → IsJobWithin period delay added first last
        → 60 * first < 60 * last }
    ensures day { (period : PeriodWord) (delay added first last : ℕ) → IsJobWithin period delay added first last
        → 60 * last ≤ 24 * 60 }
    ensures delay { (period : PeriodWord) (delay added first last : ℕ) → IsJobWithin period delay added first last
        → delay + added ≤ 19_998 }
    ensures days { (days delay added first last : ℕ) → IsJobWithin (PeriodWord.Days days) delay added first last
        → (0 < days) × (days ≤ 9_999) }
{}
