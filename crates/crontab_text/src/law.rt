ghost use Rattle.std.specs.Prelude.{◌≡◌, ◌<◌, ◌∷◌, [], ℕ, List, Result, flat_map, length, Ok};
ghost use Rattle.std.specs.List.{slice_range};
ghost use Rattle.crontab_text.specs.Answers.{AreAnswers, IsAnswer, LineAnswer};
ghost use Rattle.crontab_text.specs.Lines.{BeginsWithLine, lines_of};
ghost use Rattle.crontab_text.specs.Percent.{ArePieces, CommandPiece, bytes_said, text_said_by};
ghost use Rattle.crontab_text.specs.Reader.{ReadsLine, answer_to_line};
ghost use Rattle.crontab_text.specs.TableReader.{TableReader, rest_of};
ghost use Rattle.crontab_text.specs.declared.answer.Line.{Line};
ghost use Rattle.crontab_text.specs.declared.answer.LineFault.{LineFault};
ghost use Rattle.crontab_text.specs.declared.answer.Style.{Style};

/// A law: each line says one thing, or breaks one rule first at one place, and never both.
pub fn a_line_has_one_reading()
    ensures some { (style : Style) (owner line : List ℕ)
        → (answer : LineAnswer) × IsAnswer style owner line answer }
    ensures one { (style : Style) (owner line : List ℕ) (a b : LineAnswer)
        → IsAnswer style owner line a → IsAnswer style owner line b → a ≡ b }
{}

/// A law: the lines of a text are the line that it begins with, and those of what is behind it. An empty text has none,
/// and each other text begins with a line.
pub fn a_text_is_its_lines()
    ensures none { lines_of [] ≡ [] }
    ensures next { (text line after : List ℕ) → BeginsWithLine text line after → lines_of text ≡ line ∷ lines_of after }
    ensures some { (text : List ℕ) → 0 < length text
        → (line : List ℕ) × (after : List ℕ) × BeginsWithLine text line after }
{}

/// A law: each table has one list of answers.
pub fn a_table_has_one_list_of_answers()
    ensures some { (style : Style) (owner text : List ℕ)
        → (answers : List LineAnswer) × AreAnswers style owner text answers }
    ensures one { (style : Style) (owner text : List ℕ) (a b : List LineAnswer)
        → AreAnswers style owner text a → AreAnswers style owner text b → a ≡ b }
{}

/// A law: the answer that a reader hands out stands before the answers to the rest of its table, and at the end there
/// are none. So the answers that the calls hand out, in order, are those of the table.
pub fn answers_come_in_order()
    ensures next { (old new : TableReader) (handed : Result Line LineFault) (answers : List LineAnswer)
        → ReadsLine old new handed → AreAnswers old.style old.owner (rest_of new) answers
        → AreAnswers old.style old.owner (rest_of old) (answer_to_line handed ∷ answers) }
    ensures end { (style : Style) (owner : List ℕ) → AreAnswers style owner [] [] }
{}

/// A law: each command has one list of pieces.
pub fn a_command_has_one_list_of_pieces()
    ensures some { (command : List ℕ) → (pieces : List CommandPiece) × ArePieces command pieces }
    ensures one { (command : List ℕ) (a b : List CommandPiece)
        → ArePieces command a → ArePieces command b → a ≡ b }
{}

/// A law: the pieces say what the command says, with a newline for each unescaped `%` and without the backslashes of the
/// escaped ones (crontab(5)).
pub fn pieces_say_what_the_command_says()
    ensures { (command : List ℕ) (pieces : List CommandPiece)
        → ArePieces command pieces → flat_map bytes_said pieces ≡ text_said_by command }
{}

/// A law: what stands in the text from the first byte of a line's span up to its last is the line that was read, without its newline.
pub fn a_span_is_that_of_its_line()
    ensures { (old new : TableReader) (line : Line) → ReadsLine old new (Ok line)
        → BeginsWithLine (rest_of old) (slice_range old.text line.span.from line.span.until) (rest_of new) }
{}
