//! Laws of the definitions.

ghost use Rattle.std.specs.Prelude.{◌≡◌, ◌∷◌, ◌++◌, [], ℕ, List, Ok};
ghost use Rattle.smf_record.specs.Answers.{Seen};
ghost use Rattle.smf_record.specs.Lines.{AreTold, IsAdded, runs_line};
ghost use Rattle.smf_record.specs.Reading.{read_answer};
ghost use Rattle.smf_record.specs.Texts.{IsAnswer, answer_text};

/// The text of an answer is read as that answer, and no other text is.
pub fn answers_are_read_again()
    ensures again { (answer : Seen) → IsAnswer answer → read_answer (answer_text answer) ≡ Ok answer }
    ensures written { (text : List ℕ) (answer : Seen) → read_answer text ≡ Ok answer
        → (text ≡ answer_text answer) × IsAnswer answer }
{}

/// The lines to which answers are added tell each answer once, in its order. Contracts that run one after another come in one
/// line.
pub fn lines_tell_all_answers()
    ensures none { AreTold [] [] 0 }
    ensures added { (answers : List Seen) (answer : Seen) (text : List ℕ) (runs : ℕ) (longer : List ℕ) (left : ℕ)
        → AreTold answers text runs → IsAdded answer text runs longer left → AreTold (answers ++ answer ∷ []) longer left }
    ensures taken { (answers : List Seen) (text : List ℕ) (runs : ℕ) → AreTold answers text runs
        → AreTold answers (text ++ runs_line runs) 0 }
{}
