ghost use Rattle.std.specs.Prelude.{◌≡◌, ◌++◌, [], ℕ, List, Ok};
ghost use Rattle.smf_wire.specs.Grammar.{read_line};
ghost use Rattle.smf_wire.specs.Lines.{HasLine, IsSpelled, line_text};
ghost use Rattle.smf_wire.specs.declared.message.Message.{Message as AnyMessage};

/// The line of a message is read as that message, and no other line is.
pub fn lines_are_read_again()
    ensures again { (m : AnyMessage) → HasLine m → read_line (line_text m) ≡ Ok m }
    ensures written { (line : List ℕ) (m : AnyMessage) → read_line line ≡ Ok m → line ≡ line_text m }
    ensures spelled { (line : List ℕ) (m : AnyMessage) → read_line line ≡ Ok m → IsSpelled m }
{}

/// No line begins another.
pub fn no_line_begins_another()
    ensures { (m n : AnyMessage) (tail : List ℕ) → HasLine m → HasLine n → line_text n ≡ line_text m ++ tail
        → tail ≡ [] }
{}
