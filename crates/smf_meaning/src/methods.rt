ghost use Rattle.std.specs.Prelude.{◌≡◌, ℕ, List, Ok, Some};
ghost use Rattle.smf_value.specs.Groups.{GroupRecord};
ghost use Rattle.smf_method.specs.declared.call.ReadMethod.{ReadMethod as AnyMethod};
ghost use Rattle.smf_method.specs.Methods.{method_of};
ghost use Rattle.smf_method.specs.Properties.{ignore_by};
ghost use Rattle.smf_method.specs.Tokens.{Names, wrong_token};
ghost use Rattle.smf_meaning.specs.Ignored.{SaysIgnored};
ghost use Rattle.smf_meaning.specs.Commands.{IsCommandOf, IsWrongToken};

/// The command of a method is the text `exec` of its group with each token replaced, and nothing else.
pub fn commands_are_their_texts()
    ensures { (gs : List GroupRecord) (names : Names) (read : AnyMethod) → method_of gs names ≡ Ok (Some read)
        → IsCommandOf gs names read.call.command }
{}

/// The place that is told of a text with a wrong token is that of the first `%` that begins none.
pub fn tokens_are_wrong_at_a_percent()
    ensures { (text : List ℕ) (place : ℕ) → wrong_token 0 text ≡ Some place → IsWrongToken text place }
{}

/// The failures that are left out of account are words joined by commas, or there are none.
pub fn ignored_failures_are_words()
    ensures said { (text : List ℕ) (bits : ℕ) → ignore_by text ≡ Some bits → SaysIgnored text bits }
    ensures read { (text : List ℕ) (bits : ℕ) → SaysIgnored text bits → ignore_by text ≡ Some bits }
{}
