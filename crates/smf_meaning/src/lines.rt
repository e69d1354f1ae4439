ghost use Rattle.std.specs.Prelude.{◌≡◌, ℕ, List, Err};
ghost use Rattle.smf_state.specs.declared.fault.RowFault.{RowFault as AnyRowFault};
ghost use Rattle.smf_state.specs.declared.fault.StepTextFault.{StepTextFault as AnyStepFault};
ghost use Rattle.smf_state.specs.Texts.{read_row, read_step};
ghost use Rattle.smf_meaning.specs.WrongFields.{IsRowFault, IsStepFault};

/// The reader refuses a text that is no row at the start of its first wrong field, or at its end if one is missing. The
/// text before that place begins the text of a row.
pub fn rows_are_wrong_at_a_field()
    ensures { (text : List ℕ) (fault : AnyRowFault) → read_row text ≡ Err fault → IsRowFault text fault }
{}

/// The same of a text that is no step.
pub fn steps_are_wrong_at_a_field()
    ensures { (text : List ℕ) (fault : AnyStepFault) → read_step text ≡ Err fault → IsStepFault text fault }
{}
