ghost use Rattle.std.specs.Prelude.{◌≡◌, ℕ, List, Err};
ghost use Rattle.smf_fmri.specs.declared.fault.FmriFault.{FmriFault};
ghost use Rattle.smf_fmri.specs.Name.{name_of_text, read_pattern};
ghost use Rattle.smf_value.specs.declared.fault.NameFault.{NameFault};
ghost use Rattle.smf_value.specs.Names.{read_name};
ghost use Rattle.smf_meaning.specs.NameFaults.{IsNameFault, IsPatternFault, IsWordFault};

/// The reader refuses a text that is no name, no pattern or no word, and says why. A place is that of the first wrong
/// byte, or the length if the text ends too early. The text before the place can go on to a name, a pattern or a word.
pub fn names_are_wrong_at_a_byte()
    ensures name { (text : List ℕ) (fault : FmriFault) → name_of_text text ≡ Err fault → IsNameFault text fault }
    ensures pattern { (text : List ℕ) (fault : FmriFault) → read_pattern text ≡ Err fault → IsPatternFault text fault }
    ensures word { (text : List ℕ) (fault : NameFault) → read_name text ≡ Err fault → IsWordFault text fault }
{}
