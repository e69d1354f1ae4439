//! Laws of the definitions.

ghost use Rattle.std.specs.Prelude.{◌≡◌, ◌<◌, ◌^◌, ℕ, List, Ok, true};
ghost use Rattle.smf_chronicle.specs.Lines.{clock_text, is_clock};
ghost use Rattle.smf_chronicle.specs.declared.entry.Entry.{Entry as AnyEntry};
ghost use Rattle.smf_chronicle.specs.Reading.{read_entry};
ghost use Rattle.smf_chronicle.specs.Texts.{IsEntry, entry_text};

/// The text of an entry is read as that entry, and no other text is.
pub fn entries_are_read_again()
    ensures again { (e : AnyEntry) → IsEntry e → read_entry (entry_text e) ≡ Ok e }
    ensures written { (text : List ℕ) (e : AnyEntry) → read_entry text ≡ Ok e
        → (text ≡ entry_text e) × IsEntry e }
{}

/// A time as it is written is read as one.
pub fn times_are_clocks()
    ensures { (milliseconds : ℕ) → milliseconds < 2 ^ 64 → is_clock (clock_text milliseconds) ≡ true }
{}
