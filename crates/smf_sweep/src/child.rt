// The lines of a list of children.
ghost use Rattle.std.specs.Prelude.{◌≡◌, IfOk};
ghost use Rattle.std.specs.List.{filter_map};
ghost use Rattle.std.specs.Str.Lines.{lines};
ghost use Rattle.smf_state.specs.Fields.{text_of_borrow};
ghost use Rattle.smf_sweep.specs.Children.{child_of, read_child, child_by_rest, with_boot};

use smf_fmri::read_count;
use smf_state::field_at;
use std::alloc::{AllocError, Global};

/// A child that a list names, by the number of its session and by when its first process was started.
#[derive(Clone, Copy)]
pub struct Child {
    pub number: u64,
    pub start: u64,
}

/// The numbers 0 and 1 are no child's.
fn child_of(number: Option<u64>, start: Option<u64>) -> Option<Child>
    ensures { result ≡ child_of number start }
{
    let number = number?;
    let start = start?;
    if number < 2 {
        return None;
    }
    Some(Child { number, start })
}

/// A child, if its line ends with the system's boot.
fn with_boot(told: Option<&str>, boot: &str, child: Option<Child>) -> Option<Child>
    ensures { result ≡ with_boot boot.now (text_of_borrow told.entry) child }
{
    match told {
        Some(told) if told == boot => child,
        Some(_) => None,
        None => None,
    }
}

/// The child of a number, by what its line says after that.
fn child_by_rest(number: Option<u64>, rest: Option<&str>, boot: &str) -> Option<Child>
    ensures { result ≡ child_by_rest boot.now number (text_of_borrow rest.entry) }
{
    let (start, told) = field_at(rest)?;
    with_boot(told, boot, child_of(number, read_count(start)))
}

/// The child that a line names, if that was started since the system's boot. A line that was cut short names none.
fn read_child(line: &str, boot: &str) -> Option<Child>
    ensures { result ≡ read_child boot.now line.now }
{
    let (number, rest) = field_at(Some(line))?;
    child_by_rest(read_count(number), rest, boot)
}

/// The children that a list names, of those that were started since the system's boot.
pub(crate) fn children_in(alloc: Global, text: &str, boot: &str) -> Result<Vec<Child>, AllocError>
    ensures { IfOk result (λ children. children.items ≡ filter_map (read_child boot.now) (lines text.now)) }
{
    text.lines()
        .filter_map(|line| read_child(line, boot))
        .collect(alloc)
}
