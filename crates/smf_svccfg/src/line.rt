ghost use Rattle.std.specs.Prelude.{◌≡◌, Ok};
ghost use Rattle.smf_svccfg.specs.declared.line.Line.{Line as AnyLine};
ghost use Rattle.smf_svccfg.specs.Lines.{IsWritable, line_of_command, command_by, is_comment, line_in, line_of, line_text, text_in, line_or_usage};
ghost use Rattle.smf_svccfg.specs.Tokens.{Gives};

use crate::arguments::{line_of_command, text_in};
use crate::command::CfgCommand;
use crate::fault::LineFault;
use crate::token::{Token, tokens};
use smf_fmri::Text;
use smf_model::PropertyChange;
use smf_value::Name;
use std::alloc::Global;

/// The command that a line asks for.
#[derive(Drop)]
pub enum Line {
    Nothing,
    /// A child of what is selected, or an entity by its full name.
    Select(Text),
    /// The same.
    Delete(Text),
    /// Selects what stands above the selection.
    Unselect,
    /// The names of what stands below.
    List,
    ListGroups,
    ListProperties,
    ListSnapshots,
    /// A service, or an instance of the selected service.
    Add(Text),
    AddGroup {
        name: Name,
        group_type: Name,
        non_persistent: bool,
    },
    DeleteGroup(Name),
    Property {
        group: Name,
        change: PropertyChange,
    },
    /// A snapshot by its name, or the selected instance again.
    SelectSnapshot(Option<Text>),
    /// Back to a snapshot by its name, else to the selected one, else to the running one.
    Revert(Option<Text>),
    /// svccfg ends. Nothing is selected when it begins again.
    End,
}

fn is_comment(bytes: &[u8]) -> bool
    ensures { result ≡ is_comment bytes.now }
{
    match bytes {
        [first, ..] => *first == b'#',
        [] => false,
    }
}

fn command_of(token: &Token) -> Option<CfgCommand>
    ensures { result ≡ command_by (text_in token.now) }
{
    match text_in(token) {
        None => None,
        Some(word) => CfgCommand::read(word),
    }
}

fn line_or_usage(alloc: Global, command: CfgCommand, behind: &[Token]) -> Result<Line, LineFault>
    ensures { Gives result (line_or_usage command (line_of_command command behind.now)) }
{
    match line_of_command(alloc, command, behind)? {
        Some(line) => Ok(line),
        None => Err(LineFault::Usage(command)),
    }
}

fn line_in(alloc: Global, tokens: &[Token]) -> Result<Line, LineFault>
    ensures { Gives result (line_in tokens.now) }
{
    let [first, behind @ ..] = tokens else {
        return Ok(Line::Nothing);
    };
    match command_of(first) {
        None => Err(LineFault::Unknown),
        Some(command) => line_or_usage(alloc, command, behind),
    }
}

/// Reads a line, which stands without its end.
pub fn parse_line(alloc: Global, line: &str) -> Result<Line, LineFault>
    // A line that is written is read again.
    ensures again { (l : AnyLine) → IsWritable l → line.now ≡ line_text l → Gives result (Ok l) }
    ensures exact { Gives result (line_of line.now) }
{
    parse_line_exact(alloc, line)
}

#[tactic(auto, unfolding(crate::specs::Lines::line_of))]
fn parse_line_exact(alloc: Global, line: &str) -> Result<Line, LineFault>
    ensures { Gives result (line_of line.now) }
{
    if is_comment(line.as_bytes()) {
        return Ok(Line::Nothing);
    }
    let tokens = tokens(alloc, line)?;
    line_in(alloc, tokens.as_slice())
}
