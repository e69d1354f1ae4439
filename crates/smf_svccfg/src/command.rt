ghost use Rattle.std.specs.Prelude.{◌≡◌};
ghost use Rattle.smf_svccfg.specs.Lines.{command_from, command_text};

use std::fmt;

/// The first word of a line.
#[derive(Clone, Copy, Debug, PartialEq, Eq)]
pub enum CfgCommand {
    Select,
    Delete,
    Unselect,
    List,
    ListGroups,
    ListProperties,
    ListSnapshots,
    Add,
    AddGroup,
    DeleteGroup,
    DeleteProperty,
    SetProperty,
    AddValue,
    DeleteValue,
    SelectSnapshot,
    Revert,
    End,
    Exit,
    Quit,
}

impl CfgCommand {
    pub fn as_str(self) -> &'static str
        ensures { result.now ≡ command_text self }
    {
        match self {
            CfgCommand::Select => "select",
            CfgCommand::Delete => "delete",
            CfgCommand::Unselect => "unselect",
            CfgCommand::List => "list",
            CfgCommand::ListGroups => "listpg",
            CfgCommand::ListProperties => "listprop",
            CfgCommand::ListSnapshots => "listsnap",
            CfgCommand::Add => "add",
            CfgCommand::AddGroup => "addpg",
            CfgCommand::DeleteGroup => "delpg",
            CfgCommand::DeleteProperty => "delprop",
            CfgCommand::SetProperty => "setprop",
            CfgCommand::AddValue => "addpropvalue",
            CfgCommand::DeleteValue => "delpropvalue",
            CfgCommand::SelectSnapshot => "selectsnap",
            CfgCommand::Revert => "revert",
            CfgCommand::End => "end",
            CfgCommand::Exit => "exit",
            CfgCommand::Quit => "quit",
        }
    }

    /// The command of a word.
    pub fn read(word: &str) -> Option<CfgCommand>
        ensures { result ≡ command_from word.now }
    {
        match word {
            "select" => Some(CfgCommand::Select),
            "delete" => Some(CfgCommand::Delete),
            "unselect" => Some(CfgCommand::Unselect),
            "list" => Some(CfgCommand::List),
            "listpg" => Some(CfgCommand::ListGroups),
            "listprop" => Some(CfgCommand::ListProperties),
            "listsnap" => Some(CfgCommand::ListSnapshots),
            "add" => Some(CfgCommand::Add),
            "addpg" => Some(CfgCommand::AddGroup),
            "delpg" => Some(CfgCommand::DeleteGroup),
            "delprop" => Some(CfgCommand::DeleteProperty),
            "setprop" => Some(CfgCommand::SetProperty),
            "addpropvalue" => Some(CfgCommand::AddValue),
            "delpropvalue" => Some(CfgCommand::DeleteValue),
            "selectsnap" => Some(CfgCommand::SelectSnapshot),
            "revert" => Some(CfgCommand::Revert),
            "end" => Some(CfgCommand::End),
            "exit" => Some(CfgCommand::Exit),
            "quit" => Some(CfgCommand::Quit),
            _ => None,
        }
    }
}

impl fmt::Display for CfgCommand {
    ghost use Rattle.smf_svccfg.specs.Lines.{command_text};
    ghost use Rattle.std.specs.Prelude.{Some};

    ghost output = { λ c. Some (command_text c) };

    fn fmt<W: fmt::Write>(&self, f: &mut fmt::Formatter<W>) -> fmt::Result {
        fmt::Display::fmt(self.as_str(), f)
    }
}
