//! Laws that the definitions of this crate keep.

ghost use Rattle.smf_program.specs.Examples.{ContractsAreFollowed, CopiesAreRead, DatabaseIsWanted, FilesAreRead, HelpIsShown, OthersAreRefused, QuestionsAreRead, ServersAreRead, TasksAreRead, VersionIsShown};

/// Words are read as the manual page writes them: one example for each rule.
pub fn words_are_read_so()
    ensures tasks { TasksAreRead }
    ensures files { FilesAreRead }
    ensures followed { ContractsAreFollowed }
    ensures served { ServersAreRead }
    ensures asked { QuestionsAreRead }
    ensures copied { CopiesAreRead }
    ensures database { DatabaseIsWanted }
    ensures others { OthersAreRefused }
    ensures help { HelpIsShown }
    ensures version { VersionIsShown }
{}
