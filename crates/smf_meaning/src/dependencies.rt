ghost use Rattle.std.specs.Prelude.{◌≡◌, List, Ok, Err};
ghost use Rattle.smf_value.specs.Groups.{GroupRecord};
ghost use Rattle.smf_dep.specs.declared.dependency.Dependency.{Dependency as AnyDependency};
ghost use Rattle.smf_dep.specs.declared.fault.DependencyFault.{DependencyFault as AnyFault};
ghost use Rattle.smf_dep.specs.Requirements.{read_groups};
ghost use Rattle.smf_meaning.specs.Asked.{AskAll, IsFirstUnread};

/// Groups ask exactly what their words say, in the order of the groups. A fault is that of the first group that is
/// wrong.
pub fn groups_ask_what_they_say()
    ensures read { (gs : List GroupRecord) (ds : List AnyDependency) → read_groups gs ≡ Ok ds → AskAll gs ds }
    ensures asked { (gs : List GroupRecord) (ds : List AnyDependency) → AskAll gs ds → read_groups gs ≡ Ok ds }
    ensures unread { (gs : List GroupRecord) (fault : AnyFault) → read_groups gs ≡ Err fault → IsFirstUnread gs fault }
{}
