ghost use Rattle.smf_meaning.specs.CfgExamples.{BlanksPartWords, ComponentsBegin, GroupsMayNotStay, KindsAreNamed, NothingIsAsked, QuotesKeepBlanks, SessionsEnd, ValuesAreRead};
ghost use Rattle.smf_meaning.specs.ScriptExamples.{CodesAreBytes, CountsAreRead, EventsHaveAWord, LinesStayWhole, NothingIsAsked as NoRequest, OthersAreBad, WordsAreParted};

/// Lines of svccfg are read as svccfg(1M) writes them: one example for each rule.
pub fn lines_of_svccfg_are_read_so()
    ensures nothing { NothingIsAsked }
    ensures blanks { BlanksPartWords }
    ensures values { ValuesAreRead }
    ensures quotes { QuotesKeepBlanks }
    ensures kinds { KindsAreNamed }
    ensures groups { GroupsMayNotStay }
    ensures components { ComponentsBegin }
    ensures ends { SessionsEnd }
{}

/// Lines of scripts ask for this: one example for each rule.
pub fn lines_of_scripts_ask_so()
    ensures nothing { NoRequest }
    ensures whole { LinesStayWhole }
    ensures words { WordsAreParted }
    ensures counts { CountsAreRead }
    ensures codes { CodesAreBytes }
    ensures events { EventsHaveAWord }
    ensures others { OthersAreBad }
{}
