ghost use Rattle.smf_room.specs.Tellings.{Call, Deed, Asked, AskedEnd, Did, Done, Forgot, Free, HolderIs, Killed, KilledGroup, Listed, Locked, Made, Marked, NextIs, NoAnswer, NoteIs, Populated, Renamed, Reserved, Telling, TokenIs, Ungrouped, Unlinked, Unlocked, Unsure, deed, outcome_of};
ghost use Rattle.std.specs.Prelude.{List, Option, IfOk, OnErr, OnOk};

use crate::note::Note;
use crate::process::Process;
use crate::token::Token;
use std::io;

/// A look at all processes.
#[derive(Drop)]
pub struct Marks {
    /// Whether it found the server's own process.
    pub own: bool,
    /// Those that have the contract's mark.
    pub found: Vec<Process>,
}

/// A room that is asked, and in which a server acts. Each answer is told of one moment of the room, and leads to the next.
/// A caller knows an answer only from the call that asks for it. `did` is the log of all calls that were to change
/// something. A contract is named by its number alone: the room knows its own path.
pub trait Room {
    ghost tells: { Self → Telling → Self → Type 0 };

    ghost did: { Self → Option (List Deed) };

    /// The next free number, as it stands on the disk.
    fn next(&mut self) -> io::Result<u64>
        ensures told { IfOk result (λ n. Call tells did (NextIs n) self.old self.new) }
        ensures lost { OnErr result (Call tells did NoAnswer self.old self.new) };

    /// Takes the numbers from `low` to below `high`: `high` stands on the disk before it returns, also after a power
    /// failure.
    fn reserve(&mut self, low: u64, high: u64) -> io::Result<()>
        ensures told { OnOk result (Call tells did (Did (deed (Reserved low high) Done)) self.old self.new) }
        ensures lost { OnErr result (Call tells did (Did (deed (Reserved low high) Unsure)) self.old self.new) };

    /// The numbers of all folders.
    fn list(&mut self) -> io::Result<Vec<u64>>
        ensures told { IfOk result (λ ids. Call tells did (Listed ids.items) self.old self.new) }
        ensures lost { OnErr result (Call tells did NoAnswer self.old self.new) };

    fn token(&mut self, id: u64) -> io::Result<Option<Token>>
        ensures told { IfOk result (λ t. Call tells did (TokenIs id t) self.old self.new) }
        ensures lost { OnErr result (Call tells did NoAnswer self.old self.new) };

    /// Renames the token, if it is `from`.
    fn rename(&mut self, id: u64, from: Token, to: Token) -> io::Result<bool>
        ensures told { IfOk result
            (λ done. Call tells did (Did (deed (Renamed id from to) (outcome_of done))) self.old self.new) }
        ensures lost { OnErr result (Call tells did (Did (deed (Renamed id from to) Unsure)) self.old self.new) };

    /// Asks whether nobody has the lock.
    fn is_free(&mut self, id: u64) -> io::Result<bool>
        ensures told { IfOk result (λ free. Call tells did (Free id free) self.old self.new) }
        ensures lost { OnErr result (Call tells did NoAnswer self.old self.new) };

    /// The note. None if it is not there or not whole.
    fn note(&mut self, id: u64) -> io::Result<Option<Note>>
        ensures told { IfOk result (λ note. Call tells did (NoteIs id note) self.old self.new) }
        ensures lost { OnErr result (Call tells did NoAnswer self.old self.new) };

    /// Makes a folder with its group, if it has one, its note and its lock; and last the token `go`.
    fn make(&mut self, id: u64, note: &Note) -> io::Result<()>
        ensures told { OnOk result (Call tells did (Did (deed (Made id note.now) Done)) self.old self.new) }
        ensures lost { OnErr result (Call tells did (Did (deed (Made id note.now) Unsure)) self.old self.new) };

    /// Asks the holder to start the contract, or to take it up. False if no holder reads.
    fn ask_start(&mut self, id: u64) -> io::Result<bool>
        ensures told { IfOk result
            (λ done. Call tells did (Did (deed (Asked id) (outcome_of done))) self.old self.new) }
        ensures lost { OnErr result (Call tells did (Did (deed (Asked id) Unsure)) self.old self.new) };

    /// Asks whether a holder is there. If none is, one is begun, which reads later.
    fn holder(&mut self) -> io::Result<bool>
        ensures told { IfOk result (λ there. Call tells did (HolderIs there) self.old self.new) }
        ensures lost { OnErr result (Call tells did NoAnswer self.old self.new) };

    /// Asks for a signal to all processes of the contract, and for their end after so many seconds. False if nobody
    /// reads.
    fn ask_end(&mut self, id: u64, signal: &str, seconds: u64) -> io::Result<bool>
        ensures told { IfOk result
            (λ done. Call tells did (Did (deed (AskedEnd id signal.now seconds) (outcome_of done))) self.old self.new) }
        ensures lost { OnErr result
            (Call tells did (Did (deed (AskedEnd id signal.now seconds) Unsure)) self.old self.new) };

    /// Takes the lock alone, if nobody has it. A lock that was taken before is let go.
    fn lock(&mut self, id: u64) -> io::Result<bool>
        ensures told { IfOk result (λ done. Call tells did (Locked id done) self.old self.new) }
        ensures lost { OnErr result (Call tells did NoAnswer self.old self.new) };

    /// Lets go the lock that was taken.
    fn unlock(&mut self)
        ensures { Call tells did Unlocked self.old self.new };

    /// Asks whether the contract's control group has a process. None if it has no group.
    fn populated(&mut self, id: u64) -> io::Result<Option<bool>>
        ensures told { IfOk result (λ some. Call tells did (Populated id some) self.old self.new) }
        ensures lost { OnErr result (Call tells did NoAnswer self.old self.new) };

    /// Looks for processes with the contract's mark.
    fn marks(&mut self, id: u64) -> io::Result<Marks>
        ensures told { IfOk result (λ m. Call tells did (Marked id m.own m.found.items) self.old self.new) }
        ensures lost { OnErr result (Call tells did NoAnswer self.old self.new) };

    /// Kills these processes, which had the contract's mark.
    fn kill(&mut self, id: u64, found: &[u64]) -> io::Result<()>
        ensures told { OnOk result (Call tells did (Did (deed (Killed id found.now) Done)) self.old self.new) }
        ensures lost { OnErr result (Call tells did (Did (deed (Killed id found.now) Unsure)) self.old self.new) };

    /// Kills all processes of the contract's control group.
    fn kill_group(&mut self, id: u64) -> io::Result<()>
        ensures told { OnOk result (Call tells did (Did (deed (KilledGroup id) Done)) self.old self.new) }
        ensures lost { OnErr result (Call tells did (Did (deed (KilledGroup id) Unsure)) self.old self.new) };

    /// Removes the token.
    fn unlink(&mut self, id: u64, token: Token) -> io::Result<()>
        ensures told { OnOk result (Call tells did (Did (deed (Unlinked id token) Done)) self.old self.new) }
        ensures lost { OnErr result (Call tells did (Did (deed (Unlinked id token) Unsure)) self.old self.new) };

    /// Removes the contract's control group, if it has one. False if it has a process.
    fn remove_group(&mut self, id: u64) -> io::Result<bool>
        ensures told { IfOk result
            (λ done. Call tells did (Did (deed (Ungrouped id) (outcome_of done))) self.old self.new) }
        ensures lost { OnErr result (Call tells did (Did (deed (Ungrouped id) Unsure)) self.old self.new) };

    /// Removes the folder with all that is in it.
    fn remove(&mut self, id: u64) -> io::Result<()>
        ensures told { OnOk result (Call tells did (Did (deed (Forgot id) Done)) self.old self.new) }
        ensures lost { OnErr result (Call tells did (Did (deed (Forgot id) Unsure)) self.old self.new) };

    /// Adds the numbers of contracts of which there is news. True if there may be news of any. This is a hint, and no
    /// telling: a contract is known by looks alone.
    fn news(&self, ids: &mut Vec<u64>) -> bool;

    /// Waits two milliseconds.
    fn pause(&self);
}
