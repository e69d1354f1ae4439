// Contracts in a room that a server has.
ghost use Rattle.smf_edge.specs.FollowedFacts.{one_more_made};
ghost use Rattle.smf_keeper.specs.Ends.{end_if_known, end_of};
ghost use Rattle.smf_keeper.specs.Endings.{IsAsk, IsAskedInVain, IsEnd, IsCancelFailed, IsCancelIf, IsEndFailed, IsEndIf, IsEndLost, IsEndOnce, IsEndStep, IsEndStepLost, IsStandAsk, IsStandLost, IsStandTold, IsToldAgain, IsWaitLost, IsWaited, gone_of, signal_of, still_asked};
ghost use Rattle.smf_keeper.specs.Rooms.{HasGone, IsMadeFor, IsNotStarted, IsStartFor, IsUnasked, MayLive, SameMade, StartFails, StoodSo, WasHeard, made_in};
ghost use Rattle.smf_keeper.specs.Stands.{IsLost, IsLostBy, IsStandBy, IsStanding, end_in, stand_in};
ghost use Rattle.smf_edge.specs.declared.stand.Stand.TheVariants.{Gone};
ghost use Rattle.smf_edge.specs.declared.stand.FirstEnd.{FirstEnd as AnyEnd};
ghost use Rattle.smf_room.specs.LiveRooms.{GoesOn};
ghost use Rattle.smf_room.specs.Tellings.{Heard};
ghost use Rattle.smf_room.specs.declared.look.Look.TheVariants.{Unclean};
ghost use Rattle.std.specs.IoError.{error_kind};
ghost use Rattle.std.specs.Prelude.{◌≡◌, ◌⊎◌, None, IfErr, IfOk, IfSome, OnErr, OnOk, option_map, true, false};
ghost use Rattle.std_io.specs.declared.io.kind.ErrorKind.TheVariants.{OutOfMemory};

use crate::ends::{end_if_known, end_of};
use crate::held::{HeldContract, MOST_TOLD};
use crate::news::News;
use crate::note::note_of;
use smf_edge::{Contracts, FirstEnd, Stand, Start};
use smf_room::{LiveRoom, Look, Room, Token};
use std::alloc::Global;
use std::io;

/// How often it is looked whether a contract that is to end at once has ended, each time a little later.
const PATIENCE: u32 = 2000;

/// A start that has not begun is looked at again after so few times.
const FEW: u32 = 3;

/// How contracts end.
#[derive(Clone, Copy, PartialEq, Eq)]
pub enum Manner {
    /// At once, by KILL, and the server waits for that.
    AtOnce,
    /// As their terms say, which the holder reads; and nobody waits.
    ByTerms,
}

/// Contracts in a room.
#[derive(Drop)]
pub struct RoomContracts<R: Room> {
    alloc: Global,
    room: LiveRoom<R>,
    manner: Manner,
    news: News,
}

fn other() -> io::Error {
    io::Error::from(io::ErrorKind::Other)
}

/// How a contract stands whose token says that its first process runs, or how that ended.
fn stand_in(token: Token) -> Stand
    ensures { result ≡ stand_in token }
{
    match token {
        Token::Ended(status) => Stand::Left(end_of(status)),
        _ => Stand::Runs,
    }
}

/// How the first process ended of a contract that had this token, of which nothing is left.
fn end_in(token: Token) -> FirstEnd
    ensures { result ≡ end_in token }
{
    match token {
        Token::Ended(status) => end_of(status),
        _ => FirstEnd::Signal,
    }
}

/// How a contract stands that nobody watched over: the holder takes it up, or what is left of it is ended.
fn stand_unclean<R: Room + Drop>(room: &mut LiveRoom<R>, id: u64, token: Token) -> io::Result<Stand>
    ensures stood { IfOk result
        (λ stand. Heard R.tells R.did (IsStandBy id (Unclean token) stand) room.old.room room.new.room) }
    ensures lost { OnErr result (Heard R.tells R.did (IsLostBy id (Unclean token)) room.old.room room.new.room) }
    ensures careful { GoesOn R.tells R.did room.old room.new }
{
    match room.clean(id)? {
        smf_room::Stand::Gone => Ok(Stand::Gone(end_in(token))),
        smf_room::Stand::Left => Err(other()),
        _ => Ok(stand_in(token)),
    }
}

/// The signal by which contracts end so, as the holder is asked for it.
fn signal_of(manner: Manner) -> &'static str
    ensures { result.now ≡ signal_of manner }
{
    match manner {
        Manner::AtOnce => "KILL",
        Manner::ByTerms => "-",
    }
}

/// How a contract stands of which this was seen. A start that has not begun is asked for once more.
fn stand_by<R: Room + Drop>(room: &mut LiveRoom<R>, id: u64, look: Look) -> io::Result<Stand>
    ensures stood { IfOk result (λ stand. Heard R.tells R.did (IsStandBy id look stand) room.old.room room.new.room) }
    ensures lost { OnErr result (Heard R.tells R.did (IsLostBy id look) room.old.room room.new.room) }
    ensures careful { GoesOn R.tells R.did room.old room.new }
{
    match look {
        Look::Waits => {
            let _asked = room.ask(id)?;
            Ok(Stand::Runs)
        }
        Look::Lives(None) => Ok(Stand::Runs),
        Look::Lives(Some(status)) => Ok(Stand::Left(end_of(status))),
        Look::Never => Ok(Stand::Gone(FirstEnd::Signal)),
        Look::Over(status) => Ok(Stand::Gone(end_if_known(status))),
        Look::Unclean(token) => stand_unclean(room, id, token),
    }
}

/// Whether the end of a contract was asked for, after a look. If nobody watched over it, it has to be asked for again.
fn still_asked(look: Look, asked: bool) -> bool
    ensures { result ≡ still_asked look asked }
{
    match look {
        Look::Unclean(_) => false,
        _ => asked,
    }
}

/// How often a stand counts as told after a look. The holder tells nothing of what it does not have yet.
fn told_after(look: Look) -> u32 {
    match look {
        Look::Waits | Look::Unclean(_) => MOST_TOLD - FEW,
        _ => 0,
    }
}

impl<R: Room + Drop> RoomContracts<R> {
    pub(crate) fn new(alloc: Global, room: LiveRoom<R>, manner: Manner) -> RoomContracts<R>
        ensures room { result.room ≡ room }
        ensures manner { result.manner ≡ manner }
    {
        RoomContracts {
            alloc,
            room,
            manner,
            news: News::new(alloc),
        }
    }

    pub(crate) fn set_manner(&mut self, manner: Manner)
        ensures room { self.new.room ≡ self.old.room }
        ensures manner { self.new.manner ≡ manner }
    {
        self.manner = manner;
    }

    /// The room.
    pub fn room(&self) -> &R
        ensures { result.now ≡ self.now.room.room }
    {
        self.room.room()
    }

    /// Asks how a contract stands.
    fn ask(&mut self, held: &mut HeldContract<R>) -> io::Result<Stand>
        ensures stood { IfOk result (λ stand. Heard R.tells R.did
            (IsAsk held.old.id held.old.asked held.new.asked stand) self.old.room.room self.new.room.room) }
        ensures lost { OnErr result (Heard R.tells R.did
            (IsAskedInVain held.old.id held.old.asked held.new.asked) self.old.room.room self.new.room.room) }
        ensures id { held.new.id ≡ held.old.id }
        ensures gone { held.new.gone ≡ held.old.gone }
        ensures manner { self.new.manner ≡ self.old.manner }
        ensures made { SameMade R.did self.old.room.room self.new.room.room }
        ensures careful { GoesOn R.tells R.did self.old.room self.new.room }
    {
        let look = self.room.look(held.id)?;
        held.told = told_after(look);
        held.asked = still_asked(look, held.asked);
        let stand = stand_by(&mut self.room, held.id, look)?;
        Ok(stand)
    }

    /// How a contract stands by the last look, if there is no news of it since. None if it is to be looked at.
    fn known(&mut self, held: &mut HeldContract<R>) -> Option<Stand>
        ensures told { IfSome result (IsToldAgain held.old.gone held.old.kept held.old.told held.new.told) }
        ensures stood { IfSome result (λ stand. StoodSo R.tells R.did held.old.id stand) }
        ensures left { IfSome result (λ stand. gone_of stand ≡ None) }
        ensures room { self.new.room ≡ self.old.room }
        ensures manner { self.new.manner ≡ self.old.manner }
        ensures id { held.new.id ≡ held.old.id }
        ensures gone { held.new.gone ≡ held.old.gone }
        ensures asked { held.new.asked ≡ held.old.asked }
    {
        held.asked_in = self.news.ask(&self.room, held.asked_in);
        if self.news.is_of(held.id, held.looked_in) {
            return None;
        }
        held.tell_again()
    }

    /// Looks at a contract. One of which nothing is left is forgotten at once, and its end is kept for whoever asks again.
    fn see(&mut self, held: &mut HeldContract<R>) -> io::Result<Stand>
        ensures stood { IfOk result (λ stand. StoodSo R.tells R.did held.old.id stand) }
        ensures lost { OnErr result (WasHeard R.tells R.did (IsLost held.old.id)) }
        ensures made { SameMade R.did self.old.room.room self.new.room.room }
        ensures asked { IfOk result (λ stand. Heard R.tells R.did
            (IsStandAsk held.old.id held.old.gone held.old.asked held.new.asked stand)
            self.old.room.room self.new.room.room) }
        ensures failed { OnErr result (Heard R.tells R.did
            (IsStandLost held.old.id held.old.gone held.old.asked held.new.asked)
            self.old.room.room self.new.room.room) }
        ensures gone { IfOk result (λ stand. held.new.gone ≡ gone_of stand) }
        ensures id { held.new.id ≡ held.old.id }
        ensures manner { self.new.manner ≡ self.old.manner }
        ensures careful { GoesOn R.tells R.did self.old.room self.new.room }
    {
        if let Some(end) = held.gone {
            return Ok(Stand::Gone(end));
        }
        held.kept = None;
        held.looked_in = self.news.look(held.id);
        let stand = self.ask(held)?;
        match stand {
            Stand::Runs => {
                held.kept = Some(Stand::Runs);
                Ok(Stand::Runs)
            }
            Stand::Left(end) => {
                held.kept = Some(Stand::Left(end));
                Ok(Stand::Left(end))
            }
            Stand::Gone(end) => {
                held.gone = Some(end);
                let _forgotten = self.room.forget(held.id);
                Ok(Stand::Gone(end))
            }
        }
    }

    /// Asks for the end of a contract, unless that was asked for.
    fn ask_end(&mut self, held: &mut HeldContract<R>) -> io::Result<()>
        ensures asked { OnOk result (Heard R.tells R.did
            (IsEndOnce held.old.id (signal_of self.old.manner) held.old.asked held.new.asked)
            self.old.room.room self.new.room.room) }
        ensures lost { OnErr result (Heard R.tells R.did
            (IsEndFailed held.old.id (signal_of self.old.manner) held.old.asked held.new.asked)
            self.old.room.room self.new.room.room) }
        ensures living { OnOk result (MayLive R.tells R.did held.old.id) }
        ensures unasked { OnErr result (IsUnasked R.tells R.did held.old.id) }
        ensures id { held.new.id ≡ held.old.id }
        ensures gone { held.new.gone ≡ held.old.gone }
        ensures manner { self.new.manner ≡ self.old.manner }
        ensures made { SameMade R.did self.old.room.room self.new.room.room }
        ensures careful { GoesOn R.tells R.did self.old.room self.new.room }
    {
        if held.asked {
            return Ok(());
        }
        let signal = signal_of(self.manner);
        let asked = self.room.end(held.id, signal, 0)?;
        held.asked = asked;
        Ok(())
    }

    /// Takes back a start that has not begun, unless the end was asked for.
    fn cancel(&mut self, held: &HeldContract<R>) -> io::Result<()>
        ensures done { OnOk result (Heard R.tells R.did (IsCancelIf held.now.id held.now.asked)
            self.old.room.room self.new.room.room) }
        ensures lost { OnErr result (Heard R.tells R.did (IsCancelFailed held.now.id held.now.asked held.now.asked)
            self.old.room.room self.new.room.room) }
        ensures manner { self.new.manner ≡ self.old.manner }
        ensures made { SameMade R.did self.old.room.room self.new.room.room }
        ensures careful { GoesOn R.tells R.did self.old.room self.new.room }
    {
        if held.asked {
            return Ok(());
        }
        let _cancelled = self.room.cancel(held.id)?;
        Ok(())
    }

    /// Asks for the end of a contract that stands so, if something may be left of it. Says whether nothing is left.
    fn end_by(&mut self, held: &mut HeldContract<R>, stand: Stand) -> io::Result<bool>
        ensures asked { IfOk result (λ done. Heard R.tells R.did
            (IsEndIf held.old.id (signal_of self.old.manner) (gone_of stand) held.old.asked held.new.asked done)
            self.old.room.room self.new.room.room) }
        ensures lost { OnErr result ((gone_of stand ≡ None) × Heard R.tells R.did
            (IsEndFailed held.old.id (signal_of self.old.manner) held.old.asked held.new.asked)
            self.old.room.room self.new.room.room) }
        ensures ended { IfOk result (λ done. done ≡ true → (end : AnyEnd) × (stand ≡ Gone end)) }
        ensures living { IfOk result (λ done. done ≡ false → MayLive R.tells R.did held.old.id) }
        ensures unasked { OnErr result (IsUnasked R.tells R.did held.old.id) }
        ensures left { IfOk result (λ done. done ≡ false → gone_of stand ≡ None) }
        ensures id { held.new.id ≡ held.old.id }
        ensures gone { held.new.gone ≡ held.old.gone }
        ensures manner { self.new.manner ≡ self.old.manner }
        ensures made { SameMade R.did self.old.room.room self.new.room.room }
        ensures careful { GoesOn R.tells R.did self.old.room self.new.room }
    {
        if let Stand::Gone(_) = stand {
            return Ok(true);
        }
        self.ask_end(held)?;
        Ok(false)
    }

    /// Takes back a start that has not begun, or asks for the end of a contract. Says whether nothing is left of it.
    fn end_once(&mut self, held: &mut HeldContract<R>) -> io::Result<bool>
        ensures asked { IfOk result (λ done. Heard R.tells R.did
            (IsEndStep held.old.id (signal_of self.old.manner) held.old.gone held.old.asked held.new.asked done)
            self.old.room.room self.new.room.room) }
        ensures failed { OnErr result (Heard R.tells R.did
            (IsEndStepLost held.old.id (signal_of self.old.manner) held.old.gone held.old.asked held.new.asked)
            self.old.room.room self.new.room.room) }
        ensures ended { IfOk result (λ done. done ≡ true → HasGone R.tells R.did held.old.id) }
        ensures living { IfOk result (λ done. done ≡ false → MayLive R.tells R.did held.old.id) }
        ensures lost { OnErr result (IsUnasked R.tells R.did held.old.id) }
        ensures left { IfOk result (λ done. done ≡ false → held.new.gone ≡ None) }
        ensures id { held.new.id ≡ held.old.id }
        ensures manner { self.new.manner ≡ self.old.manner }
        ensures made { SameMade R.did self.old.room.room self.new.room.room }
        ensures careful { GoesOn R.tells R.did self.old.room self.new.room }
    {
        self.cancel(held)?;
        let stand = self.see(held)?;
        let done = self.end_by(held, stand)?;
        Ok(done)
    }

    /// Waits until nothing is left of a contract that is to end, and says whether that is so.
    fn wait(&mut self, held: &mut HeldContract<R>) -> io::Result<bool>
        requires { held.old.gone ≡ None }
        ensures asked { IfOk result (λ done. Heard R.tells R.did
            (IsWaited held.old.id (signal_of self.old.manner) held.old.asked held.new.asked done)
            self.old.room.room self.new.room.room) }
        ensures failed { OnErr result (Heard R.tells R.did
            (IsWaitLost held.old.id (signal_of self.old.manner) held.old.asked held.new.asked)
            self.old.room.room self.new.room.room) }
        ensures ended { IfOk result (λ done. done ≡ true → HasGone R.tells R.did held.old.id) }
        ensures lost { OnErr result (IsUnasked R.tells R.did held.old.id) }
        ensures id { held.new.id ≡ held.old.id }
        ensures manner { self.new.manner ≡ self.old.manner }
        ensures made { SameMade R.did self.old.room.room self.new.room.room }
        ensures careful { GoesOn R.tells R.did self.old.room self.new.room }
    {
        for _round in 0..PATIENCE {
            self.room.pause();
            let gone = self.end_once(held)?;
            if gone {
                return Ok(true);
            }
        }
        Ok(false)
    }
}

impl<R: Room + Drop> Contracts for RoomContracts<R> {
    ghost use Rattle.smf_keeper.specs.Rooms.{HasGone, IsMadeFor, MayLive, StartFails, StoodSo, WasHeard, made_in};
    ghost use Rattle.smf_keeper.specs.Stands.{IsLost};
    ghost use Rattle.std.specs.Prelude.{option_map};

    type Held = HeldContract<R>;

    ghost facts = { record {
      is_of = λ start held. IsMadeFor R.tells start held.id;
      start_fails = λ e. StartFails R.tells R.did e;
      stands = λ held stand. StoodSo R.tells R.did held.id stand;
      is_lost = λ held. WasHeard R.tells R.did (IsLost held.id);
      is_ended = λ held. HasGone R.tells R.did held.id;
      may_live = λ held. MayLive R.tells R.did held.id;
    } };

    ghost made = { λ c. option_map made_in (R.did c.room.room) };

    fn start(&mut self, start: &Start) -> io::Result<HeldContract<R>>
        ensures started { IfOk result (λ held. IsMadeFor R.tells start.now held.id) }
        ensures failed { IfErr result (λ e. StartFails R.tells R.did e) }
        ensures one { OnOk result (option_map made_in (R.did self.new.room.room)
            ≡ one_more_made (option_map made_in (R.did self.old.room.room))) }
        ensures none { OnErr result (SameMade R.did self.old.room.room self.new.room.room) }
        ensures begun { IfOk result (λ held. IsStartFor R.tells R.did self.old.room self.new.room start.now held.id) }
        ensures refused { IfErr result (λ e. ((error_kind e ≡ OutOfMemory) × (self.new.room ≡ self.old.room))
            ⊎ IsNotStarted R.tells R.did self.old.room self.new.room start.now) }
        ensures unasked { IfOk result (λ held. held.asked ≡ false) }
        ensures living { IfOk result (λ held. held.gone ≡ None) }
        ensures careful { GoesOn R.tells R.did self.old.room self.new.room }
    {
        let note = note_of(self.alloc, start)?;
        let made = self.room.start(&note)?;
        match made {
            Some(id) => Ok(HeldContract::new(id)),
            None => Err(other()),
        }
    }

    /// A contract is looked at if there is news of it, or if it was not for some time. Else it stands as it did.
    fn stand(&mut self, held: &mut HeldContract<R>) -> io::Result<Stand>
        ensures stood { IfOk result (λ stand. StoodSo R.tells R.did held.old.id stand) }
        ensures lost { OnErr result (WasHeard R.tells R.did (IsLost held.old.id)) }
        ensures none { SameMade R.did self.old.room.room self.new.room.room }
        ensures asked { IfOk result (λ stand. Heard R.tells R.did
            (IsStandTold held.old.id held.old.gone held.old.kept held.old.told held.new.told held.old.asked held.new.asked stand)
            self.old.room.room self.new.room.room) }
        ensures failed { OnErr result (Heard R.tells R.did
            (IsStandLost held.old.id held.old.gone held.old.asked held.new.asked)
            self.old.room.room self.new.room.room) }
        ensures gone { IfOk result (λ stand. held.new.gone ≡ gone_of stand) }
        ensures id { held.new.id ≡ held.old.id }
        ensures manner { self.new.manner ≡ self.old.manner }
        ensures careful { GoesOn R.tells R.did self.old.room self.new.room }
    {
        match self.known(held) {
            Some(stand) => Ok(stand),
            None => {
                let stand = self.see(held)?;
                Ok(stand)
            }
        }
    }

    /// If contracts end as their terms say, it does not wait.
    fn end(&mut self, held: &mut HeldContract<R>) -> io::Result<bool>
        ensures ended { IfOk result (λ done. done ≡ true → HasGone R.tells R.did held.old.id) }
        ensures living { IfOk result (λ done. done ≡ false → MayLive R.tells R.did held.old.id) }
        ensures lost { OnErr result (MayLive R.tells R.did held.old.id) }
        ensures none { SameMade R.did self.old.room.room self.new.room.room }
        ensures asked { IfOk result (λ done. Heard R.tells R.did
            (IsEnd held.old.id self.old.manner held.old.gone held.old.asked held.new.asked done)
            self.old.room.room self.new.room.room) }
        ensures failed { OnErr result (Heard R.tells R.did
            (IsEndLost held.old.id self.old.manner held.old.gone held.old.asked held.new.asked)
            self.old.room.room self.new.room.room) }
        ensures id { held.new.id ≡ held.old.id }
        ensures manner { self.new.manner ≡ self.old.manner }
        ensures careful { GoesOn R.tells R.did self.old.room self.new.room }
    {
        let gone = self.end_once(held)?;
        if gone {
            return Ok(true);
        }
        match self.manner {
            Manner::ByTerms => Ok(false),
            Manner::AtOnce => {
                let ended = self.wait(held)?;
                Ok(ended)
            }
        }
    }
}
