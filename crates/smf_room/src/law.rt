ghost use Rattle.smf_room.specs.Beginnings.{IsAnyBeginning, IsBeginning};
ghost use Rattle.smf_room.specs.Carefuls.{MayStart, may_run_as};
ghost use Rattle.smf_room.specs.Lives.{AreCareful, Life, life_after_all, new_life};
ghost use Rattle.smf_room.specs.LiveRooms.{BeginsWell, EndsWell, Failed, GoesOn, IsCutOff, IsHistory, Lived};
ghost use Rattle.smf_room.specs.Tellings.{EndsEarly, Telling};
ghost use Rattle.smf_room.specs.declared.life.Found.{Found as AnyFound};
ghost use Rattle.smf_room.specs.declared.live_room.LiveRoom.{LiveRoom};
ghost use Rattle.std.specs.List.{list_any};
ghost use Rattle.std.specs.Prelude.{◌≡◌, ◌++◌, ℕ, List, false};
ghost use Rattle.smf_room.specs.Runs.{Comes, Lasts, Move, State, calls_of, new_room};
ghost use Rattle.smf_room.specs.Worlds.{AreNumbered, NoneTwice};

use crate::room::Room;

/// However often the server is killed, wherever that is, and whatever the holder, the keepers and the processes do
/// meanwhile: no two contracts of one instance run at one time, nor can both still begin. A server is asked to make a
/// contract of an instance only after it has listed the room and has seen each contract settled that may be of it.
pub fn no_instance_runs_twice()
    ensures { (next : ℕ) (ms : List Move) (s : State) → Comes (new_room next) ms s → NoneTwice s.world.contracts }
{}

/// No number is ever given twice, in any life.
pub fn a_number_is_given_once()
    ensures { (next : ℕ) (ms : List Move) (s : State) → Comes (new_room next) ms s → AreNumbered s.world.contracts }
{}

/// What `begin_life` asks is what a careful server asks, also if it ends early. After it a contract may be made of each
/// instance of which it found none.
pub fn a_beginning_is_careful()
    ensures careful { (fs : List AnyFound) (ts : List Telling) (l : Life) → IsBeginning fs ts → AreCareful l ts }
    ensures early { (ts : List Telling) (l : Life) → EndsEarly IsAnyBeginning ts → AreCareful l ts }
    ensures may_start { (instance : List ℕ) (fs : List AnyFound) (ts : List Telling) (l : Life) → IsBeginning fs ts
        → list_any (may_run_as instance) fs ≡ false → MayStart instance (life_after_all ts l) }
{}

/// Whatever a server asks of a `LiveRoom`, in whatever order, however often it is killed and begins anew, and whatever
/// the holder, the keepers and the processes do meanwhile: no two contracts of one instance run at one time, nor can both
/// still begin. A life is what `begin` asks, and then what any calls of the `LiveRoom` ask.
pub fn whatever_is_asked_is_careful<R: Room>()
    ensures begins { (p : R) (a : LiveRoom R) → BeginsWell R.tells R.did p a
        → (ts : List Telling) × Lived R.tells R.did a ts }
    ensures ends { (p q : R) → EndsWell R.tells R.did p q → (ts : List Telling) × Failed R.tells R.did q ts }
    ensures goes_on { (a b : LiveRoom R) (ts : List Telling) → Lived R.tells R.did a ts → GoesOn R.tells R.did a b
        → (us : List Telling) × Lived R.tells R.did b (ts ++ us) }
    ensures follows { (a b c : LiveRoom R) → GoesOn R.tells R.did a b → GoesOn R.tells R.did b c
        → GoesOn R.tells R.did a c }
    ensures comes { (ms : List Move) (s v : State) → s.life ≡ new_life → IsCutOff R.tells R.did s ms v → Comes s ms v }
    ensures once { (next : ℕ) (mss : List (List Move)) (s : State) → IsHistory R.tells R.did (new_room next) mss s
        → NoneTwice s.world.contracts }
{}

/// Whatever happens between the calls of a life, and wherever it is cut off: if what it asks is what a careful server
/// asks, it is one of the lives of which `no_instance_runs_twice` speaks. Lives follow one another.
pub fn a_careful_life_is_one_of_those()
    ensures life { (ms : List Move) (s v : State) → Lasts s ms v → AreCareful s.life (calls_of ms) → Comes s ms v }
    ensures lives { (ms ns : List Move) (s r v : State) → Comes s ms r → Comes r ns v → Comes s (ms ++ ns) v }
{}
