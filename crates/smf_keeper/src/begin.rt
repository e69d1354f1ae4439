// The beginning of a life in a room: contracts of an older life are found, or ended.
ghost use Rattle.smf_contract.specs.Laws.{Ascends};
ghost use Rattle.smf_edge.specs.FollowedBeginnings.{found_post, found_posts};
ghost use Rattle.smf_edge.specs.Phases.{posts};
ghost use Rattle.smf_keeper.specs.Founds.{HasFound, HaveGone, IsBooted};
ghost use Rattle.smf_room.specs.LiveRooms.{BeginsWell, EndsWell, GoesOn};
ghost use Rattle.std.specs.Prelude.{◌≡◌, ◌≤◌, ◌++◌, ◌∷◌, [], length, true, IfOk, IfSome, OnErr, OnOk, map};

use crate::held::HeldContract;
use crate::note::found_in;
use crate::rooms::{Manner, RoomContracts};
use smf_contract::Found as FoundContract;
use smf_edge::{Contracts, Kid};
use smf_fmri::Number;
use smf_room::{Begun, Found, LiveRoom, Room};
use std::alloc::{AllocError, Global};
use std::io;

/// Why a life does not begin in a room.
#[derive(Drop)]
pub enum BeginFault {
    /// What an older life left does not end, or it is not known what it is.
    Left,
    /// The system failed.
    Io(io::Error),
}

impl From<io::Error> for BeginFault {
    fn from(e: io::Error) -> BeginFault {
        BeginFault::Io(e)
    }
}

impl From<AllocError> for BeginFault {
    fn from(e: AllocError) -> BeginFault {
        BeginFault::Io(io::Error::from(e))
    }
}

/// The contracts of an older life with which a server goes on.
#[derive(Drop)]
pub struct Adopted<R: Room> {
    pub contracts: RoomContracts<R>,
    /// In the order of their ids.
    pub found: Vec<FoundContract>,
    /// The same, as children.
    pub kids: Vec<Kid<HeldContract<R>>>,
    /// The greatest id; 0 if there are none.
    pub last: Number,
}

/// A contract that was found, and its number in the room.
#[derive(Clone, Copy, Drop)]
struct One {
    contract: FoundContract,
    id: u64,
}

/// The place at which a contract stands in the order of ids. None if its id is there.
fn place_in(ones: &[One], id: Number) -> Option<usize>
    ensures { IfSome result (λ place. place ≤ length ones.now) }
{
    let mut place = 0;
    for one in ones {
        if one.contract.id == id {
            return None;
        }
        if one.contract.id < id {
            place += 1;
        }
    }
    Some(place)
}

/// What was found, in the order of ids. None if one of them has no note that can be read, or two have one id.
fn in_order(alloc: Global, found: &[Found]) -> Result<Option<Vec<One>>, AllocError>
    ensures { IfOk result (λ o. IfSome o (λ ones. length ones.items ≡ length found.now)) }
{
    let mut ones: Vec<One> = Vec::new(alloc);
    for each in found {
        let Some(note) = &each.note else {
            return Ok(None);
        };
        let Some(contract) = found_in(note) else {
            return Ok(None);
        };
        let Some(place) = place_in(&ones, contract.id) else {
            return Ok(None);
        };
        ones.insert(
            place,
            One {
                contract,
                id: each.id,
            },
        )?;
    }
    Ok(Some(ones))
}

/// Contracts with which a table begins, the same as children, and the greatest id.
#[derive(Drop)]
struct Children<R: Room> {
    found: Vec<FoundContract>,
    kids: Vec<Kid<HeldContract<R>>>,
    last: Number,
}

impl<R: Room + Drop> Children<R> {
    fn none(alloc: Global) -> Children<R>
        ensures found { result.found.items ≡ [] }
        ensures kids { result.kids.items ≡ [] }
        ensures last { result.last ≡ 0 }
    {
        Children {
            found: Vec::new(alloc),
            kids: Vec::new(alloc),
            last: Number::zero(),
        }
    }

    /// One more, whose id is greater than the last.
    fn push(&mut self, contract: FoundContract, id: u64) -> Result<(), AllocError>
        ensures found { OnOk result (self.new.found.items ≡ self.old.found.items ++ contract ∷ []) }
        ensures kids { OnOk result
            (posts self.new.kids.items ≡ posts self.old.kids.items ++ found_post contract ∷ []) }
        ensures last { OnOk result (self.new.last ≡ contract.id) }
    {
        self.found.push(contract)?;
        let held = HeldContract::new(id);
        self.kids
            .push(Kid::found(contract.id, contract.end.is_some(), held))?;
        self.last = contract.id;
        Ok(())
    }
}

/// The contracts as children, if their ids rise.
fn children_of<R: Room + Drop>(
    alloc: Global,
    ones: &[One],
) -> Result<Option<Children<R>>, AllocError>
    ensures ascend { IfOk result (λ c. IfSome c (λ c. Ascends 0 (map (λ f. f.id) c.found.items) c.last)) }
    ensures kids { IfOk result (λ c. IfSome c (λ c. posts c.kids.items ≡ found_posts c.found.items)) }
    ensures found { IfOk result (λ c. IfSome c (λ c. c.found.items ≡ map (λ o. o.contract) ones.now)) }
{
    let mut children = Children::none(alloc);
    for one in ones {
        if one.contract.id.get() <= children.last.get() {
            return Ok(None);
        }
        children.push(one.contract, one.id)?;
    }
    Ok(Some(children))
}

/// Begins a life that goes on with what an older one left.
pub fn go_on<R: Room + Drop>(
    alloc: Global,
    room: R,
    manner: Manner,
) -> Result<Adopted<R>, BeginFault>
    ensures ascend { IfOk result (λ a. Ascends 0 (map (λ f. f.id) a.found.items) a.last) }
    ensures kids { IfOk result (λ a. posts a.kids.items ≡ found_posts a.found.items) }
    ensures all { IfOk result
        (λ a. HasFound R.tells R.did room a.contracts.room.room (length a.found.items)) }
    ensures manner { IfOk result (λ a. a.contracts.manner ≡ manner) }
    ensures careful { IfOk result (λ a. BeginsWell R.tells R.did room a.contracts.room) }
    ensures careful_lost { OnErr result ((q : R) × EndsWell R.tells R.did room q) }
{
    let begun = LiveRoom::begin(alloc, room)?;
    let Begun { room, found } = begun;
    let Some(ones) = in_order(alloc, &found)? else {
        return Err(BeginFault::Left);
    };
    let Some(children) = children_of(alloc, &ones)? else {
        return Err(BeginFault::Left);
    };
    let Children { found, kids, last } = children;
    Ok(Adopted {
        contracts: RoomContracts::new(alloc, room, manner),
        found,
        kids,
        last,
    })
}

/// Whether both are so.
fn both(one: bool, other: bool) -> bool
    ensures first { result ≡ true → one ≡ true }
    ensures second { result ≡ true → other ≡ true }
{
    one && other
}

/// Ends all that was found. False if something does not end.
fn end_found<R: Room + Drop>(contracts: &mut RoomContracts<R>, found: &[Found]) -> io::Result<bool>
    ensures gone { IfOk result (λ all. all ≡ true → HaveGone R.tells R.did found.now) }
    ensures careful { GoesOn R.tells R.did contracts.old.room contracts.new.room }
{
    let mut all = true;
    for each in found {
        let mut held = HeldContract::new(each.id);
        let gone = contracts.end(&mut held)?;
        all = both(all, gone);
    }
    Ok(all)
}

/// Begins a life after a boot: what an older one left is ended first.
pub fn boot<R: Room + Drop>(
    alloc: Global,
    room: R,
    manner: Manner,
) -> Result<RoomContracts<R>, BeginFault>
    ensures gone { IfOk result (λ c. IsBooted R.tells R.did room) }
    ensures manner { IfOk result (λ c. c.manner ≡ manner) }
    ensures careful { IfOk result (λ c. BeginsWell R.tells R.did room c.room) }
    ensures careful_lost { OnErr result ((q : R) × EndsWell R.tells R.did room q) }
{
    let begun = LiveRoom::begin(alloc, room)?;
    let Begun { room, found } = begun;
    let mut contracts = RoomContracts::new(alloc, room, Manner::AtOnce);
    let all = end_found(&mut contracts, &found)?;
    if !all {
        return Err(BeginFault::Left);
    }
    contracts.set_manner(manner);
    Ok(contracts)
}
