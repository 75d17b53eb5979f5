// What is found of a packet: it would be taken, or the first check that fails, and where. Each check is one that `?` leaves at.
#![tactic(auto, unfolding(crate::specs::Findings::checked, crate::specs::Findings::busy_if))]

ghost use Rattle.std.specs.Prelude.{◌≡◌};
ghost use Rattle.model.specs.declared.Place.TheVariants.{AtOctet, Nowhere};
ghost use Rattle.why.specs.Findings.{busy_if, checked};

use model::{Place, Reason};

// The shortest text buffer that is taken, as specs/Meaning.antt has it.
pub const TEXT_BUFFER: usize = 256;

// Why a packet would not be taken: a settings command is under way, or this is wrong, and there.
#[derive(Clone, Copy)]
pub enum Objection {
    Busy,
    Wrong(Reason, Place),
}

// One check: if it fails, this is wrong, and there.
pub fn check(fails: bool, reason: Reason, place: Place) -> Result<(), Objection>
    ensures { result ≡ checked fails reason place }
{
    if fails {
        return Err(Objection::Wrong(reason, place));
    }
    Ok(())
}

// A check of a value, by its octet in the packet.
pub fn check_at(octet: usize, fails: bool, reason: Reason) -> Result<(), Objection>
    ensures { result ≡ checked fails reason (AtOctet octet) }
{
    check(fails, reason, Place::AtOctet(octet))
}

// A check of those behind the values, which have no place.
pub fn check_later(fails: bool, reason: Reason) -> Result<(), Objection>
    ensures { result ≡ checked fails reason Nowhere }
{
    check(fails, reason, Place::Nowhere)
}

// Busy, if a command is under way.
pub fn check_busy(busy: bool) -> Result<(), Objection>
    ensures { result ≡ busy_if busy }
{
    if busy {
        return Err(Objection::Busy);
    }
    Ok(())
}
