// What the check cannot see: changes of neighbouring bytes, and changes of bytes at a distance. Claims over the
// definitions that the check's code is proved equal to, each the contract of a function; there is no other code here.
#![tactic(auto)]

ghost use Rattle.unseen.specs.Neighbours.{AnyNeighbours, Neighbours};
ghost use Rattle.unseen.specs.Unseen.{Unseen};

/// Two neighbouring bytes of any bytes, the first changed by `0A` and the second by `C3`, leave the
/// check as it was.
pub fn any_neighbours_are_unseen()
    ensures { AnyNeighbours 0x0A 0xC3 }
{}

/// The same change in a message, outside its check field, leaves the message's check as it was.
pub fn message_neighbours_are_unseen()
    ensures { Neighbours 0x0A 0xC3 }
{}

/// Changes at a distance that the check cannot see: bytes and fragments exchanged, and blocks put
/// in or taken out.
pub fn distant_changes_are_unseen()
    ensures { Unseen }
{}
