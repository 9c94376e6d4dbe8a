//! A volume that decks and the utilities share in turn.
ghost use Rattle.std.specs.Prelude.{◌≡◌};

use crate::served::Served;
use vr_ams_define::OwnedVolume;

/// A volume that answers the requests of decks, and that the commands of IDCAMS see and change, at
/// other times.
pub trait Cataloged: Served + OwnedVolume {
    /// It has one history.
    ghost same_history: { (volume : Self) → Self.history volume ≡ Self.entries volume };

    /// What a command leaves is a later state.
    ghost goes_follows: { (a b : Self) → Self.goes a b → Self.follows a b };

    /// A command leaves its number.
    ghost goes_number: { (a b : Self) → Self.goes a b → Self.number b ≡ Self.number a };
}
