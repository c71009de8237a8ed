// Places by their numbers: below the order the member as a source, and from there on as a target.
ghost use Rattle.std.specs.Prelude.{◌≡◌, ◌<◌};
ghost use Rattle.harmonic.specs.Walks.{number_of, place_at};

use crate::Place;
use network::{Extent, Side};

// The number of a place.
pub fn number_of(extent: Extent, place: Place) -> usize
    requires { place.member < extent.order }
    ensures { result ≡ number_of extent.order place }
{
    match place.side {
        Side::Source => place.member,
        Side::Target => extent.order + place.member,
    }
}

// The place of a number.
#[tactic(auto, unfolding(crate::specs::Walks::place_at))]
pub fn place_at(order: usize, number: usize) -> Place
    ensures { result ≡ place_at order number }
{
    if number < order {
        Place {
            side: Side::Source,
            member: number,
        }
    } else {
        Place {
            side: Side::Target,
            member: number - order,
        }
    }
}
