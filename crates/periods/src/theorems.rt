// What is true of the period list as a whole.
ghost use Rattle.std.specs.Prelude.{◌≡◌};
ghost use Rattle.periods.specs.Periods.{AllNamed, Divides, Rising, Complete, NamedPlaces, Places, cycle};

use crate::list::CYCLE;

// Each entry divides the cycle, they rise, and no divisor is missing; three entries at their places.
pub fn every_divisor_rising()
    ensures divides { Divides }
    ensures rising { Rising }
    ensures complete { Complete }
    ensures named { AllNamed }
    ensures places { Places }
    ensures ends { NamedPlaces }
{}

// The constant of the code is the cycle of the definitions.
pub fn code_has_the_cycle() -> u32
    ensures { result ≡ cycle }
{
    CYCLE
}
