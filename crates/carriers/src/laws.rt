//! A law of the definitions that contracts use. The function does nothing: its clause is the law.
ghost use Rattle.carriers.specs.Carriers.{OneReceived};

use link_messages::laws::one_spelling;

/// What arrived determines what is received.
pub fn one_received()
    ensures { OneReceived }
{
    one_spelling(); // law: no two frames have one spelling
}
