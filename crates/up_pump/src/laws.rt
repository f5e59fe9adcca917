// Laws of the definitions. A law is the contract of a function that does nothing.
ghost use Rattle.std.specs.Prelude.{ℕ};
ghost use Rattle.up_pump.specs.Pumps.{Pumps};
ghost use Rattle.up_pump.specs.Turns.{AreCalls, IsGiven, StaysDue};

/// A pump that stays ready and unblocked is given within as many calls of `next` as there are pumps.
#[tactic(auto, using(crate::proofs::InTurn::given_in_turn))]
pub fn due_pump_is_given()
    ensures { (count number : ℕ) (loops : ℕ → Pumps) → AreCalls count loops → StaysDue loops number
        → IsGiven count loops number }
{}
