//! What holds of all verifications.

ghost use Rattle.std.specs.Prelude.{◌≡◌, ℕ, List};
ghost use Rattle.std.specs.List.{AllByRecursion};
ghost use Rattle.cop_net.specs.Network.{Net};
ghost use Rattle.cop_boot_answer.specs.declared.states.State.TheVariants.{AsPlanned};
ghost use Rattle.cop_identity.specs.declared.asking.Exchange.{Exchange};
ghost use Rattle.cop_verify.specs.Checks.{checks_of};
ghost use Rattle.cop_verify.specs.Laws.{IsReadOf, IsRightAt};
ghost use Rattle.cop_verify.specs.Telling.{state_of};

/// Each question of a verification is asked by the request of an upload to one of the nodes that are meant.
pub fn reads_alone()
    ensures { (net : Net) → (ids : List ℕ) → (nodes : List ℕ) → AllByRecursion (IsReadOf nodes) (checks_of net ids nodes) }
{}

/// A node that is told as planned answered each question to it as it should.
pub fn planned_ones_answered()
    ensures { (node : ℕ) → (all : List Exchange) → state_of node all ≡ AsPlanned → AllByRecursion (IsRightAt node) all }
{}
