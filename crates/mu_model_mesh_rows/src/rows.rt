//! Worked rows of whole scripts: functions that do nothing, whose contracts are evaluated.

ghost use Rattle.mu_model_mesh_rows.specs.Limits.{EachLimit};
ghost use Rattle.mu_model_mesh_rows.specs.Plans.{PlansHaveTheirFields};
ghost use Rattle.mu_model_mesh_rows.specs.Settled.{IsSettled};
ghost use Rattle.mu_model_mesh_rows.specs.Tables.{EachRefusal, EachScript};
ghost use Rattle.mu_model_mesh_rows.specs.Tears.{DistributorTearsStay, NodeTearsStay};

/// Scripts, and what they print.
pub fn scripts()
    ensures { EachScript }
{}

/// Scripts whose last line is refused: its place and the word for why; and limits at their ends.
pub fn refusals()
    ensures scripts { EachRefusal }
    ensures limits { EachLimit }
{}

/// A script of a node, an updater and a distributor, of which a `settle` of ten turns is done.
pub fn settles()
    ensures { IsSettled }
{}

/// A plan has exactly its line's fields, and its content's size.
pub fn plans()
    ensures { PlansHaveTheirFields }
{}

/// A tear outlasts the events that have fewer operations, at a node and at a distributor.
pub fn tears_stay()
    ensures node { NodeTearsStay }
    ensures distributor { DistributorTearsStay }
{}
