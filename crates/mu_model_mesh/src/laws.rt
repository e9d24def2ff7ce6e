//! Laws of the definitions: functions that do nothing, whose contracts are proved.

ghost use Rattle.mu_model_mesh.specs.Alike.{LinesCount, MeshPrintsArePrints, MeshRefusesAreRefuses, MeshRunsAreRuns, NodeLinesAreReadAlike, PrintsAreMeshPrints, ReadLinesAreOfNodes, RefusesAreMeshRefuses, RunsAreMeshRuns};
ghost use Rattle.mu_model_mesh.specs.MeshWorked.{Objections};

/// Worked rows: what stands against a line.
pub fn worked_objections()
    ensures { Objections }
{}

/// A script with lines of nodes alone does in a mesh what it does in a world of nodes: within the limits of events and of
/// lines it has the same runs, prints the same, and is refused at the same place with the same word.
pub fn node_scripts_run_alike()
    ensures read { NodeLinesAreReadAlike }
    ensures all { ReadLinesAreOfNodes }
    ensures forward { MeshRunsAreRuns }
    ensures back { RunsAreMeshRuns }
    ensures counts { LinesCount }
    ensures prints { MeshPrintsArePrints }
    ensures prints_back { PrintsAreMeshPrints }
    ensures refuses { MeshRefusesAreRefuses }
    ensures refuses_back { RefusesAreMeshRefuses }
{}
