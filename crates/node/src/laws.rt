//! Laws of the definitions that contracts use. The functions do nothing: their clauses are the
//! laws.
ghost use Rattle.node.specs.declared.node.Node.{Node};
ghost use Rattle.engine.specs.{HasLongFile, IsNearlyFull};
ghost use Rattle.node.specs.Steps.{DiskAlwaysRefines, IfRefines, disk_of, engine_of};

use disk::Disk;

/// The disk of a running node represents it, as it reads and in every crash outcome.
pub fn disks_represent<D: Disk + Drop>()
    ensures { (node : Node D D.Disk) →
        IfRefines node (DiskAlwaysRefines (D.state (disk_of node))) }
{}

/// Where the newest log or the manifest of a running node is nearly full, its disk has a file
/// nearly as long as a file can be.
pub fn full_logs_are_long<D: Disk + Drop>()
    ensures { (node : Node D D.Disk) → IfRefines node (λ x n.
        IsNearlyFull (engine_of node) → HasLongFile (D.state (disk_of node))) }
{
    engine::laws::full_logs_are_long::<D>(); // law: where a log is nearly full, a file is long
}
