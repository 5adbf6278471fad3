//! What instances make of the modules that they are instances of.
#![tactic(auto)]

ghost use Rattle.instance_laws.specs.Laws.{InstancesAreModules};

/// Where no reset is declared or connected, an instance is its module's own unfolding: its signals come behind those before, under printed names that
/// begin with the instance's, and all else is that of the module, moved to them, behind the wires of its ports.
pub fn instances_are_modules()
    ensures { InstancesAreModules }
{}
