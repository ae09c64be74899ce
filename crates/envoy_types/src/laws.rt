// Laws on the JSON of listeners.
ghost use Rattle.envoy_types.specs.ListenerForms.{SpellsOne, WrittenSpells};

/// A law: what is written of a listener that can be written spells that listener, and a value spells one listener at most.
/// The call does nothing.
pub fn written_spells()
    ensures back { WrittenSpells }
    ensures one { SpellsOne }
{}
