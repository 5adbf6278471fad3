//! The signals of an unfolding have printed names, and no two of them the same.
#![tactic(auto)]

ghost use Rattle.signal_names.specs.Laws.{NamesDiffer, NamesTellPaths, ParsedAreVisible};

/// The signals of an unfolding have printed names, and no two of them the same.
pub fn signal_names_differ()
    ensures { NamesDiffer }
{}

/// A printed name tells the instances from the top to its signal, and the signal's own name.
pub fn names_tell_paths()
    ensures { NamesTellPaths }
{}

/// The source that the tokens of a text are parsed as names its signals and instances with visible bytes.
pub fn parsed_names_are_visible()
    ensures { ParsedAreVisible }
{}
