//! What holds of every unfolding.
ghost use Rattle.flat_unfolding.specs.Laws.{OneIsToldLaw, FirstIsToldLaw, OneDriverLaw, LimitsLaw, DepthLaw, NumbersLaw, SizesLaw, WellSizedLaw, SoundLaw, WellClockedLaw};

/// Of the rules that an item breaks, the refusal tells the one that is tried first.
pub fn first_rule_is_told()
    ensures one { OneIsToldLaw }
    ensures first { FirstIsToldLaw }
{}

/// No bit of a flat design has two drivers.
pub fn bits_have_one_driver()
    ensures { OneDriverLaw }
{}

/// A flat design keeps its limits: 64 bits of a signal, and 1,048,576 signals.
pub fn limits_are_kept()
    ensures { LimitsLaw }
{}

/// The bound on the depth of visits is never met: no module is visited inside itself.
pub fn depth_is_no_rule()
    ensures { DepthLaw }
{}

/// Signals are numbered as visits declare them: a module's come before those of its instances.
pub fn signals_keep_their_numbers()
    ensures { NumbersLaw }
{}

/// Each word of a flat design has 1 to 64 bits, and what is selected lies in its signal.
pub fn words_have_bits()
    ensures bits { SizesLaw }
    ensures kept { WellSizedLaw }
{}

/// A flat design keeps the rules that the law of elaboration rests on: no latch, targets of their kinds, and reads inside signals.
pub fn unfoldings_are_sound()
    ensures { SoundLaw }
{}

/// A register is what clocked processes of one clock assign, each bit at most one of them; clocks have one bit.
pub fn registers_have_one_clock()
    ensures { WellClockedLaw }
{}
