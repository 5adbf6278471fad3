//! FIFOs between two clocks: what they are, that they justify their crossings, and that words come out in order.
#![tactic(auto)]

ghost use Rattle.fifo_laws.specs.Laws.{CleanNetsRunSoundly, FifoOrder, FifoReads, FifosCross, FifosFlip, FifosJustify, FifosStart, FifosStep};

use cdc_model::Extra;

/// A first state keeps each FIFO.
pub fn fifos_start()
    ensures { FifosStart }
{}

/// Each calm and whole step keeps each FIFO.
pub fn fifos_step()
    ensures { FifosStep }
{}

/// Where the FIFOs are kept, their crossings make no difference to what their ends take.
pub fn fifos_flip()
    ensures { FifosFlip }
{}

/// FIFOs justify their crossings.
pub fn fifos_justify()
    ensures { FifosJustify }
{}

/// A FIFO's crossings are crossings of the design, and none into a plain copy.
pub fn fifos_cross()
    ensures { FifosCross }
{}

/// In each run of a net whose verdict has no finding, each step is calm and takes whole words.
pub fn clean_nets_run_soundly<E: Extra>(extra: &E)
    ensures { CleanNetsRunSoundly (E.fits extra.now) (E.is_extra extra.now) }
{}

/// No more is popped than was pushed, and no more is pushed than has room; what a reader takes is the oldest word.
pub fn fifo_order()
    ensures within { FifoOrder }
    ensures oldest { FifoReads }
{}
