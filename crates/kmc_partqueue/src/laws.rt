//! What is true of all steps of all seats, and of all sums over what they passed, as contracts. No function here does anything when it
//! runs.
ghost use Rattle.kmc_partqueue.specs.Laws.{StepLaw, StepsLaw, PartPlaceLaw, HeldSlotLaw, GatheredLaw};

/// Each step keeps the rule of the lanes, and moves the state of the queue that the lanes show by the step's entry, as a legal history
/// may, or not at all.
pub fn step<T>()
    ensures { StepLaw T }
{}

/// The registers of all writers, each answered Ok, and then the entries of any list of steps of any seats from the opening state, are a
/// legal history, and the lanes show its state.
pub fn steps<T>()
    ensures { StepsLaw T }
{}

/// At every moment of a run each part that was put is in its slot, or in the hand of one reader, or in the list of one reader that has
/// given the slot back, and never in two of these. While a reader holds a slot nobody else can write to it.
pub fn place_of_each_part<T>()
    ensures part { PartPlaceLaw T }
    ensures slot { HeldSlotLaw T }
{}

/// Where the seats are gathered, and each writer has a number of its own, the parts that were got add up to what the parts that were put
/// add up to, whatever a part counts.
pub fn gathered<T>()
    ensures { GatheredLaw T }
{}
