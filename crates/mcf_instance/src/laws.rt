//! The law of the limits.
ghost use Rattle.mcf_instance.specs.Laws.{FormerInstancesStay};

/// A text that is an instance under the former, narrower limits is the same instance under the
/// limits.
///
/// The function does nothing at run time; its contract is the law. The former limits allow supplies
/// and bounds up to 10^15 and costs up to 10^12, and set no limit to the total; a text within them
/// has a total of at most 10^34.
pub fn former_instances_stay()
    ensures { FormerInstancesStay }
{}
