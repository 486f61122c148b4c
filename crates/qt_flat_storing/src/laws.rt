//! The laws. The functions do nothing: what they promise is the law.

ghost use Rattle.qt_flat_storing.specs.Laws.{ArraysStore, AssignmentsStore, UpdatesStore};

/// Wherever the code of an assignment stands, plain or compound, it stores what the assignment means, or ends in the fault that it means.
pub fn assignments()
    ensures plain { AssignmentsStore }
    ensures compound { UpdatesStore }
{}

/// Wherever the code that fills an array stands, it stores the values of the elements, or 0 for each, or ends in the first fault of a value.
pub fn arrays()
    ensures { ArraysStore }
{}
