//! Values as they are shown.

use qt_rows::answer::Answer;
use qt_tree::refusal::TextRefusal;
use std::fmt::Debug;

pub fn show<T: Debug>(value: &T, answer: &mut Answer) {
    write!(answer, "{value:?}");
}

/// Shows what a call gave, or its refusal. Where memory was wanting the answer is lost.
pub fn show_given<T: Debug + Drop>(given: Result<T, TextRefusal>, answer: &mut Answer) {
    match given {
        Err(TextRefusal::OutOfMemory) => answer.lose(),
        given => show(&given, answer),
    }
}
